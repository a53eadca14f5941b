// What a start is declined with, 3 to 8, beside what is accepted; an accepted one is stopped again.
use crate::scripts::check_script;
use std::test::Fail;

// A declined start stores nothing, bit 0 of 90h neither.
#[test]
fn no_such_operation(rt: HostRuntime) -> Result<(), Fail> {
    check_script(
        &rt,
        "W AB 01; W B1 01; W B3 01; W 91 0C; W 90 10; X > ok 0000
        W 91 01; W 90 11 > no 03; W 91 03; W 90 10 > no 03; W 91 0D; W 90 10 > no 03; R 90 > ok 00; S > ok 54",
    )
}

// Operation 0 takes the kinds 0 to 2 and operation 10 also 4 and 5; operation 4 uses no second source. An expansion
// takes depths 0 and 1.
#[test]
fn depth_not_taken(rt: HostRuntime) -> Result<(), Fail> {
    check_script(
        &rt,
        "W 97 01; W A1 01; W AB 01; W B1 01; W B3 01
        W 91 00; W 92 08; W 90 10; X > ok 0000; W 92 0C; W 90 10 > no 04; W 92 10; W 90 10 > no 04
        W 91 0A; W 90 10; X > ok 0000; W 92 14; W 90 10; X > ok 0000
        W 92 0C; W 90 10 > no 04; W 92 18; W 90 10 > no 04; W 92 1C; W 90 10 > no 04
        W 91 04; W 90 10; X > ok 0000
        W 91 08; W 92 20; W 90 10; X > ok 0000; W 92 40; W 90 10 > no 04; W 92 60; W 90 10 > no 04",
    )
}

#[test]
fn start_bit_past_unit(rt: HostRuntime) -> Result<(), Fail> {
    check_script(
        &rt,
        "W AB 01; W B1 01; W B3 01
        W 91 78; W 90 10; X > ok 0000; W 91 88; W 90 10 > no 05; W 91 FF; W 90 10 > no 05
        W 92 20; W 90 10; X > ok 0000; W 91 88; W 90 10; X > ok 0000",
    )
}

// Bits 7 and 6 of the level register do not count, nor does the register with an overlay.
#[test]
fn level_too_high(rt: HostRuntime) -> Result<(), Fail> {
    check_script(
        &rt,
        "W 97 01; W A1 01; W AB 01; W B1 01; W B3 01; W 91 0A
        W B5 20; W 90 10; X > ok 0000; W B5 21; W 90 10 > no 06; W B5 E0; W 90 10; X > ok 0000
        W B5 3F; W 90 10 > no 06; W 91 02; W 90 10; X > ok 0000; W 91 0A; W 92 10; W 90 10; X > ok 0000",
    )
}

// Sides of 0, an image of 8,191 and of 8,192, left + width = 4 and 5 in an image of 4. A top of 8,191 lies past memory
// and one of 8,192 past the limits.
#[test]
fn outside_window_limits(rt: HostRuntime) -> Result<(), Fail> {
    check_script(
        &rt,
        "W 91 0C; W AB 01; W B3 01; W 90 10 > no 07; W B1 01; W 90 10; X > ok 0000
        W B3 00; W 90 10 > no 07; W B3 01; W AB 00; W 90 10 > no 07
        W AB FF; W AC 1F; W 90 10; X > ok 0000; W AB 00; W AC 20; W 90 10 > no 07
        W AB 04; W AC 00; W AD 02; W B1 02; W 90 10; X > ok 0000; W AD 03; W 90 10 > no 07
        W AD 00; W AF FF; W B0 1F; W 90 10 > no 08; W AF 00; W B0 20; W 90 10 > no 07",
    )
}

// The last byte at 4,095 and at 4,096: a pixel of 3:3:2, one of 5:6:5, a first source, and a row of bits of one unit and
// of two.
#[test]
fn past_memory(rt: HostRuntime) -> Result<(), Fail> {
    check_script(
        &rt,
        "W 91 0C; W AB 01; W B1 01; W B3 01; W D2 FF; W A7 FF; W A8 0F; W 90 10; G 0001 > ok 0001; M 000FFF > ok E0
        W A7 00; W A8 10; W 90 10 > no 08; W 92 01; W A7 FE; W A8 0F; W 90 10; X > ok 0000; W A7 FF; W 90 10 > no 08
        W A8 00; W 91 05; W 97 01; W 93 FF; W 94 0F; W 90 10; X > ok 0000; W 93 00; W 94 10; W 90 10 > no 08
        W 91 7E; W 93 FF; W 94 0F; W AB 09; W B1 08; W 90 10; X > ok 0000; W B1 09; W 90 10 > no 08",
    )
}
