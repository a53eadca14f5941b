// Stops in the middle.
use crate::scripts::check_script;
use std::test::Fail;

// One pixel of 5:6:5 and a byte of the second. The byte is forgotten: the next operation draws 07E0h from its own two.
#[test]
fn within_a_pixel(rt: HostRuntime) -> Result<(), Fail> {
    check_script(
        &rt,
        "W 91 C0; W 92 25; W A1 03; W AB 03; W B1 03; W B3 01; W 90 10
        B 1FF8AB > ok 0003 0001; X > ok 0001; S > ok 54; R 90 > ok 00; B 07 > no 09; M 000002 > ok 00
        W 90 10; B E0 > ok 0001 0000; X > ok 0000
        W 90 10; B E007 > ok 0002 0001; X > ok 0001
        M 000000 > ok E0; M 000001 > ok 07; M 000002 > ok 00; M 000003 > ok 00",
    )
}

// Half of a unit of 16 bits after the first, which drew the one pixel from its bit 0.
#[test]
fn within_a_unit(rt: HostRuntime) -> Result<(), Fail> {
    check_script(
        &rt,
        "W 91 08; W 92 20; W AB 03; W B1 03; W B3 01; W D2 FF; W 90 10
        B 0100FF > ok 0003 0001; X > ok 0001; M 000000 > ok E0; M 000001 > ok 00
        W 90 10; B 0000 > ok 0002 0001; B 0040 > ok 0002 0002; X > no 11
        M 000000 > ok 00; M 000001 > ok 00; M 000002 > ok E0",
    )
}

// A stop counts all runs since the start, and what was drawn stays.
#[test]
fn within_runs(rt: HostRuntime) -> Result<(), Fail> {
    check_script(
        &rt,
        "W 91 0C; W AB 04; W B1 04; W B3 01; W D2 FF; W 90 10
        G 0001 > ok 0001; G 0000 > ok 0000; G 0002 > ok 0002; X > ok 0003; G 0001 > no 10; X > no 11
        M 000002 > ok E0; M 000003 > ok 00; W 90 10; X > ok 0000",
    )
}
