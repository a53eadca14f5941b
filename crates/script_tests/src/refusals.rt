// What is declined with 1, 2 and 9 to 12, beside what is not.
use crate::scripts::check_script;
use std::test::Fail;

#[test]
fn no_such_register(rt: HostRuntime) -> Result<(), Fail> {
    check_script(
        &rt,
        "R 02 > no 01; R 03 > ok 00; R 04 > no 01; R 8F > no 01; R 90 > ok 00; R B5 > ok 00; R B6 > no 01
        R D1 > no 01; R D2 > ok 00; R D7 > ok 00; R D8 > no 01; R 00 > no 01; R FF > no 01
        W 02 00 > no 01; W 03 00; W 04 00 > no 01; W 8F 00 > no 01; W 90 00; W B5 AB; W B6 00 > no 01
        W D1 00 > no 01; W D2 CD; W D7 EF; W D8 00 > no 01; W 00 00 > no 01; W FF 00 > no 01
        R B5 > ok AB; R D2 > ok CD; R D7 > ok EF",
    )
}

// A register that does not exist comes before the busy panel. Reads go on.
#[test]
fn busy(rt: HostRuntime) -> Result<(), Fail> {
    check_script(
        &rt,
        "W 91 0C; W AB 04; W B1 02; W B3 01; W 90 10
        W B1 01 > no 02; W 90 00 > no 02; W 03 03 > no 02; W B6 01 > no 01; R B1 > ok 02
        G 0002 > ok 0002; W B1 01; R B1 > ok 01
        W 03 03; W 03 00 > no 02; W 90 10 > no 02; X > ok 0000; W 03 00",
    )
}

// A burst: idle, with runs under way, awaited, after the last pixel.
#[test]
fn no_byte_awaited(rt: HostRuntime) -> Result<(), Fail> {
    check_script(
        &rt,
        "B 00 > no 09; W 91 0C; W AB 01; W B1 01; W B3 01; W 90 10; B 00 > no 09; G 0001 > ok 0001
        W 91 04; W D5 FF; W 90 10; B 77 > ok 0001 0001; B 77 > no 09; M 000000 > ok 77; M 000001 > ok 00",
    )
}

// A run: idle, with bytes awaited, with a palette load, with something to run, after the last pixel.
#[test]
fn nothing_to_run(rt: HostRuntime) -> Result<(), Fail> {
    check_script(
        &rt,
        "G 0001 > no 10; G 0000 > no 10; W 91 04; W AB 01; W B1 01; W B3 01; W 90 10; G 0001 > no 10; X > ok 0000
        W 03 03; G 0001 > no 10; X > ok 0000; W 91 0C; W 90 10; G 0000 > ok 0000; G 0001 > ok 0001; G 0000 > no 10",
    )
}

#[test]
fn nothing_under_way(rt: HostRuntime) -> Result<(), Fail> {
    check_script(
        &rt,
        "X > no 11; W 91 04; W AB 01; W B1 01; W B3 01; W 90 10; X > ok 0000; X > no 11
        W 90 10; B 00 > ok 0001 0001; X > no 11; S > ok 54",
    )
}

#[test]
fn no_such_address(rt: HostRuntime) -> Result<(), Fail> {
    check_script(
        &rt,
        "M 000000 > ok 00; M 000FFF > ok 00; M 001000 > no 12; M FFFFFF > no 12",
    )
}
