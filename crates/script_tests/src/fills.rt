// Operation 12.
use crate::scripts::check_script;
use std::test::Fail;

// Run by one pixel, then by more than are left.
#[test]
fn two_red_pixels(rt: HostRuntime) -> Result<(), Fail> {
    check_script(
        &rt,
        "W 91 0C; W AB 04; W B1 02; W B3 01; W D2 FF; W 90 10
        G 0001 > ok 0001; S > ok 5C; M 000000 > ok E0; M 000001 > ok 00
        G 0005 > ok 0001; S > ok 54; M 000001 > ok E0; M 000002 > ok 00; G 0001 > no 10",
    )
}

// Orange, (255, 128, 64), is F1h, FC08h and FF8040h.
#[test]
fn orange_in_three_depths(rt: HostRuntime) -> Result<(), Fail> {
    check_script(
        &rt,
        "W 91 0C; W AB 01; W B1 01; W B3 01; W D2 FF; W D3 80; W D4 40
        W 90 10; G 0001 > ok 0001; M 000000 > ok F1; M 000001 > ok 00
        W 92 01; W 90 10; G 0001 > ok 0001; M 000000 > ok 08; M 000001 > ok FC; M 000002 > ok 00
        W 92 03; W 90 10; G 0001 > ok 0001
        M 000000 > ok 40; M 000001 > ok 80; M 000002 > ok FF; M 000003 > ok 00",
    )
}
