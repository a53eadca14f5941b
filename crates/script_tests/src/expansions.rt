// Operations 8, 9, 14 and 15.
use crate::scripts::check_script;
use std::test::Fail;

// Units of 8 bits from bit 7: A0h is 1 0 1 and 40h is 0 1 0, red F800h for 1 and blue 001Fh for 0.
#[test]
fn from_host_8(rt: HostRuntime) -> Result<(), Fail> {
    check_script(
        &rt,
        "W 91 78; W 92 01; W AB 03; W B1 03; W B3 02; W D2 FF; W D7 FF; W 90 10
        B A0 > ok 0001 0003; S > ok 5C; B 40FF > ok 0001 0003; S > ok 54
        M 000000 > ok 00; M 000001 > ok F8; M 000002 > ok 1F; M 000003 > ok 00; M 000004 > ok 00; M 000005 > ok F8
        M 000006 > ok 1F; M 000007 > ok 00; M 000008 > ok 00; M 000009 > ok F8; M 00000A > ok 1F; M 00000B > ok 00",
    )
}

// Units of 16 bits from bit 0: a row of 3 has (3 + 15) / 16, rounded up, 2 units. 0001h has the first pixel, 1, and
// 4000h the others, 0 1. On white, green for 1 and none for 0. Units are cut in the middle.
#[test]
fn over_from_host_16(rt: HostRuntime) -> Result<(), Fail> {
    check_script(
        &rt,
        "W 91 0C; W AB 03; W B1 03; W B3 01; W D2 FF; W D3 FF; W D4 FF; W 90 10; G 0003 > ok 0003
        W 91 09; W 92 20; W D2 00; W D4 00; W 90 10
        B 01 > ok 0001 0000; B 0000 > ok 0002 0001; B 40 > ok 0001 0002; S > ok 54
        M 000000 > ok 1C; M 000001 > ok FF; M 000002 > ok 1C; M 000003 > ok 00",
    )
}

// Units of 8 bits from bit 1: a row of 3 has (3 + 6) / 8, rounded up, 2 units. 01h and 80h are 0 1 and 1: blue 03h, and
// twice red E0h.
#[test]
fn from_memory_8(rt: HostRuntime) -> Result<(), Fail> {
    check_script(
        &rt,
        "W 91 C0; W A1 02; W A7 20; W AB 03; W B1 02; W B3 01; W 90 10; B 0180 > ok 0002 0002
        W 91 1E; W 93 20; W A7 00; W B1 03; W D2 FF; W D7 FF; W 90 10
        G 0001 > ok 0001; M 000000 > ok 03; M 000001 > ok 00; G 0008 > ok 0002
        M 000001 > ok E0; M 000002 > ok E0; M 000003 > ok 00",
    )
}

// Units of 16 bits from bit 15, one a row: 8000h is 1 0 and 4000h is 0 1. In 8:8:8, with (12h, 34h, 56h) for 1.
#[test]
fn over_from_memory_16(rt: HostRuntime) -> Result<(), Fail> {
    check_script(
        &rt,
        "W 91 C0; W A1 04; W A7 20; W AB 04; W B1 04; W B3 01; W 90 10; B 00800040 > ok 0004 0004
        W 91 FF; W 92 22; W 93 20; W A7 00; W AB 02; W B1 02; W B3 02; W D2 12; W D3 34; W D4 56
        W 90 10; G 0004 > ok 0004
        M 000000 > ok 56; M 000001 > ok 34; M 000002 > ok 12; M 000003 > ok 00; M 000004 > ok 00; M 000005 > ok 00
        M 000006 > ok 00; M 000008 > ok 00; M 000009 > ok 56; M 00000A > ok 34; M 00000B > ok 12; M 00000C > ok 00",
    )
}
