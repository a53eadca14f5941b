// Operations 0, 2 and 6.
use crate::scripts::check_script;
use std::test::Fail;

// Rule 12 copies three pixels of 3:3:2; the last burst has more bytes than are left.
#[test]
fn from_host_332(rt: HostRuntime) -> Result<(), Fail> {
    check_script(
        &rt,
        "W 91 C0; W A1 04; W AB 04; W B1 03; W B3 01; W 90 10
        B 1122 > ok 0002 0002; B 334455 > ok 0001 0001
        M 000000 > ok 11; M 000001 > ok 22; M 000002 > ok 33; M 000003 > ok 00; B 44 > no 09",
    )
}

// Rule 12 copies F81Fh and 07E0h, all in 5:6:5; the second pixel comes in two bursts, and a byte too many is not taken.
// Then rule 8, and, with what is there: F00Fh & F81Fh = F00Fh, FFFFh & 07E0h = 07E0h.
#[test]
fn from_host_565(rt: HostRuntime) -> Result<(), Fail> {
    check_script(
        &rt,
        "W 91 C0; W 92 25; W A1 02; W AB 02; W B1 02; W B3 01; W 90 10
        B 1FF8E0 > ok 0003 0001; S > ok 5C; R 90 > ok 10
        B 07AA > ok 0001 0001; S > ok 54; R 90 > ok 00
        M 000000 > ok 1F; M 000001 > ok F8; M 000002 > ok E0; M 000003 > ok 07; M 000004 > ok 00
        W 91 80; W 90 10; B 0FF0FFFF > ok 0004 0002
        M 000000 > ok 0F; M 000001 > ok F0; M 000002 > ok E0; M 000003 > ok 07",
    )
}

// Over the bytes 1 2 3 4 a copy of three pixels moves one to the right, each reading what was drawn before it: 1 1 1 1.
#[test]
fn from_memory_over_itself(rt: HostRuntime) -> Result<(), Fail> {
    check_script(
        &rt,
        "W 91 C0; W A1 04; W AB 04; W B1 04; W B3 01; W 90 10; B 01020304 > ok 0004 0004
        W 91 C2; W 97 04; W AD 01; W B1 03; W 90 10
        G 0002 > ok 0002; S > ok 5C; M 000003 > ok 04; G 0002 > ok 0001; S > ok 54
        M 000000 > ok 01; M 000001 > ok 01; M 000002 > ok 01; M 000003 > ok 01; M 000004 > ok 00",
    )
}

// Rows 1 2 3 and 4 5 6. Rule 14, or: S0 at (1, 1) is 5, and S1 at (2, 0) is 3, together 7; at (0, 1) it is 4, together 5.
// The destination at (3, 2) of an image 4 wide from 10h is 10h + 2 × 4 + 3 = 1Bh.
#[test]
fn lefts_and_tops(rt: HostRuntime) -> Result<(), Fail> {
    check_script(
        &rt,
        "W 91 C0; W A1 03; W AB 03; W B1 03; W B3 02; W 90 10; B 010203040506 > ok 0006 0006
        W 91 E2; W 97 03; W 99 01; W 9B 01; W A3 02; W A7 10; W AB 04; W AD 03; W AF 02; W B1 01; W B3 01
        W 90 10; G 0001 > ok 0001; M 00001A > ok 00; M 00001B > ok 07; M 00001C > ok 00
        W A3 00; W A5 01; W 90 10; G 0001 > ok 0001; M 00001B > ok 05",
    )
}

// Rule 3, not S0, from red of 3:3:2 into 8:8:8: (0, 255, 255).
#[test]
fn from_memory_332_to_888(rt: HostRuntime) -> Result<(), Fail> {
    check_script(
        &rt,
        "W 91 0C; W AB 01; W B1 01; W B3 01; W D2 FF; W 90 10; G 0001 > ok 0001
        W 91 32; W 92 02; W 97 01; W A1 01; W A7 10; W 90 10; G 0001 > ok 0001
        M 000010 > ok FF; M 000011 > ok FF; M 000012 > ok 00; M 000013 > ok 00",
    )
}

// The first row of an 8 × 8 pattern is 1 to 8, and the ninth pixel takes its first again.
#[test]
fn pattern_8(rt: HostRuntime) -> Result<(), Fail> {
    check_script(
        &rt,
        "W 91 C0; W A1 09; W AB 08; W B1 08; W B3 01; W 90 10; B 0102030405060708 > ok 0008 0008
        W 91 C6; W 97 08; W A8 01; W AB 09; W B1 09; W 90 10; G 0009 > ok 0009
        M 000100 > ok 01; M 000101 > ok 02; M 000107 > ok 08; M 000108 > ok 01; M 000109 > ok 00",
    )
}
