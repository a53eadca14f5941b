// Operations 4, 5 and 7.
use crate::scripts::check_script;
use std::test::Fail;

// On white of 3:3:2, with the background (255, 0, 255), F81Fh in 5:6:5: 07E0h gives 1Ch, F81Fh leaves the pixel, and
// F81Eh, whose blue is 247, gives E3h.
#[test]
fn from_host_565_to_332(rt: HostRuntime) -> Result<(), Fail> {
    check_script(
        &rt,
        "W 91 0C; W AB 03; W B1 03; W B3 01; W D2 FF; W D3 FF; W D4 FF; W 90 10; G 0003 > ok 0003
        W 91 04; W 92 20; W D5 FF; W D7 FF; W 90 10
        B E0 > ok 0001 0000; B 071F > ok 0002 0001; B F81EF8 > ok 0003 0002; S > ok 54
        M 000000 > ok 1C; M 000001 > ok FF; M 000002 > ok E3; M 000003 > ok 00",
    )
}

// Blue, green and red of 3:3:2 into 5:6:5. The background is blue, 03h, so the first pixel is left.
#[test]
fn from_memory_332_to_565(rt: HostRuntime) -> Result<(), Fail> {
    check_script(
        &rt,
        "W 91 C0; W A1 03; W AB 03; W B1 03; W B3 01; W 90 10; B 031CE0 > ok 0003 0003
        W 91 05; W 92 01; W 97 03; W A7 10; W D7 FF; W 90 10; G FFFF > ok 0003
        M 000010 > ok 00; M 000011 > ok 00; M 000012 > ok E0; M 000013 > ok 07
        M 000014 > ok 00; M 000015 > ok F8; M 000016 > ok 00",
    )
}

// The first row of a 16 × 16 pattern begins with 1 to 9, and the key is 1: the ninth pixel is 9. As an 8 × 8 pattern the
// ninth pixel is the first again, the key, and stays 9.
#[test]
fn pattern_16_and_8(rt: HostRuntime) -> Result<(), Fail> {
    check_script(
        &rt,
        "W 91 C0; W A1 09; W AB 09; W B1 09; W B3 01; W 90 10; B 010203040506070809 > ok 0009 0009
        W 91 07; W 97 10; W A8 01; W D7 55; W 90 11; R 90 > ok 11; G 0009 > ok 0009; R 90 > ok 01
        M 000100 > ok 00; M 000101 > ok 02; M 000107 > ok 08; M 000108 > ok 09
        W 90 10; R 90 > ok 10; G 0009 > ok 0009; R 90 > ok 00; M 000107 > ok 08; M 000108 > ok 09",
    )
}
