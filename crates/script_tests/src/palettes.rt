// Palette loads.
use crate::scripts::check_script;
use std::test::Fail;

// 128 bytes, four times 31, then 3 and 1 with two that are not taken. Entry 5 is 34h F2h, entry 15 is FFh 0Fh over the
// first cut, entry 63 is 00h 0Fh over the last, and the others are 0.
// Then, blended with overlays of Index 2:6 into 8:8:8: white with 45h, level 10 and entry 5, which is (34, 51, 68):
// (2550 + 22 × 34, 2550 + 22 × 51, 2550 + 22 × 68) div 32 = (103, 114, 126) = (67h, 72h, 7Eh); black with 0Fh and 3Fh,
// level 0: entry 15, white, and entry 63, red.
#[test]
fn load_and_use(rt: HostRuntime) -> Result<(), Fail> {
    check_script(
        &rt,
        "W 91 C0; W A1 06; W AB 06; W B1 06; W B3 01; W 90 10; B FF0000450F3F > ok 0006 0006
        W 03 03; S > ok 5C; R 90 > ok 00
        B 0000000000000000000034F2000000000000000000000000000000000000FF > ok 001F 0000
        B 0F000000000000000000000000000000000000000000000000000000000000 > ok 001F 0000
        B 00000000000000000000000000000000000000000000000000000000000000 > ok 001F 0000
        B 00000000000000000000000000000000000000000000000000000000000000 > ok 001F 0000
        S > ok 5C; B 000000 > ok 0003 0000; S > ok 5C; B 0FAABB > ok 0001 0000; S > ok 54; B AA > no 09
        W 91 0A; W 92 12; W 97 03; W 9D 03; W A7 10; W B1 03; W 90 10; G 0003 > ok 0003
        M 000010 > ok 7E; M 000011 > ok 72; M 000012 > ok 67; M 000013 > ok FF; M 000014 > ok FF; M 000015 > ok FF
        M 000016 > ok 00; M 000017 > ok 00; M 000018 > ok FF; M 000019 > ok 00",
    )
}

// A stop answers 0 and forgets the third byte: the next load begins with entry 0, which becomes 655h. With the overlay
// 00h, level 0 and entry 0, a pixel is (102, 85, 85) = (66h, 55h, 55h).
#[test]
fn stopped_and_begun_again(rt: HostRuntime) -> Result<(), Fail> {
    check_script(
        &rt,
        "W 03 03; B 112233 > ok 0003 0000; X > ok 0000; S > ok 54; X > no 11; B 44 > no 09
        W 03 07; B 55 > ok 0001 0000; B 06 > ok 0001 0000; X > ok 0000; R 03 > ok 07
        W 91 0A; W 92 12; W 97 01; W A1 01; W A7 10; W AB 01; W B1 01; W B3 01; W 90 10; G 0001 > ok 0001
        M 000010 > ok 55; M 000011 > ok 55; M 000012 > ok 66; M 000013 > ok 00",
    )
}

// Only a value with bits 1 and 0 set opens a load.
#[test]
fn opening(rt: HostRuntime) -> Result<(), Fail> {
    check_script(
        &rt,
        "W 03 00; S > ok 54; W 03 01; S > ok 54; W 03 FE; S > ok 54; R 03 > ok FE
        W 03 FF; S > ok 5C; R 03 > ok FF; X > ok 0000",
    )
}
