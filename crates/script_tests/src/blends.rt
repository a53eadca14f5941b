// Operations 10 and 11.
use crate::scripts::check_script;
use std::test::Fail;

// Level 16 on (200, 0, 100) and (101, 50, 7), all in 8:8:8: 301, 50 and 107, each div 2: 150 = 96h, 25 = 19h, 53 = 35h.
#[test]
fn from_memory_888(rt: HostRuntime) -> Result<(), Fail> {
    check_script(
        &rt,
        "W 91 C0; W A1 06; W AB 06; W B1 06; W B3 01; W 90 10; B 6400C8073265 > ok 0006 0006
        W 91 0A; W 92 4A; W 97 01; W 9D 03; W A7 06; W B1 01; W B5 10; W 90 10; G 0001 > ok 0001
        M 000006 > ok 35; M 000007 > ok 19; M 000008 > ok 96; M 000009 > ok 00",
    )
}

// The overlay 8F00h of 4:4:4:4 has level 16 and (255, 0, 0). White of 3:3:2 on it: 255, and twice 255 × 16 div 32 = 127.
// The level that is set, 33, is not used.
#[test]
fn overlay_4444(rt: HostRuntime) -> Result<(), Fail> {
    check_script(
        &rt,
        "W 91 C0; W A1 03; W AB 03; W B1 03; W B3 01; W 90 10; B FF008F > ok 0003 0003
        W 91 0A; W 92 16; W 97 01; W 9D 01; W A7 10; W B1 01; W B5 21; W 90 10; G 0001 > ok 0001
        M 000010 > ok 7F; M 000011 > ok 7F; M 000012 > ok FF; M 000013 > ok 00",
    )
}

// Level 31 on white of 5:6:5 and black of 3:3:2: 255 × 31 div 32 = 247 = F7h. On black and white: 255 div 32 = 7.
#[test]
fn from_host_565_to_888(rt: HostRuntime) -> Result<(), Fail> {
    check_script(
        &rt,
        "W 91 0C; W A7 01; W AB 02; W B1 01; W B3 01; W D2 FF; W D3 FF; W D4 FF; W 90 10; G 0001 > ok 0001
        W 91 0B; W 92 22; W A1 02; W A7 10; W B1 02; W B5 1F; W 90 10
        B FFFF00 > ok 0003 0001; B 00 > ok 0001 0001; S > ok 54
        M 000010 > ok F7; M 000011 > ok F7; M 000012 > ok F7
        M 000013 > ok 07; M 000014 > ok 07; M 000015 > ok 07; M 000016 > ok 00",
    )
}
