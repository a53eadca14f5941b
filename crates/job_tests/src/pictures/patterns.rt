// Operations 6 and 7.
use super::jobs::settings;
use crate::numbered::put_numbers;
use colour::Palette;
use job::Settings;
use memory::{ByteBoard, Memory};
use samples::{draw, rgb, surface};

// The pattern of 8 × 8 has 8r + c at (c, r), and the rectangle is 9 × 2, so column 8 repeats column 0. Exclusive or with
// what lies there, 10h: an exclusive or of 3:3:2 values, bit by bit.
#[test]
fn pattern_of_eight(rt: HostRuntime) {
    let mut block = [0x10u8; 82];
    let mut board = ByteBoard::new(&mut block);
    put_numbers(&mut board, 0..64, 0);
    let xor = Settings {
        operation: 6,
        code: 6,
        first: surface(0, 0, 8),
        second: surface(0, 64, 9),
        target: surface(0, 64, 9),
        width: 9,
        height: 2,
        ..settings()
    };
    let drawn = draw(&mut board, &Palette::new(), xor);
    assert_eq!(rt; drawn, Ok(18));
    assert_eq!(rt;
        &block[64..],
        [
            0x10, 0x11, 0x12, 0x13, 0x14, 0x15, 0x16, 0x17, 0x10, 0x18, 0x19, 0x1A, 0x1B, 0x1C,
            0x1D, 0x1E, 0x1F, 0x18,
        ]
        .as_slice()
    );
}

// The pattern of 16 × 16 has 16r + c at (c, r), and the rectangle is 18 × 17, so the columns 16 and 17 repeat 0 and 1,
// and row 16 repeats row 0. Rule 3 inverts: 255 less the value. Row r begins at 256 + 18r.
#[test]
fn pattern_of_sixteen(rt: HostRuntime) {
    let mut block = [0u8; 562];
    let mut board = ByteBoard::new(&mut block);
    put_numbers(&mut board, 0..256, 0);
    let inverse = Settings {
        operation: 6,
        code: 3,
        large: true,
        first: surface(0, 0, 16),
        second: surface(0, 256, 18),
        target: surface(0, 256, 18),
        width: 18,
        height: 17,
        ..settings()
    };
    let drawn = draw(&mut board, &Palette::new(), inverse);
    assert_eq!(rt; drawn, Ok(306));
    assert_eq!(rt;
        &block[256 + 14..256 + 20],
        [241, 240, 255, 254, 239, 238].as_slice()
    );
    assert_eq!(rt;
        &block[256 + 16 * 18 - 4..256 + 16 * 18 + 2],
        [1, 0, 15, 14, 255, 254].as_slice()
    );
}

// Puts c and r as the two bytes of (c, r) of a pattern of 8 × 8.
fn count_in_pairs<M: Memory>(memory: &mut M) {
    for k in 0..64u32 {
        let _ = memory.put(2 * k, (k % 8) as u8);
        let _ = memory.put(2 * k + 1, (k / 8) as u8);
    }
}

// In 5:6:5 the pattern has 256r + c at (c, r), and a copy into 5:6:5 keeps the value. The background (7, 99, 15) has the
// fields 0, 24 and 1: 301h, so the pixel (1, 3) is left. The rectangle is 2 × 9, so row 8 repeats row 0.
#[test]
fn pattern_before_a_key(rt: HostRuntime) {
    let mut block = [0xEEu8; 164];
    let mut board = ByteBoard::new(&mut block);
    count_in_pairs(&mut board);
    let key = Settings {
        operation: 7,
        first: surface(1, 0, 8),
        target: surface(1, 128, 2),
        width: 2,
        height: 9,
        background: rgb(7, 99, 15),
        ..settings()
    };
    let drawn = draw(&mut board, &Palette::new(), key);
    assert_eq!(rt; drawn, Ok(18));
    assert_eq!(rt;
        &block[136..],
        [
            0, 2, 1, 2, 0, 3, 0xEE, 0xEE, 0, 4, 1, 4, 0, 5, 1, 5, 0, 6, 1, 6, 0, 7, 1, 7, 0, 0, 1,
            0,
        ]
        .as_slice()
    );
}
