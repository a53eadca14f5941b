// Operations 10 and 11.
use super::jobs::{check_drawn, check_fed, settings};
use colour::Palette;
use job::Settings;
use memory::{ByteBoard, WordBoard};
use samples::{draw, feed, surface};

// Level 16 on (200, 0, 100) and (101, 50, 7): 301 × 16, 50 × 16 and 107 × 16, each div 32: 150, 25 and 53.
// On white and black it is 255 × 16 div 32 = 127.
#[test]
fn halves(rt: HostRuntime) {
    let half = Settings {
        operation: 10,
        level: 16,
        first: surface(2, 0, 2),
        second: surface(2, 6, 2),
        target: surface(2, 6, 2),
        width: 2,
        ..settings()
    };
    check_drawn(
        &rt,
        &mut [100, 0, 200, 255, 255, 255, 7, 50, 101, 0, 0, 0],
        half,
        2,
        &[100, 0, 200, 255, 255, 255, 53, 25, 150, 127, 127, 127],
    );
}

// Level 31 on white of 3:3:2 and black of 5:6:5: 255 × 31 div 32 = 247, whose fields are 30, 61 and 30: F7BEh.
// On black and white it is 255 div 32 = 7, whose fields are 0, 1 and 0: 20h.
#[test]
fn depths_mixed(rt: HostRuntime) {
    let most = Settings {
        operation: 10,
        level: 31,
        first: surface(0, 0, 2),
        second: surface(1, 2, 2),
        target: surface(1, 6, 2),
        width: 2,
        ..settings()
    };
    check_drawn(
        &rt,
        &mut [0xFF, 0x00, 0x00, 0x00, 0xFF, 0xFF, 1, 1, 1, 1],
        most,
        2,
        &[0xFF, 0x00, 0x00, 0x00, 0xFF, 0xFF, 0xBE, 0xF7, 0x20, 0x00],
    );
}

// Entry 5 of the palette is 234h, (34, 51, 68). Over white, the levels of 05h, 45h, 85h and C5h are 0, 10, 21 and 32:
// (2550 + 22 × 34, 2550 + 22 × 51, 2550 + 22 × 68) div 32 = (103, 114, 126), and
// (5355 + 11 × 34, 5355 + 11 × 51, 5355 + 11 × 68) div 32 = (179, 184, 190). The level that is set does not count.
#[test]
fn indexed_overlay(rt: HostRuntime) {
    let mut block = [255u8; 20];
    block[4] = 0x05;
    block[5] = 0x45;
    block[6] = 0x85;
    block[7] = 0xC5;
    let mut palette = Palette::new();
    palette.set_from_bytes(5, 0x34, 0xF2);
    let overlay = Settings {
        operation: 10,
        level: 99,
        second: surface(4, 4, 4),
        target: surface(2, 8, 4),
        ..settings()
    };
    let drawn = draw(&mut ByteBoard::new(&mut block), &palette, overlay);
    assert_eq!(rt; drawn, Ok(4));
    assert_eq!(rt;
        &block[8..],
        [68, 51, 34, 126, 114, 103, 190, 184, 179, 255, 255, 255].as_slice()
    );
}

// 8ABCh has level 16 and the colour (170, 187, 204): with red, F800h, from the host it is 425 × 16, 187 × 16 and
// 204 × 16, each div 32: (212, 93, 102), whose fields are 26, 23 and 12, D2ECh.
// F123h has level 32, so 07E0h from the host stays. 0ABCh has level 0, so it is (170, 187, 204), whose fields are 21, 46
// and 25, ADD9h.
#[test]
fn overlay_of_four_fields(rt: HostRuntime) {
    let mut block = [0x8ABCu16, 0xF123, 0x0ABC, 0, 0, 0];
    let overlay = Settings {
        operation: 11,
        first: surface(1, 0, 3),
        second: surface(5, 0, 3),
        target: surface(1, 6, 3),
        width: 3,
        ..settings()
    };
    let bursts: [&[u8]; 3] = [&[0x00], &[0xF8, 0xE0, 0x07, 0xFF], &[0xFF]];
    let answers = feed(
        &mut WordBoard::new(&mut block),
        &Palette::new(),
        overlay,
        &bursts,
    );
    assert_eq!(rt; answers, Ok([(1, 0), (4, 2), (1, 1)]));
    assert_eq!(rt; block, [0x8ABC, 0xF123, 0x0ABC, 0xD2EC, 0x07E0, 0xADD9]);
}

// Level 8 on white from the host and red: (255, 255 × 8 div 32, 255 × 8 div 32) = (255, 63, 63), which is 111 001 00 in
// 3:3:2, E4h.
#[test]
fn level_from_host(rt: HostRuntime) {
    let quarter = Settings {
        operation: 11,
        level: 8,
        first: surface(2, 0, 1),
        second: surface(0, 0, 1),
        target: surface(0, 1, 1),
        width: 1,
        ..settings()
    };
    check_fed(
        &rt,
        &mut [0xE0, 0],
        quarter,
        &[&[0xFF, 0xFF], &[], &[0xFF]],
        [(2, 0), (0, 0), (1, 1)],
        &[0xE0, 0xE4],
    );
}
