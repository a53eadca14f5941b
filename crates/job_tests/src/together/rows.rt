// Rows longer than a buffer, with gaps between them and without.
use crate::boards::{WHOLE, check, colour_before};
use job::Settings;
use samples::{rgb, surface};

// Two rows of so many pixels of images so wide; a pattern is an image of its own.
fn settings(operation: u8, code: u8, depth: u8, width: u16, image: u16) -> Settings {
    let is_pattern = matches!(operation, 6 | 7);
    Settings {
        level: 13,
        first: surface(depth, 1, if is_pattern { 8 } else { image }),
        second: surface(depth, 2_901, image),
        target: surface(depth, 5_802, image),
        width,
        height: 2,
        foreground: rgb(200, 100, 50),
        background: colour_before(depth, 1),
        ..samples::settings(operation, code, image)
    }
}

// 700 pixels of two bytes, and 450 of three.
#[test]
fn pixels(rt: HostRuntime) {
    for (operation, code) in [
        (12u8, 0u8),
        (2, 12),
        (2, 6),
        (5, 0),
        (10, 0),
        (6, 12),
        (7, 0),
        (0, 12),
        (0, 6),
        (4, 0),
        (11, 0),
    ] {
        for (depth, width) in [(1u8, 700u16), (2, 450)] {
            for gap in [0u16, 3] {
                let settings = settings(operation, code, depth, width, width + gap);
                check(&rt, 8_700, settings, WHOLE);
            }
        }
    }
}

// 1,500 bits of units of 8 and of 16, from memory and from the host.
#[test]
fn bits(rt: HostRuntime) {
    for (operation, code) in [(14u8, 7u8), (14, 2), (15, 4), (8, 7), (9, 2)] {
        for unit in 0..2u8 {
            for gap in [0u16, 3] {
                let settings = Settings {
                    first: surface(unit, 1, 1),
                    target: surface(0, 401, 1_500 + gap),
                    width: 1_500,
                    height: 2,
                    ..settings(operation, code, 0, 1_500, 1_500)
                };
                check(&rt, 3_500, settings, WHOLE);
            }
        }
    }
}
