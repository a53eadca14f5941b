// Start addresses, even and odd, of every image, between pixels of any two depths.
use crate::boards::{WHOLE, check, colour_before};
use job::Settings;
use samples::{rgb, surface};

// Three rows of eleven pixels of images 13 wide. Each bit of `odd` moves one image up by a byte.
fn settings(operation: u8, code: u8, depth: u8, target: u8, odd: u8) -> Settings {
    let first = 100 + odd as u32 % 2;
    Settings {
        level: 13,
        first: surface(depth, first, 13),
        second: surface(target, 450 + odd as u32 / 2 % 2, 13),
        target: surface(target, 600 + odd as u32 / 4 % 2, 13),
        width: 11,
        height: 3,
        foreground: rgb(200, 100, 50),
        background: colour_before(depth, first),
        ..samples::settings(operation, code, 13)
    }
}

// Fills, copies, exclusive ors, keys, blends, and patterns.
#[test]
fn pixels(rt: HostRuntime) {
    for (operation, code) in [
        (12u8, 0u8),
        (2, 12),
        (2, 6),
        (5, 0),
        (10, 0),
        (6, 12),
        (6, 6),
        (7, 0),
    ] {
        for depths in 0..9u8 {
            for odd in 0..8u8 {
                let settings = settings(operation, code, depths % 3, depths / 3, odd);
                check(&rt, 800, settings, WHOLE);
            }
        }
    }
}

// Expansions of units of 8 and of 16, from a bit of their low byte.
#[test]
fn bits(rt: HostRuntime) {
    for (operation, code) in [(14u8, 7u8), (14, 3), (15, 0), (15, 5)] {
        for depths in 0..6u8 {
            for odd in 0..8u8 {
                let settings = settings(operation, code, depths % 2, depths / 2, odd);
                check(&rt, 800, settings, WHOLE);
            }
        }
    }
}
