// Jobs in pieces: runs of any number of pixels, and bursts that end anywhere in a pixel or unit.
use crate::boards::{Cut, check, colour_before};
use crate::plain::bytes_to_send;
use job::Settings;
use samples::{rgb, surface};

// Two rows of eleven pixels of images 11 or 12 wide; bits come in units of 8 and 16.
fn settings(operation: u8, code: u8, depth: u8, image: u16) -> Settings {
    let bits = matches!(operation, 8 | 9 | 14 | 15);
    Settings {
        level: 13,
        first: surface(if bits { depth % 2 } else { depth }, 1, image),
        second: surface(depth, 200, image),
        target: surface(depth, 301, image),
        width: 11,
        height: 2,
        foreground: rgb(200, 100, 50),
        background: colour_before(depth, 1),
        ..samples::settings(operation, code, image)
    }
}

#[test]
fn runs(rt: HostRuntime) {
    for (operation, code) in [
        (12u8, 0u8),
        (2, 12),
        (2, 6),
        (5, 0),
        (10, 0),
        (6, 12),
        (14, 5),
        (15, 5),
    ] {
        for depth in 0..3u8 {
            for pixels in 1..=22u16 {
                let cut = Cut {
                    first: pixels,
                    later: pixels,
                };
                let image = 11 + pixels % 2;
                check(&rt, 400, settings(operation, code, depth, image), cut);
            }
        }
    }
}

// Two bursts, cut at every place, and bursts of a few bytes.
#[test]
fn bursts(rt: HostRuntime) {
    for (operation, code) in [(0u8, 12u8), (0, 6), (4, 0), (11, 0), (8, 5), (9, 5)] {
        for depth in 0..3u8 {
            let settings = settings(operation, code, depth, 11 + (operation % 2) as u16);
            let sent = bytes_to_send(&settings).min(100) as u16;
            for first in 0..=sent {
                let later = sent;
                check(&rt, 400, settings, Cut { first, later });
            }
            for few in [1u16, 2, 3, 5, 7] {
                let cut = Cut {
                    first: few,
                    later: few,
                };
                check(&rt, 400, settings, cut);
            }
        }
    }
}
