// Sources that overlap the picture.
use crate::boards::{WHOLE, check, colour_before};
use job::Settings;
use samples::surface;

// Where the source that overlaps begins, and where a source begins that lies apart.
const NEAR: u32 = 1_100;

const APART: u32 = 3_601;

// Copies, an exclusive or on either source, and a key, onto rows of so many pixels of images so wide.
fn overlapping(depth: u8, target: u32, width: u16, image: u16) -> [Settings; 5] {
    let settings = |operation, code, first, second| Settings {
        first: surface(depth, first, image),
        second: surface(depth, second, image),
        target: surface(depth, target, image),
        width,
        background: colour_before(depth, NEAR),
        ..samples::settings(operation, code, image)
    };
    [
        settings(2, 12, NEAR, APART),
        settings(2, 6, NEAR, target),
        settings(2, 6, target, NEAR),
        settings(2, 6, APART, NEAR),
        settings(5, 0, NEAR, APART),
    ]
}

// Pictures from nine bytes before their source to nine bytes after it: every number of pixels from 3 to the left to 3 to the right,
// and every distance between that is no whole pixel.
#[test]
fn every_distance(rt: HostRuntime) {
    for depth in 0..3u8 {
        for target in NEAR - 9..=NEAR + 9 {
            for settings in overlapping(depth, target, 9, 11) {
                let settings = Settings {
                    height: 2,
                    ..settings
                };
                check(&rt, 3_900, settings, WHOLE);
            }
        }
    }
}

// Rows of 700 pixels of two bytes that begin 500 pixels before the source, a pixel and a half after it, or 500 pixels after it.
#[test]
fn long_rows(rt: HostRuntime) {
    for target in [NEAR - 1_000, NEAR + 3, NEAR + 1_000] {
        for settings in overlapping(1, target, 700, 700) {
            check(&rt, 5_100, settings, WHOLE);
        }
    }
}
