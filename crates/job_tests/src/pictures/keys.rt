// Operations 4 and 5.
use super::jobs::{check_drawn, check_fed, settings};
use job::Settings;
use samples::{rgb, surface};

// The background (255, 128, 64) is FC08h in 5:6:5. Of FC08h, F81Fh and FC09h from the host, the first leaves its pixel.
// F81Fh is (255, 0, 255), E3h in 3:3:2. FC09h has the fields 31, 32 and 9, so it is (255, 130, 74): 111 100 01, F1h.
// A pixel that is left counts as drawn.
#[test]
fn key_from_host(rt: HostRuntime) {
    let key = Settings {
        operation: 4,
        first: surface(1, 0, 3),
        target: surface(0, 0, 3),
        width: 3,
        background: rgb(255, 128, 64),
        ..settings()
    };
    check_fed(
        &rt,
        &mut [0x11, 0x22, 0x33, 0x44],
        key,
        &[&[0x08], &[0xFC, 0x1F, 0xF8, 0x09], &[0xFC]],
        [(1, 0), (4, 2), (1, 1)],
        &[0x11, 0xE3, 0xF1, 0x44],
    );
}

// From 8:8:8 all bits count: of (1, 2, 3) and (1, 2, 131) before the background (1, 2, 3) the second is drawn.
// In 5:6:5 it is 0, 0 and 131 div 8 = 16.
#[test]
fn key_from_888(rt: HostRuntime) {
    let key = Settings {
        operation: 5,
        first: surface(2, 0, 2),
        target: surface(1, 6, 2),
        width: 2,
        background: rgb(1, 2, 3),
        ..settings()
    };
    check_drawn(
        &rt,
        &mut [3, 2, 1, 131, 2, 1, 0xAA, 0xBB, 0xCC, 0xDD],
        key,
        2,
        &[3, 2, 1, 131, 2, 1, 0xAA, 0xBB, 0x10, 0x00],
    );
}

// From 3:3:2 the background (224, 31, 192) is 111 000 11, E3h, and leaves its pixel, though E3h widens to (255, 0, 255).
// E2h is (255, 0, 170). The rectangle is one wide and two high.
#[test]
fn key_from_332(rt: HostRuntime) {
    let key = Settings {
        operation: 5,
        first: surface(0, 0, 1),
        target: surface(2, 2, 1),
        width: 1,
        height: 2,
        background: rgb(224, 31, 192),
        ..settings()
    };
    check_drawn(
        &rt,
        &mut [0xE3, 0xE2, 5, 5, 5, 5, 5, 5],
        key,
        2,
        &[0xE3, 0xE2, 5, 5, 5, 0xAA, 0x00, 0xFF],
    );
}
