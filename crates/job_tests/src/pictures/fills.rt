// Operation 12.
use super::jobs::{check_drawn, settings};
use job::{Settings, Surface};
use samples::{rgb, surface};

fn orange() -> Settings {
    Settings {
        operation: 12,
        foreground: rgb(255, 128, 64),
        width: 2,
        ..settings()
    }
}

// In 3:3:2 orange is 111 100 01, F1h. The image is 3 wide, and the rectangle is 2 × 1 at (1, 1): the bytes 4 and 5.
#[test]
fn fill_332(rt: HostRuntime) {
    let target = Surface {
        left: 1,
        top: 1,
        ..surface(0, 0, 3)
    };
    check_drawn(
        &rt,
        &mut [0; 8],
        Settings { target, ..orange() },
        2,
        &[0, 0, 0, 0, 0xF1, 0xF1, 0, 0],
    );
}

// In 5:6:5 it is 11111 100000 01000, FC08h. A rectangle 1 × 2 at the left of an image 2 wide.
#[test]
fn fill_565(rt: HostRuntime) {
    check_drawn(
        &rt,
        &mut [7; 8],
        Settings {
            target: surface(1, 0, 2),
            width: 1,
            height: 2,
            ..orange()
        },
        2,
        &[0x08, 0xFC, 7, 7, 0x08, 0xFC, 7, 7],
    );
}

// In 8:8:8 it is FF8040h, and the codes 2 and 3 are both that depth.
#[test]
fn fill_888(rt: HostRuntime) {
    for depth in [2u8, 3] {
        check_drawn(
            &rt,
            &mut [7; 8],
            Settings {
                target: surface(depth, 1, 2),
                ..orange()
            },
            2,
            &[7, 0x40, 0x80, 0xFF, 0x40, 0x80, 0xFF, 7],
        );
    }
}
