// Operations 0 and 2.
use super::jobs::{check_drawn, check_fed, settings};
use colour::Palette;
use job::{Settings, Surface};
use memory::{ByteBoard, WordBoard};
use samples::{begin, feed, surface};
use std::test::Fail;

fn one_to_the_right() -> Settings {
    Settings {
        target: Surface {
            left: 1,
            ..surface(0, 0, 4)
        },
        width: 3,
        ..settings()
    }
}

// Three pixels copied one to the right. Each is drawn before the next is read, so the first one goes all the way.
#[test]
fn copy_over_itself(rt: HostRuntime) {
    check_drawn(&rt, &mut [1, 2, 3, 4], one_to_the_right(), 3, &[1, 1, 1, 1]);
}

// The same by runs of 2, of 0 and of 9, of which the last finds one pixel left.
#[test]
fn copy_by_runs(rt: HostRuntime) -> Result<(), Fail> {
    let mut block = [1u8, 2, 3, 4];
    let mut board = ByteBoard::new(&mut block);
    let palette = Palette::new();
    let mut begun = begin(&board, one_to_the_right())?;
    let first = [
        begun.run(&mut board, &palette, 2),
        begun.run(&mut board, &palette, 0),
    ];
    let drawn = begun.drawn();
    let last = begun.run(&mut board, &palette, 9);
    assert_eq!(rt; (first, drawn, last), ([Ok(2), Ok(0)], 2, Ok(1)));
    assert_eq!(rt; begun.close().drawn(), 3);
    assert_eq!(rt; block, [1, 1, 1, 1]);
    Ok(())
}

// The pixels 5 6, 8 9 at (1, 1) of an image 3 wide go to (1, 0) of one 4 wide at 9: to the bytes 10 and 11, 14 and 15.
#[test]
fn copy_of_a_window(rt: HostRuntime) {
    let corner = Settings {
        first: Surface {
            left: 1,
            top: 1,
            ..surface(0, 0, 3)
        },
        target: Surface {
            left: 1,
            ..surface(0, 9, 4)
        },
        width: 2,
        height: 2,
        ..settings()
    };
    check_drawn(
        &rt,
        &mut [1, 2, 3, 4, 5, 6, 7, 8, 9, 0, 0, 0, 0, 0, 0, 0],
        corner,
        4,
        &[1, 2, 3, 4, 5, 6, 7, 8, 9, 0, 5, 6, 0, 0, 8, 9],
    );
}

// Exclusive or of 5:6:5 and 3:3:2 into 8:8:8. F81Fh is (255, 0, 255) and E0h is (255, 0, 0): (0, 0, 255).
// 07E0h is (0, 255, 0), and 4Ah, 010 010 10, is (73, 73, 170): (73, 255 − 73, 170), or 49h, B6h, AAh.
#[test]
fn exclusive_or_of_depths(rt: HostRuntime) {
    let xor = Settings {
        code: 6,
        first: surface(1, 0, 2),
        second: surface(0, 4, 2),
        target: surface(2, 6, 2),
        width: 2,
        ..settings()
    };
    check_drawn(
        &rt,
        &mut [0x1F, 0xF8, 0xE0, 0x07, 0xE0, 0x4A, 0, 0, 0, 0, 0, 0],
        xor,
        2,
        &[
            0x1F, 0xF8, 0xE0, 0x07, 0xE0, 0x4A, 0xFF, 0, 0, 0xAA, 0xB6, 0x49,
        ],
    );
}

// The or of 1234h and FFh from the host with 0841h and F800h, all of 5:6:5. An or of widened fields is the field's or,
// widened, so it is 1A75h and F8FFh. Both pixels are cut in the middle, and the last burst has a byte too many.
#[test]
fn host_pixels_cut(rt: HostRuntime) {
    let mut block = [0x0841u16, 0xF800, 0, 0];
    let or = Settings {
        operation: 0,
        code: 14,
        first: surface(1, 0, 2),
        second: surface(1, 0, 2),
        target: surface(1, 4, 2),
        width: 2,
        ..settings()
    };
    let bursts: [&[u8]; 3] = [&[0x34], &[0x12, 0xFF], &[0x00, 0x77]];
    let answers = feed(
        &mut WordBoard::new(&mut block),
        &Palette::new(),
        or,
        &bursts,
    );
    assert_eq!(rt; answers, Ok([(1, 0), (2, 1), (1, 1)]));
    assert_eq!(rt; block, [0x0841, 0xF800, 0x1A75, 0xF8FF]);
}

// The and of (FFh, 80h, 40h) from the host with (C0h, F0h, 7Fh) is (C0h, 80h, 40h): 110 100 01 in 3:3:2, D1h.
#[test]
fn host_pixel_of_three_bytes(rt: HostRuntime) {
    let and = Settings {
        operation: 0,
        code: 8,
        first: surface(2, 0, 1),
        second: surface(2, 0, 1),
        target: surface(0, 3, 1),
        width: 1,
        ..settings()
    };
    check_fed(
        &rt,
        &mut [0x7F, 0xF0, 0xC0, 0],
        and,
        &[&[0x40], &[0x80], &[0xFF]],
        [(1, 0), (1, 0), (1, 1)],
        &[0x7F, 0xF0, 0xC0, 0xD1],
    );
}
