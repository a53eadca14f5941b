// Pictures in a maker's own format, worked by hand. Bytes are written as they lie in memory, low byte first.
use blue_first::Bgr565;
use colour::Palette;
use engine::{Drawing, Progress};
use formats::{Rgb332, Rgb565};
use memory::{ByteBoard, WordBoard};
use refusal::Refusal;
use rules::{Fill, Key, Raster};
use samples::{pair, rgb};
use source::Source;
use std::test::Fail;
use window::{PixelSize, Window};

fn image(window: Window) -> Source {
    Source::Image {
        window,
        size: PixelSize::of(&Bgr565),
    }
}

// Orange, (255, 128, 64), has the fields 8, 32 and 31, blue first: 01000 100000 11111, 441Fh.
#[test]
fn fill(rt: HostRuntime) -> Result<(), Fail> {
    let mut block = [7u8; 6];
    let mut board = ByteBoard::new(&mut block);
    let drawing = Drawing {
        rule: Fill {
            foreground: rgb(255, 128, 64),
        },
        canvas: Bgr565,
        first: Source::Unused,
        second: Source::Unused,
        target: pair(1)?,
    };
    assert_eq!(rt; drawing.draw(&Palette::new(), &mut board, 0, 0, 9), Ok(2));
    assert_eq!(rt; block, [7, 0x1F, 0x44, 0x1F, 0x44, 7]);
    Ok(())
}

// A picture at 0 with red first, into one at 4 with blue first.
fn exclusive_or() -> Result<Drawing<Raster<Rgb565, Bgr565>, Bgr565>, Refusal> {
    let window = pair(0)?;
    let target = pair(4)?;
    Ok(Drawing {
        rule: Raster {
            rule: 6,
            first: Rgb565,
            second: Bgr565,
        },
        canvas: Bgr565,
        first: Source::Image {
            window,
            size: PixelSize::of(&Rgb565),
        },
        second: image(target),
        target,
    })
}

// F800h with red first and 001Fh with blue first are both red, so black is left. 1234h has red 2, green 17 and blue 20, and
// ABCDh has blue 21, green 30 and red 13: blue 20 ^ 21 = 1, green 17 ^ 30 = 15 and red 2 ^ 13 = 15 are
// 00001 001111 01111, 09EFh.
#[test]
fn exclusive_or_once(rt: HostRuntime) -> Result<(), Fail> {
    let mut block = [0x00u8, 0xF8, 0x34, 0x12, 0x1F, 0x00, 0xCD, 0xAB];
    let mut board = ByteBoard::new(&mut block);
    let drawing = exclusive_or()?;
    assert_eq!(rt; drawing.draw(&Palette::new(), &mut board, 0, 0, 2), Ok(2));
    assert_eq!(rt; block, [0x00, 0xF8, 0x34, 0x12, 0x00, 0x00, 0xEF, 0x09]);
    Ok(())
}

// The same twice: every byte is as it was.
#[test]
fn exclusive_or_twice(rt: HostRuntime) -> Result<(), Fail> {
    let mut block = [0xF800u16, 0x1234, 0x001F, 0xABCD];
    let mut board = WordBoard::new(&mut block);
    let palette = Palette::new();
    let drawing = exclusive_or()?;
    assert_eq!(rt; drawing.draw(&palette, &mut board, 0, 0, 2), Ok(2));
    assert_eq!(rt; drawing.draw(&palette, &mut board, 0, 0, 2), Ok(2));
    assert_eq!(rt; block, [0xF800, 0x1234, 0x001F, 0xABCD]);
    Ok(())
}

// A copy from the host into 5:6:5 with red first: 441Fh has red 31, green 32 and blue 8, so it is 11111 100000 01000, FC08h;
// F800h is blue, 001Fh. Both pixels are cut in the middle.
#[test]
fn copy_from_host(rt: HostRuntime) -> Result<(), Fail> {
    let mut block = [7u8; 4];
    let mut board = ByteBoard::new(&mut block);
    let palette = Palette::new();
    let drawing = Drawing {
        rule: Raster {
            rule: 12,
            first: Bgr565,
            second: Bgr565,
        },
        canvas: Rgb565,
        first: Source::Host(PixelSize::of(&Bgr565)),
        second: Source::Unused,
        target: pair(0)?,
    };
    let mut progress = Progress::default();
    assert_eq!(rt;
        drawing.feed(&palette, &mut board, &mut progress, &[0x1F]),
        Ok((1, 0))
    );
    assert_eq!(rt;
        drawing.feed(&palette, &mut board, &mut progress, &[0x44, 0x00]),
        Ok((2, 1))
    );
    assert_eq!(rt;
        drawing.feed(&palette, &mut board, &mut progress, &[0xF8, 0x99]),
        Ok((1, 1))
    );
    assert_eq!(rt; block, [0x08, 0xFC, 0x1F, 0x00]);
    Ok(())
}

// A key: the background (15, 3, 8) has the fields 1, 0 and 1, so the pixel of 0801h is left. 0800h is blue 1, which widens to
// 8, black in 3:3:2.
#[test]
fn key(rt: HostRuntime) -> Result<(), Fail> {
    let mut block = [0x01u8, 0x08, 0x00, 0x08, 7, 7];
    let mut board = ByteBoard::new(&mut block);
    let drawing = Drawing {
        rule: Key {
            background: rgb(15, 3, 8),
            first: Bgr565,
        },
        canvas: Rgb332,
        first: image(pair(0)?),
        second: Source::Unused,
        target: pair(4)?,
    };
    assert_eq!(rt; drawing.draw(&Palette::new(), &mut board, 0, 0, 2), Ok(2));
    assert_eq!(rt; block, [0x01, 0x08, 0x00, 0x08, 7, 0]);
    Ok(())
}
