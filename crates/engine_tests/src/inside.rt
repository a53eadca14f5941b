// Drawings that do not lie inside memory, or whose sources do not cover their target: all are declined with 8, and draw nothing.
use colour::Palette;
use engine::{Drawing, Progress};
use formats::Rgb565;
use memory::ByteBoard;
use refusal::Refusal;
use rules::Raster;
use samples::pair;
use source::{BitRows, Source, Unit};
use std::test::Fail;
use window::{Area, PixelSize, SIDE_LIMIT, Window};

// A copy into the two 5:6:5 pixels at 4.
fn copy(first: Source, second: Source) -> Result<Drawing<Raster<Rgb565, Rgb565>, Rgb565>, Refusal> {
    Ok(Drawing {
        rule: Raster {
            rule: 12,
            first: Rgb565,
            second: Rgb565,
        },
        canvas: Rgb565,
        first,
        second,
        target: pair(4)?,
    })
}

fn image(window: Window) -> Source {
    Source::Image {
        window,
        size: PixelSize::of(&Rgb565),
    }
}

// The window at 0 of an image two pixels wide.
fn window(width: u16, height: u16) -> Result<Window, Refusal> {
    let area = Area {
        start: 0,
        image: 2,
        left: 0,
        top: 0,
        width,
        height,
    };
    Window::new(SIDE_LIMIT, area)
}

// Eight bytes hold the two pixels at 4, and seven do not.
#[test]
fn one_byte_short(rt: HostRuntime) -> Result<(), Fail> {
    let drawing = copy(image(pair(0)?), Source::Unused)?;
    let palette = Palette::new();
    let mut block = [1u8, 2, 3, 4, 0, 0, 0, 0];
    assert_eq!(rt;
        drawing.draw(&palette, &mut ByteBoard::new(&mut block[..7]), 0, 0, 2),
        Err(Refusal::PastMemory)
    );
    assert_eq!(rt; block, [1, 2, 3, 4, 0, 0, 0, 0]);
    assert_eq!(rt;
        drawing.draw(&palette, &mut ByteBoard::new(&mut block), 0, 0, 2),
        Ok(2)
    );
    assert_eq!(rt; block, [1, 2, 3, 4, 1, 2, 3, 4]);
    Ok(())
}

// A source of one pixel has none for the second of the target; one of two rows covers it.
#[test]
fn source_smaller_or_larger(rt: HostRuntime) -> Result<(), Fail> {
    let palette = Palette::new();
    let mut block = [1u8, 2, 3, 4, 5, 6, 7, 8];
    let narrow = copy(image(window(1, 1)?), Source::Unused)?;
    let second = copy(image(pair(0)?), image(window(1, 1)?))?;
    let high = copy(image(window(2, 2)?), Source::Unused)?;
    let mut board = ByteBoard::new(&mut block);
    assert_eq!(rt;
        narrow.draw(&palette, &mut board, 0, 0, 2),
        Err(Refusal::PastMemory)
    );
    assert_eq!(rt;
        second.draw(&palette, &mut board, 0, 0, 2),
        Err(Refusal::PastMemory)
    );
    assert_eq!(rt; high.draw(&palette, &mut board, 0, 0, 2), Ok(2));
    assert_eq!(rt; block, [1, 2, 3, 4, 1, 2, 3, 4]);
    Ok(())
}

// Rows of three bits are not those of two pixels, and bytes are awaited for the first source alone. A feed takes none of them.
#[test]
fn host_sources(rt: HostRuntime) -> Result<(), Fail> {
    let palette = Palette::new();
    let mut block = [7u8; 8];
    let bits = copy(
        Source::HostBits(BitRows::new(Unit::Eight, 7, 3)?),
        Source::Unused,
    )?;
    let host = Source::Host(PixelSize::of(&Rgb565));
    let both = copy(host, host)?;
    let mut board = ByteBoard::new(&mut block);
    let mut progress = Progress::default();
    assert_eq!(rt;
        bits.feed(&palette, &mut board, &mut progress, &[1]),
        Err(Refusal::PastMemory)
    );
    assert_eq!(rt;
        both.feed(&palette, &mut board, &mut progress, &[1, 2]),
        Err(Refusal::PastMemory)
    );
    assert_eq!(rt; progress.drawn, 0);
    assert_eq!(rt; block, [7; 8]);
    Ok(())
}
