// Operations by the engine, in both orders and twice, worked by hand. Bytes are written as they lie in memory, low byte first.
use blue_first::Bgr565;
use colour::Palette;
use complete::{
    Drawn, ExclusiveOr, Orders, Part, PartedDrawing, exclusive_or_twice, in_either_order, twice,
};
use engine::Drawing;
use formats::{Rgb332, Rgb565};
use memory::{ByteBoard, WordBoard};
use refusal::Refusal;
use rules::{Fill, Raster};
use samples::{pair, rgb};
use source::Source;
use std::test::Fail;
use window::PixelSize;

// Red on the two bytes from an address on.
fn red(start: u32) -> Result<Drawing<Fill, Rgb332>, Refusal> {
    let target = pair(start)?;
    Ok(Drawing {
        rule: Fill {
            foreground: rgb(255, 0, 0),
        },
        canvas: Rgb332,
        first: Source::Unused,
        second: Source::Unused,
        target,
    })
}

// Two pixels from the host, at bytes 2 to 5.
fn sent() -> Result<Drawing<Raster<Rgb565, Rgb565>, Rgb565>, Refusal> {
    let target = pair(2)?;
    Ok(Drawing {
        rule: Raster {
            rule: 12,
            first: Rgb565,
            second: Rgb565,
        },
        canvas: Rgb565,
        first: Source::Host(PixelSize::of(&Rgb565)),
        second: Source::Unused,
        target,
    })
}

fn parted<'a, 'b, R, D>(
    drawing: Drawing<R, D>,
    parts: &'a [Part<'b>],
) -> PartedDrawing<'a, 'b, R, D> {
    PartedDrawing {
        drawing,
        palette: Palette::new(),
        parts,
    }
}

// Red is E0h. A byte board has it first, a word board the pixels of the host, whose bytes are cut elsewhere.
#[test]
fn either_order(rt: HostRuntime) -> Result<(), Fail> {
    let mut block = [7u8; 6];
    let mut words = [0x0707u16; 3];
    let one = ByteBoard::new(&mut block);
    let other = WordBoard::new(&mut words);
    let at_once = [Part::Run(9)];
    let by_one = [Part::Run(1), Part::Run(0), Part::Run(1)];
    let cut = [Part::Feed(&[1, 2, 3]), Part::Feed(&[4])];
    let whole = [Part::Feed(&[1, 2, 3, 4, 5])];
    let (red, sent) = (red(0)?, sent()?);
    let Orders {
        one: _,
        other: _,
        complete,
    } = in_either_order(
        &parted(red, &at_once),
        &parted(sent, &cut),
        &parted(sent, &whole),
        &parted(red, &by_one),
        one,
        other,
    );
    assert!(rt; complete);
    assert_eq!(rt;
        (block, words),
        ([0xE0, 0xE0, 1, 2, 3, 4], [0xE0E0, 0x0201, 0x0403])
    );
    Ok(())
}

// Where the windows overlap the order shows: the last drawing stays.
#[test]
fn overlapping(rt: HostRuntime) -> Result<(), Fail> {
    let mut block = [7u8; 6];
    let mut other_block = [7u8; 6];
    let one = ByteBoard::new(&mut block);
    let other = ByteBoard::new(&mut other_block);
    let run = [Part::Run(2)];
    let feed = [Part::Feed(&[1, 2, 3, 4])];
    let (red, sent) = (red(1)?, sent()?);
    let Orders {
        one: _,
        other: _,
        complete,
    } = in_either_order(
        &parted(red, &run),
        &parted(sent, &feed),
        &parted(sent, &feed),
        &parted(red, &run),
        one,
        other,
    );
    assert!(rt; complete);
    assert_eq!(rt;
        [block, other_block],
        [[7, 0xE0, 1, 2, 3, 4], [7, 0xE0, 0xE0, 2, 3, 4]]
    );
    Ok(())
}

// The host's pixels on a blue-first picture: after both drawings every byte is as it was.
#[test]
fn exclusive_or(rt: HostRuntime) -> Result<(), Fail> {
    let mut block = [7u8, 0x1F, 0x00, 0xCD, 0xAB, 7];
    let board = ByteBoard::new(&mut block);
    let operation = ExclusiveOr {
        first: Source::Host(PixelSize::of(&Rgb565)),
        format: Rgb565,
        target: pair(1)?,
        canvas: Bgr565,
    };
    let parts = [Part::Feed(&[0x00, 0xF8, 0x34]), Part::Feed(&[0x12])];
    let again = [Part::Feed(&[0x00, 0xF8, 0x34, 0x12])];
    let Drawn {
        memory: _,
        complete,
    } = exclusive_or_twice(&operation, &Palette::new(), &parts, &again, board);
    assert!(rt; complete);
    assert_eq!(rt; block, [7, 0x1F, 0x00, 0xCD, 0xAB, 7]);
    Ok(())
}

// One byte less the second time: the last pixel stays as the first drawing left it, and that is said.
#[test]
fn not_complete(rt: HostRuntime) -> Result<(), Fail> {
    let mut block = [7u8; 6];
    let board = ByteBoard::new(&mut block);
    let parts = [Part::Feed(&[1, 2, 3, 4])];
    let again = [Part::Feed(&[5, 6, 7])];
    let Drawn {
        memory: _,
        complete,
    } = twice(&parted(sent()?, &parts), &parted(sent()?, &again), board);
    assert!(rt; !complete);
    assert_eq!(rt; block, [7, 7, 5, 6, 3, 4]);
    Ok(())
}

// A window past memory is not drawn.
#[test]
fn past_memory(rt: HostRuntime) -> Result<(), Fail> {
    let mut block = [7u8; 5];
    let board = ByteBoard::new(&mut block);
    let parts = [Part::Feed(&[1, 2, 3, 4])];
    let Drawn {
        memory: _,
        complete,
    } = twice(&parted(sent()?, &parts), &parted(sent()?, &parts), board);
    assert!(rt; !complete);
    assert_eq!(rt; block, [7; 5]);
    Ok(())
}
