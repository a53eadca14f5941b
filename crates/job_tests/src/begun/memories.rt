// Refusals 8, 9 and 10 of a job that was begun.
use colour::Palette;
use job::{Begun, Settings};
use memory::{ByteBoard, Memory};
use refusal::Refusal;
use samples::{begin, rgb, settings, surface};
use std::test::Fail;

// What a job is declined with over a memory that is smaller than the one it was cleared for.
const TOO_SMALL: Refusal = Refusal::PastMemory;

// A fill of two pixels, which white makes FFh.
fn fill() -> Settings {
    Settings {
        width: 2,
        foreground: rgb(255, 255, 255),
        ..settings(12, 0, 8)
    }
}

// Rule 12 on one pixel of two bytes from the host.
fn host() -> Settings {
    Settings {
        code: 12,
        first: surface(1, 0, 8),
        ..settings(0, 0, 8)
    }
}

// Runs a job over a memory.
fn run<M: Memory>(begun: &mut Begun, memory: &mut M, pixels: u32) -> Result<u32, Refusal> {
    begun.run(memory, &Palette::new(), pixels)
}

// Feeds a job over a memory.
fn feed<M: Memory>(
    begun: &mut Begun,
    memory: &mut M,
    bytes: &[u8],
) -> Result<(usize, u32), Refusal> {
    begun.feed(memory, &Palette::new(), bytes)
}

// 9 and 10: a fill awaits no byte, and runs until both its pixels are drawn, also where the run is of none.
#[test]
fn edges_of_a_run(rt: HostRuntime) -> Result<(), Fail> {
    let mut block = [7u8; 3];
    let mut board = ByteBoard::new(&mut block);
    let mut begun = begin(&board, fill())?;
    let before = (begun.runs(), begun.awaits());
    let fed = feed(&mut begun, &mut board, &[1]);
    let runs = [
        run(&mut begun, &mut board, 0),
        run(&mut begun, &mut board, 2),
    ];
    let still_runs = begun.runs();
    let past = run(&mut begun, &mut board, 0);
    assert_eq!(rt;
        (before, fed, runs, still_runs, past),
        (
            (true, false),
            Err(Refusal::NoByteAwaited),
            [Ok(0), Ok(2)],
            false,
            Err(Refusal::NothingToRun),
        )
    );
    assert_eq!(rt; block, [0xFF, 0xFF, 7]);
    Ok(())
}

// 9 and 10: a job of the host has nothing to run, and awaits bytes until its pixel is whole: 001Fh is blue, 03h in 3:3:2.
// An empty burst is declined too once no byte is awaited.
#[test]
fn edges_of_a_feed(rt: HostRuntime) -> Result<(), Fail> {
    let mut block = [7u8; 3];
    let mut board = ByteBoard::new(&mut block);
    let mut begun = begin(&board, host())?;
    let before = (begun.runs(), begun.awaits());
    let ran = run(&mut begun, &mut board, 1);
    let feeds = [
        feed(&mut begun, &mut board, &[0x1F]),
        feed(&mut begun, &mut board, &[0, 9]),
    ];
    let still_awaits = begun.awaits();
    let past = feed(&mut begun, &mut board, &[]);
    assert_eq!(rt;
        (before, ran, feeds, still_awaits, past),
        (
            (false, true),
            Err(Refusal::NothingToRun),
            [Ok((1, 0)), Ok((1, 1))],
            false,
            Err(Refusal::NoByteAwaited),
        )
    );
    assert_eq!(rt; block, [3, 7, 7]);
    Ok(())
}

// 8 comes before 9 and 10: a job that was cleared for three bytes is declined over two, whether it could go on or not, and
// nothing changes. Over three it then goes on where it was.
#[test]
fn fill_over_less(rt: HostRuntime) -> Result<(), Fail> {
    let mut block = [7u8; 3];
    let mut board = ByteBoard::new(&mut block);
    let mut less = [5u8; 2];
    let mut small = ByteBoard::new(&mut less);
    let mut begun = begin(&board, fill())?;
    let declined = [
        run(&mut begun, &mut small, 2),
        run(&mut begun, &mut small, 0),
    ];
    let fed = feed(&mut begun, &mut small, &[1]);
    let drawn = begun.drawn();
    let runs = [
        run(&mut begun, &mut board, 2),
        run(&mut begun, &mut small, 2),
    ];
    assert_eq!(rt;
        (declined, fed, drawn, runs),
        (
            [Err(TOO_SMALL); 2],
            Err(TOO_SMALL),
            0,
            [Ok(2), Err(TOO_SMALL)]
        )
    );
    assert_eq!(rt; (less, block), ([5, 5], [0xFF, 0xFF, 7]));
    Ok(())
}

// The same of a job of the host, with a byte that waits.
#[test]
fn host_over_less(rt: HostRuntime) -> Result<(), Fail> {
    let mut block = [7u8; 3];
    let mut board = ByteBoard::new(&mut block);
    let mut less = [5u8; 2];
    let mut small = ByteBoard::new(&mut less);
    let mut begun = begin(&board, host())?;
    let first = [
        feed(&mut begun, &mut board, &[0x1F]),
        feed(&mut begun, &mut small, &[0xF8]),
    ];
    let ran = run(&mut begun, &mut small, 1);
    let last = [
        feed(&mut begun, &mut board, &[0]),
        feed(&mut begun, &mut small, &[0]),
    ];
    assert_eq!(rt;
        (first, ran, last),
        (
            [Ok((1, 0)), Err(TOO_SMALL)],
            Err(TOO_SMALL),
            [Ok((1, 1)), Err(TOO_SMALL)]
        )
    );
    assert_eq!(rt; (less, block), ([5, 5], [3, 7, 7]));
    Ok(())
}

// A memory of the same size or a larger one is taken, though it is another.
#[test]
fn fill_over_more(rt: HostRuntime) -> Result<(), Fail> {
    let mut block = [7u8; 2];
    let board = ByteBoard::new(&mut block);
    let mut more = [5u8; 3];
    let mut large = ByteBoard::new(&mut more);
    let mut begun = begin(&board, fill())?;
    let ran = run(&mut begun, &mut large, 2);
    assert_eq!(rt; (ran, block, more), (Ok(2), [7, 7], [0xFF, 0xFF, 5]));
    Ok(())
}
