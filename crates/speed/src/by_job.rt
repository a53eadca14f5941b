// A job, from its settings to its last pixel.
ghost use Rattle.std.specs.Prelude.{◌≡◌, true};
ghost use Rattle.refusal.specs.Numbers.{numbered};
ghost use Rattle.memory.specs.Cells.{of_cells};
ghost use Rattle.job.specs.Works.{serves, at_stage, fed_stage};
ghost use Rattle.speed.specs.Jobs.{blank, ended, job_answer, job_memory};

use crate::drawn::Drawn;
use colour::Palette;
use job::{Begun, Draft, Settings};
use memory::{Board, Cell, Memory};
use refusal::Refusal;

// Past the last pixel a burst is declined and changes nothing.
fn feed_burst<M: Memory>(begun: &mut Begun, memory: &mut M, palette: &Palette, bytes: &[u8])
    requires { serves begun.old (M.bytes memory.old) ≡ true }
    ensures job { begun.new
        ≡ at_stage begun.old (fed_stage begun.old palette.now (M.bytes memory.old) bytes.now) }
    ensures memory { M.bytes memory.new
        ≡ (fed_stage begun.old palette.now (M.bytes memory.old) bytes.now).memory }
    ensures fits { serves begun.new (M.bytes memory.new) ≡ true }
{
    let _ = begun.feed(memory, palette, bytes);
}

// Feeds bytes in bursts of so many; how many does not show.
fn feed_all<M: Memory>(
    begun: &mut Begun,
    memory: &mut M,
    palette: &Palette,
    sent: &[u8],
    burst: usize,
)
    requires { serves begun.old (M.bytes memory.old) ≡ true }
    ensures job { begun.new
        ≡ at_stage begun.old (fed_stage begun.old palette.now (M.bytes memory.old) sent.now) }
    ensures memory { M.bytes memory.new
        ≡ (fed_stage begun.old palette.now (M.bytes memory.old) sent.now).memory }
{
    for bytes in sent.chunks(burst.max(1)) {
        feed_burst(begun, memory, palette, bytes);
    }
}

// Feeds or runs what was begun to its end.
fn finish<M: Memory>(
    begun: &mut Begun,
    memory: &mut M,
    palette: &Palette,
    sent: &[u8],
    burst: usize,
)
    requires { serves begun.old (M.bytes memory.old) ≡ true }
    ensures job { begun.new
        ≡ at_stage begun.old (ended begun.old palette.now (M.bytes memory.old) sent.now) }
    ensures memory { M.bytes memory.new
        ≡ (ended begun.old palette.now (M.bytes memory.old) sent.now).memory }
{
    if begun.awaits() {
        feed_all(begun, memory, palette, sent, burst);
    } else {
        let _ = begun.run(memory, palette, u32::MAX);
    }
}

// Draws what was begun, and answers the pixels drawn.
fn draw<M: Memory>(mut begun: Begun, memory: &mut M, sent: &[u8], burst: usize) -> u32
    requires { serves begun (M.bytes memory.old) ≡ true }
    ensures pixels { result ≡ (ended begun blank (M.bytes memory.old) sent.now).drawn }
    ensures memory { M.bytes memory.new ≡ (ended begun blank (M.bytes memory.old) sent.now).memory }
{
    let palette = Palette::new();
    finish(&mut begun, memory, &palette, sent, burst);
    begun.close().drawn()
}

// Draws a job over any memory; a declined one leaves memory as it was.
fn draw_job<M: Memory>(
    memory: &mut M,
    settings: Settings,
    sent: &[u8],
    burst: usize,
) -> Result<u32, Refusal>
    ensures answer { numbered result ≡ job_answer settings (M.bytes memory.old) sent.now }
    ensures memory { M.bytes memory.new ≡ job_memory settings (M.bytes memory.old) sent.now }
{
    let begun = Draft::new(settings).clear(memory)?.begin();
    Ok(draw(begun, memory, sent, burst))
}

// Draws over a board on a block of any cells, and hands the block back.
pub(crate) fn draw_on<'a, C: Cell>(
    block: &'a mut [C],
    settings: Settings,
    sent: &[u8],
    burst: usize,
) -> Drawn<'a, C>
    ensures answer { numbered result.pixels
        ≡ job_answer settings (of_cells C.BYTES C.byte block.old) sent.now }
    ensures memory { of_cells C.BYTES C.byte result.block.now
        ≡ job_memory settings (of_cells C.BYTES C.byte block.old) sent.now }
{
    let mut board = Board::new(block);
    let pixels = draw_job(&mut board, settings, sent, burst);
    Drawn {
        block: board.into_block(),
        pixels,
    }
}
