// Register writes, and then a run or bytes.
ghost use Rattle.std.specs.Prelude.{◌≡◌, min};
ghost use Rattle.refusal.specs.Numbers.{numbered};
ghost use Rattle.memory.specs.Cells.{of_cells};
ghost use Rattle.panel.specs.State.{seen, fresh, burst_after};
ghost use Rattle.speed.specs.Panels.{after_writes, sent_after, burst_pixels, sent_pixels, moved_answer, moved_after, panel_answer, panel_after};

use crate::drawn::Drawn;
use crate::settings::RegisterWrite;
use memory::{Board, Cell, Memory};
use panel::Panel;
use refusal::Refusal;

// Makes the writes, up to the first that is declined.
fn set_registers<M: Memory>(panel: &mut Panel<M>, writes: &[RegisterWrite]) -> Result<(), Refusal>
    ensures answer { numbered result ≡ (after_writes (seen M.bytes panel.old) writes.now).answer }
    ensures after { seen M.bytes panel.new
        ≡ (after_writes (seen M.bytes panel.old) writes.now).state }
{
    for write in writes {
        panel.write(write.register, write.value)?;
    }
    Ok(())
}

// The pixels of one burst, none where it is declined.
fn send_burst<M: Memory>(panel: &mut Panel<M>, bytes: &[u8]) -> u32
    ensures pixels { result ≡ burst_pixels (seen M.bytes panel.old) bytes.now }
    ensures after { seen M.bytes panel.new
        ≡ burst_after (seen M.bytes panel.old) (seen M.bytes panel.old).doing bytes.now }
{
    match panel.burst(bytes) {
        Ok((_, pixels)) => pixels,
        Err(_) => 0,
    }
}

// Sends bytes in bursts of so many; how many does not show.
fn send_all<M: Memory>(panel: &mut Panel<M>, sent: &[u8], burst: usize) -> u32
    ensures pixels { result ≡ min (sent_pixels (seen M.bytes panel.old) sent.now) 4294967295 }
    ensures after { seen M.bytes panel.new ≡ sent_after (seen M.bytes panel.old) sent.now }
{
    let mut pixels = 0u32;
    for bytes in sent.chunks(burst.max(1)) {
        pixels = pixels.saturating_add(send_burst(panel, bytes));
    }
    pixels
}

// Runs what was started, or sends its bytes.
fn finish<M: Memory>(panel: &mut Panel<M>, sent: &[u8], burst: usize) -> Result<u32, Refusal>
    ensures answer { numbered result ≡ moved_answer (seen M.bytes panel.old) sent.now }
    ensures after { seen M.bytes panel.new ≡ moved_after (seen M.bytes panel.old) sent.now }
{
    if sent.is_empty() {
        return panel.run(u32::MAX);
    }
    Ok(send_all(panel, sent, burst))
}

// Makes the writes, and then runs or sends.
fn draw<M: Memory>(
    panel: &mut Panel<M>,
    writes: &[RegisterWrite],
    sent: &[u8],
    burst: usize,
) -> Result<u32, Refusal>
    ensures answer { numbered result
        ≡ panel_answer (seen M.bytes panel.old) writes.now sent.now }
    ensures after { seen M.bytes panel.new
        ≡ panel_after (seen M.bytes panel.old) writes.now sent.now }
{
    set_registers(panel, writes)?;
    finish(panel, sent, burst)
}

// Draws by a panel over a board on a block of any cells, and hands the block back.
pub(crate) fn draw_on<'a, C: Cell>(
    block: &'a mut [C],
    writes: &[RegisterWrite],
    sent: &[u8],
    burst: usize,
) -> Drawn<'a, C>
    ensures answer { numbered result.pixels
        ≡ panel_answer (fresh (of_cells C.BYTES C.byte block.old)) writes.now sent.now }
    ensures memory { of_cells C.BYTES C.byte result.block.now
        ≡ (panel_after (fresh (of_cells C.BYTES C.byte block.old)) writes.now sent.now).memory }
{
    let mut panel = Panel::new(Board::new(block));
    let pixels = draw(&mut panel, writes, sent, burst);
    Drawn {
        block: panel.into_memory().into_block(),
        pixels,
    }
}
