//! Whole operations for a caller in C, so that they can be timed. A block, bytes and writes each come as a pointer and
//! a length.
#![tactic(auto)]

ghost use Rattle.std.specs.Prelude.{◌≡◌};
ghost use Rattle.refusal.specs.Numbers.{numbered};
ghost use Rattle.memory.specs.Boards.{of_bytes, of_words};
ghost use Rattle.panel.specs.State.{fresh};
ghost use Rattle.speed.specs.Settings.{settings_of};
ghost use Rattle.speed.specs.Answers.{signed};
ghost use Rattle.speed.specs.Jobs.{job_answer, job_memory};
ghost use Rattle.speed.specs.Panels.{panel_answer, panel_after};

mod by_job;
mod by_panel;
mod drawn;
mod settings;

pub use drawn::{LentBytes, LentWords};
use refusal::Refusal;
pub use settings::{RegisterWrite, SpeedColour, SpeedSettings, SpeedSurface};

fn answer(outcome: Result<u32, Refusal>) -> i64
    ensures { result ≡ signed (numbered outcome) }
{
    match outcome {
        Ok(pixels) => pixels as i64,
        Err(refusal) => -(refusal.number() as i64),
    }
}

/// Draws a job over a byte board on `memory`: by one run, or where the host serves it by the bytes `sent`, in bursts
/// of `burst` bytes (0 counts as 1). Bytes past the last pixel are not taken. Hands `memory` to `back`, and answers the
/// pixels drawn, or minus the number of the refusal of the start, which leaves `memory` as it was.
#[unsafe(no_mangle)]
pub extern "C" fn speed_bytes<'a>(
    memory: &'a mut [u8],
    settings: &SpeedSettings,
    sent: &[u8],
    burst: usize,
    back: &mut LentBytes<'a>,
) -> i64
    ensures answer { result
        ≡ signed (job_answer (settings_of settings.now) (of_bytes memory.old) sent.now) }
    ensures memory { of_bytes back.new.block.now
        ≡ job_memory (settings_of settings.now) (of_bytes memory.old) sent.now }
{
    let drawn = by_job::draw_on(memory, settings.settings(), sent, burst);
    back.block = drawn.block;
    answer(drawn.pixels)
}

/// The same over a word board, on a block of 16-bit words.
#[unsafe(no_mangle)]
pub extern "C" fn speed_words<'a>(
    memory: &'a mut [u16],
    settings: &SpeedSettings,
    sent: &[u8],
    burst: usize,
    back: &mut LentWords<'a>,
) -> i64
    ensures answer { result
        ≡ signed (job_answer (settings_of settings.now) (of_words memory.old) sent.now) }
    ensures memory { of_words back.new.block.now
        ≡ job_memory (settings_of settings.now) (of_words memory.old) sent.now }
{
    let drawn = by_job::draw_on(memory, settings.settings(), sent, burst);
    back.block = drawn.block;
    answer(drawn.pixels)
}

/// Makes a panel over a byte board on `memory` and its register writes, up to the first that is declined; then one run,
/// or where bytes are sent, bursts of `burst` of them (0 counts as 1). Hands `memory` to `back`, and answers the pixels
/// drawn (at most 4,294,967,295), or minus the number of the refusal of a write or of the run. Bursts that are declined
/// draw nothing.
#[unsafe(no_mangle)]
pub extern "C" fn speed_panel<'a>(
    memory: &'a mut [u8],
    writes: &[RegisterWrite],
    sent: &[u8],
    burst: usize,
    back: &mut LentBytes<'a>,
) -> i64
    ensures answer { result
        ≡ signed (panel_answer (fresh (of_bytes memory.old)) writes.now sent.now) }
    ensures memory { of_bytes back.new.block.now
        ≡ (panel_after (fresh (of_bytes memory.old)) writes.now sent.now).memory }
{
    let drawn = by_panel::draw_on(memory, writes, sent, burst);
    back.block = drawn.block;
    answer(drawn.pixels)
}

/// The same over a word board, on a block of 16-bit words.
#[unsafe(no_mangle)]
pub extern "C" fn speed_panel_words<'a>(
    memory: &'a mut [u16],
    writes: &[RegisterWrite],
    sent: &[u8],
    burst: usize,
    back: &mut LentWords<'a>,
) -> i64
    ensures answer { result
        ≡ signed (panel_answer (fresh (of_words memory.old)) writes.now sent.now) }
    ensures memory { of_words back.new.block.now
        ≡ (panel_after (fresh (of_words memory.old)) writes.now sent.now).memory }
{
    let drawn = by_panel::draw_on(memory, writes, sent, burst);
    back.block = drawn.block;
    answer(drawn.pixels)
}
