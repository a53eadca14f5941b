// The bench: lines in, panel calls, lines out.
#![tactic(auto)]

ghost use Rattle.std.specs.Prelude.{◌≡◌, ◌==◌, position, ℕ, ◌<◌, ◌≤◌, List, [], ◌∷◌, ◌++◌, replicate, OnOk, OnErr};
ghost use Rattle.std.specs.Iterator.{YieldsFirstRef, item_count};
ghost use Rattle.panel.specs.State.{seen, fresh};
ghost use Rattle.panel.specs.Calls.{answered, left_by};
ghost use Rattle.bench_lines.specs.Commands.{call_of, command_of};
ghost use Rattle.bench_lines.specs.Answers.{reply_of};
ghost use Rattle.bench.specs.Replies.{printed, line_reply, line_after};
ghost use Rattle.bench.specs.Scripts.{lines, transcript, Replayed, AnsweredFirst, GaveUp};

use bench_lines::{Answer, Command};
use memory::{ByteBoard, Memory};
use panel::Panel;
use std::alloc::AllocError;

// Makes the call that a command is.
fn perform<M: Memory>(panel: &mut Panel<M>, command: Command) -> Answer
    ensures answer { reply_of result ≡ printed (answered (seen M.bytes panel.old) (call_of command)) }
    ensures after { seen M.bytes panel.new ≡ left_by (seen M.bytes panel.old) (call_of command) }
{
    match command {
        Command::Write { register, value } => panel
            .write(register, value)
            .map_or_else(Answer::Refused, |()| Answer::Done),
        Command::Read { register } => panel
            .read(register)
            .map_or_else(Answer::Refused, Answer::Byte),
        Command::Burst(payload) => panel.burst(payload.bytes()).map_or_else(
            Answer::Refused,
            |(taken, drawn)| Answer::Counts { taken, drawn },
        ),
        Command::Run { pixels } => panel
            .run(u32::from(pixels))
            .map_or_else(Answer::Refused, Answer::Count),
        Command::Stop => panel.stop().map_or_else(Answer::Refused, Answer::Count),
        Command::Status => Answer::Byte(panel.status()),
        Command::Memory { address } => panel
            .memory_read(address)
            .map_or_else(Answer::Refused, Answer::Byte),
    }
}

// Obeys one line, without its line feed.
pub fn respond<M: Memory>(panel: &mut Panel<M>, line: &[u8]) -> Answer
    ensures answer { reply_of result ≡ line_reply (seen M.bytes panel.old) (command_of line.now) }
    ensures after { seen M.bytes panel.new ≡ line_after (seen M.bytes panel.old) (command_of line.now) }
{
    match Command::parse(line) {
        Some(command) => perform(panel, command),
        None => Answer::Malformed,
    }
}

fn line_end(text: &[u8]) -> Option<usize>
    ensures { result ≡ position (λ c. c == 10) text.now }
{
    text.iter().position(|c| *c == b'\n')
}

// The lines of an input, each without its line feed. What stands after the last line feed is no line.
#[derive(Drop)]
struct Lines<'a>(&'a [u8]);

impl<'a> Iterator for Lines<'a> {
    type Item = &'a [u8];

    ghost next_gives = { YieldsFirstRef (λ s. lines s.0.now) };

    ghost remaining = { item_count (λ s. lines s.0.now) };

    fn next(&mut self) -> Option<&'a [u8]> {
        let end = line_end(self.0)?;
        let line = &self.0[..end];
        self.0 = &self.0[end + 1..];
        Some(line)
    }
}

// Obeys every line of an input and writes its answers. It fails only for want of memory for them, and then has obeyed the lines up to
// the one whose answer found no room.
pub fn replay<M: Memory>(
    panel: &mut Panel<M>,
    input: &[u8],
    out: &mut Vec<u8>,
) -> Result<(), AllocError>
    ensures done { OnOk result (Replayed (seen M.bytes panel.old) (lines input.now) out.old.items (seen M.bytes panel.new) out.new.items) }
    ensures gave_up { OnErr result (GaveUp (seen M.bytes panel.old) (lines input.now) out.old.items (seen M.bytes panel.new) out.new.items) }
{
    for line in Lines(input) {
        respond(panel, line).write_to(out)?;
    }
    Ok(())
}

// The bytes of display memory on the bench.
const MEMORY: usize = 4096;

// What the program does: a new panel over 4,096 zero bytes obeys the input. It fails only for want of memory, as `replay` does.
pub fn run(input: &[u8], out: &mut Vec<u8>) -> Result<(), AllocError>
    ensures done { OnOk result (out.new.items ≡ out.old.items ++ transcript (fresh (replicate 4096 0)) (lines input.now)) }
    ensures gave_up { OnErr result (AnsweredFirst (fresh (replicate 4096 0)) (lines input.now) out.old.items out.new.items) }
{
    let mut block = [0u8; MEMORY];
    let mut panel = Panel::new(ByteBoard::new(&mut block));
    replay(&mut panel, input, out)
}
