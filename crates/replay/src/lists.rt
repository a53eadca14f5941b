// Calls made one after another.
ghost use Rattle.std.specs.Prelude.{◌≡◌, ℕ, ◌+◌, ◌≤◌, true, false, List, [], ◌++◌, map, length, is_ok, vec_len, vec_capacity, OnErr, OnOk};
ghost use Rattle.panel_calls.specs.Calls.{call_of};
ghost use Rattle.panel_calls.specs.Replies.{reply_of};
ghost use Rattle.panel.specs.State.{seen, fresh};
ghost use Rattle.replay.specs.Lists.{Replayed, GaveUp};

use memory::Memory;
use panel::Panel;
use panel_calls::{Answer, Call};
use std::alloc::AllocError;

// Makes the calls in turn and keeps their answers. It fails only for want of memory for those, and not where there is
// room for them; the call whose answer found no room was then made, and is the last.
pub fn make_all<M: Memory>(
    panel: &mut Panel<M>,
    calls: &[Call<'_>],
    answers: &mut Vec<Answer>,
) -> Result<(), AllocError>
    ensures replayed { OnOk result (Replayed (seen M.bytes panel.old) (map call_of calls.now) (map reply_of answers.old.items) (seen M.bytes panel.new) (map reply_of answers.new.items)) }
    ensures room { vec_len answers.old + length calls.now ≤ vec_capacity answers.old → is_ok result ≡ true }
    ensures gave_up { OnErr result (GaveUp (seen M.bytes panel.old) (map call_of calls.now) (map reply_of answers.old.items) (seen M.bytes panel.new) (map reply_of answers.new.items)) }
{
    for call in calls {
        answers.push(panel.make(*call))?;
    }
    Ok(())
}

// A panel after some calls, and what they answered. `whole` is false where memory for the answers was wanting: there are
// then fewer answers than calls.
#[derive(Drop)]
pub struct Replay<M: Memory> {
    pub panel: Panel<M>,
    pub answers: Vec<Answer>,
    pub whole: bool,
}

// Makes calls on a new panel. The answers take the place of what the vector held; where it has room for them, the
// replay is whole.
pub fn replay_on_new<M: Memory>(
    memory: M,
    calls: &[Call<'_>],
    mut answers: Vec<Answer>,
) -> Replay<M>
    ensures replayed { result.whole ≡ true → Replayed (fresh (M.bytes memory)) (map call_of calls.now) [] (seen M.bytes result.panel) (map reply_of result.answers.items) }
    ensures room { length calls.now ≤ vec_capacity answers → result.whole ≡ true }
    ensures gave_up { result.whole ≡ false → GaveUp (fresh (M.bytes memory)) (map call_of calls.now) [] (seen M.bytes result.panel) (map reply_of result.answers.items) }
{
    let mut panel = Panel::new(memory);
    answers.clear();
    let whole = make_all(&mut panel, calls, &mut answers).is_ok();
    Replay {
        panel,
        answers,
        whole,
    }
}
