// Two lists of calls that are alike but for the cuts.
ghost use Rattle.std.specs.Prelude.{◌≡◌, ℕ, ◌≤◌, true, false, List, [], map, length, vec_capacity};
ghost use Rattle.panel_calls.specs.Calls.{call_of};
ghost use Rattle.panel_calls.specs.Replies.{reply_of};
ghost use Rattle.panel.specs.State.{seen, fresh};
ghost use Rattle.replay.specs.Lists.{Replayed, GaveUp};
ghost use Rattle.replay.specs.Cuts.{joined, Agree};

use crate::lists::{Replay, replay_on_new};
use memory::Memory;
use panel_calls::{Answer, Call};

#[derive(Drop)]
pub struct Replays<M: Memory, N: Memory> {
    pub first: Replay<M>,
    pub second: Replay<N>,
}

// Makes two lists of calls, each on a new panel of its own, over memories of any two makes. If the memories hold equal
// bytes and the lists are equal once neighbouring bursts and neighbouring runs are joined, the replays agree. The two
// vectors take the answers, and where they have room for them both replays are whole.
pub fn replay_both<M: Memory, N: Memory>(
    memory: M,
    other: N,
    calls: &[Call<'_>],
    others: &[Call<'_>],
    answers: Vec<Answer>,
    other_answers: Vec<Answer>,
) -> Replays<M, N>
    ensures first { result.first.whole ≡ true → Replayed (fresh (M.Memory.bytes memory)) (map call_of calls.now) [] (seen M.Memory.bytes result.first.panel) (map reply_of result.first.answers.items) }
    ensures second { result.second.whole ≡ true → Replayed (fresh (N.Memory.bytes other)) (map call_of others.now) [] (seen N.Memory.bytes result.second.panel) (map reply_of result.second.answers.items) }
    ensures first_room { length calls.now ≤ vec_capacity answers → result.first.whole ≡ true }
    ensures second_room { length others.now ≤ vec_capacity other_answers → result.second.whole ≡ true }
    ensures first_gave_up { result.first.whole ≡ false → GaveUp (fresh (M.Memory.bytes memory)) (map call_of calls.now) [] (seen M.Memory.bytes result.first.panel) (map reply_of result.first.answers.items) }
    ensures second_gave_up { result.second.whole ≡ false → GaveUp (fresh (N.Memory.bytes other)) (map call_of others.now) [] (seen N.Memory.bytes result.second.panel) (map reply_of result.second.answers.items) }
    ensures cuts_do_not_show { M.Memory.bytes memory ≡ N.Memory.bytes other → joined (map call_of calls.now) ≡ joined (map call_of others.now) → result.first.whole ≡ true → result.second.whole ≡ true → Agree (map reply_of result.first.answers.items) (map reply_of result.second.answers.items) (seen M.Memory.bytes result.first.panel) (seen N.Memory.bytes result.second.panel) }
{
    let first = replay_on_new(memory, calls, answers);
    let second = replay_on_new(other, others, other_answers);
    Replays { first, second }
}
