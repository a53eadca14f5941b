#![tactic(auto)]
// Lists of calls, and the promise that how a host's bus cuts its bursts and runs does not show.
mod cuts;
mod lists;

pub use cuts::{Replays, replay_both};
pub use lists::{Replay, make_all, replay_on_new};
