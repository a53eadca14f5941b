// The panel: a register file, a palette and what is under way, over any memory.
#![tactic(auto)]

mod activity;
mod bursts;
mod calls;
mod make;
mod panel;
mod register;
mod registers;

pub use panel::Panel;
