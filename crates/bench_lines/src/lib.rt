// The bench's lines: which command a line is, and how an answer is written.
#![tactic(auto)]

mod answer;
mod command;
mod digits;
mod payload;

pub use answer::Answer;
pub use command::Command;
pub use payload::Payload;
