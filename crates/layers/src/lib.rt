// Layers over display memory, each a memory again: a write queue, and a stretch of what lies below.
#![tactic(auto)]

mod pending;
mod queue;
mod stretch;

pub use queue::WriteQueue;
pub use stretch::Stretch;
