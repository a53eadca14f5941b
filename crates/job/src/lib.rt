// An operation from its settings to its last pixel, by the four states of a job: draft, cleared, begun and closed.
#![tactic(auto)]

mod clear;
mod declined;
mod job;
mod operation;
mod parsed;
mod run;
mod settings;

pub use job::{Begun, Cleared, Closed, Declined, Draft};
pub use operation::Operation;
pub use settings::{Settings, Surface};
