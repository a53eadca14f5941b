// The one text that draws: any pixel rule on any sources into any canvas format over any memory.
#![tactic(auto)]

mod burst;
mod draw;
mod drawing;
mod feed;
mod inside;
mod known;
mod rows;
mod strips;
mod together;
mod values;
mod waiting;

pub use drawing::{Drawing, Progress};
pub use waiting::Waiting;
