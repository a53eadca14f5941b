// Where an operation takes the values of its pixels from.
#![tactic(auto)]

mod bits;
mod rows;
mod source;
mod spread;
mod strips;
mod values;

pub use rows::{BitRows, Unit};
pub use source::Source;
