#![tactic(auto)]
// Complete operations, and the laws that hold of them.
mod exclusive_or;
mod laws;
mod operation;
mod part;
mod parts;

pub use exclusive_or::{ExclusiveOr, exclusive_or_twice};
pub use laws::{Orders, in_either_order, twice};
pub use operation::{CompleteOperation, Drawn};
pub use part::Part;
pub use parts::PartedDrawing;
