#![tactic(auto)]
// An operation by the calls of a panel, as a complete operation.
mod operation;
mod plays;

pub use operation::{PanelOperation, RegisterWrite};
pub use plays::draw_on;
