// An operation as what it draws, and how far it has come.
use crate::waiting::Waiting;
use source::Source;
use window::Window;

// Clauses see it by `op_of` and no model, since its rule and its format mean functions, which the value of a model cannot be.
#[derive(Clone, Copy)]
pub struct Drawing<R, D> {
    pub rule: R,
    pub canvas: D,
    pub first: Source,
    pub second: Source,
    pub target: Window,
}

// The pixels drawn, and the bytes that wait for the rest of their pixel or unit.
#[derive(Clone, Copy, Default)]
pub struct Progress {
    pub drawn: u32,
    pub waiting: Waiting,
}
