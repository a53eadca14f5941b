// A panel over a memory.
use crate::activity::Activity;
use crate::registers::Registers;
use colour::Palette;
use memory::Memory;

// No model: it would hold the memory, for `into_memory`, and its bytes, for the other calls, and each would have to tie the two.
#[derive(Drop)]
pub struct Panel<M: Memory> {
    pub(crate) memory: M,
    pub(crate) registers: Registers,
    pub(crate) palette: Palette,
    pub(crate) activity: Activity,
}
