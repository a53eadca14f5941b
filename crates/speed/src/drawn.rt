// What was drawn on a block, which is handed back.
use memory::Cell;
use refusal::Refusal;

// The block as it then is, and the pixels drawn, or why none were.
#[derive(Drop)]
pub struct Drawn<'a, C: Cell> {
    pub block: &'a mut [C],
    pub pixels: Result<u32, Refusal>,
}

/// Where a block of bytes is handed back. C sets it to any block, as one of no bytes.
#[repr(C)]
pub struct LentBytes<'a> {
    pub block: &'a mut [u8],
}

/// The same for a block of 16-bit words.
#[repr(C)]
pub struct LentWords<'a> {
    pub block: &'a mut [u16],
}
