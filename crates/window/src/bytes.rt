// Bytes at addresses that may lie past memory.
ghost use Rattle.std.specs.Prelude.{◌≡◌, ℕ, ◌+◌, ◌<◌, length, slice_index, slice_set};
ghost use Rattle.memory.specs.Spans.{span};

use memory::Memory;

// The byte at an address, or 0 where there is none.
pub fn byte_at<M: Memory>(memory: &M, address: u64) -> u8
    ensures { result ≡ slice_index (M.bytes memory.now) address }
{
    u32::try_from(address).map_or(0, |address| memory.read(address).unwrap_or(0))
}

/// Reads the bytes from `address` on into all of `into`; where there is no byte, it is 0.
#[inline(never)]
pub fn bytes_at<M: Memory>(memory: &M, address: u64, into: &mut [u8])
    ensures { into.new ≡ span (M.bytes memory.now) address (length into.old) }
{
    match u32::try_from(address) {
        Ok(address) => memory.load(address, into),
        Err(_) => into.fill(0),
    }
}

// Puts a byte; past memory there is nothing to change.
pub fn put_byte<M: Memory>(memory: &mut M, address: u64, byte: u8)
    ensures { M.bytes memory.new ≡ slice_set (M.bytes memory.old) address byte }
{
    if let Ok(address) = u32::try_from(address) {
        let _ = memory.put(address, byte);
    }
}
