// Memory that holds numbers.
use memory::Memory;
use std::ops::Range;

// Puts at each address the lowest byte of the address and an offset.
pub(crate) fn put_numbers<M: Memory>(memory: &mut M, addresses: Range<u32>, offset: u8) {
    for address in addresses {
        let _ = memory.put(address, ((address % 256) as u8).wrapping_add(offset));
    }
}
