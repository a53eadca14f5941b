// Display memory, and the two boards that a maker can lend to it.
#![tactic(auto)]

ghost use Rattle.std.specs.Prelude.{◌≡◌, ℕ, ◌%◌, ◌/◌, List, length, drop, slice_index, slice_set};
ghost use Rattle.refusal.specs.Numbers.{numbered};
ghost use Rattle.memory.specs.Bytes.{Sound, read_at, put_at};
ghost use Rattle.memory.specs.Cells.{CellLaws, of_cells, cells_sound};
ghost use Rattle.memory.specs.Spans.{OfBytes, span, overlaid, times, merged, copied};
ghost use Rattle.memory.specs.Spans.{SpanBytes, StoredBytes, FilledBytes, MergedBytes, CopiedBytes};
ghost use Rattle.memory.specs.Boards.{whole, with_whole, whole_laws, half, with_half, half_laws};
ghost use Rattle.pixel.specs.Rasters.{raster_channel};

mod bytes;
mod rasters;
mod words;

pub use rasters::{Masks, Xor};
use refusal::Refusal;

/// What makes a byte of two bytes.
pub trait ByteRule: Copy {
    // the byte that is made
    ghost gives: { Self → ℕ → ℕ → ℕ };

    // of bytes it makes a byte
    ghost fits: { (r : Self) → OfBytes (gives r) };

    /// The byte made of `first` and `second`.
    fn byte(self, first: u8, second: u8) -> u8
        ensures { result ≡ gives self first second };

    /// The word whose low byte is made of the low bytes, and whose high byte of the high bytes.
    fn word(self, first: u16, second: u16) -> u16
        ensures low { result % 256 ≡ gives self (first % 256) (second % 256) }
        ensures high { result / 256 ≡ gives self (first / 256) (second / 256) }
    {
        let [first_low, first_high] = first.to_le_bytes();
        let [second_low, second_high] = second.to_le_bytes();
        u16::from_le_bytes([
            self.byte(first_low, second_low),
            self.byte(first_high, second_high),
        ])
    }
}

/// The rule that takes the first byte.
#[derive(Clone, Copy)]
pub struct First;

impl ByteRule for First {
    ghost gives = { λ _ x _. x };

    ghost fits = { λ _ x _ h _. h };

    fn byte(self, first: u8, _second: u8) -> u8 {
        first
    }
}

/// What every board and every layer over one offers. The size never changes.
pub trait Memory {
    // what the memory holds
    ghost bytes: { Self → List ℕ };

    // at most 16,777,216 bytes, each below 256
    ghost sound: { (m : Self) → Sound (bytes m) };

    /// How many bytes there are, at most 16,777,216.
    fn size(&self) -> u32
        ensures { result ≡ length (bytes self.now) };

    /// The byte at `address`, or [`Refusal::NoSuchAddress`] past the end.
    fn read(&self, address: u32) -> Result<u8, Refusal>
        ensures { numbered result ≡ read_at (bytes self.now) address };

    /// Puts a byte at `address`. Past the end it answers [`Refusal::NoSuchAddress`], and memory is as it was, since there
    /// `slice_set` changes nothing.
    fn put(&mut self, address: u32, value: u8) -> Result<(), Refusal>
        ensures answer { numbered result ≡ put_at (bytes self.old) address }
        ensures after { bytes self.new ≡ slice_set (bytes self.old) address value };

    /// Reads the bytes from `address` on into all of `into`; a byte past the end is 0.
    fn load(&self, address: u32, into: &mut [u8])
        ensures { into.new ≡ span (bytes self.now) address (length into.old) }
    {
        for (i, byte) in into.iter_mut().enumerate() {
            let place = u32::try_from(address as u64 + i as u64);
            *byte = place.map_or(0, |address| self.read(address).unwrap_or(0));
        }
    }

    /// Puts the bytes of `from` one after another from `address` on; past the end nothing is put.
    fn store(&mut self, address: u32, from: &[u8])
        ensures { bytes self.new ≡ overlaid (bytes self.old) address from.now }
    {
        for (i, byte) in from.iter().enumerate() {
            if let Ok(address) = u32::try_from(address as u64 + i as u64) {
                let _ = self.put(address, *byte);
            }
        }
    }

    /// Puts the bytes of `pixel` `count` times, one after another, from `address` on; past the end nothing is put.
    fn fill(&mut self, address: u32, pixel: &[u8], count: u32)
        ensures { bytes self.new ≡ overlaid (bytes self.old) address (times pixel.now count) }
    {
        for k in 0..count {
            let start = address as u128 + k as u128 * pixel.len() as u128;
            if let Ok(address) = u32::try_from(start) {
                self.store(address, pixel);
            }
        }
    }

    /// Copies `count` bytes from `from` on to `to` on, one after another, each as it then is. Past the end a byte reads as 0,
    /// and nothing is put.
    fn copy(&mut self, from: u32, to: u32, count: u32)
        ensures { bytes self.new ≡ copied (bytes self.old) from to count }
    {
        for i in 0..count {
            let byte = from
                .checked_add(i)
                .map_or(0, |address| self.read(address).unwrap_or(0));
            if let Some(address) = to.checked_add(i) {
                let _ = self.put(address, byte);
            }
        }
    }

    /// Puts `count` bytes from `to` on, one after another, each made by a raster rule, of which the lowest four bits count, of the
    /// bytes at the same place from `first` and from `second` on, as they then are. Past the end a byte reads as 0, and nothing
    /// is put.
    fn raster(&mut self, rule: u8, first: u32, second: u32, to: u32, count: u32)
        ensures { bytes self.new ≡ merged (raster_channel rule) (bytes self.old) first second to count }
    {
        let masks = Masks::of(rule);
        for i in 0..count {
            let one = first
                .checked_add(i)
                .map_or(0, |address| self.read(address).unwrap_or(0));
            let other = second
                .checked_add(i)
                .map_or(0, |address| self.read(address).unwrap_or(0));
            if let Some(address) = to.checked_add(i) {
                let _ = self.put(address, masks.byte(one, other));
            }
        }
    }
}

/// Puts `count` bytes in any memory from `to` on, one after another, each made by `rule` of the bytes at the same place from `first`
/// and from `second` on, as they then are. Past the end a byte reads as 0, and nothing is put.
pub fn merge<M: Memory, F: ByteRule>(
    memory: &mut M,
    rule: F,
    first: u32,
    second: u32,
    to: u32,
    count: u32,
)
    ensures { M.bytes memory.new ≡ merged (F.gives rule) (M.bytes memory.old) first second to count }
{
    for i in 0..count {
        let one = first
            .checked_add(i)
            .map_or(0, |address| memory.read(address).unwrap_or(0));
        let other = second
            .checked_add(i)
            .map_or(0, |address| memory.read(address).unwrap_or(0));
        if let Some(address) = to.checked_add(i) {
            let _ = memory.put(address, rule.byte(one, other));
        }
    }
}

// The most bytes that a memory has.
const MOST: usize = 16_777_216;

/// What a lent block is made of: a byte, or a word of two bytes at addresses in a row. What is named as in [`Memory`] does over a
/// block what that does over a board.
pub trait Cell: Copy {
    // how many bytes are in a cell
    ghost BYTES: { ℕ };

    // the byte of a cell at an address
    ghost byte: { Self → ℕ → ℕ };

    // the cell with that byte replaced
    ghost with_byte: { Self → ℕ → ℕ → Self };

    /// How many bytes are in a cell.
    const BYTES: usize;

    /// The byte of the cell at `address`.
    fn byte(self, address: u32) -> u8
        ensures { result ≡ byte self address };

    /// The cell with that byte replaced.
    fn with_byte(self, address: u32, value: u8) -> Self
        ensures { result ≡ with_byte self address value };

    /// [`Memory::size`] of a block.
    fn size(block: &[Self]) -> u32
        ensures { result ≡ length (of_cells BYTES byte block.now) }
    {
        let cells = block.len().min(MOST / Self::BYTES);
        (Self::BYTES * cells) as u32
    }

    /// [`Memory::read`] of a block.
    fn read(block: &[Self], address: u32) -> Result<u8, Refusal>
        ensures { numbered result ≡ read_at (of_cells BYTES byte block.now) address }
    {
        let place = address as usize / Self::BYTES;
        if address as usize >= MOST || place >= block.len() {
            return Err(Refusal::NoSuchAddress);
        }
        Ok(block[place].byte(address))
    }

    /// [`Memory::put`] into a block. What lies past the display memory is never written.
    fn put(block: &mut [Self], address: u32, value: u8) -> Result<(), Refusal>
        ensures answer { numbered result ≡ put_at (of_cells BYTES byte block.old) address }
        ensures after { of_cells BYTES byte block.new
            ≡ slice_set (of_cells BYTES byte block.old) address value }
        ensures rest { drop (16777216 / BYTES) block.new ≡ drop (16777216 / BYTES) block.old }
    {
        let place = address as usize / Self::BYTES;
        if address as usize >= MOST || place >= block.len() {
            return Err(Refusal::NoSuchAddress);
        }
        let cell = &mut block[place];
        *cell = cell.with_byte(address, value);
        Ok(())
    }

    /// [`Memory::load`] from a block.
    fn load(block: &[Self], address: u32, into: &mut [u8])
        ensures { into.new ≡ span (of_cells BYTES byte block.now) address (length into.old) }
    {
        for (i, byte) in into.iter_mut().enumerate() {
            let place = u32::try_from(address as u64 + i as u64);
            *byte = place.map_or(0, |address| Self::read(block, address).unwrap_or(0));
        }
    }

    /// [`Memory::store`] into a block.
    fn store(block: &mut [Self], address: u32, from: &[u8])
        ensures after { of_cells BYTES byte block.new
            ≡ overlaid (of_cells BYTES byte block.old) address from.now }
        ensures rest { drop (16777216 / BYTES) block.new ≡ drop (16777216 / BYTES) block.old }
    {
        for (i, byte) in from.iter().enumerate() {
            if let Ok(address) = u32::try_from(address as u64 + i as u64) {
                let _ = Self::put(block, address, *byte);
            }
        }
    }

    /// [`Memory::fill`] of a block.
    fn fill(block: &mut [Self], address: u32, pixel: &[u8], count: u32)
        ensures after { of_cells BYTES byte block.new
            ≡ overlaid (of_cells BYTES byte block.old) address (times pixel.now count) }
        ensures rest { drop (16777216 / BYTES) block.new ≡ drop (16777216 / BYTES) block.old }
    {
        for k in 0..count {
            let start = address as u128 + k as u128 * pixel.len() as u128;
            if let Ok(address) = u32::try_from(start) {
                Self::store(block, address, pixel);
            }
        }
    }

    /// [`Memory::copy`] within a block.
    fn copy(block: &mut [Self], from: u32, to: u32, count: u32)
        ensures after { of_cells BYTES byte block.new
            ≡ copied (of_cells BYTES byte block.old) from to count }
        ensures rest { drop (16777216 / BYTES) block.new ≡ drop (16777216 / BYTES) block.old }
    {
        Self::merge(block, First, from, from, to, count);
    }

    /// [`merge`] within a block.
    fn merge<F: ByteRule>(block: &mut [Self], rule: F, first: u32, second: u32, to: u32, count: u32)
        ensures after { of_cells BYTES byte block.new
            ≡ merged (F.gives rule) (of_cells BYTES byte block.old) first second to count }
        ensures rest { drop (16777216 / BYTES) block.new ≡ drop (16777216 / BYTES) block.old }
    {
        for i in 0..count {
            let one = first
                .checked_add(i)
                .map_or(0, |address| Self::read(block, address).unwrap_or(0));
            let other = second
                .checked_add(i)
                .map_or(0, |address| Self::read(block, address).unwrap_or(0));
            if let Some(address) = to.checked_add(i) {
                let _ = Self::put(block, address, rule.byte(one, other));
            }
        }
    }

    // whole cells fill display memory, and a byte is replaced alone
    ghost laws: { CellLaws BYTES byte with_byte };
}

impl Cell for u8 {
    ghost BYTES = { 1 };

    ghost byte = { whole };

    ghost with_byte = { with_whole };

    ghost laws = { whole_laws };

    const BYTES: usize = 1;

    fn byte(self, _address: u32) -> u8 {
        self
    }

    fn with_byte(self, _address: u32, value: u8) -> u8 {
        value
    }

    fn load(block: &[u8], address: u32, into: &mut [u8]) {
        let size = block.len().min(MOST);
        let display = &block[..size];
        bytes::load(display, address as usize, into);
    }

    fn store(block: &mut [u8], address: u32, from: &[u8]) {
        let size = block.len().min(MOST);
        let display = &mut block[..size];
        bytes::store(display, address as usize, from);
    }

    fn fill(block: &mut [u8], address: u32, pixel: &[u8], count: u32) {
        let size = block.len().min(MOST);
        let display = &mut block[..size];
        bytes::fill(display, address as usize, pixel, count as usize);
    }

    fn copy(block: &mut [u8], from: u32, to: u32, count: u32) {
        let size = block.len().min(MOST);
        let display = &mut block[..size];
        bytes::copy(display, from, to, count);
    }

    fn merge<F: ByteRule>(block: &mut [u8], rule: F, first: u32, second: u32, to: u32, count: u32) {
        let size = block.len().min(MOST);
        let display = &mut block[..size];
        bytes::merge(display, rule, first, second, to, count);
    }
}

// At an even address lies a word's low half.
impl Cell for u16 {
    ghost BYTES = { 2 };

    ghost byte = { half };

    ghost with_byte = { with_half };

    ghost laws = { half_laws };

    const BYTES: usize = 2;

    fn byte(self, address: u32) -> u8 {
        self.to_le_bytes()[address as usize % 2]
    }

    fn with_byte(self, address: u32, value: u8) -> u16 {
        let mut bytes = self.to_le_bytes();
        bytes[address as usize % 2] = value;
        u16::from_le_bytes(bytes)
    }

    fn load(block: &[u16], address: u32, into: &mut [u8]) {
        words::load(block, address, into);
    }

    fn store(block: &mut [u16], address: u32, from: &[u8]) {
        words::store(block, address, from);
    }

    fn fill(block: &mut [u16], address: u32, pixel: &[u8], count: u32) {
        words::fill(block, address, pixel, count);
    }

    fn copy(block: &mut [u16], from: u32, to: u32, count: u32) {
        words::copy(block, from, to, count);
    }

    fn merge<F: ByteRule>(
        block: &mut [u16],
        rule: F,
        first: u32,
        second: u32,
        to: u32,
        count: u32,
    ) {
        words::merge(block, rule, first, second, to, count);
    }
}

/// A lent block of cells, of which at most the first 16,777,216 bytes are display memory. Boards and layers have no model: they hand
/// out the block or the memory itself, which the bytes that they show do not tell. A board keeps the block that it was lent (the
/// clauses `lent`), so that whoever lent it knows what it holds once the board is let go.
#[derive(Drop)]
pub struct Board<'a, C: Cell> {
    block: &'a mut [C],
}

/// A board on a block of bytes.
pub type ByteBoard<'a> = Board<'a, u8>;

/// A board on a block of words.
pub type WordBoard<'a> = Board<'a, u16>;

impl<'a, C: Cell> Board<'a, C> {
    /// A board on `block`.
    pub fn new(block: &'a mut [C]) -> Board<'a, C>
        ensures lent { result.block.ghost_name ≡ block.entry.ghost_name }
        ensures holds { result.block.now ≡ block.old }
    {
        Board { block }
    }

    /// Hands the block back as it then is.
    pub fn into_block(self) -> &'a mut [C]
        ensures lent { result.ghost_name ≡ self.entry.block.ghost_name }
        ensures holds { result.now ≡ self.entry.block.now }
    {
        let Board { block } = self;
        block
    }

    /// As [`merge`] does in any memory.
    pub fn merge<F: ByteRule>(&mut self, rule: F, first: u32, second: u32, to: u32, count: u32)
        ensures after { of_cells C.BYTES C.byte self.new.block.now
            ≡ merged (F.gives rule) (of_cells C.BYTES C.byte self.old.block.now)
            first second to count }
        ensures bytes { MergedBytes (F.gives rule)
            (of_cells C.BYTES C.byte self.old.block.now) first second to count
            (of_cells C.BYTES C.byte self.new.block.now) }
        ensures lent { self.new.block.ghost_name ≡ self.old.block.ghost_name }
        ensures rest { drop (16777216 / C.BYTES) self.new.block.now
            ≡ drop (16777216 / C.BYTES) self.old.block.now }
    {
        C::merge(self.block, rule, first, second, to, count);
    }
}

impl<C: Cell> Memory for Board<'_, C> {
    ghost bytes = { λ b. of_cells C.BYTES C.byte b.block.now };

    ghost sound = { λ b. cells_sound C.BYTES C.byte b.block.now };

    fn size(&self) -> u32 {
        C::size(self.block)
    }

    fn read(&self, address: u32) -> Result<u8, Refusal> {
        C::read(self.block, address)
    }

    // What lies past the display memory is never written.
    fn put(&mut self, address: u32, value: u8) -> Result<(), Refusal>
        ensures answer { numbered result
            ≡ put_at (of_cells C.BYTES C.byte self.old.block.now) address }
        ensures after { of_cells C.BYTES C.byte self.new.block.now
            ≡ slice_set (of_cells C.BYTES C.byte self.old.block.now) address value }
        ensures lent { self.new.block.ghost_name ≡ self.old.block.ghost_name }
        ensures rest { drop (16777216 / C.BYTES) self.new.block.now
            ≡ drop (16777216 / C.BYTES) self.old.block.now }
    {
        C::put(self.block, address, value)
    }

    #[tactic(auto, using(crate::proofs::SpanBytes::span_bytes))]
    fn load(&self, address: u32, into: &mut [u8])
        ensures is { into.new
            ≡ span (of_cells C.BYTES C.byte self.now.block.now) address (length into.old) }
        ensures bytes { SpanBytes
            (of_cells C.BYTES C.byte self.now.block.now) address (length into.old) into.new }
    {
        C::load(self.block, address, into);
    }

    fn store(&mut self, address: u32, from: &[u8])
        ensures after { of_cells C.BYTES C.byte self.new.block.now
            ≡ overlaid (of_cells C.BYTES C.byte self.old.block.now) address from.now }
        ensures bytes { StoredBytes
            (of_cells C.BYTES C.byte self.old.block.now) address from.now
            (of_cells C.BYTES C.byte self.new.block.now) }
        ensures lent { self.new.block.ghost_name ≡ self.old.block.ghost_name }
        ensures rest { drop (16777216 / C.BYTES) self.new.block.now
            ≡ drop (16777216 / C.BYTES) self.old.block.now }
    {
        C::store(self.block, address, from);
    }

    fn fill(&mut self, address: u32, pixel: &[u8], count: u32)
        ensures after { of_cells C.BYTES C.byte self.new.block.now
            ≡ overlaid (of_cells C.BYTES C.byte self.old.block.now) address (times pixel.now count) }
        ensures bytes { FilledBytes
            (of_cells C.BYTES C.byte self.old.block.now) address pixel.now count
            (of_cells C.BYTES C.byte self.new.block.now) }
        ensures lent { self.new.block.ghost_name ≡ self.old.block.ghost_name }
        ensures rest { drop (16777216 / C.BYTES) self.new.block.now
            ≡ drop (16777216 / C.BYTES) self.old.block.now }
    {
        C::fill(self.block, address, pixel, count);
    }

    fn copy(&mut self, from: u32, to: u32, count: u32)
        ensures after { of_cells C.BYTES C.byte self.new.block.now
            ≡ copied (of_cells C.BYTES C.byte self.old.block.now) from to count }
        ensures bytes { CopiedBytes
            (of_cells C.BYTES C.byte self.old.block.now) from to count
            (of_cells C.BYTES C.byte self.new.block.now) }
        ensures lent { self.new.block.ghost_name ≡ self.old.block.ghost_name }
        ensures rest { drop (16777216 / C.BYTES) self.new.block.now
            ≡ drop (16777216 / C.BYTES) self.old.block.now }
    {
        C::copy(self.block, from, to, count);
    }

    fn raster(&mut self, rule: u8, first: u32, second: u32, to: u32, count: u32)
        ensures after { of_cells C.BYTES C.byte self.new.block.now
            ≡ merged (raster_channel rule) (of_cells C.BYTES C.byte self.old.block.now)
            first second to count }
        ensures bytes { MergedBytes (raster_channel rule)
            (of_cells C.BYTES C.byte self.old.block.now) first second to count
            (of_cells C.BYTES C.byte self.new.block.now) }
        ensures lent { self.new.block.ghost_name ≡ self.old.block.ghost_name }
        ensures rest { drop (16777216 / C.BYTES) self.new.block.now
            ≡ drop (16777216 / C.BYTES) self.old.block.now }
    {
        rasters::raster(self.block, rule, first, second, to, count);
    }
}
