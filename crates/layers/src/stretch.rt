// The bytes of the memory below from a start on.
ghost use Rattle.std.specs.Prelude.{◌≡◌, ℕ, ◌+◌, ◌-◌, ◌<◌, min, List, length, slice_index, slice_set};
ghost use Rattle.refusal.specs.Numbers.{numbered};
ghost use Rattle.memory.specs.Bytes.{read_at, put_at};
ghost use Rattle.memory.specs.Spans.{overlaid, times, merged, copied};
ghost use Rattle.layers.specs.Part.{part, part_sound, put_under};
ghost use Rattle.pixel.specs.Rasters.{raster_channel};

use memory::{ByteRule, First, Masks, Memory};
use refusal::Refusal;

// It has the lesser of `length` and what lies below from `start`; nothing where `start` is past the end below. No model: it hands
// out the memory itself.
#[derive(Drop)]
pub struct Stretch<M> {
    below: M,
    start: u32,
    length: u32,
}

impl<M: Memory> Stretch<M> {
    pub fn new(below: M, start: u32, length: u32) -> Stretch<M>
        ensures below { result.below ≡ below }
        ensures start { result.start ≡ start }
        ensures length { result.length ≡ length }
    {
        Stretch {
            below,
            start,
            length,
        }
    }

    // Hands the memory below back.
    pub fn into_below(self) -> M
        ensures { result ≡ self.below }
    {
        let Stretch {
            below,
            start: _,
            length: _,
        } = self;
        below
    }

    // Where an address of the stretch lies below.
    fn place(&self, address: u32) -> u32
        requires { address < length (part (M.bytes self.now.below) self.now.start self.now.length) }
        ensures place { result ≡ self.now.start + address }
        ensures reads { read_at (M.bytes self.now.below) result ≡ read_at (part (M.bytes self.now.below) self.now.start self.now.length) address }
    {
        self.start + address
    }

    // Where an address lies below, and how many bytes the stretch has from it on; past the end, where that lies, and none.
    fn room(&self, address: u32) -> (u32, u32)
        ensures place { result.0 ≡ self.now.start + min address (length (part (M.bytes self.now.below) self.now.start self.now.length)) }
        ensures room { result.1 ≡ length (part (M.bytes self.now.below) self.now.start self.now.length) - address }
    {
        let start = self.start;
        let size = self.size();
        (start + address.min(size), size.saturating_sub(address))
    }

    // The byte `i` places from an address on, or 0 past the end.
    fn byte_at(&self, address: u32, i: u32) -> u8
        ensures { result ≡ slice_index (part (M.bytes self.now.below) self.now.start self.now.length) (address + i) }
    {
        address
            .checked_add(i)
            .map_or(0, |address| self.read(address).unwrap_or(0))
    }

    /// As [`memory::merge`] does in any memory. What lies outside the stretch is never written.
    pub fn merge<F: ByteRule>(&mut self, rule: F, first: u32, second: u32, to: u32, count: u32)
        ensures after { part (M.bytes self.new.below) self.new.start self.new.length ≡ merged (F.gives rule) (part (M.bytes self.old.below) self.old.start self.old.length) first second to count }
        ensures under { M.bytes self.new.below ≡ overlaid (M.bytes self.old.below) self.old.start (merged (F.gives rule) (part (M.bytes self.old.below) self.old.start self.old.length) first second to count) }
        ensures start { self.new.start ≡ self.old.start }
        ensures length { self.new.length ≡ self.old.length }
    {
        for i in 0..count {
            let byte = rule.byte(self.byte_at(first, i), self.byte_at(second, i));
            if let Some(address) = to.checked_add(i) {
                let _ = self.put(address, byte);
            }
        }
    }
}

impl<M: Memory> Memory for Stretch<M> {
    ghost bytes = { λ s. part (M.Memory.bytes s.below) s.start s.length };

    ghost sound = { λ s. part_sound (M.Memory.bytes s.below) s.start s.length (M.Memory.sound s.below) };

    fn size(&self) -> u32 {
        self.below
            .size()
            .saturating_sub(self.start)
            .min(self.length)
    }

    fn read(&self, address: u32) -> Result<u8, Refusal> {
        if address >= self.size() {
            return Err(Refusal::NoSuchAddress);
        }
        self.below.read(self.place(address))
    }

    // What lies outside the stretch is never written: past its end nothing is.
    fn put(&mut self, address: u32, value: u8) -> Result<(), Refusal>
        ensures answer { numbered result ≡ put_at (part (M.Memory.bytes self.old.below) self.old.start self.old.length) address }
        ensures after { part (M.Memory.bytes self.new.below) self.new.start self.new.length ≡ slice_set (part (M.Memory.bytes self.old.below) self.old.start self.old.length) address value }
        ensures under { M.Memory.bytes self.new.below ≡ put_under (M.Memory.bytes self.old.below) self.old.start self.old.length address value }
        ensures start { self.new.start ≡ self.old.start }
        ensures length { self.new.length ≡ self.old.length }
    {
        if address >= self.size() {
            return Err(Refusal::NoSuchAddress);
        }
        let place = self.place(address);
        self.below.put(place, value)
    }

    fn load(&self, address: u32, into: &mut [u8]) {
        let (place, room) = self.room(address);
        let inside = into.len().min(room as usize);
        let (held, past) = into.split_at_mut(inside);
        self.below.load(place, held);
        past.fill(0);
    }

    // As at `put`, what lies outside the stretch is never written.
    fn store(&mut self, address: u32, from: &[u8])
        ensures after { part (M.Memory.bytes self.new.below) self.new.start self.new.length ≡ overlaid (part (M.Memory.bytes self.old.below) self.old.start self.old.length) address from.now }
        ensures under { M.Memory.bytes self.new.below ≡ overlaid (M.Memory.bytes self.old.below) self.old.start (overlaid (part (M.Memory.bytes self.old.below) self.old.start self.old.length) address from.now) }
        ensures start { self.new.start ≡ self.old.start }
        ensures length { self.new.length ≡ self.old.length }
    {
        let (place, room) = self.room(address);
        let inside = from.len().min(room as usize);
        self.below.store(place, &from[..inside]);
    }

    // The whole pixels go below at once.
    fn fill(&mut self, address: u32, pixel: &[u8], count: u32)
        ensures after { part (M.Memory.bytes self.new.below) self.new.start self.new.length ≡ overlaid (part (M.Memory.bytes self.old.below) self.old.start self.old.length) address (times pixel.now count) }
        ensures under { M.Memory.bytes self.new.below ≡ overlaid (M.Memory.bytes self.old.below) self.old.start (overlaid (part (M.Memory.bytes self.old.below) self.old.start self.old.length) address (times pixel.now count)) }
        ensures start { self.new.start ≡ self.old.start }
        ensures length { self.new.length ≡ self.old.length }
    {
        let width = pixel.len();
        if width == 0 {
            return;
        }
        let (place, room) = self.room(address);
        let whole = count.min((room as usize / width) as u32);
        self.below.fill(place, pixel, whole);
        if whole < count {
            let rest = address as usize + whole as usize * width;
            self.store(rest as u32, pixel); // partly past the end
        }
    }

    // What lies wholly within the stretch is copied below at once, and the rest byte by byte.
    fn copy(&mut self, from: u32, to: u32, count: u32)
        ensures after { part (M.Memory.bytes self.new.below) self.new.start self.new.length ≡ copied (part (M.Memory.bytes self.old.below) self.old.start self.old.length) from to count }
        ensures under { M.Memory.bytes self.new.below ≡ overlaid (M.Memory.bytes self.old.below) self.old.start (copied (part (M.Memory.bytes self.old.below) self.old.start self.old.length) from to count) }
        ensures start { self.new.start ≡ self.old.start }
        ensures length { self.new.length ≡ self.old.length }
    {
        let (from_place, from_room) = self.room(from);
        let (to_place, to_room) = self.room(to);
        let whole = count.min(from_room).min(to_room);
        self.below.copy(from_place, to_place, whole);
        let next = from + whole;
        self.merge(First, next, next, to + whole, count - whole);
    }

    // As `copy`.
    fn raster(&mut self, rule: u8, first: u32, second: u32, to: u32, count: u32)
        ensures after { part (M.Memory.bytes self.new.below) self.new.start self.new.length ≡ merged (raster_channel rule) (part (M.Memory.bytes self.old.below) self.old.start self.old.length) first second to count }
        ensures under { M.Memory.bytes self.new.below ≡ overlaid (M.Memory.bytes self.old.below) self.old.start (merged (raster_channel rule) (part (M.Memory.bytes self.old.below) self.old.start self.old.length) first second to count) }
        ensures start { self.new.start ≡ self.old.start }
        ensures length { self.new.length ≡ self.old.length }
    {
        let (first_place, first_room) = self.room(first);
        let (second_place, second_room) = self.room(second);
        let (to_place, to_room) = self.room(to);
        let whole = count.min(first_room).min(second_room).min(to_room);
        self.below
            .raster(rule, first_place, second_place, to_place, whole);
        self.merge(
            Masks::of(rule),
            first + whole,
            second + whole,
            to + whole,
            count - whole,
        );
    }
}
