// What a window holds, and where.
ghost use Rattle.std.specs.Prelude.{◌≡◌, ℕ, ◌+◌, ◌-◌, ◌*◌, ◌%◌, ◌^◌, ◌<◌, ◌≤◌};
ghost use Rattle.window.specs.Limits.{side, within, MadeExactly};
ghost use Rattle.window.specs.Places.{area_of, window_at, shown, pixels, in_image, place, cell, reach};
ghost use Rattle.window.specs.Values.{value_at, stored, LowByteFirst, ReplacedInside};
ghost use Rattle.window.specs.Geometry.{InRowOrder, Repeats, SideBySide, PixelByte, LeastSize};

use crate::area::Area;
use crate::bytes::{byte_at, put_byte};
use crate::size::PixelSize;
use crate::window::{SIDE_LIMIT, Window};
use colour::Readable;
use memory::Memory;
use refusal::Refusal;

// Whether a number lies from 1 to the limit.
fn is_side(limit: u16, number: u16) -> bool
    ensures { result ≡ side limit number }
{
    (1..=limit.min(SIDE_LIMIT)).contains(&number)
}

fn is_within(limit: u16, area: Area) -> bool
    ensures { result ≡ within limit area }
{
    is_side(limit, area.image)
        && is_side(limit, area.width)
        && is_side(limit, area.height)
        && area.left <= 8191
        && area.top <= 8191
        && area.left as u32 + area.width as u32 <= area.image as u32
}

impl Window {
    // A window, or a refusal where a number lies outside the limits.
    #[tactic(auto, using(crate::proofs::Geometry::made_exactly))]
    pub fn new(limit: u16, area: Area) -> Result<Window, Refusal>
        ensures is { shown result ≡ window_at limit area }
        ensures exactly { MadeExactly limit area (shown result) }
    {
        if !is_within(limit, area) {
            return Err(Refusal::OutsideWindowLimits);
        }
        Ok(Window { area })
    }

    /// How many columns the window has.
    pub fn width(&self) -> u16
        ensures { result ≡ (area_of self.now).width }
    {
        self.area.width // in columns
    }

    pub fn height(&self) -> u16
        ensures { result ≡ (area_of self.now).height }
    {
        self.area.height // in rows
    }

    // How many pixels the window has.
    pub fn pixels(&self) -> u32
        ensures { result ≡ pixels (area_of self.now) }
    {
        self.area.width as u32 * self.area.height as u32
    }

    // Which pixel of its image pixel k is. Where the image is as wide as the window, no row has to be found.
    #[tactic(auto, using(crate::proofs::Rows::whole_rows))]
    fn pixel(&self, k: u32) -> u64
        ensures { result ≡ in_image (area_of self.now) k }
    {
        let columns = self.area.width as u32;
        let image = self.area.image as u64;
        if image == columns as u64 {
            return self.area.top as u64 * image + k as u64;
        }
        let row = self.area.top as u64 + (k / columns) as u64;
        row * image + self.area.left as u64 + (k % columns) as u64
    }

    /// The address where pixel `k` begins, at `size` bytes a pixel. The numbers of a window are small enough that nothing wraps.
    #[tactic(auto, using(crate::proofs::Limits::pixel_low), unfolding(crate::specs::Places::place))]
    #[inline(never)]
    pub fn address(&self, size: PixelSize, k: u32) -> u64
        ensures is { result ≡ place (area_of self.now) size.bytes k }
        ensures low { result < 2 ^ 60 }
    {
        self.area.start as u64 + self.pixel(k) * size.bytes as u64
    }

    /// How many pixels of its row stand from pixel `k` on, itself counted.
    pub fn rest_of_row(&self, k: u32) -> u32
        ensures is { result ≡ (area_of self.now).width - k % (area_of self.now).width }
        ensures some { 1 ≤ result }
    {
        let columns = self.area.width as u32;
        columns - k % columns
    }

    /// How many pixels from `k` on lie side by side in memory, without a gap: those of its row, or all that are left where the image
    /// is as wide as the window.
    #[tactic(auto, using(crate::proofs::Rows::row_beside, crate::proofs::Rows::whole_beside, crate::proofs::Rows::row_left))]
    #[inline(never)]
    pub fn beside(&self, k: u32) -> u32
        ensures gapless { SideBySide (area_of self.now) k result }
        ensures row { (area_of self.now).width - k % (area_of self.now).width ≤ result }
        ensures some { 1 ≤ result }
    {
        if self.area.image == self.area.width {
            let left = self.pixels().saturating_sub(k);
            if left > 0 {
                return left;
            }
        }
        self.rest_of_row(k)
    }

    // The pixel of the window that stands at pixel k of a rectangle so many columns wide, where copies of the window
    // lie side by side and below one another.
    #[tactic(auto, using(crate::proofs::Geometry::repeats))]
    pub fn cell(&self, columns: u16, k: u32) -> u32
        ensures is { result ≡ cell (area_of self.now) columns k }
        ensures repeats { Repeats (area_of self.now) columns }
    {
        let columns = columns as u32;
        if columns == 0 {
            return 0;
        }
        let row = k / columns % self.area.height as u32;
        row * self.area.width as u32 + k % columns % self.area.width as u32
    }

    // The first address past the last pixel. Of any number of bytes, so that a caller needs no `PixelSize` to ask.
    #[tactic(auto, using(crate::proofs::Geometry::reach_least))]
    pub fn reach(&self, bytes_per_pixel: u8) -> u64
        ensures is { result ≡ reach (area_of self.now) bytes_per_pixel }
        ensures least { 1 ≤ bytes_per_pixel → LeastSize (PixelByte (area_of self.now) bytes_per_pixel) result }
    {
        let last_row = self.area.top as u64 + self.area.height as u64 - 1;
        let pixels = last_row * self.area.image as u64
            + self.area.left as u64
            + self.area.width as u64;
        self.area.start as u64 + pixels * bytes_per_pixel as u64
    }

    // The number that the bytes of pixel k hold, from the highest on. They are not put into an array, which would have to be waited for
    // before it is read as a number.
    fn value<M: Memory>(&self, size: PixelSize, memory: &M, k: u32) -> u32
        ensures { result ≡ value_at (M.bytes memory.now) (place (area_of self.now) size.bytes k) size.bytes }
    {
        let from = self.address(size, k);
        let mut value = 0;
        for done in 0..size.bytes {
            let higher = size.bytes - 1 - done;
            value = value * 256 + byte_at(memory, from + higher as u64) as u32;
        }
        value
    }

    /// The value of pixel `k`, of `size` bytes, low byte first. A byte past memory counts as 0.
    #[tactic(auto, using(crate::proofs::Geometry::in_row_order))]
    pub fn load<M: Memory>(&self, size: PixelSize, memory: &M, k: u32) -> u32
        ensures order { InRowOrder (area_of self.now) size.bytes }
        ensures is { result ≡ value_at (M.bytes memory.now) (place (area_of self.now) size.bytes k) size.bytes }
        ensures low_first { LowByteFirst (M.bytes memory.now) (place (area_of self.now) size.bytes k)
            size.bytes result }
    {
        self.value(size, memory, k)
    }

    // Puts the bytes of a number as pixel k.
    #[tactic(auto, using(crate::proofs::Values::stored_next), unfolding(crate::specs::Values::stored))]
    fn put<M: Memory>(&self, size: PixelSize, memory: &mut M, k: u32, value: u32)
        ensures { M.bytes memory.new ≡ stored (M.bytes memory.old) (place (area_of self.now) size.bytes k) size.bytes value }
    {
        let to = self.address(size, k);
        let bytes = value.to_le_bytes();
        for (i, byte) in bytes[..size.bytes as usize].iter().enumerate() {
            put_byte(memory, to + i as u64, *byte);
        }
    }

    /// Stores `value` as pixel `k`, in `size` bytes, low byte first. A byte past memory changes nothing.
    pub fn store<M: Memory>(&self, size: PixelSize, memory: &mut M, k: u32, value: u32)
        ensures is { M.bytes memory.new
            ≡ stored (M.bytes memory.old) (place (area_of self.now) size.bytes k) size.bytes value }
        ensures replaces { ReplacedInside (place (area_of self.now) size.bytes k) size.bytes value
            (M.bytes memory.old) (M.bytes memory.new) }
    {
        self.put(size, memory, k, value);
    }
}

impl PixelSize {
    // The bytes of a format's pixel. A From of every format would not say at its call what is taken of one.
    pub fn of<F: Readable>(format: &F) -> PixelSize
        ensures { result.bytes ≡ (F.format format.now).width }
    {
        PixelSize {
            bytes: format.bytes_per_pixel(),
        }
    }

    pub fn bytes(&self) -> u8
        ensures { result ≡ self.now.bytes }
    {
        self.bytes // 1 to 4 where a format gave it
    }
}
