// The values that a source gives.
ghost use Rattle.std.specs.Prelude.{◌≡◌, ℕ, ◌/◌, ◌%◌, ◌^◌, ◌<◌, ◌≤◌};
ghost use Rattle.window.specs.Values.{value_at};
ghost use Rattle.source.specs.Origins.{origin_of, sampled, awaited, served, OriginIs};
ghost use Rattle.source.specs.Reaches.{reach_of, TakenInside};
ghost use Rattle.source.specs.Shapes.{covers, CoversExactly};
ghost use Rattle.window.specs.Geometry.{LeastSize};
ghost use Rattle.source.specs.Meanings.{Gives, Serves, SourceByte};

use crate::rows::BitRows;
use crate::source::Source;
use memory::Memory;
use window::byte_at;

// One bit of a number.
pub(crate) fn bit_of(number: u32, bit: u32) -> u32
    requires { bit < 32 }
    ensures { result ≡ number / 2 ^ bit % 2 }
{
    (number >> bit) % 2
}

// The number that one byte of memory holds.
#[tactic(auto, unfolding(window::specs::Values::value_at))]
fn held_at<M: Memory>(memory: &M, address: u64) -> u32
    ensures { result ≡ value_at (M.bytes memory.now) address 1 }
{
    byte_at(memory, address) as u32
}

impl Source {
    // The value of pixel k, where the host sent a number: any number where it serves nothing, since then no source takes it.
    #[tactic(auto, using(crate::proofs::Meanings::origin_is))]
    pub fn value<M: Memory>(&self, memory: &M, sent: u32, k: u32) -> u32
        ensures is { result ≡ sampled (origin_of self.now) (M.bytes memory.now) sent k }
        ensures gives { Gives (origin_of self.now) (M.bytes memory.now) sent }
        ensures own { OriginIs self.now (origin_of self.now) }
    {
        match *self {
            Source::Unused => 0,
            Source::Host(_) => sent,
            Source::HostBits(rows) => bit_of(sent, rows.bit(k)),
            Source::Image { window, size } => window.load(size, memory, k),
            Source::Pattern {
                window,
                size,
                columns,
            } => window.load(size, memory, window.cell(columns, k)),
            Source::Bits { rows, start } => bit_of(
                held_at(memory, rows.address(start, k)),
                rows.bit(k) % 8,
            ),
        }
    }

    // How many bytes the host sends together, or 0 where it sends none. No Option: the number is compared with the bytes that wait.
    pub fn awaited(&self) -> u8
        ensures is { result ≡ awaited (origin_of self.now) }
        ensures few { result ≤ 4 }
    {
        match *self {
            Source::Host(size) => size.bytes(),
            Source::HostBits(rows) => rows.unit.bits() / 8,
            _ => 0,
        }
    }

    // How many pixels are drawn by what the host sent together, the first of them being k.
    #[tactic(auto, using(crate::proofs::Meanings::serves))]
    pub fn served(&self, k: u32) -> u32
        ensures is { result ≡ served (origin_of self.now) k }
        ensures own { Serves (origin_of self.now) k result }
    {
        match *self {
            Source::Host(_) => 1,
            Source::HostBits(rows) => rows.unit_pixels(k),
            _ => 0,
        }
    }

    /// Whether the source has a pixel for each of a rectangle of `width` by `height` pixels, in the same column and row: a window
    /// is as wide, and as high or higher; a pattern and rows of bits have as many columns; the host sends any.
    #[tactic(auto, using(crate::proofs::Shapes::covers_exactly))]
    pub fn covers(&self, width: u16, height: u16) -> bool
        ensures is { result ≡ covers (origin_of self.now) width height }
        ensures exactly { 1 ≤ width → CoversExactly (origin_of self.now) width height }
    {
        match *self {
            Source::Unused | Source::Host(_) => true,
            Source::HostBits(rows) | Source::Bits { rows, .. } => rows.columns == width,
            Source::Image { window, .. } => window.width() == width && height <= window.height(),
            Source::Pattern { columns, .. } => columns == width,
        }
    }

    // The first address past all that a rectangle so many rows high takes from memory.
    #[tactic(auto, using(crate::proofs::Reaches::taken_inside, crate::proofs::Meanings::source_least))]
    pub fn reach(&self, height: u16) -> u64
        ensures is { result ≡ reach_of (origin_of self.now) height }
        ensures inside { TakenInside (origin_of self.now) height }
        ensures least { 1 ≤ height → LeastSize (SourceByte (origin_of self.now) height) (reach_of (origin_of self.now) height) }
    {
        match *self {
            Source::Image { window, size } => window.reach(size.bytes()),
            Source::Pattern { window, size, .. } => window.reach(size.bytes()),
            Source::Bits { rows, start } => rows.reach(start, height),
            _ => 0,
        }
    }
}
