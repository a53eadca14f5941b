// Raster rules on bytes.
ghost use Rattle.std.specs.Prelude.{◌≡◌, ℕ, ◌*◌, ◌/◌, ◌%◌, ◌<◌, drop};
ghost use Rattle.pixel.specs.Rasters.{raster_channel};
ghost use Rattle.memory.specs.Cells.{of_cells};
ghost use Rattle.memory.specs.Rasters.{raster_fits};
ghost use Rattle.memory.specs.Spans.{merged};

use super::{ByteRule, Cell};

/// A raster rule as four masks, one for each way in which two bits can stand: so it is worked out once, and not for each byte.
#[derive(Clone, Copy)]
pub struct Masks {
    rule: u8,
    both: u8,
    only_first: u8,
    only_second: u8,
    neither: u8,
    ghost both_kept: { both ≡ 255 * (rule / 8 % 2) },
    ghost first_kept: { only_first ≡ 255 * (rule / 4 % 2) },
    ghost second_kept: { only_second ≡ 255 * (rule / 2 % 2) },
    ghost neither_kept: { neither ≡ 255 * (rule % 2) },
}

impl Masks {
    /// The masks of a rule, of which the lowest four bits count.
    pub fn of(rule: u8) -> Masks
        ensures { result.rule ≡ rule }
    {
        Masks {
            rule,
            both: 255 * (rule / 8 % 2),
            only_first: 255 * (rule / 4 % 2),
            only_second: 255 * (rule / 2 % 2),
            neither: 255 * (rule % 2),
        }
    }

    // The rule that does the same on sources that have changed places.
    fn mirrored(self) -> Masks
        ensures { (x y : ℕ) → raster_channel result.rule x y ≡ raster_channel self.rule y x }
    {
        let outer = self.rule / 8 % 2 * 8 + self.rule % 2;
        Masks::of(outer + self.rule / 2 % 2 * 4 + self.rule / 4 % 2 * 2)
    }
}

impl ByteRule for Masks {
    ghost gives = { λ m x y. raster_channel m.rule x y };

    ghost fits = { λ m. raster_fits m.rule };

    #[tactic(auto, using(crate::proofs::Kept::masked))]
    #[inline(always)]
    fn byte(self, first: u8, second: u8) -> u8 {
        let both = first & second & self.both;
        let only_first = first & !second & self.only_first;
        let only_second = !first & second & self.only_second;
        let neither = !first & !second & self.neither;
        both | only_first | only_second | neither
    }
}

/// The exclusive or, by itself: one step of the processor where masks take several.
#[derive(Clone, Copy)]
pub struct Xor;

impl ByteRule for Xor {
    ghost gives = { λ _ x y. raster_channel 6 x y };

    ghost fits = { λ _. raster_fits 6 };

    #[tactic(auto, using(pixel::proofs::Rasters::raster_six))]
    #[inline(always)]
    fn byte(self, first: u8, second: u8) -> u8 {
        first ^ second
    }
}

// `Memory::raster` within a block. Where the first source is the target, the sources change places, since `merge` is fast where the
// second one is.
#[tactic(auto, using(crate::proofs::Mirrored::merged_mirrored))]
pub(crate) fn raster<C: Cell>(
    block: &mut [C],
    rule: u8,
    first: u32,
    second: u32,
    to: u32,
    count: u32,
)
    ensures after { of_cells C.BYTES C.byte block.new
        ≡ merged (raster_channel rule) (of_cells C.BYTES C.byte block.old) first second to count }
    ensures rest { drop (16777216 / C.BYTES) block.new ≡ drop (16777216 / C.BYTES) block.old }
{
    if rule == 6 {
        return C::merge(block, Xor, first, second, to, count);
    }
    let masks = Masks::of(rule);
    let (masks, first, second) = if first == to {
        (masks.mirrored(), second, first)
    } else {
        (masks, first, second)
    };
    C::merge(block, masks, first, second, to, count);
}
