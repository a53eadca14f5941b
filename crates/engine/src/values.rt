// What pixels become by the values of their sources: the rules as a strip takes them.
ghost use Rattle.std.specs.Prelude.{◌≡◌, ℕ, ◌+◌, ◌*◌, ◌/◌, ◌%◌, ◌<◌, ◌≤◌, ◌==◌, cond, Option, Some, None};
ghost use Rattle.colour.specs.Widths.{widened};
ghost use Rattle.colour.specs.declared.fields.Fields.{Fields};
ghost use Rattle.pixel.specs.Blends.{blend_channel};
ghost use Rattle.rules.specs.Values.{by_fields};
ghost use Rattle.engine.specs.ByteRules.{mean_fits};
ghost use Rattle.engine.specs.Strips.{rgb565, made};

use crate::strips::OnValues;
use colour::{Canvas, Colour, Fields, Palette};
use memory::ByteRule;
use pixel::blend_channel;
use rules::PixelRule;

// The first value, but none of the key.
#[derive(Clone, Copy)]
pub(crate) struct KeyValue {
    pub(crate) key: u32,
}

impl OnValues for KeyValue {
    ghost gives = { λ r x y. cond (x == r.key) None (Some x) };

    #[inline(always)]
    fn value(&self, first: u32, _second: u32) -> Option<u32> {
        (first != self.key).then_some(first)
    }
}

// One value for an odd number, and none for an even one.
#[derive(Clone, Copy)]
pub(crate) struct OddValue {
    pub(crate) one: u32,
}

impl OnValues for OddValue {
    ghost gives = { λ r x y. cond (x % 2 == 1) (Some r.one) None };

    #[inline(always)]
    fn value(&self, first: u32, _second: u32) -> Option<u32> {
        (first % 2 == 1).then_some(self.one)
    }
}

// One value for an odd number, and another for an even one.
#[derive(Clone, Copy)]
pub(crate) struct TwoValues {
    pub(crate) one: u32,
    pub(crate) zero: u32,
}

impl OnValues for TwoValues {
    ghost gives = { λ r x y. cond (x % 2 == 1) (Some r.one) (Some r.zero) };

    #[inline(always)]
    fn value(&self, first: u32, _second: u32) -> Option<u32> {
        Some(if first % 2 == 1 { self.one } else { self.zero })
    }
}

// A rule on bytes, for strips whose values are their bytes.
#[derive(Clone, Copy)]
pub(crate) struct EachByte<F> {
    pub(crate) rule: F,
}

impl<F: ByteRule> OnValues for EachByte<F> {
    ghost gives = { λ r x y. Some (F.gives r.rule (x % 256) (y % 256)) };

    #[inline(always)]
    fn value(&self, first: u32, second: u32) -> Option<u32> {
        let byte = self.rule.byte((first % 256) as u8, (second % 256) as u8);
        Some(byte as u32)
    }
}

// The mean of two channels of 8 bits.
#[derive(Clone, Copy)]
pub(crate) struct MeanByte {
    pub(crate) level: u8,
}

impl ByteRule for MeanByte {
    ghost gives = { λ m x y. blend_channel m.level x y };

    ghost fits = { λ m. mean_fits m.level };

    #[inline(always)]
    fn byte(self, first: u8, second: u8) -> u8 {
        pixel::blend_channel(self.level, first, second)
    }
}

// The mean at a level, field by field.
#[derive(Clone, Copy)]
pub(crate) struct FieldsMean {
    pub(crate) level: u8,
    pub(crate) fields: Fields,
}

impl OnValues for FieldsMean {
    ghost gives = { λ r x y. Some (by_fields (blend_channel r.level) r.fields x y) };

    #[inline(always)]
    fn value(&self, first: u32, second: u32) -> Option<u32> {
        let (high, middle, low) = self.fields.unpack(first);
        let (other_high, other_middle, other_low) = self.fields.unpack(second);
        Some(
            self.fields.pack(
                blend_channel(self.level, high, other_high),
                blend_channel(self.level, middle, other_middle),
                blend_channel(self.level, low, other_low),
            ),
        )
    }
}

// The same of 5:6:5, in numbers of 16 bits alone, so that the compiler works on many pixels at once.
#[derive(Clone, Copy)]
pub(crate) struct Rgb565Mean {
    pub(crate) level: u8,
}

impl OnValues for Rgb565Mean {
    ghost gives = { λ r x y. Some (by_fields (blend_channel r.level) rgb565 x y) };

    #[inline(always)]
    fn value(&self, first: u32, second: u32) -> Option<u32> {
        let x = (first % 65536) as u16;
        let y = (second % 65536) as u16;
        let red = mean(self.level, five(x / 2048), five(y / 2048));
        let green = mean(self.level, six(x / 32), six(y / 32));
        let blue = mean(self.level, five(x), five(y));
        Some((red / 8 * 2048 + green / 4 * 32 + blue / 8) as u32)
    }
}

// The channel of the lowest five bits.
#[inline(always)]
fn five(field: u16) -> u16
    ensures is { result ≡ widened 5 (field % 32) }
    ensures few { result < 256 }
{
    8 * (field % 32) + field % 32 / 4
}

// The channel of the lowest six bits.
#[inline(always)]
fn six(field: u16) -> u16
    ensures is { result ≡ widened 6 (field % 64) }
    ensures few { result < 256 }
{
    4 * (field % 64) + field % 64 / 16
}

// The mean of two channels.
#[tactic(auto, unfolding(pixel::specs::Blends::blend_channel))]
#[inline(always)]
fn mean(level: u8, first: u16, second: u16) -> u16
    requires first { first < 256 }
    requires second { second < 256 }
    ensures is { result ≡ blend_channel level first second }
    ensures few { result < 256 }
{
    let weight = level.min(32) as u16;
    (first * weight + second * (32 - weight)) / 32
}

// What a rule makes of colours, for formats and rules of which no more is known.
#[derive(Drop)]
pub(crate) struct ByColours<'a, R, D> {
    pub(crate) rule: &'a R,
    pub(crate) canvas: &'a D,
    pub(crate) palette: &'a Palette,
}

impl<R: PixelRule, D: Canvas> OnValues for ByColours<'_, R, D> {
    ghost gives = { λ c. made (D.narrowed c.canvas.now) (R.yields c.rule.now c.palette.now) };

    #[inline(always)]
    fn value(&self, first: u32, second: u32) -> Option<u32> {
        let colour = self.rule.colour(self.palette, first, second)?;
        Some(self.canvas.narrow(colour))
    }
}
