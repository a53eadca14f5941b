// Pixel formats: the canvases 3:3:2, 5:6:5 and 8:8:8, and the overlays Index 2:6 and 4:4:4:4.
#![tactic(auto)]

ghost use Rattle.std.specs.Prelude.{◌≡◌, ℕ, ◌+◌, ◌-◌, ◌*◌, ◌/◌, ◌%◌, ◌^◌, ◌<◌, ◌≤◌};
ghost use Rattle.colour.specs.Packing.{ShowsFields, HoldsFields};
ghost use Rattle.formats.specs.Packed.{format332, colour332, narrow332, format565, colour565, narrow565, format888, colour888, narrow888};
ghost use Rattle.formats.specs.Depths.{depth_format, depth_narrow, depth_bits, DepthShows, DepthHolds};
ghost use Rattle.formats.specs.Laws.{narrows332, narrows565, narrows888, depth_keeps};

mod overlays;
mod tables;

use colour::{Canvas, Colour, FieldWidth, Fields, Palette, Readable};
pub use overlays::{Argb4444, Index26, OverlayKind};
use tables::{COLOURS, row};

// The canvases are types of their own over one text in `Fields`: widths as const parameters would admit formats that fill no
// bytes and so keep no laws, and a trait of widths would name for each what its impl now says.
#[derive(Clone, Copy, PartialEq, Eq, Debug)]
pub struct Rgb332;

impl Rgb332 {
    const FIELDS: Fields = Fields {
        high: FieldWidth::Three,
        middle: FieldWidth::Three,
        low: FieldWidth::Two,
    };
}

impl Readable for Rgb332 {
    ghost format = { λ _. format332 };

    #[inline(always)]
    fn bytes_per_pixel(&self) -> u8
        ensures is { result ≡ format332.width }
        ensures filled { 8 * result ≡ 3 + 3 + 2 }
    {
        1
    }

    #[inline(always)]
    fn colour(&self, _palette: &Palette, value: u32) -> Colour
        ensures is { result ≡ colour332 value }
        ensures fields { ShowsFields 3 3 2 value result }
    {
        row(&COLOURS, value)
    }

    #[inline(always)]
    fn fields(&self) -> Option<Fields> {
        Some(Rgb332::FIELDS)
    }
}

impl Canvas for Rgb332 {
    ghost narrowed = { λ _. narrow332 };

    ghost keeps = { λ _. narrows332 };

    #[inline(always)]
    fn narrow(&self, colour: Colour) -> u32
        ensures is { result ≡ narrow332 colour }
        ensures fields { HoldsFields 3 3 2 colour result }
    {
        Rgb332::FIELDS.narrow(colour)
    }

    #[inline(always)]
    fn packed_fields(&self) -> Option<Fields> {
        Some(Rgb332::FIELDS)
    }
}

#[derive(Clone, Copy, PartialEq, Eq, Debug)]
pub struct Rgb565;

impl Rgb565 {
    const FIELDS: Fields = Fields {
        high: FieldWidth::Five,
        middle: FieldWidth::Six,
        low: FieldWidth::Five,
    };
}

impl Readable for Rgb565 {
    ghost format = { λ _. format565 };

    #[inline(always)]
    fn bytes_per_pixel(&self) -> u8
        ensures is { result ≡ format565.width }
        ensures filled { 8 * result ≡ 5 + 6 + 5 }
    {
        2
    }

    #[inline(always)]
    fn colour(&self, _palette: &Palette, value: u32) -> Colour
        ensures is { result ≡ colour565 value }
        ensures fields { ShowsFields 5 6 5 value result }
    {
        Rgb565::FIELDS.colour(value)
    }

    #[inline(always)]
    fn fields(&self) -> Option<Fields> {
        Some(Rgb565::FIELDS)
    }
}

impl Canvas for Rgb565 {
    ghost narrowed = { λ _. narrow565 };

    ghost keeps = { λ _. narrows565 };

    #[inline(always)]
    fn narrow(&self, colour: Colour) -> u32
        ensures is { result ≡ narrow565 colour }
        ensures fields { HoldsFields 5 6 5 colour result }
    {
        Rgb565::FIELDS.narrow(colour)
    }

    #[inline(always)]
    fn packed_fields(&self) -> Option<Fields> {
        Some(Rgb565::FIELDS)
    }
}

#[derive(Clone, Copy, PartialEq, Eq, Debug)]
pub struct Rgb888;

impl Rgb888 {
    const FIELDS: Fields = Fields {
        high: FieldWidth::Eight,
        middle: FieldWidth::Eight,
        low: FieldWidth::Eight,
    };
}

impl Readable for Rgb888 {
    ghost format = { λ _. format888 };

    #[inline(always)]
    fn bytes_per_pixel(&self) -> u8
        ensures is { result ≡ format888.width }
        ensures filled { 8 * result ≡ 8 + 8 + 8 }
    {
        3
    }

    #[inline(always)]
    fn colour(&self, _palette: &Palette, value: u32) -> Colour
        ensures is { result ≡ colour888 value }
        ensures fields { ShowsFields 8 8 8 value result }
    {
        Rgb888::FIELDS.colour(value)
    }

    #[inline(always)]
    fn fields(&self) -> Option<Fields> {
        Some(Rgb888::FIELDS)
    }
}

impl Canvas for Rgb888 {
    ghost narrowed = { λ _. narrow888 };

    ghost keeps = { λ _. narrows888 };

    #[inline(always)]
    fn narrow(&self, colour: Colour) -> u32
        ensures is { result ≡ narrow888 colour }
        ensures fields { HoldsFields 8 8 8 colour result }
    {
        Rgb888::FIELDS.narrow(colour)
    }

    #[inline(always)]
    fn packed_fields(&self) -> Option<Fields> {
        Some(Rgb888::FIELDS)
    }
}

// A canvas format that is chosen while the program runs. It is an enum: no proof is made of a trait object in a field, and a box would need a
// heap, which the engine does not have.
#[derive(Clone, Copy, PartialEq, Eq, Debug)]
pub enum Depth {
    Rgb332,
    Rgb565,
    Rgb888,
}

impl Readable for Depth {
    ghost format = { depth_format };

    #[inline(always)]
    fn bytes_per_pixel(&self) -> u8
        ensures is { result ≡ (depth_format self.now).width }
        ensures filled { 8 * result ≡ depth_bits self.now }
    {
        match self {
            Depth::Rgb332 => Rgb332.bytes_per_pixel(),
            Depth::Rgb565 => Rgb565.bytes_per_pixel(),
            Depth::Rgb888 => Rgb888.bytes_per_pixel(),
        }
    }

    #[inline(always)]
    #[tactic(auto, using(crate::proofs::Shown::shows_332, crate::proofs::Shown::shows_565, crate::proofs::Shown::shows_888))]
    fn colour(&self, palette: &Palette, value: u32) -> Colour
        ensures is { result ≡ (depth_format self.now).colour palette.now value }
        ensures fields { DepthShows self.now value result }
    {
        match self {
            Depth::Rgb332 => Rgb332.colour(palette, value),
            Depth::Rgb565 => Rgb565.colour(palette, value),
            Depth::Rgb888 => Rgb888.colour(palette, value),
        }
    }

    #[inline(always)]
    fn fields(&self) -> Option<Fields> {
        match self {
            Depth::Rgb332 => Rgb332.fields(),
            Depth::Rgb565 => Rgb565.fields(),
            Depth::Rgb888 => Rgb888.fields(),
        }
    }
}

impl Canvas for Depth {
    ghost narrowed = { depth_narrow };

    ghost keeps = { depth_keeps };

    #[inline(always)]
    #[tactic(auto, using(crate::proofs::Shown::depth_holds))]
    fn narrow(&self, colour: Colour) -> u32
        ensures is { result ≡ depth_narrow self.now colour }
        ensures fields { DepthHolds self.now colour result }
    {
        match self {
            Depth::Rgb332 => Rgb332.narrow(colour),
            Depth::Rgb565 => Rgb565.narrow(colour),
            Depth::Rgb888 => Rgb888.narrow(colour),
        }
    }

    #[inline(always)]
    fn packed_fields(&self) -> Option<Fields> {
        match self {
            Depth::Rgb332 => Rgb332.packed_fields(),
            Depth::Rgb565 => Rgb565.packed_fields(),
            Depth::Rgb888 => Rgb888.packed_fields(),
        }
    }
}
