// The overlay formats.
ghost use Rattle.std.specs.Prelude.{◌≡◌, ℕ, ◌+◌, ◌-◌, ◌*◌, ◌/◌, ◌%◌, ◌^◌, ◌<◌, ◌≤◌};
ghost use Rattle.formats.specs.Overlays.{index_entry, format26, level26, ChoosesEntry, ShowsEntry, HasIndexLevel};
ghost use Rattle.formats.specs.Overlays.{format4444, level4444, ShowsArgb, HasArgbLevel};
ghost use Rattle.formats.specs.OverlayKinds.{overlay_format, overlay_level, overlay_bits, OverlayShows, OverlayHasLevel};
ghost use Rattle.formats.specs.Levels.{index_bounded, bounded4444, overlay_bounded};

use crate::tables::{FIELD_LEVELS, INDEX_LEVELS, row};
use colour::{Colour, Overlay, Palette, Readable, colour_of_entry};

// Index 2:6: bits 7-6 choose a level, bits 5-0 a palette entry.
#[derive(Clone, Copy, PartialEq, Eq, Debug)]
pub struct Index26;

impl Index26 {
    // The palette entry that a pixel value chooses.
    #[inline(always)]
    pub fn entry_number(&self, value: u32) -> u8
        ensures is { result ≡ index_entry value }
        ensures chooses { ChoosesEntry value result }
    {
        (value % 64) as u8
    }
}

impl Readable for Index26 {
    ghost format = { λ _. format26 };

    #[inline(always)]
    fn bytes_per_pixel(&self) -> u8
        ensures is { result ≡ format26.width }
        ensures filled { 8 * result ≡ 2 + 6 }
    {
        1
    }

    #[inline(always)]
    fn colour(&self, palette: &Palette, value: u32) -> Colour
        ensures is { result ≡ format26.colour palette.now value }
        ensures shows { ShowsEntry palette.now value result }
    {
        palette.colour(self.entry_number(value))
    }
}

impl Overlay for Index26 {
    ghost levels = { λ _. level26 };

    ghost bounded = { λ _ v. index_bounded (v / 64 % 4) };

    #[inline(always)]
    #[tactic(auto, using(crate::proofs::Shown::index_level_of_row))]
    fn level(&self, value: u32) -> u8
        ensures is { result ≡ level26 value }
        ensures has { HasIndexLevel value result }
    {
        row(&INDEX_LEVELS, value / 64)
    }
}

// 4:4:4:4: bits 15-12 choose a level, bits 11-0 are a colour as in a palette entry.
#[derive(Clone, Copy, PartialEq, Eq, Debug)]
pub struct Argb4444;

impl Readable for Argb4444 {
    ghost format = { λ _. format4444 };

    #[inline(always)]
    fn bytes_per_pixel(&self) -> u8
        ensures is { result ≡ format4444.width }
        ensures filled { 8 * result ≡ 4 + 4 + 4 + 4 }
    {
        2
    }

    #[inline(always)]
    fn colour(&self, _palette: &Palette, value: u32) -> Colour
        ensures is { result ≡ format4444.colour _palette.now value }
        ensures shows { ShowsArgb value result }
    {
        colour_of_entry((value % 4096) as u16)
    }
}

impl Overlay for Argb4444 {
    ghost levels = { λ _. level4444 };

    ghost bounded = { λ _. bounded4444 };

    #[inline(always)]
    fn level(&self, value: u32) -> u8
        ensures is { result ≡ level4444 value }
        ensures has { HasArgbLevel value result }
    {
        row(&FIELD_LEVELS, value / 4096)
    }
}

// An overlay format that is chosen while the program runs. It is an enum: no proof is made of a trait object in a field, and a box would need a
// heap, which the engine does not have.
#[derive(Clone, Copy, PartialEq, Eq, Debug)]
pub enum OverlayKind {
    Index26,
    Argb4444,
}

impl Readable for OverlayKind {
    ghost format = { overlay_format };

    #[inline(always)]
    fn bytes_per_pixel(&self) -> u8
        ensures is { result ≡ (overlay_format self.now).width }
        ensures filled { 8 * result ≡ overlay_bits self.now }
    {
        match self {
            OverlayKind::Index26 => Index26.bytes_per_pixel(),
            OverlayKind::Argb4444 => Argb4444.bytes_per_pixel(),
        }
    }

    #[inline(always)]
    #[tactic(auto, using(crate::proofs::Shown::overlay_shows))]
    fn colour(&self, palette: &Palette, value: u32) -> Colour
        ensures is { result ≡ (overlay_format self.now).colour palette.now value }
        ensures shows { OverlayShows self.now palette.now value result }
    {
        match self {
            OverlayKind::Index26 => Index26.colour(palette, value),
            OverlayKind::Argb4444 => Argb4444.colour(palette, value),
        }
    }
}

impl Overlay for OverlayKind {
    ghost levels = { overlay_level };

    ghost bounded = { overlay_bounded };

    #[inline(always)]
    #[tactic(auto, using(crate::proofs::Shown::overlay_has_level))]
    fn level(&self, value: u32) -> u8
        ensures is { result ≡ overlay_level self.now value }
        ensures has { OverlayHasLevel self.now value result }
    {
        match self {
            OverlayKind::Index26 => Index26.level(value),
            OverlayKind::Argb4444 => Argb4444.level(value),
        }
    }
}
