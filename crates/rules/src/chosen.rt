// A pixel rule that is chosen while the program runs. It is an enum: no proof is made of a trait object in a field, and a box would need a
// heap, which the engine does not have.
ghost use Rattle.std.specs.Prelude.{◌≡◌, ℕ};
ghost use Rattle.rules.specs.Chosen.{rule_yields};
ghost use Rattle.rules.specs.Meanings.{Means};

use crate::{Blend, ColourRule, Expand, ExpandOver, Fill, Key, OverlayBlend, PixelRule, Raster};
use colour::{Colour, Palette};
use formats::{Depth, OverlayKind};

#[derive(Clone, Copy)]
pub enum Rule {
    Raster(Raster<Depth, Depth>),
    Key(Key<Depth>),
    Expand(Expand),
    ExpandOver(ExpandOver),
    Blend(Blend<Depth, Depth>),
    OverlayBlend(OverlayBlend<Depth, OverlayKind>),
    Fill(Fill),
}

impl PixelRule for Rule {
    ghost yields = { rule_yields };

    #[inline(always)]
    #[tactic(auto, using(crate::proofs::Meanings::means_of))]
    fn colour(&self, palette: &Palette, first: u32, second: u32) -> Option<Colour>
        ensures is { result ≡ rule_yields self.now palette.now first second }
        ensures means { Means self.now palette.now first second result }
    {
        match self {
            Rule::Raster(rule) => rule.colour(palette, first, second),
            Rule::Key(rule) => rule.colour(palette, first, second),
            Rule::Expand(rule) => rule.colour(palette, first, second),
            Rule::ExpandOver(rule) => rule.colour(palette, first, second),
            Rule::Blend(rule) => rule.colour(palette, first, second),
            Rule::OverlayBlend(rule) => rule.colour(palette, first, second),
            Rule::Fill(rule) => rule.colour(palette, first, second),
        }
    }

    fn on_colours(&self) -> Option<ColourRule> {
        match self {
            Rule::Raster(rule) => rule.on_colours(),
            Rule::Key(rule) => rule.on_colours(),
            Rule::Expand(rule) => rule.on_colours(),
            Rule::ExpandOver(rule) => rule.on_colours(),
            Rule::Blend(rule) => rule.on_colours(),
            Rule::OverlayBlend(rule) => rule.on_colours(),
            Rule::Fill(rule) => rule.on_colours(),
        }
    }
}
