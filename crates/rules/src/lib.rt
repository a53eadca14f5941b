// Pixel rules as values: one text can draw every operation.
#![tactic(auto)]

ghost use Rattle.std.specs.Prelude.{◌≡◌, ℕ, ◌<◌, ◌≤◌, true, Ok, Err, IfSome};
ghost use Rattle.refusal.specs.Numbers.{numbered};
ghost use Rattle.rules.specs.Yields.{Yields, raster_yields, key_yields, expand_yields, expand_over_yields, blend_yields, overlay_blend_yields, fill_yields};
ghost use Rattle.rules.specs.Colours.{Colours};
ghost use Rattle.rules.specs.Values.{Agrees};
ghost use Rattle.colour.specs.Unpacks.{Unpacks, Packs};

mod chosen;
mod values;

pub use chosen::Rule;
use colour::{Canvas, Colour, Fields, Overlay, Palette, Readable};
use refusal::Refusal;
pub use values::{ColourRule, ValueRule};

pub trait PixelRule {
    ghost yields: { Self → Yields };

    // The colour of a pixel whose sources have these values, or none, which leaves the pixel as it is.
    fn colour(&self, palette: &Palette, first: u32, second: u32) -> Option<Colour>
        ensures { result ≡ yields self.now palette.now first second };

    /// What the rule makes of the values in colours, whatever the palette, where it is known.
    fn on_colours(&self) -> Option<ColourRule>
        ensures { IfSome result (Colours (yields self.now)) }
    {
        None
    }
}

// Whether a format is known to be of these fields.
#[tactic(auto, using(crate::proofs::PlainValues::unpacks_same))]
fn has_fields<F: Readable>(format: &F, fields: Fields) -> bool
    ensures { result ≡ true → Unpacks (F.format format.now) fields }
{
    format.fields() == Some(fields)
}

// Whether a canvas is known to be of these fields both ways.
#[tactic(auto, using(crate::proofs::PlainValues::unpacks_same, crate::proofs::PlainValues::packs_same))]
fn packs_fields<D: Canvas>(canvas: &D, fields: Fields) -> bool
    ensures shows { result ≡ true → Unpacks (D.format canvas.now) fields }
    ensures packs { result ≡ true → Packs (D.narrowed canvas.now) fields }
{
    canvas.packed_fields() == Some(fields)
}

/// What a rule does on plain values on a canvas, where it is known: what it does in colours, narrowed.
pub fn on_values<R: PixelRule, D: Canvas>(rule: &R, canvas: &D) -> Option<ValueRule>
    ensures { IfSome result (Agrees (R.yields rule.now) (D.format canvas.now) (D.narrowed canvas.now)) }
{
    match rule.on_colours()? {
        ColourRule::Fill(colour) => Some(ValueRule::Fill(canvas.narrow(colour))),
        ColourRule::First(fields) => has_fields(canvas, fields).then_some(ValueRule::First),
        ColourRule::Raster { rule, fields } => {
            has_fields(canvas, fields).then_some(ValueRule::Raster(rule))
        }
        ColourRule::Key { key, fields } => {
            has_fields(canvas, fields).then_some(ValueRule::Key(key))
        }
        ColourRule::Expand { one, zero } => Some(ValueRule::Expand {
            one: canvas.narrow(one),
            zero: zero.map(|colour| canvas.narrow(colour)),
        }),
        ColourRule::Blend { level, fields } => {
            packs_fields(canvas, fields).then_some(ValueRule::Blend { level, fields })
        }
    }
}

// The raster rule that gives the first source, whatever the second.
const COPY: u8 = 12;

// A raster rule on both sources: a number, since its bits are its truth table.
#[derive(Clone, Copy)]
pub struct Raster<F, S> {
    pub rule: u8,
    pub first: F,
    pub second: S,
}

impl<F: Readable, S: Readable> PixelRule for Raster<F, S> {
    ghost yields = { λ r. raster_yields (F.format r.first) (S.format r.second) r.rule };

    #[inline(always)]
    fn colour(&self, palette: &Palette, first: u32, second: u32) -> Option<Colour> {
        pixel::raster(
            self.rule,
            self.first.colour(palette, first),
            self.second.colour(palette, second),
        )
    }

    fn on_colours(&self) -> Option<ColourRule> {
        let fields = self.first.fields()?;
        let rule = self.rule;
        if rule == COPY {
            return Some(ColourRule::First(fields));
        }
        has_fields(&self.second, fields).then_some(ColourRule::Raster { rule, fields })
    }
}

// The first source, of which the background colour is transparent.
#[derive(Clone, Copy)]
pub struct Key<F> {
    pub background: Colour,
    pub first: F,
}

impl<F: Canvas> PixelRule for Key<F> {
    ghost yields = { λ r. key_yields (F.format r.first) (F.narrowed r.first) r.background };

    #[inline(always)]
    fn colour(&self, palette: &Palette, first: u32, _second: u32) -> Option<Colour> {
        pixel::keyed(
            first,
            self.first.narrow(self.background),
            self.first.colour(palette, first),
        )
    }

    fn on_colours(&self) -> Option<ColourRule> {
        let fields = self.first.fields()?;
        let key = self.first.narrow(self.background);
        Some(ColourRule::Key { key, fields })
    }
}

// A one-bit picture in two colours.
#[derive(Clone, Copy)]
pub struct Expand {
    pub foreground: Colour,
    pub background: Colour,
}

impl PixelRule for Expand {
    ghost yields = { λ r. expand_yields r.foreground r.background };

    #[inline(always)]
    fn colour(&self, _palette: &Palette, first: u32, _second: u32) -> Option<Colour> {
        pixel::expanded(first, self.foreground, self.background)
    }

    fn on_colours(&self) -> Option<ColourRule> {
        Some(ColourRule::Expand {
            one: self.foreground,
            zero: Some(self.background),
        })
    }
}

// A one-bit picture whose zeros are transparent. A rule of its own and no Option of a background, as the chip has an
// operation for each.
#[derive(Clone, Copy)]
pub struct ExpandOver {
    pub foreground: Colour,
}

impl PixelRule for ExpandOver {
    ghost yields = { λ r. expand_over_yields r.foreground };

    #[inline(always)]
    fn colour(&self, _palette: &Palette, first: u32, _second: u32) -> Option<Colour> {
        pixel::expanded_over(first, self.foreground)
    }

    fn on_colours(&self) -> Option<ColourRule> {
        Some(ColourRule::Expand {
            one: self.foreground,
            zero: None,
        })
    }
}

// Both sources, blended at one level. Not one type with `Raster`: only their fields look alike.
#[derive(Clone, Copy)]
pub struct Blend<F, S> {
    pub level: u8,
    pub first: F,
    pub second: S,
}

// The most that a level can be.
const LEVEL_LIMIT: u8 = 32;

impl<F: Copy, S: Copy> Blend<F, S> {
    ghost use Rattle.rules.specs.Levels.{blend_at};

    /// A blend of two sources at a level that a host asks for, 0 to 32; a higher one is declined with `LevelTooHigh`.
    pub fn new(level: u8, first: F, second: S) -> Result<Blend<F, S>, Refusal>
        ensures ok { level ≤ 32 → numbered result ≡ Ok (blend_at level first second) }
        ensures too_high { 32 < level → numbered result ≡ Err 6 }
    {
        if level > LEVEL_LIMIT {
            return Err(Refusal::LevelTooHigh);
        }
        Ok(Blend {
            level,
            first,
            second,
        })
    }
}

impl<F: Readable, S: Readable> PixelRule for Blend<F, S> {
    ghost yields = { λ r. blend_yields (F.format r.first) (S.format r.second) r.level };

    #[inline(always)]
    fn colour(&self, palette: &Palette, first: u32, second: u32) -> Option<Colour> {
        pixel::blended(
            self.level,
            self.first.colour(palette, first),
            self.second.colour(palette, second),
        )
    }

    fn on_colours(&self) -> Option<ColourRule> {
        let fields = self.first.fields()?;
        let level = self.level;
        has_fields(&self.second, fields).then_some(ColourRule::Blend { level, fields })
    }
}

// Both sources, blended at the level that each pixel of the second has.
#[derive(Clone, Copy)]
pub struct OverlayBlend<F, S> {
    pub first: F,
    pub second: S,
}

impl<F: Readable, S: Overlay> PixelRule for OverlayBlend<F, S> {
    ghost yields = { λ r. overlay_blend_yields (F.format r.first) (S.format r.second) (S.levels r.second) };

    #[inline(always)]
    fn colour(&self, palette: &Palette, first: u32, second: u32) -> Option<Colour> {
        let level = self.second.level(second);
        pixel::blended(
            level,
            self.first.colour(palette, first),
            self.second.colour(palette, second),
        )
    }
}

// One colour, whatever the sources.
#[derive(Clone, Copy)]
pub struct Fill {
    pub foreground: Colour,
}

impl PixelRule for Fill {
    ghost yields = { λ r. fill_yields r.foreground };

    #[inline(always)]
    fn colour(&self, _palette: &Palette, _first: u32, _second: u32) -> Option<Colour> {
        pixel::filled(self.foreground)
    }

    fn on_colours(&self) -> Option<ColourRule> {
        Some(ColourRule::Fill(self.foreground))
    }
}
