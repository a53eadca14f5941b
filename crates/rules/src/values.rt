// What pixel rules do on plain values, so that whole rows can be drawn without going through colours.
use colour::{Colour, Fields};

/// What a pixel rule makes of the values of a pixel's sources, in colours, whatever the palette. Fields widen to
/// the channels of a colour.
#[derive(Clone, Copy)]
pub enum ColourRule {
    /// One colour, whatever the sources.
    Fill(Colour),
    /// The colour that the fields of the first value widen to.
    First(Fields),
    /// A raster rule on the colours of both values; only its lowest four bits count.
    Raster { rule: u8, fields: Fields },
    /// The colour of the first value, but none where the value is the key.
    Key { key: u32, fields: Fields },
    /// `one` for an odd value of the first source, `zero` or none for an even one.
    Expand { one: Colour, zero: Option<Colour> },
    /// The mean of the colours of both values, at a level of 0 to 32, and of 32 above that.
    Blend { level: u8, fields: Fields },
}

/// What a pixel rule does on the values of a pixel's sources, as numbers.
#[derive(Clone, Copy)]
pub enum ValueRule {
    /// One value, whatever the sources.
    Fill(u32),
    /// The value of the first source.
    First,
    /// A raster rule on each bit of both values; only its lowest four bits count.
    Raster(u8),
    /// The value of the first source, but none where it is the key.
    Key(u32),
    /// `one` for an odd value of the first source, `zero` or none for an even one.
    Expand { one: u32, zero: Option<u32> },
    /// The mean of both values, field by field, at a level of 0 to 32, and of 32 above that. Fields widen to
    /// channels, and their mean narrows back.
    Blend { level: u8, fields: Fields },
}
