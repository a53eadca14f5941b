// What the examples are worked on.
use colour::Colour;
use source::Unit;

/// Two channels, and the level at which they are blended.
#[derive(Clone, Copy)]
pub struct Blending {
    pub level: u8,
    pub first: u8,
    pub second: u8,
}

/// A row of one-bit pixels.
#[derive(Clone, Copy)]
pub struct BitRow {
    pub unit: Unit,
    pub start_bit: u8,
    pub columns: u16,
}

#[derive(Clone, Copy)]
pub struct Inputs {
    // a field of three bits
    pub field: u8,
    // a pixel value in 5:6:5
    pub value: u32,
    // a colour to be narrowed
    pub colour: Colour,
    // the two bytes of a palette entry, low byte first
    pub low: u8,
    pub high: u8,
    // a pixel value in Index 2:6
    pub index: u32,
    // three raster rules, and the channels that they combine
    pub first_rule: u8,
    pub second_rule: u8,
    pub third_rule: u8,
    pub first_channel: u8,
    pub second_channel: u8,
    pub first_blend: Blending,
    pub second_blend: Blending,
    pub first_row: BitRow,
    pub second_row: BitRow,
}
