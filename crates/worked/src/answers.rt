// What comes of the examples.
use colour::Colour;

#[derive(Clone, Copy)]
pub struct Worked {
    // the field, widened to a channel
    pub channel: u8,
    // the colour of the value in 5:6:5
    pub colour: Colour,
    // the colour, narrowed into 5:6:5
    pub in_565: u32,
    // and into 3:3:2
    pub in_332: u32,
    // the palette entry that the bytes load
    pub entry: u16,
    // the level of the value in Index 2:6
    pub level: u8,
    // and the palette entry that it chooses
    pub entry_number: u8,
    // each raster rule on the two channels
    pub first_raster: u8,
    pub second_raster: u8,
    pub third_raster: u8,
    // each blend
    pub first_blend: u8,
    pub second_blend: u8,
    // the units of each row
    pub first_units: u32,
    pub second_units: u32,
}
