// What a host sets before a start, as the numbers that it writes. Numbers and no enums: any of them can be written, and which are
// taken is for the tests of a start to say.
use colour::Colour;

// An image in memory: its depth or kind, where it lies, how wide it is, and where in it a window begins.
#[derive(Clone, Copy)]
pub struct Surface {
    pub depth: u8,
    pub start: u32,
    pub image: u16,
    pub left: u16,
    pub top: u16,
}

// `code` is the raster rule, or the start bit of an expansion; `large` chooses patterns of 16 × 16.
#[derive(Clone, Copy)]
pub struct Settings {
    pub operation: u8,
    pub code: u8,
    pub large: bool,
    pub level: u8,
    pub first: Surface,
    pub second: Surface,
    pub target: Surface,
    pub width: u16,
    pub height: u16,
    pub foreground: Colour,
    pub background: Colour,
}
