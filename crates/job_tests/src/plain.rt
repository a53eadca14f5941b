// Pictures drawn pixel by pixel on plain bytes, straight from the settings of a job: what the job's own picture is compared with. It
// shares nothing with the engine.
ghost use Rattle.std.specs.Prelude.{◌≤◌};

use colour::Colour;
use job::{Settings, Surface};

// How many bytes a pixel has.
pub(crate) fn pixel_bytes(depth: u8) -> u8 {
    match depth {
        0 => 1,
        1 => 2,
        _ => 3,
    }
}

// Where a pixel of an image begins.
fn place(surface: &Surface, column: u16, row: u16) -> usize {
    let rows = surface.top as usize + row as usize;
    let pixels = rows * surface.image as usize + surface.left as usize + column as usize;
    surface.start as usize + pixels * pixel_bytes(surface.depth) as usize
}

// The value of a pixel that begins at a place, low byte first.
pub(crate) fn value(bytes: &[u8], place: usize, depth: u8) -> u32 {
    let mut own = [0; 4];
    let held = bytes.get(place..).unwrap_or(&[]);
    for (byte, held) in own.iter_mut().zip(held).take(pixel_bytes(depth) as usize) {
        *byte = *held;
    }
    u32::from_le_bytes(own)
}

// Puts the value of a pixel.
fn put(bytes: &mut [u8], place: usize, depth: u8, value: u32) {
    let own = value.to_le_bytes();
    for (i, own) in own.iter().enumerate().take(pixel_bytes(depth) as usize) {
        if let Some(byte) = bytes.get_mut(place.saturating_add(i)) {
            *byte = *own;
        }
    }
}

// The channel that a field of so many bits widens to: its bits over and over.
fn widened(bits: u8, field: u32) -> u8 {
    let wide = match bits {
        2 => field % 4 * 0x55,
        3 => field % 8 * 0x124 / 8 % 256,
        5 => field % 32 * 0x21 / 4 % 256,
        6 => field % 64 * 0x41 / 16 % 256,
        _ => field % 256,
    };
    (wide % 256) as u8
}

// The colour of a value.
pub(crate) fn colour(depth: u8, value: u32) -> Colour {
    let (red, green, blue) = match depth {
        0 => ((3, value / 32), (3, value / 4), (2, value)),
        1 => ((5, value / 2048), (6, value / 32), (5, value)),
        _ => ((8, value / 65536), (8, value / 256), (8, value)),
    };
    Colour {
        red: widened(red.0, red.1),
        green: widened(green.0, green.1),
        blue: widened(blue.0, blue.1),
    }
}

// The value of a colour: the highest bits of each channel.
fn narrowed(depth: u8, colour: Colour) -> u32 {
    let red = colour.red as u32;
    let green = colour.green as u32;
    let blue = colour.blue as u32;
    match depth {
        0 => red / 32 * 32 + green / 32 * 4 + blue / 64,
        1 => red / 8 * 2048 + green / 4 * 32 + blue / 8,
        _ => red * 65536 + green * 256 + blue,
    }
}

// What a raster rule, or a blend, makes of one channel.
fn channel(settings: &Settings, first: u8, second: u8) -> u8 {
    let level = settings.level.min(32) as u32;
    match (settings.operation, settings.code) {
        (10 | 11, _) => ((first as u32 * level + second as u32 * (32 - level)) / 32 % 256) as u8,
        (_, 3) => !first,
        (_, 6) => first ^ second,
        (_, 8) => first & second,
        (_, 14) => first | second,
        _ => first,
    }
}

// What a pixel becomes by the values of its sources, or none, where it stays.
fn drawn(settings: &Settings, first: u32, second: u32) -> Option<Colour> {
    let one = colour(settings.first.depth, first);
    match settings.operation {
        4 | 5 | 7 => {
            let key = narrowed(settings.first.depth, settings.background);
            (first != key).then_some(one)
        }
        8 | 14 if first == 0 => Some(settings.background),
        9 | 15 if first == 0 => None,
        8 | 9 | 12 | 14 | 15 => Some(settings.foreground),
        _ => {
            let other = colour(settings.second.depth, second);
            Some(Colour {
                red: channel(settings, one.red, other.red),
                green: channel(settings, one.green, other.green),
                blue: channel(settings, one.blue, other.blue),
            })
        }
    }
}

// How many bits a unit has.
fn unit_bits(settings: &Settings) -> u8
    ensures { 8 ≤ result }
{
    if settings.first.depth == 0 { 8 } else { 16 }
}

// The bits of a row's first unit that are above its start bit.
fn skipped(settings: &Settings) -> u8 {
    (unit_bits(settings) - 1).saturating_sub(settings.code)
}

// How many units a row of bits has.
fn row_units(settings: &Settings) -> u32 {
    let bits = settings.width as u32 + skipped(settings) as u32;
    bits.div_ceil(unit_bits(settings) as u32)
}

// The bit of a pixel in rows of units, which begin at a place; a unit has its low byte first.
fn bit(settings: &Settings, bytes: &[u8], start: u32, column: u16, row: u16) -> u32 {
    let unit = unit_bits(settings) as usize;
    let from_top = skipped(settings) as usize + column as usize;
    let bit = unit - 1 - from_top % unit;
    let units = row as usize * row_units(settings) as usize + from_top / unit;
    let place = start as usize + units * (unit / 8) + bit / 8;
    let byte = bytes.get(place).copied().unwrap_or(0);
    (byte >> (bit % 8)) as u32 % 2
}

// How many bytes the host sends.
pub(crate) fn bytes_to_send(settings: &Settings) -> usize {
    let width = settings.width as usize;
    let height = settings.height as usize;
    match settings.operation {
        0 | 4 | 11 => width * height * pixel_bytes(settings.first.depth) as usize,
        8 | 9 => row_units(settings) as usize * height * (unit_bits(settings) as usize / 8),
        _ => 0,
    }
}

// The value of a pixel of the first source.
fn first_value(settings: &Settings, sent: &[u8], bytes: &[u8], column: u16, row: u16) -> u32 {
    let first = &settings.first;
    let side = if settings.large { 16 } else { 8 };
    match settings.operation {
        0 | 4 | 11 => {
            let pixel = row as usize * settings.width as usize + column as usize;
            value(sent, pixel * pixel_bytes(first.depth) as usize, first.depth)
        }
        6 | 7 => value(bytes, place(first, column % side, row % side), first.depth),
        8 | 9 => bit(settings, sent, 0, column, row),
        14 | 15 => bit(settings, bytes, first.start, column, row),
        _ => value(bytes, place(first, column, row), first.depth),
    }
}

// Draws all pixels, row by row, each as soon as its sources are read.
pub(crate) fn draw_plainly(settings: &Settings, sent: &[u8], bytes: &mut [u8]) {
    let second = &settings.second;
    let target = &settings.target;
    for row in 0..settings.height {
        for column in 0..settings.width {
            let one = first_value(settings, sent, bytes, column, row);
            let other = value(bytes, place(second, column, row), second.depth);
            if let Some(colour) = drawn(settings, one, other) {
                let value = narrowed(target.depth, colour);
                put(bytes, place(target, column, row), target.depth, value);
            }
        }
    }
}
