// Worked examples: one table of values, each computed by the public calls.
#![tactic(auto)]

ghost use Rattle.std.specs.Prelude.{◌≡◌};
ghost use Rattle.worked.specs.Examples.{units_of, examples, sheet_inputs, SheetNumbers};

mod answers;
mod inputs;

pub use answers::Worked;
use colour::{Canvas, Colour, FieldWidth, Overlay, Palette, Readable, entry_of_bytes};
use formats::{Index26, Rgb332, Rgb565};
pub use inputs::{BitRow, Blending, Inputs};
use pixel::{blend_channel, raster_channel};
use source::{BitRows, Unit};

// The units of a row, or 0 where there can be no such row.
fn units(row: BitRow) -> u32
    ensures { result ≡ units_of row }
{
    BitRows::new(row.unit, row.start_bit, row.columns).map_or(0, |rows| rows.units())
}

/// What the examples are worked on in the data sheet.
pub fn sheet_inputs() -> Inputs
    ensures { result ≡ sheet_inputs }
{
    Inputs {
        field: 5,
        value: 0xF81F,
        colour: Colour {
            red: 255,
            green: 128,
            blue: 64,
        },
        low: 0x34,
        high: 0xF2,
        index: 0x9F,
        first_rule: 2,
        second_rule: 9,
        third_rule: 11,
        first_channel: 0x0F,
        second_channel: 0x3C,
        first_blend: Blending {
            level: 16,
            first: 200,
            second: 101,
        },
        second_blend: Blending {
            level: 31,
            first: 255,
            second: 0,
        },
        first_row: BitRow {
            unit: Unit::Eight,
            start_bit: 7,
            columns: 50,
        },
        second_row: BitRow {
            unit: Unit::Sixteen,
            start_bit: 0,
            columns: 50,
        },
    }
}

/// Works the examples out. Whatever the inputs, each answer is what its definition says; at the inputs of the data sheet the
/// definitions give its numbers.
#[tactic(auto, unfolding(pixel::specs::Rasters::raster_bits, pixel::specs::Blends::blend_channel))]
pub fn worked_examples(inputs: Inputs) -> Worked
    ensures each { result ≡ examples inputs }
    ensures sheet { SheetNumbers }
{
    Worked {
        channel: FieldWidth::Three.widen(inputs.field),
        colour: Rgb565.colour(&Palette::new(), inputs.value),
        in_565: Rgb565.narrow(inputs.colour),
        in_332: Rgb332.narrow(inputs.colour),
        entry: entry_of_bytes(inputs.low, inputs.high),
        level: Index26.level(inputs.index),
        entry_number: Index26.entry_number(inputs.index),
        first_raster: raster_channel(
            inputs.first_rule,
            inputs.first_channel,
            inputs.second_channel,
        ),
        second_raster: raster_channel(
            inputs.second_rule,
            inputs.first_channel,
            inputs.second_channel,
        ),
        third_raster: raster_channel(
            inputs.third_rule,
            inputs.first_channel,
            inputs.second_channel,
        ),
        first_blend: blend_channel(
            inputs.first_blend.level,
            inputs.first_blend.first,
            inputs.first_blend.second,
        ),
        second_blend: blend_channel(
            inputs.second_blend.level,
            inputs.second_blend.first,
            inputs.second_blend.second,
        ),
        first_units: units(inputs.first_row),
        second_units: units(inputs.second_row),
    }
}
