// A canvas format that stands in a crate of its own: 5:6:5 with blue in the highest bits and red in the lowest.
#![tactic(auto)]

ghost use Rattle.std.specs.Prelude.{◌≡◌, ℕ, ◌+◌, ◌-◌, ◌*◌, ◌/◌, ◌%◌, ◌^◌, ◌<◌, ◌≤◌};
ghost use Rattle.blue_first.specs.Packed.{formatBgr, narrowBgr};
ghost use Rattle.blue_first.specs.Laws.{narrowsBgr};

use colour::{Canvas, Colour, FieldWidth, Fields, Palette, Readable};

#[derive(Clone, Copy, PartialEq, Eq, Debug)]
pub struct Bgr565;

impl Bgr565 {
    const FIELDS: Fields = Fields {
        high: FieldWidth::Five,
        middle: FieldWidth::Six,
        low: FieldWidth::Five,
    };
}

impl Readable for Bgr565 {
    ghost format = { λ _. formatBgr };

    fn bytes_per_pixel(&self) -> u8 {
        2
    }

    fn colour(&self, _palette: &Palette, value: u32) -> Colour {
        let (blue, green, red) = Bgr565::FIELDS.unpack(value);
        Colour { red, green, blue }
    }
}

impl Canvas for Bgr565 {
    ghost narrowed = { λ _. narrowBgr };

    ghost keeps = { λ _. narrowsBgr };

    fn narrow(&self, colour: Colour) -> u32 {
        Bgr565::FIELDS.pack(colour.blue, colour.green, colour.red)
    }
}
