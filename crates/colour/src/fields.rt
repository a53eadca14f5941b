// The fields of a pixel value that has three.
ghost use Rattle.std.specs.Prelude.{◌≡◌, ℕ, ◌+◌, ◌*◌, ◌/◌, ◌%◌, ◌^◌};
ghost use Rattle.colour.specs.Widths.{bits_of};
ghost use Rattle.colour.specs.Packing.{unpacked, unpacked_colour, packed};

use crate::Colour;
use crate::field::FieldWidth;

// The widths of three fields that stand side by side, the first in the highest bits.
#[derive(Clone, Copy, PartialEq, Eq, Debug)]
pub struct Fields {
    pub high: FieldWidth,
    pub middle: FieldWidth,
    pub low: FieldWidth,
}

impl Fields {
    ghost use Rattle.colour.specs.Places.{FieldsWiden, FieldsShow, FieldsHold};

    // The channels that the fields of a value widen to.
    #[inline(always)]
    pub fn unpack(self, value: u32) -> (u8, u8, u8)
        ensures unpacks { result ≡ unpacked (bits_of self.high) (bits_of self.middle) (bits_of self.low) value }
        ensures fields { FieldsWiden self value result }
    {
        let above_low = value >> self.low.bits();
        let above_middle = above_low >> self.middle.bits();
        (
            self.high.widen((above_middle % 256) as u8),
            self.middle.widen((above_low % 256) as u8),
            self.low.widen((value % 256) as u8),
        )
    }

    // The value whose fields are what the channels narrow to.
    #[inline(always)]
    pub fn pack(self, high: u8, middle: u8, low: u8) -> u32
        ensures { result ≡ packed (bits_of self.high) (bits_of self.middle) (bits_of self.low) high middle low }
    {
        let high = self.high.narrow(high) as u32;
        let middle = self.middle.narrow(middle) as u32;
        let low = self.low.narrow(low) as u32;
        let upper = (high << self.middle.bits()) + middle;
        (upper << self.low.bits()) + low
    }

    // The colour whose red, green and blue stand in the fields of a value, red in the highest.
    #[inline(always)]
    pub fn colour(self, value: u32) -> Colour
        ensures unpacks { result ≡ unpacked_colour (bits_of self.high) (bits_of self.middle) (bits_of self.low) value }
        ensures fields { FieldsShow self value result }
    {
        let (red, green, blue) = self.unpack(value);
        Colour { red, green, blue }
    }

    // The value in whose fields the red, green and blue of a colour stand, red in the highest.
    #[inline(always)]
    pub fn narrow(self, colour: Colour) -> u32
        ensures packs { result ≡ packed (bits_of self.high) (bits_of self.middle) (bits_of self.low) colour.red colour.green colour.blue }
        ensures fields { FieldsHold self colour result }
    {
        self.pack(colour.red, colour.green, colour.blue)
    }
}
