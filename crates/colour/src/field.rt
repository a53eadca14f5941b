// Fields of a pixel value that are narrower than a channel.
ghost use Rattle.std.specs.Prelude.{◌≡◌, ℕ, ◌%◌, ◌^◌};
ghost use Rattle.colour.specs.Widths.{bits_of, widened, narrowed, RepeatsField, TakesTop};

// The widths that a field of a pixel value can have, in bits.
#[derive(Clone, Copy, PartialEq, Eq, Debug)]
pub enum FieldWidth {
    Two = 2,
    Three = 3,
    Four = 4,
    Five = 5,
    Six = 6,
    Eight = 8,
}

impl FieldWidth {
    #[inline(always)]
    pub fn bits(self) -> u8
        ensures { result ≡ bits_of self }
    {
        self as u8
    }

    // The channel that the lowest bits of `field` widen to.
    #[inline(always)]
    #[tactic(auto, using(crate::proofs::FieldBits::widened_repeats))]
    pub fn widen(self, field: u8) -> u8
        ensures widens { result ≡ widened (bits_of self) (field % 2 ^ bits_of self) }
        ensures back { narrowed (bits_of self) result ≡ field % 2 ^ bits_of self }
        ensures repeats { RepeatsField (bits_of self) field result }
    {
        match self {
            FieldWidth::Two => 85 * (field % 4),
            FieldWidth::Three => 36 * (field % 8) + field % 8 / 2,
            FieldWidth::Four => 17 * (field % 16),
            FieldWidth::Five => 8 * (field % 32) + field % 32 / 4,
            FieldWidth::Six => 4 * (field % 64) + field % 64 / 16,
            FieldWidth::Eight => field,
        }
    }

    // The field that a channel narrows to.
    #[inline(always)]
    #[tactic(auto, using(crate::proofs::FieldBits::narrowed_top))]
    pub fn narrow(self, channel: u8) -> u8
        ensures narrows { result ≡ narrowed (bits_of self) channel }
        ensures top { TakesTop (bits_of self) channel result }
    {
        channel >> (8 - self.bits())
    }
}
