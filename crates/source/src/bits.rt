// The bits of one-bit pictures.
ghost use Rattle.std.specs.Prelude.{◌≡◌, ℕ, ◌+◌, ◌-◌, ◌*◌, ◌/◌, ◌%◌, ◌^◌, ◌<◌, ◌≤◌};
ghost use Rattle.source.specs.Units.{unit_bits};
ghost use Rattle.source.specs.Rows.{rows_of, skipped, row_units, depth_in_row, bit_of, unit_of, unit_pixels, unit_address, units_bytes, bit_address, rows_reach, rows_at, shown_rows, RowsMade};
ghost use Rattle.source.specs.Pictures.{BitsInRowOrder, FewestUnits, GivesItsOwn};

use crate::rows::{BitRows, Unit};
use refusal::Refusal;

impl Unit {
    // How many bits a unit has.
    pub fn bits(&self) -> u8
        ensures { result ≡ unit_bits self.now }
    {
        *self as u8
    }
}

impl BitRows {
    // Rows of bits, or a refusal where the start bit is not a bit of the unit. Rows of no columns are declined as a side of 0 is.
    #[tactic(auto, using(crate::proofs::Pictures::rows_made))]
    pub fn new(unit: Unit, start_bit: u8, columns: u16) -> Result<BitRows, Refusal>
        ensures is { shown_rows result
            ≡ rows_at (record { unit = unit_bits unit; start = start_bit; columns = columns }) }
        ensures exactly { RowsMade (record { unit = unit_bits unit; start = start_bit; columns = columns })
            (shown_rows result) }
    {
        if start_bit >= unit.bits() {
            return Err(Refusal::StartBitPastUnit);
        }
        if columns == 0 {
            return Err(Refusal::OutsideWindowLimits);
        }
        Ok(BitRows {
            unit,
            start_bit,
            columns,
        })
    }

    // The bits of a row's first unit that lie above the start bit.
    fn skipped(&self) -> u32
        ensures { result ≡ skipped (rows_of self.now) }
    {
        self.unit.bits() as u32 - 1 - self.start_bit as u32
    }

    // How many units a row has.
    #[tactic(auto, using(crate::proofs::Reaches::rounded_up, crate::proofs::Pictures::row_fewest))]
    pub fn units(&self) -> u32
        ensures is { result ≡ row_units (rows_of self.now) }
        ensures fewest { FewestUnits (rows_of self.now) result }
    {
        (self.columns as u32 + self.skipped()).div_ceil(self.unit.bits() as u32)
    }

    // How far pixel k lies from the top bit of its row's first unit.
    fn depth_in_row(&self, k: u32) -> u32
        ensures { result ≡ depth_in_row (rows_of self.now) k }
    {
        k % self.columns as u32 + self.skipped()
    }

    // How far pixel k lies from the top bit of its unit.
    pub(crate) fn depth(&self, k: u32) -> u32
        ensures { result ≡ depth_in_row (rows_of self.now) k % (rows_of self.now).unit }
    {
        self.depth_in_row(k) % self.unit.bits() as u32
    }

    // The bit of its unit that pixel k takes.
    #[tactic(auto, using(crate::proofs::Pictures::bits_in_row_order))]
    pub fn bit(&self, k: u32) -> u32
        ensures is { result ≡ bit_of (rows_of self.now) k }
        ensures order { BitsInRowOrder (rows_of self.now) }
    {
        let bits = self.unit.bits() as u32;
        bits - 1 - self.depth_in_row(k) % bits
    }

    // How many pixels a unit gives whose first pixel is k.
    #[tactic(auto, using(crate::proofs::Pictures::row_gives))]
    pub fn unit_pixels(&self, k: u32) -> u32
        ensures is { result ≡ unit_pixels (rows_of self.now) k }
        ensures own { GivesItsOwn (rows_of self.now) k result }
    {
        let bits = self.unit.bits() as u32;
        let columns = self.columns as u32;
        (bits - self.depth_in_row(k) % bits).min(columns - k % columns)
    }

    // Where the byte lies that holds the bit of pixel k, if the rows begin at `start`.
    pub fn address(&self, start: u32, k: u32) -> u64
        ensures { result ≡ bit_address (rows_of self.now) start k }
    {
        self.unit_address(start, k) + self.bit(k) as u64 / 8
    }

    // Where the unit of pixel k begins, if the rows begin at `start`.
    pub(crate) fn unit_address(&self, start: u32, k: u32) -> u64
        ensures { result ≡ unit_address (rows_of self.now) start k }
    {
        let bits = self.unit.bits() as u64;
        let row = (k / self.columns as u32) as u64;
        let unit = row * self.units() as u64 + self.depth_in_row(k) as u64 / bits;
        start as u64 + unit * (bits / 8)
    }

    // How many bytes the units have that hold `count` pixels of a row, the first of them being k.
    pub(crate) fn bytes_of(&self, k: u32, count: u32) -> u64
        ensures { result ≡ units_bytes (rows_of self.now) k count }
    {
        let bits = self.unit.bits() as u64;
        (self.depth(k) as u64 + count as u64).div_ceil(bits) * (bits / 8)
    }

    // The first address past so many rows, if they begin at `start`.
    pub(crate) fn reach(&self, start: u32, height: u16) -> u64
        ensures { result ≡ rows_reach (rows_of self.now) start height }
    {
        let bytes = self.unit.bits() as u64 / 8;
        start as u64 + self.units() as u64 * height as u64 * bytes
    }
}
