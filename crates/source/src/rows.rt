// A one-bit picture, row by row.
ghost use Rattle.std.specs.Prelude.{◌<◌};
ghost use Rattle.source.specs.Units.{unit_bits};

// The bits that come together.
#[derive(Clone, Copy)]
pub enum Unit {
    Eight = 8,
    Sixteen = 16,
}

// No unit holds bits of two rows. A row goes down from the start bit of its first unit, and from the top bit of every other.
// Ghost fields and no model: where a value with a model stands inside an enum, as it would in `Source`, another crate that keeps
// a drawing over a branch gets no proof.
#[derive(Clone, Copy)]
pub struct BitRows {
    pub(crate) unit: Unit,
    pub(crate) start_bit: u8,
    pub(crate) columns: u16,
    ghost within: { start_bit < unit_bits unit },
    ghost some: { 0 < columns },
}
