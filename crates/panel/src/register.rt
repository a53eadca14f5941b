// Which registers exist.
ghost use Rattle.panel.specs.Registers.{FindsRegister};

use refusal::Refusal;

// The number of a register that exists.
#[derive(Clone, Copy, PartialEq)]
pub struct Register {
    pub(crate) number: u8,
}

// Its bit 4 starts an operation.
pub(crate) const CONTROL: Register = Register { number: 0x90 };

// Its bits 1 and 0 open a palette load.
pub(crate) const PALETTE: Register = Register { number: 0x03 };

impl TryFrom<u8> for Register {
    type Error = Refusal;

    ghost try_from_gives = { FindsRegister };

    fn try_from(number: u8) -> Result<Register, Refusal> {
        match number {
            0x03 | 0x90..=0xB5 | 0xD2..=0xD7 => Ok(Register { number }),
            _ => Err(Refusal::NoSuchRegister),
        }
    }
}
