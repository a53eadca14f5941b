// The register file.
ghost use Rattle.std.specs.Prelude.{◌≡◌, ℕ, ◌+◌, ◌<◌, ◌≤◌, replicate, slice_index, slice_set};
ghost use Rattle.panel.specs.Registers.{surface_at, colour_at, settings_of};

use crate::register::Register;
use colour::Colour;
use job::{Settings, Surface};

// A source or the destination, as its four numbers stand in the file, low bytes first. Its depth is a number, since which depths are
// taken is judged when a draft is cleared.
fn surface(depth: u8, bytes: [u8; 10]) -> Surface
    ensures { result ≡ surface_at bytes depth 0 }
{
    Surface {
        depth,
        start: u32::from_le_bytes([bytes[0], bytes[1], bytes[2], bytes[3]]),
        image: u16::from_le_bytes([bytes[4], bytes[5]]),
        left: u16::from_le_bytes([bytes[6], bytes[7]]),
        top: u16::from_le_bytes([bytes[8], bytes[9]]),
    }
}

// No `From`: a colour is another crate's type.
fn colour(bytes: [u8; 3]) -> Colour
    ensures { result ≡ colour_at bytes 0 }
{
    let [red, green, blue] = bytes;
    Colour { red, green, blue }
}

// 256 places, of which only some are registers.
#[derive(Clone, Copy)]
pub struct Registers {
    places: [u8; 256],
}

impl Registers {
    pub(crate) fn new() -> Registers
        ensures { result.places ≡ replicate 256 0 }
    {
        Registers { places: [0u8; 256] }
    }

    pub(crate) fn value(&self, register: Register) -> u8
        ensures { result ≡ slice_index self.now.places register.number }
    {
        self.places[register.number as usize]
    }

    pub(crate) fn set(&mut self, register: Register, value: u8)
        ensures { self.new.places ≡ slice_set self.old.places register.number value }
    {
        self.places[register.number as usize] = value;
    }

    // So many bytes, from a register on. It takes a number, since a `Register` says nothing of the places that follow it.
    fn bytes<const N: usize>(&self, register: u8) -> [u8; N]
        requires { register + N ≤ 256 }
        ensures { (i : ℕ) → i < N → slice_index result i ≡ slice_index self.now.places (register + i) }
    {
        let start = register as usize;
        let mut bytes = [0; N];
        bytes.copy_from_slice(&self.places[start..start + N]);
        bytes
    }

    // What the registers set for an operation that a write of 90h starts.
    pub(crate) fn settings(&self, control: u8) -> Settings
        ensures { result ≡ settings_of self.now.places control }
    {
        let [operation, depths] = self.bytes::<2>(0x91);
        let [level] = self.bytes::<1>(0xB5);
        Settings {
            operation: operation % 16,
            code: operation / 16,
            large: control % 2 == 1,
            level: level % 64,
            first: surface(depths / 32 % 4, self.bytes(0x93)),
            second: surface(depths / 4 % 8, self.bytes(0x9D)),
            target: surface(depths % 4, self.bytes(0xA7)),
            width: u16::from_le_bytes(self.bytes(0xB1)),
            height: u16::from_le_bytes(self.bytes(0xB3)),
            foreground: colour(self.bytes(0xD2)),
            background: colour(self.bytes(0xD5)),
        }
    }
}
