// A command line: a letter, then fields of upper-case hexadecimal digits, a single space before each.
ghost use Rattle.std.specs.Prelude.{◌≡◌, ℕ, ◌+◌, ◌*◌, ◌<◌, ◌≤◌, Bool, List, [], ◌∷◌, ◌++◌, length, Some, slice_index};
ghost use Rattle.panel_calls.specs.Calls.{Call};
ghost use Rattle.bench_lines.specs.Commands.{meant, write_line, read_register, burst_line, run_line, memory_line, alone, call_of, command_of};
ghost use Rattle.bench_lines.specs.Spelling.{spelled, Sayable};

use crate::digits::byte;
use crate::payload::Payload;

// Registers and addresses are any numbers, as a line can spell them.
#[derive(Clone, Copy)]
pub enum Command {
    Write { register: u8, value: u8 },
    Read { register: u8 },
    Burst(Payload),
    Run { pixels: u16 },
    Stop,
    Status,
    Memory { address: u32 },
}

// W rr vv, from the first space on.
fn parse_write(fields: &[u8]) -> Option<Command>
    ensures { meant result ≡ write_line (87 ∷ fields.now) }
{
    let [b' ', a, b, b' ', c, d] = *fields else {
        return None;
    };
    let register = byte(a, b)?;
    let value = byte(c, d)?;
    Some(Command::Write { register, value })
}

// R rr
fn parse_read(fields: &[u8]) -> Option<Command>
    ensures { meant result ≡ read_register (82 ∷ fields.now) }
{
    let [b' ', a, b] = *fields else {
        return None;
    };
    let register = byte(a, b)?;
    Some(Command::Read { register })
}

// G nnnn
fn parse_run(fields: &[u8]) -> Option<Command>
    ensures { meant result ≡ run_line (71 ∷ fields.now) }
{
    let [b' ', a, b, c, d] = *fields else {
        return None;
    };
    let high = byte(a, b)?;
    let low = byte(c, d)?;
    let pixels = u16::from_be_bytes([high, low]);
    Some(Command::Run { pixels })
}

// M aaaaaa
fn parse_memory(fields: &[u8]) -> Option<Command>
    ensures { meant result ≡ memory_line (77 ∷ fields.now) }
{
    let [b' ', a, b, c, d, e, f] = *fields else {
        return None;
    };
    let high = byte(a, b)?;
    let middle = byte(c, d)?;
    let low = byte(e, f)?;
    let address = u32::from_be_bytes([0, high, middle, low]);
    Some(Command::Memory { address })
}

// B, then the digits of 1 to 32 bytes.
fn parse_burst(fields: &[u8]) -> Option<Command>
    ensures { meant result ≡ burst_line (66 ∷ fields.now) }
{
    let [b' ', digits @ ..] = fields else {
        return None;
    };
    Some(Command::Burst(Payload::from_digits(digits)?))
}

// A match and no table of functions, so that the letters stand as the line format names them.
fn parse_by_letter(line: &[u8]) -> Option<Command>
    ensures { meant result ≡ command_of line.now }
{
    let (letter, fields) = line.split_first()?;
    match *letter as char {
        'W' => parse_write(fields),
        'R' => parse_read(fields),
        'B' => parse_burst(fields),
        'G' => parse_run(fields),
        'X' if fields.is_empty() => Some(Command::Stop),
        'S' if fields.is_empty() => Some(Command::Status),
        'M' => parse_memory(fields),
        _ => None,
    }
}

impl Command {
    // The command that a line is, or none where it is malformed: a line is a command exactly where it is the command's
    // spelling. There is one way to be none, so an error type, as of a TryFrom, would say no more.
    pub fn parse(line: &[u8]) -> Option<Command>
        ensures meaning { meant result ≡ command_of line.now }
        ensures spelling { (c : Call) → meant result ≡ Some c → (line.now ≡ spelled c) × Sayable c }
        ensures complete { (c : Call) → Sayable c → line.now ≡ spelled c → meant result ≡ Some c }
    {
        parse_by_letter(line)
    }
}
