// An answer line: "ok" with what was answered, "no" with a refusal's number, or "??".
ghost use Rattle.std.specs.Prelude.{◌≡◌, ◌%◌, ◌++◌, if◌then◌else◌, is_ok, Some};
ghost use Rattle.bench_lines.specs.Answers.{reply_of, reply_text, reply_line, digit, hex_byte, hex_count, decimal};

use refusal::Refusal;
use std::alloc::AllocError;
use std::fmt;

// A variant for each form of line. Not a Result, for which no Display could be written here.
#[derive(Clone, Copy)]
pub enum Answer {
    Done,
    Byte(u8),
    Count(u32),
    // The bytes taken and the pixels drawn.
    Counts { taken: usize, drawn: u32 },
    Refused(Refusal),
    Malformed,
}

// The answer's line, without the line feed that ends it. Of a count only the lowest four digits are written.
impl fmt::Display for Answer {
    ghost output = { λ a. Some (reply_text (reply_of a)) };

    #[tactic(auto, using(crate::proofs::Printed::byte_printed, crate::proofs::Printed::count_printed, crate::proofs::Printed::number_printed))]
    fn fmt<W: fmt::Write>(&self, f: &mut fmt::Formatter<W>) -> fmt::Result {
        match *self {
            Answer::Done => write!(f, "ok"),
            Answer::Byte(byte) => write!(f, "ok {byte:02X}"),
            Answer::Count(count) => write!(f, "ok {:04X}", count % 65_536),
            Answer::Counts { taken, drawn } => {
                write!(f, "ok {:04X} {:04X}", taken % 65_536, drawn % 65_536)
            }
            Answer::Refused(refusal) => write!(f, "no {:02}", refusal.number()),
            Answer::Malformed => write!(f, "??"),
        }
    }
}

// The character of a hexadecimal digit; only the lowest four bits count.
fn digit_of(value: usize) -> u8
    ensures { result ≡ digit (value % 16) }
{
    let value = (value % 16) as u8;
    if value < 10 {
        b'0' + value
    } else {
        b'A' + (value - 10)
    }
}

fn byte_digits(value: u8) -> [u8; 2]
    ensures { result ≡ hex_byte value }
{
    [digit_of(value as usize / 16), digit_of(value as usize)]
}

// The lowest four digits.
fn count_digits(value: usize) -> [u8; 4]
    ensures { result ≡ hex_count value }
{
    [
        digit_of(value / 4096),
        digit_of(value / 256),
        digit_of(value / 16),
        digit_of(value),
    ]
}

fn decimal_digits(value: u8) -> [u8; 2]
    ensures { result ≡ decimal value }
{
    [b'0' + value / 10 % 10, b'0' + value % 10]
}

impl Answer {
    // Writes the answer's line, its line feed with it. Where memory is wanting, nothing is written. Not by `Display`: it would ask the
    // heap for a line of its own at each answer, though there is room in `out`, and take several times as long.
    pub fn write_to(&self, out: &mut Vec<u8>) -> Result<(), AllocError>
        ensures { out.new.items ≡ (if is_ok result then out.old.items ++ reply_line (reply_of self.now) else out.old.items) }
    {
        match *self {
            Answer::Done => out.extend_from_slice(b"ok\n"),
            Answer::Byte(byte) => {
                let [a, b] = byte_digits(byte);
                out.extend_from_slice(&[b'o', b'k', b' ', a, b, b'\n'])
            }
            Answer::Count(count) => {
                let [a, b, c, d] = count_digits(count as usize);
                out.extend_from_slice(&[b'o', b'k', b' ', a, b, c, d, b'\n'])
            }
            Answer::Counts { taken, drawn } => {
                let [a, b, c, d] = count_digits(taken);
                let [e, f, g, h] = count_digits(drawn as usize);
                out.extend_from_slice(&[b'o', b'k', b' ', a, b, c, d, b' ', e, f, g, h, b'\n'])
            }
            Answer::Refused(refusal) => {
                let [a, b] = decimal_digits(refusal.number());
                out.extend_from_slice(&[b'n', b'o', b' ', a, b, b'\n'])
            }
            Answer::Malformed => out.extend_from_slice(b"??\n"),
        }
    }
}
