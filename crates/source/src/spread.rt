// Bits of bytes, each as a byte of its own.
ghost use Rattle.std.specs.Prelude.{◌≡◌, ℕ, ◌+◌, ◌-◌, ◌*◌, ◌/◌, ◌%◌, ◌^◌, ◌<◌, ◌≤◌, length, slice_index};
ghost use Rattle.source.specs.Units.{unit_bits};
ghost use Rattle.source.specs.Strips.{SpreadBits, turned};

use crate::rows::Unit;

// Turns the bytes of each unit round, so that its top byte comes first.
pub(crate) fn turn_units(unit: Unit, bytes: &mut [u8])
    requires { length bytes.old % (unit_bits unit / 8) ≡ 0 }
    ensures size { length bytes.new ≡ length bytes.old }
    ensures turns { (j : ℕ) → j < length bytes.new
        → slice_index bytes.new j ≡ slice_index bytes.old (turned (unit_bits unit) j) }
{
    if let Unit::Sixteen = unit {
        for i in 0..bytes.len() / 2 {
            bytes.swap(2 * i, 2 * i + 1);
        }
    }
}

// The bits of a byte, the top one first.
fn eight_bits(byte: u8) -> [u8; 8]
    ensures size { length result ≡ 8 }
    ensures bits { (i : ℕ) → i < 8 → slice_index result i ≡ byte / 2 ^ (7 - i) % 2 }
{
    let mut bits = [0; 8];
    for i in 0..8 {
        bits[i] = (byte >> (7 - i)) % 2;
    }
    bits
}

// Bits of bytes from bit `depth` on, one by one.
fn spread_each(bytes: &[u8], depth: usize, into: &mut [u8])
    requires low { depth + length into.old < 2 ^ 64 }
    requires enough { depth + length into.old ≤ 8 * length bytes.now }
    ensures size { length into.new ≡ length into.old }
    ensures bits { SpreadBits bytes.now depth into.new }
{
    for i in 0..into.len() {
        let place = depth + i;
        into[i] = (bytes[place / 8] >> (7 - place % 8)) % 2;
    }
}

// All the bits of bytes.
fn spread_whole(bytes: &[u8], into: &mut [u8])
    requires whole { length into.old % 8 ≡ 0 }
    requires enough { length into.old ≤ 8 * length bytes.now }
    ensures size { length into.new ≡ length into.old }
    ensures bits { SpreadBits bytes.now 0 into.new }
{
    for i in 0..into.len() / 8 {
        into[8 * i..8 * i + 8].copy_from_slice(&eight_bits(bytes[i]));
    }
}

// Bits of bytes from bit `depth` on, counted from the top bit of the first byte.
pub(crate) fn spread(bytes: &[u8], depth: usize, into: &mut [u8])
    requires low { depth + length into.old + 8 < 2 ^ 64 }
    requires enough { depth + length into.old ≤ 8 * length bytes.now }
    ensures size { length into.new ≡ length into.old }
    ensures bits { SpreadBits bytes.now depth into.new }
{
    let first = (7 - (depth + 7) % 8).min(into.len());
    let (head, rest) = into.split_at_mut(first);
    spread_each(bytes, depth, head);
    let whole = rest.len() / 8 * 8;
    let (middle, tail) = rest.split_at_mut(whole);
    spread_whole(&bytes[(depth + first) / 8..], middle);
    spread_each(bytes, depth + first + whole, tail);
}
