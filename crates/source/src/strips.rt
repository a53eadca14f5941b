// The values of pixels that stand in a row, side by side in bytes.
ghost use Rattle.std.specs.Prelude.{◌≡◌, ℕ, true, max, ◌+◌, ◌-◌, ◌*◌, ◌/◌, ◌%◌, ◌^◌, ◌<◌, ◌≤◌, ◌⊎◌, length, slice_index};
ghost use Rattle.window.specs.Places.{area_of, place, cell};
ghost use Rattle.window.specs.Values.{value_at};
ghost use Rattle.source.specs.Origins.{origin_of, image, pattern, bits, sampled};
ghost use Rattle.source.specs.Rows.{rows_of, bit_of};
ghost use Rattle.source.specs.Strips.{value_bytes, HoldsValues, Ahead};

use crate::rows::BitRows;
use crate::source::Source;
use crate::spread::{spread, turn_units};
use crate::values::bit_of;
use memory::Memory;
use window::{PixelSize, Window, bytes_at};

// How many of `count` values of so many bytes there is room for.
fn fitting(count: u32, bytes: u8, room: usize) -> u32
    ensures few { result ≤ count }
    ensures room { result * bytes ≤ room }
    ensures some { 1 ≤ count → bytes ≤ room → 1 ≤ result }
{
    if bytes == 0 {
        return count;
    }
    (room / bytes as usize).min(count as usize) as u32
}

// Whether so many bytes from one address on lie apart from so many from another on.
fn are_apart(from: u64, taken: u64, at: u64, written: u64) -> bool
    ensures { result ≡ true → (at + written ≤ from) ⊎ (from + taken ≤ at) }
{
    if at <= from {
        from - at >= written
    } else {
        at - from >= taken
    }
}

// How many pixels of its row stand from pixel k on, itself counted, where rows have so many columns; of no columns, one.
fn rest_of_row(columns: u16, k: u32) -> u32
    ensures { result ≡ max 1 (columns - k % columns) }
{
    if columns == 0 {
        return 1;
    }
    columns as u32 - k % columns as u32
}

// Where the row of a window begins that has its pixel `cell`.
fn row_address(window: Window, size: PixelSize, cell: u32) -> u64
    ensures is { result
        ≡ place (area_of window) size.bytes
        (cell / (area_of window).width * (area_of window).width) }
    ensures low { result < 2 ^ 60 }
{
    let width = window.width() as u32;
    window.address(size, cell / width * width)
}

// Repeats the first bytes, `period` of them, over all the others.
fn repeat(bytes: &mut [u8], period: usize)
    requires { 0 < period }
    ensures size { length bytes.new ≡ length bytes.old }
    ensures repeats { (j : ℕ) → j < length bytes.new
        → slice_index bytes.new j ≡ slice_index bytes.old (j % period) }
{
    let mut filled = period;
    while filled < bytes.len() {
        let (done, rest) = bytes.split_at_mut(filled);
        let count = filled.min(rest.len());
        rest[..count].copy_from_slice(&done[..count]);
        filled += count;
    }
}

// The number that the host sent, as the value of each of `count` pixels.
fn sent_values(sent: u32, count: u32, into: &mut [u8])
    requires { count * 4 ≤ length into.old }
    ensures size { length into.new ≡ length into.old }
    ensures values { (i : ℕ) → i < count → value_at into.new (i * 4) 4 ≡ sent }
{
    let bytes = sent.to_le_bytes();
    for i in 0..count as usize {
        into[4 * i..4 * i + 4].copy_from_slice(&bytes);
    }
}

// Bits of the unit that the host sent, from that of pixel k on, as bytes.
fn sent_bits(rows: BitRows, sent: u32, k: u32, count: u32, into: &mut [u8]) -> u32
    requires { count ≤ length into.old }
    ensures few { result ≤ count }
    ensures some { 1 ≤ count → 1 ≤ result }
    ensures size { length into.new ≡ length into.old }
    ensures values { (i : ℕ) → i < result
        → slice_index into.new i ≡ sent / 2 ^ bit_of (rows_of rows) (k + i) % 2 }
{
    let count = count.min(rest_of_row(rows.columns, k));
    let bits = rows.unit.bits() as u32;
    let depth = rows.depth(k);
    for i in 0..count {
        into[i as usize] = bit_of(sent, bits - 1 - (depth + i) % bits) as u8;
    }
    count
}

// The values of pixels of a window that lie side by side.
fn image_values<M: Memory>(
    window: Window,
    size: PixelSize,
    memory: &M,
    k: u32,
    count: u32,
    into: &mut [u8],
) -> u32
    requires { count * size.bytes ≤ length into.old }
    ensures few { result ≤ count }
    ensures some { 1 ≤ count → 1 ≤ result }
    ensures size { length into.new ≡ length into.old }
    ensures values { HoldsValues (image (area_of window) size.bytes) (M.bytes memory.now) 0 k
        result into.new }
{
    let count = count.min(window.beside(k));
    let room = count as usize * size.bytes() as usize;
    bytes_at(memory, window.address(size, k), &mut into[..room]);
    count
}

// Reads the `row` bytes from `start` on, from byte `first` of them on, again and again.
fn repeated_at<M: Memory>(memory: &M, start: u64, row: usize, first: usize, into: &mut [u8])
    requires inside { first < row }
    requires low { start + first < 2 ^ 64 }
    ensures size { length into.new ≡ length into.old }
    ensures bytes { (j : ℕ) → j < length into.new
        → slice_index into.new j ≡ slice_index (M.bytes memory.now) (start + (first + j) % row) }
{
    let rest = (row - first).min(into.len());
    let whole = row.min(into.len());
    bytes_at(memory, start + first as u64, &mut into[..rest]);
    bytes_at(memory, start, &mut into[rest..whole]);
    repeat(into, row);
}

// The values of pixels of a window that is repeated over a rectangle so many columns wide.
fn pattern_values<M: Memory>(
    window: Window,
    size: PixelSize,
    columns: u16,
    memory: &M,
    k: u32,
    count: u32,
    into: &mut [u8],
) -> u32
    requires { count * size.bytes ≤ length into.old }
    ensures few { result ≤ count }
    ensures some { 1 ≤ count → 1 ≤ result }
    ensures size { length into.new ≡ length into.old }
    ensures values { HoldsValues (pattern (area_of window) size.bytes columns)
        (M.bytes memory.now) 0 k result into.new }
{
    let count = count.min(rest_of_row(columns, k));
    let bytes = size.bytes() as usize;
    let width = window.width() as u32;
    let cell = window.cell(columns, k);
    let start = row_address(window, size, cell);
    let first = (cell % width) as usize * bytes;
    let row = width as usize * bytes;
    repeated_at(
        memory,
        start,
        row,
        first,
        &mut into[..count as usize * bytes],
    );
    count
}

// How many bytes of units are read at once.
const UNITS_ROOM: u32 = 128;

// The values of pixels of rows of bits in memory.
fn bit_values<M: Memory>(
    rows: BitRows,
    start: u32,
    memory: &M,
    k: u32,
    count: u32,
    into: &mut [u8],
) -> u32
    requires { count ≤ length into.old }
    ensures few { result ≤ count }
    ensures some { 1 ≤ count → 1 ≤ result }
    ensures size { length into.new ≡ length into.old }
    ensures values { (i : ℕ) → i < result
        → slice_index into.new i
        ≡ sampled (bits (rows_of rows) start) (M.bytes memory.now) 0 (k + i) }
{
    let depth = rows.depth(k);
    let count = count
        .min(rest_of_row(rows.columns, k))
        .min(8 * UNITS_ROOM - depth);
    let mut room = [0; UNITS_ROOM as usize];
    let units = &mut room[..rows.bytes_of(k, count) as usize];
    bytes_at(memory, rows.unit_address(start, k), units);
    turn_units(rows.unit, units);
    spread(units, depth as usize, &mut into[..count as usize]);
    count
}

impl Source {
    /// How many bytes a value has in what `values` writes.
    pub fn value_bytes(&self) -> u8
        ensures is { result ≡ value_bytes (origin_of self.now) }
        ensures few { result ≤ 4 }
    {
        match *self {
            Source::Unused => 0,
            Source::Host(_) => 4,
            Source::HostBits(_) | Source::Bits { .. } => 1,
            Source::Image { size, .. } | Source::Pattern { size, .. } => size.bytes(),
        }
    }

    /// Writes the values of up to `count` pixels, from pixel `k` on, side by side into `into`, low byte first, and answers how many:
    /// as many as stand in one row of the source and as there is room for.
    pub fn values<M: Memory>(
        &self,
        memory: &M,
        sent: u32,
        k: u32,
        count: u32,
        into: &mut [u8],
    ) -> u32
        ensures few { result ≤ count }
        ensures room { result * value_bytes (origin_of self.now) ≤ length into.new }
        ensures size { length into.new ≡ length into.old }
        ensures some { 1 ≤ count → 4 ≤ length into.old → 1 ≤ result }
        ensures values { HoldsValues (origin_of self.now) (M.bytes memory.now) sent k
            result into.new }
    {
        let count = fitting(count, self.value_bytes(), into.len());
        match *self {
            Source::Unused => count,
            Source::Host(_) => {
                sent_values(sent, count, into);
                count
            }
            Source::HostBits(rows) => sent_bits(rows, sent, k, count, into),
            Source::Image { window, size } => image_values(window, size, memory, k, count, into),
            Source::Pattern {
                window,
                size,
                columns,
            } => pattern_values(window, size, columns, memory, k, count, into),
            Source::Bits { rows, start } => bit_values(rows, start, memory, k, count, into),
        }
    }

    /// Whether no pixel of `count` from `k` on that stand in one row takes a byte that one before it wrote, where they are written
    /// side by side from `at` on, `bytes` bytes each.
    pub fn keeps_ahead(&self, k: u32, count: u32, at: u64, bytes: u8) -> bool
        ensures { result ≡ true → Ahead (origin_of self.now) k count at bytes }
    {
        let written = count as u64 * bytes as u64;
        match *self {
            Source::Unused | Source::Host(_) | Source::HostBits(_) => true,
            Source::Image { window, size } => {
                let from = window.address(size, k);
                let taken = count as u64 * size.bytes() as u64;
                count <= window.beside(k)
                    && (bytes <= size.bytes() && at <= from || are_apart(from, taken, at, written))
            }
            Source::Pattern {
                window,
                size,
                columns,
            } => {
                let row = row_address(window, size, window.cell(columns, k));
                let taken = window.width() as u64 * size.bytes() as u64;
                count <= rest_of_row(columns, k) && are_apart(row, taken, at, written)
            }
            Source::Bits { rows, start } => {
                let from = rows.unit_address(start, k);
                let taken = rows.bytes_of(k, count);
                count <= rest_of_row(rows.columns, k) && are_apart(from, taken, at, written)
            }
        }
    }
}
