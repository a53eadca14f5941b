// Spans of a slice of bytes.
ghost use Rattle.std.specs.Prelude.{◌≡◌, ℕ, ◌+◌, ◌*◌, ◌^◌, ◌<◌, ◌≤◌, length, slice_index};
ghost use Rattle.memory.specs.Spans.{span, overlaid, times, merged, copied, ReadFirst};

use crate::{ByteRule, First};

// The byte at a place, or 0 past the end.
fn byte_at(memory: &[u8], place: usize) -> u8
    ensures { result ≡ slice_index memory.now place }
{
    memory.get(place).copied().unwrap_or(0)
}

// Reads the bytes from a place on into all of `into`.
pub fn load(memory: &[u8], start: usize, into: &mut [u8])
    ensures { into.new ≡ span memory.now start (length into.old) }
{
    let start = start.min(memory.len());
    let inside = into.len().min(memory.len() - start);
    let (held, past) = into.split_at_mut(inside);
    held.copy_from_slice(&memory[start..start + inside]);
    past.fill(0);
}

// Puts bytes from a place on.
pub fn store(memory: &mut [u8], start: usize, from: &[u8])
    ensures { memory.new ≡ overlaid memory.old start from.now }
{
    let start = start.min(memory.len());
    let inside = from.len().min(memory.len() - start);
    memory[start..start + inside].copy_from_slice(&from[..inside]);
}

// Puts the bytes of a pixel so many times from a place on, all inside.
#[inline(always)]
fn repeat_any(memory: &mut [u8], start: usize, pixel: &[u8], count: usize)
    requires { start + count * length pixel.now ≤ length memory.old }
    ensures { memory.new ≡ overlaid memory.old start (times pixel.now count) }
{
    let width = pixel.len();
    for k in 0..count {
        for j in 0..width {
            memory[start + k * width + j] = pixel[j];
        }
    }
}

// The same, with the width known when it is compiled.
#[inline(always)]
fn repeat_exactly<const N: usize>(memory: &mut [u8], start: usize, pixel: &[u8], count: usize)
    requires width { length pixel.now ≡ N }
    requires room { start + count * length pixel.now ≤ length memory.old }
    ensures { memory.new ≡ overlaid memory.old start (times pixel.now count) }
{
    let mut own = [0; N];
    own.copy_from_slice(pixel);
    repeat_any(memory, start, &own, count);
}

// Puts the bytes of a pixel so many times from a place on, all inside: in groups of 16 pixels where they have three bytes, since
// no store is three bytes wide.
fn repeat(memory: &mut [u8], start: usize, pixel: &[u8], count: usize)
    requires { start + count * length pixel.now ≤ length memory.old }
    ensures { memory.new ≡ overlaid memory.old start (times pixel.now count) }
{
    match pixel.len() {
        1 => repeat_exactly::<1>(memory, start, pixel, count),
        2 => repeat_exactly::<2>(memory, start, pixel, count),
        3 => repeat_threes(memory, start, pixel, count),
        4 => repeat_exactly::<4>(memory, start, pixel, count),
        _ => repeat_any(memory, start, pixel, count),
    }
}

fn repeat_threes(memory: &mut [u8], start: usize, pixel: &[u8], count: usize)
    requires width { length pixel.now ≡ 3 }
    requires room { start + count * length pixel.now ≤ length memory.old }
    ensures { memory.new ≡ overlaid memory.old start (times pixel.now count) }
{
    let mut group = [0; 48];
    repeat_exactly::<3>(&mut group, 0, pixel, 16);
    let groups = count / 16;
    repeat_exactly::<48>(memory, start, &group, groups);
    repeat_exactly::<3>(memory, start + groups * 48, pixel, count % 16);
}

// Puts the bytes of a pixel so many times from a place on.
pub fn fill(memory: &mut [u8], start: usize, pixel: &[u8], count: usize)
    ensures { memory.new ≡ overlaid memory.old start (times pixel.now count) }
{
    let width = pixel.len();
    if width == 0 || start >= memory.len() {
        return;
    }
    let whole = count.min((memory.len() - start) / width);
    repeat(memory, start, pixel, whole);
    if whole < count {
        store(memory, start + whole * width, pixel); // partly past the end
    }
}

// Puts bytes made by a rule of the bytes from `first` and from `second` on, all inside.
#[inline(always)]
fn merge_inside<F: ByteRule>(
    memory: &mut [u8],
    rule: F,
    first: usize,
    second: usize,
    to: usize,
    count: usize,
)
    requires first { first + count ≤ length memory.old }
    requires second { second + count ≤ length memory.old }
    requires to { to + count ≤ length memory.old }
    ensures { memory.new ≡ merged (F.gives rule) memory.old first second to count }
{
    for i in 0..count {
        memory[to + i] = rule.byte(memory[first + i], memory[second + i]);
    }
}

// Puts bytes made by a rule of the bytes from `first` and from `second` on, of which some lie past the end.
fn merge_any<F: ByteRule>(
    memory: &mut [u8],
    rule: F,
    first: usize,
    second: usize,
    to: usize,
    count: usize,
)
    requires first { first + count < 2 ^ 64 }
    requires second { second + count < 2 ^ 64 }
    requires to { to + count ≤ length memory.old }
    ensures { memory.new ≡ merged (F.gives rule) memory.old first second to count }
{
    for i in 0..count {
        memory[to + i] = rule.byte(byte_at(memory, first + i), byte_at(memory, second + i));
    }
}

// Puts `count` bytes from `to` on, each made by a rule of the bytes at the same place from `first` and from `second` on. A second
// source that is the target is passed as the target, so that the loop is compiled for bytes that are read and put in place.
pub fn merge<F: ByteRule>(memory: &mut [u8], rule: F, first: u32, second: u32, to: u32, count: u32)
    ensures { memory.new ≡ merged (F.gives rule) memory.old first second to count }
{
    let (first, second, to) = (first as usize, second as usize, to as usize);
    let size = memory.len();
    if to >= size {
        return;
    }
    let count = (count as usize).min(size - to);
    if first + count > size || second + count > size {
        return merge_any(memory, rule, first, second, to, count);
    }
    if second == to {
        merge_inside(memory, rule, first, to, to, count);
    } else {
        merge_inside(memory, rule, first, second, to, count);
    }
}

// How many bytes are copied at once.
const CHUNK: usize = 64;

// Copies a chunk, which is read before it is replaced.
#[inline(always)]
fn copy_chunk(memory: &mut [u8], from: usize, to: usize)
    requires read_first { ReadFirst from to 64 }
    requires from { from + 64 ≤ length memory.old }
    requires to { to + 64 ≤ length memory.old }
    ensures { memory.new ≡ copied memory.old from to 64 }
{
    let mut chunk = [0; CHUNK];
    chunk.copy_from_slice(&memory[from..from + CHUNK]);
    memory[to..to + CHUNK].copy_from_slice(&chunk);
}

fn copy_chunks(memory: &mut [u8], from: usize, to: usize, chunks: usize)
    requires read_first { ReadFirst from to 64 }
    requires from { from + 64 * chunks ≤ length memory.old }
    requires to { to + 64 * chunks ≤ length memory.old }
    ensures { memory.new ≡ copied memory.old from to (64 * chunks) }
{
    for k in 0..chunks {
        copy_chunk(memory, from + CHUNK * k, to + CHUNK * k);
    }
}

// Copies bytes one after another, each as it then is, all inside: in chunks, unless a chunk would replace bytes of its own.
fn copy_inside(memory: &mut [u8], from: usize, to: usize, count: usize)
    requires from { from + count ≤ length memory.old }
    requires to { to + count ≤ length memory.old }
    ensures { memory.new ≡ copied memory.old from to count }
{
    if from < to && to < from + CHUNK {
        return merge_inside(memory, First, from, from, to, count);
    }
    copy_chunks(memory, from, to, count / CHUNK);
    let done = CHUNK * (count / CHUNK);
    merge_inside(
        memory,
        First,
        from + done,
        from + done,
        to + done,
        count - done,
    );
}

// Copies `count` bytes from `from` on to `to` on.
pub fn copy(memory: &mut [u8], from: u32, to: u32, count: u32)
    ensures { memory.new ≡ copied memory.old from to count }
{
    let (from, to) = (from as usize, to as usize);
    let size = memory.len();
    if to >= size {
        return;
    }
    let count = (count as usize).min(size - to);
    if from + count > size {
        return merge_any(memory, First, from, from, to, count);
    }
    copy_inside(memory, from, to, count);
}
