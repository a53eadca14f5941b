// Spans of bytes in a block of words, read and put a word at a time. Past display memory a byte reads as 0, and nothing is put.
ghost use Rattle.std.specs.Prelude.{◌≡◌, ℕ, ◌+◌, ◌*◌, ◌/◌, ◌%◌, ◌<◌, ◌≤◌, IsTrue};
ghost use Rattle.std.specs.Prelude.{length, drop, slice_index, slice_set};
ghost use Rattle.memory.specs.Boards.{of_words};
ghost use Rattle.memory.specs.Spans.{span, overlaid, times, merged, copied, ReadFirst};

use crate::{ByteRule, Cell, First};

// The most words that display memory has.
const MOST_WORDS: usize = 8_388_608;

// How many bytes of display memory a block has.
fn size(block: &[u16]) -> usize
    ensures { result ≡ length (of_words block.now) }
{
    2 * block.len().min(MOST_WORDS)
}

// The byte at an address, which the block has.
fn byte_at(block: &[u16], address: usize) -> u8
    requires { address < length (of_words block.now) }
    ensures { result ≡ slice_index (of_words block.now) address }
{
    block[address / 2].byte(address as u32)
}

// Puts a byte at an address, which the block has.
fn put(block: &mut [u16], address: usize, value: u8)
    requires { address < length (of_words block.old) }
    ensures { of_words block.new ≡ slice_set (of_words block.old) address value }
{
    let word = &mut block[address / 2];
    *word = word.with_byte(address as u32, value);
}

// Puts the bytes of whole words from the word at a place on, all of which the block has.
#[inline(always)]
fn store_words(block: &mut [u16], place: usize, from: &[u8])
    requires whole { length from.now % 2 ≡ 0 }
    requires room { 2 * place + length from.now ≤ length (of_words block.old) }
    ensures { of_words block.new ≡ overlaid (of_words block.old) (2 * place) from.now }
{
    for i in 0..from.len() / 2 {
        block[place + i] = u16::from_le_bytes([from[2 * i], from[2 * i + 1]]);
    }
}

// Puts bytes from an even address on, all of which the block has.
fn store_even(block: &mut [u16], address: usize, from: &[u8])
    requires even { address % 2 ≡ 0 }
    requires room { address + length from.now ≤ length (of_words block.old) }
    ensures { of_words block.new ≡ overlaid (of_words block.old) address from.now }
{
    let whole = from.len() / 2 * 2;
    store_words(block, address / 2, &from[..whole]);
    if whole < from.len() {
        put(block, address + whole, from[whole]);
    }
}

// Puts bytes one after another from an address on.
fn store_at(block: &mut [u16], address: usize, from: &[u8])
    ensures { of_words block.new ≡ overlaid (of_words block.old) address from.now }
{
    let room = size(block).saturating_sub(address);
    let from = &from[..from.len().min(room)];
    if from.is_empty() {
        return;
    }
    if address % 2 == 0 {
        return store_even(block, address, from);
    }
    put(block, address, from[0]);
    store_even(block, address + 1, &from[1..]);
}

// Reads the bytes of whole words from the word at a place on, all of which the block has.
#[inline(always)]
fn load_words(block: &[u16], place: usize, into: &mut [u8])
    requires whole { length into.old % 2 ≡ 0 }
    requires room { 2 * place + length into.old ≤ length (of_words block.now) }
    ensures { into.new ≡ span (of_words block.now) (2 * place) (length into.old) }
{
    for i in 0..into.len() / 2 {
        into[2 * i..2 * i + 2].copy_from_slice(&block[place + i].to_le_bytes());
    }
}

// Reads bytes from an even address on, all of which the block has.
fn load_even(block: &[u16], address: usize, into: &mut [u8])
    requires even { address % 2 ≡ 0 }
    requires room { address + length into.old ≤ length (of_words block.now) }
    ensures { into.new ≡ span (of_words block.now) address (length into.old) }
{
    let whole = into.len() / 2 * 2;
    load_words(block, address / 2, &mut into[..whole]);
    if whole < into.len() {
        into[whole] = byte_at(block, address + whole);
    }
}

// Reads bytes from an address on. There are none, or the block has them all.
fn load_held(block: &[u16], address: usize, into: &mut [u8])
    requires { 0 < length into.old → address + length into.old ≤ length (of_words block.now) }
    ensures { into.new ≡ span (of_words block.now) address (length into.old) }
{
    if into.is_empty() {
        return;
    }
    if address % 2 == 0 {
        return load_even(block, address, into);
    }
    into[0] = byte_at(block, address);
    load_even(block, address + 1, &mut into[1..]);
}

// Reads bytes from an address on.
fn load_at(block: &[u16], address: usize, into: &mut [u8])
    ensures { into.new ≡ span (of_words block.now) address (length into.old) }
{
    let room = size(block).saturating_sub(address);
    let (held, past) = into.split_at_mut(into.len().min(room));
    load_held(block, address, held);
    past.fill(0);
}

// Makes words by a rule of the words at the same place from `first` and from `second` on, one after another.
#[inline(always)]
fn merge_loop<F: ByteRule>(
    block: &mut [u16],
    rule: F,
    first: usize,
    second: usize,
    to: usize,
    count: usize,
)
    requires first { 2 * first + 2 * count ≤ length (of_words block.old) }
    requires second { 2 * second + 2 * count ≤ length (of_words block.old) }
    requires to { 2 * to + 2 * count ≤ length (of_words block.old) }
    ensures { of_words block.new
        ≡ merged (F.gives rule) (of_words block.old) (2 * first) (2 * second) (2 * to) (2 * count) }
{
    for i in 0..count {
        block[to + i] = rule.word(block[first + i], block[second + i]);
    }
}

// The same. A second source that is the target is passed as the target, so that the loop is compiled for words that are read and put in
// place.
fn merge_words<F: ByteRule>(
    block: &mut [u16],
    rule: F,
    first: usize,
    second: usize,
    to: usize,
    count: usize,
)
    requires first { 2 * first + 2 * count ≤ length (of_words block.old) }
    requires second { 2 * second + 2 * count ≤ length (of_words block.old) }
    requires to { 2 * to + 2 * count ≤ length (of_words block.old) }
    ensures { of_words block.new
        ≡ merged (F.gives rule) (of_words block.old) (2 * first) (2 * second) (2 * to) (2 * count) }
{
    if second == to {
        merge_loop(block, rule, first, to, to, count);
    } else {
        merge_loop(block, rule, first, second, to, count);
    }
}

// Makes one byte by a rule of two others.
fn merge_byte<F: ByteRule>(block: &mut [u16], rule: F, first: usize, second: usize, to: usize)
    requires first { first < length (of_words block.old) }
    requires second { second < length (of_words block.old) }
    requires to { to < length (of_words block.old) }
    ensures { of_words block.new ≡ merged (F.gives rule) (of_words block.old) first second to 1 }
{
    let byte = rule.byte(byte_at(block, first), byte_at(block, second));
    put(block, to, byte);
}

// Makes bytes by a rule of the bytes at the same place from `first` and from `second` on, all from even addresses on.
fn merge_even<F: ByteRule>(
    block: &mut [u16],
    rule: F,
    first: usize,
    second: usize,
    to: usize,
    count: usize,
)
    requires even_first { first % 2 ≡ 0 }
    requires even_second { second % 2 ≡ 0 }
    requires even_to { to % 2 ≡ 0 }
    requires first { first + count ≤ length (of_words block.old) }
    requires second { second + count ≤ length (of_words block.old) }
    requires to { to + count ≤ length (of_words block.old) }
    ensures { of_words block.new
        ≡ merged (F.gives rule) (of_words block.old) first second to count }
{
    merge_words(block, rule, first / 2, second / 2, to / 2, count / 2);
    if count % 2 == 1 {
        let last = count - 1;
        merge_byte(block, rule, first + last, second + last, to + last);
    }
}

// The same, from addresses on that are all even or all odd.
fn merge_alike<F: ByteRule>(
    block: &mut [u16],
    rule: F,
    first: usize,
    second: usize,
    to: usize,
    count: usize,
)
    requires alike_first { first % 2 ≡ to % 2 }
    requires alike_second { second % 2 ≡ to % 2 }
    requires first { first + count ≤ length (of_words block.old) }
    requires second { second + count ≤ length (of_words block.old) }
    requires to { to + count ≤ length (of_words block.old) }
    ensures { of_words block.new
        ≡ merged (F.gives rule) (of_words block.old) first second to count }
{
    if count == 0 {
        return;
    }
    if to % 2 == 0 {
        return merge_even(block, rule, first, second, to, count);
    }
    merge_byte(block, rule, first, second, to);
    merge_even(block, rule, first + 1, second + 1, to + 1, count - 1);
}

// The most bytes that are read before they are put.
const PIECE: usize = 256;

// How many bytes can be read from `source` on before as many are put from `to` on, so that each is what it would be one by one.
fn piece_of(source: usize, to: usize) -> usize
    ensures some { 0 < result }
    ensures most { result ≤ 256 }
    ensures ahead { ReadFirst source to result }
{
    if source < to {
        return PIECE.min(to - source);
    }
    PIECE
}

// Makes as many bytes as `firsts` and `seconds` have room for, which each hold the bytes of a source meanwhile.
fn merge_piece<F: ByteRule>(
    block: &mut [u16],
    rule: F,
    first: usize,
    second: usize,
    to: usize,
    firsts: &mut [u8],
    seconds: &mut [u8],
)
    requires room { length firsts.old ≡ length seconds.old }
    requires first { ReadFirst first to (length firsts.old) }
    requires second { ReadFirst second to (length firsts.old) }
    ensures { of_words block.new
        ≡ merged (F.gives rule) (of_words block.old) first second to (length firsts.old) }
{
    load_at(block, first, firsts);
    load_at(block, second, seconds);
    for i in 0..firsts.len() {
        firsts[i] = rule.byte(firsts[i], seconds[i]);
    }
    store_at(block, to, firsts);
}

// Makes bytes in pieces, whatever the addresses are.
fn merge_pieces<F: ByteRule>(
    block: &mut [u16],
    rule: F,
    first: u32,
    second: u32,
    to: u32,
    count: u32,
)
    ensures { of_words block.new
        ≡ merged (F.gives rule) (of_words block.old) first second to count }
{
    let first_piece = piece_of(first as usize, to as usize);
    let piece = piece_of(second as usize, to as usize).min(first_piece);
    let mut firsts = [0; PIECE];
    let mut seconds = [0; PIECE];
    let mut done = 0;
    while done < count as usize {
        let size = piece.min(count as usize - done);
        merge_piece(
            block,
            rule,
            first as usize + done,
            second as usize + done,
            to as usize + done,
            &mut firsts[..size],
            &mut seconds[..size],
        );
        done += size;
    }
}

// Whether a block has all of so many bytes from each of these addresses on.
fn holds(block: &[u16], first: u32, second: u32, to: u32, count: u32) -> bool
    ensures first { IsTrue result → first + count ≤ length (of_words block.now) }
    ensures second { IsTrue result → second + count ≤ length (of_words block.now) }
    ensures to { IsTrue result → to + count ≤ length (of_words block.now) }
{
    first.max(second).max(to) as usize + count as usize <= size(block)
}

// Makes bytes a word at a time where the addresses allow it.
fn merge_at<F: ByteRule>(block: &mut [u16], rule: F, first: u32, second: u32, to: u32, count: u32)
    ensures { of_words block.new
        ≡ merged (F.gives rule) (of_words block.old) first second to count }
{
    let alike = first % 2 == to % 2 && second % 2 == to % 2;
    if !alike || !holds(block, first, second, to, count) {
        return merge_pieces(block, rule, first, second, to, count);
    }
    merge_alike(
        block,
        rule,
        first as usize,
        second as usize,
        to as usize,
        count as usize,
    );
}

// Copies as many bytes as `bytes` has room for, which holds them meanwhile.
fn copy_piece(block: &mut [u16], from: usize, to: usize, bytes: &mut [u8])
    requires { ReadFirst from to (length bytes.old) }
    ensures { of_words block.new ≡ copied (of_words block.old) from to (length bytes.old) }
{
    load_at(block, from, bytes);
    store_at(block, to, bytes);
}

// Copies bytes in pieces, whatever the addresses are.
fn copy_pieces(block: &mut [u16], from: u32, to: u32, count: u32)
    ensures { of_words block.new ≡ copied (of_words block.old) from to count }
{
    let piece = piece_of(from as usize, to as usize);
    let mut bytes = [0; PIECE];
    let mut done = 0;
    while done < count as usize {
        let size = piece.min(count as usize - done);
        copy_piece(
            block,
            from as usize + done,
            to as usize + done,
            &mut bytes[..size],
        );
        done += size;
    }
}

// Copies bytes a word at a time where the addresses allow it.
fn copy_at(block: &mut [u16], from: u32, to: u32, count: u32)
    ensures { of_words block.new ≡ copied (of_words block.old) from to count }
{
    if from % 2 != to % 2 || !holds(block, from, from, to, count) {
        return copy_pieces(block, from, to, count);
    }
    let (from, to) = (from as usize, to as usize);
    merge_alike(block, First, from, from, to, count as usize);
}

// How many bytes of pixels are put at once: whole words, and whole pixels of one, two or three bytes.
const STRIPE: usize = 48;

// Fills bytes with a pixel of W bytes, again and again.
#[inline(always)]
fn tile<const W: usize>(bytes: &mut [u8], pixel: &[u8])
    requires some { 0 < W }
    requires width { length pixel.now ≡ W }
    requires whole { length bytes.old / W * W ≡ length bytes.old }
    ensures { bytes.new ≡ times pixel.now (length bytes.old / W) }
{
    for i in 0..bytes.len() / W {
        bytes[i * W..(i + 1) * W].copy_from_slice(pixel);
    }
}

// Puts bytes so many times from the word at a place on, all of which the block has.
#[inline(always)]
fn repeat(block: &mut [u16], place: usize, bytes: &[u8; STRIPE], count: usize)
    requires { 2 * place + count * 48 ≤ length (of_words block.old) }
    ensures { of_words block.new
        ≡ overlaid (of_words block.old) (2 * place) (times bytes.now count) }
{
    for i in 0..count {
        store_words(block, place + i * (STRIPE / 2), bytes);
    }
}

// Puts a pixel of W bytes so many times from an even address on, as many at once as are whole in a stripe.
#[inline(always)]
fn fill_stripes<const W: usize>(block: &mut [u16], address: usize, pixel: &[u8], count: usize)
    requires some { 0 < W }
    requires width { length pixel.now ≡ W }
    requires whole { 48 / W * W ≡ 48 }
    requires even { address % 2 ≡ 0 }
    requires room { address + count * length pixel.now ≤ length (of_words block.old) }
    ensures { of_words block.new ≡ overlaid (of_words block.old) address (times pixel.now count) }
{
    let mut bytes = [0; STRIPE];
    tile::<W>(&mut bytes, pixel);
    let stripes = count / (STRIPE / W);
    repeat(block, address / 2, &bytes, stripes);
    let rest = count % (STRIPE / W);
    store_at(block, address + stripes * STRIPE, &bytes[..rest * W]);
}

// Puts a pixel so many times, one by one.
fn fill_each(block: &mut [u16], address: usize, pixel: &[u8], count: usize)
    requires { address + count * length pixel.now ≤ length (of_words block.old) }
    ensures { of_words block.new ≡ overlaid (of_words block.old) address (times pixel.now count) }
{
    for i in 0..count {
        store_at(block, address + i * pixel.len(), pixel);
    }
}

// Puts a pixel so many times from an even address on.
fn fill_even(block: &mut [u16], address: usize, pixel: &[u8], count: usize)
    requires even { address % 2 ≡ 0 }
    requires room { address + count * length pixel.now ≤ length (of_words block.old) }
    ensures { of_words block.new ≡ overlaid (of_words block.old) address (times pixel.now count) }
{
    match pixel.len() {
        1 => fill_stripes::<1>(block, address, pixel, count),
        2 => fill_stripes::<2>(block, address, pixel, count),
        3 => fill_stripes::<3>(block, address, pixel, count),
        _ => fill_each(block, address, pixel, count),
    }
}

// The widest pixel that is put many at once.
const WIDEST: usize = 3;

// Puts a pixel so many times from an odd address on: its first byte, then pixels that begin with its second, and its other bytes.
fn fill_odd(block: &mut [u16], address: usize, pixel: &[u8], count: usize)
    requires width { (0 < length pixel.now) × (length pixel.now ≤ 3) }
    requires odd { address % 2 ≡ 1 }
    requires some { 0 < count }
    requires room { address + count * length pixel.now ≤ length (of_words block.old) }
    ensures { of_words block.new ≡ overlaid (of_words block.old) address (times pixel.now count) }
{
    let width = pixel.len();
    let mut buffer = [0; WIDEST];
    let turned = &mut buffer[..width];
    turned.copy_from_slice(pixel);
    turned.rotate_left(1);
    put(block, address, pixel[0]);
    fill_even(block, address + 1, turned, count - 1);
    store_at(block, address + 1 + (count - 1) * width, &pixel[1..]);
}

// Puts a pixel so many times. There is none, or the block has them all.
fn fill_held(block: &mut [u16], address: usize, pixel: &[u8], count: usize)
    requires some { 0 < length pixel.now }
    requires room { 0 < count → address + count * length pixel.now ≤ length (of_words block.old) }
    ensures { of_words block.new ≡ overlaid (of_words block.old) address (times pixel.now count) }
{
    if count == 0 {
        return;
    }
    if address % 2 == 0 {
        return fill_even(block, address, pixel, count);
    }
    if pixel.len() <= WIDEST {
        return fill_odd(block, address, pixel, count);
    }
    fill_each(block, address, pixel, count);
}

// Puts a pixel so many times from an address on.
fn fill_at(block: &mut [u16], address: usize, pixel: &[u8], count: usize)
    ensures { of_words block.new ≡ overlaid (of_words block.old) address (times pixel.now count) }
{
    let width = pixel.len();
    if width == 0 {
        return;
    }
    let room = size(block).saturating_sub(address);
    let whole = count.min(room / width);
    fill_held(block, address, pixel, whole);
    if whole < count {
        store_at(block, address + whole * width, pixel); // partly past the end
    }
}

// Reads the bytes from `address` on into all of `into`.
pub(crate) fn load(block: &[u16], address: u32, into: &mut [u8])
    ensures { into.new ≡ span (of_words block.now) address (length into.old) }
{
    load_at(block, address as usize, into);
}

// Puts the bytes of `from` one after another from `address` on.
pub(crate) fn store(block: &mut [u16], address: u32, from: &[u8])
    ensures after { of_words block.new ≡ overlaid (of_words block.old) address from.now }
    ensures rest { drop 8388608 block.new ≡ drop 8388608 block.old }
{
    let shown = block.len().min(MOST_WORDS);
    store_at(&mut block[..shown], address as usize, from);
}

// Puts the bytes of `pixel` `count` times, one after another, from `address` on.
pub(crate) fn fill(block: &mut [u16], address: u32, pixel: &[u8], count: u32)
    ensures after { of_words block.new
        ≡ overlaid (of_words block.old) address (times pixel.now count) }
    ensures rest { drop 8388608 block.new ≡ drop 8388608 block.old }
{
    let shown = block.len().min(MOST_WORDS);
    fill_at(&mut block[..shown], address as usize, pixel, count as usize);
}

// Copies `count` bytes from `from` on to `to` on, one after another, each as it then is.
pub(crate) fn copy(block: &mut [u16], from: u32, to: u32, count: u32)
    ensures after { of_words block.new ≡ copied (of_words block.old) from to count }
    ensures rest { drop 8388608 block.new ≡ drop 8388608 block.old }
{
    let shown = block.len().min(MOST_WORDS);
    copy_at(&mut block[..shown], from, to, count);
}

// Puts `count` bytes from `to` on, one after another, each made by `rule` of the bytes at the same place from `first` and from
// `second` on, as they then are.
pub(crate) fn merge<F: ByteRule>(
    block: &mut [u16],
    rule: F,
    first: u32,
    second: u32,
    to: u32,
    count: u32,
)
    ensures after { of_words block.new
        ≡ merged (F.gives rule) (of_words block.old) first second to count }
    ensures rest { drop 8388608 block.new ≡ drop 8388608 block.old }
{
    let shown = block.len().min(MOST_WORDS);
    merge_at(&mut block[..shown], rule, first, second, to, count);
}
