// Strips: pixels side by side, worked on outside of memory.
ghost use Rattle.std.specs.Prelude.{◌≡◌, ℕ, ◌+◌, ◌*◌, ◌<◌, ◌≤◌, Option, length, slice_index};
ghost use Rattle.window.specs.Values.{value_at, stored};
ghost use Rattle.engine.specs.Strips.{put_value, stripped};

// What a pixel becomes by the values of its sources, or none, which leaves it as it is.
pub(crate) trait OnValues {
    ghost gives: { Self → ℕ → ℕ → Option ℕ };

    fn value(&self, first: u32, second: u32) -> Option<u32>
        ensures { result ≡ gives self.now first second };
}

// The value of N bytes.
#[inline(always)]
fn value_of<const N: usize>(bytes: &[u8], place: usize) -> u32
    requires few { N ≤ 4 }
    requires room { place + N ≤ length bytes.now }
    ensures { result ≡ value_at bytes.now place N }
{
    let mut own = [0; 4];
    own[..N].copy_from_slice(&bytes[place..place + N]);
    u32::from_le_bytes(own)
}

// The value of so many bytes. Where the number is known when it is compiled, one arm is left.
#[tactic(auto, unfolding(window::specs::Values::value_at))]
#[inline(always)]
fn value(bytes: &[u8], place: usize, width: usize) -> u32
    requires few { width ≤ 4 }
    requires room { place + width ≤ length bytes.now }
    ensures is { result ≡ value_at bytes.now place width }
    ensures bytes { (k : ℕ) → slice_index bytes.now k < 256 }
{
    match width {
        0 => 0,
        1 => value_of::<1>(bytes, place),
        2 => value_of::<2>(bytes, place),
        3 => value_of::<3>(bytes, place),
        _ => value_of::<4>(bytes, place),
    }
}

#[inline(always)]
fn put_as<const N: usize>(bytes: &mut [u8], place: usize, value: u32)
    requires few { N ≤ 4 }
    requires room { place + N ≤ length bytes.old }
    ensures after { bytes.new ≡ stored bytes.old place N value }
    ensures long { length bytes.new ≡ length bytes.old }
{
    bytes[place..place + N].copy_from_slice(&value.to_le_bytes()[..N]);
}

// Puts a value in so many bytes.
#[tactic(auto, unfolding(window::specs::Values::stored))]
#[inline(always)]
fn put(bytes: &mut [u8], place: usize, width: usize, value: u32)
    requires few { width ≤ 4 }
    requires room { place + width ≤ length bytes.old }
    ensures after { bytes.new ≡ stored bytes.old place width value }
    ensures long { length bytes.new ≡ length bytes.old }
{
    match width {
        0 => {}
        1 => put_as::<1>(bytes, place, value),
        2 => put_as::<2>(bytes, place, value),
        3 => put_as::<3>(bytes, place, value),
        _ => put_as::<4>(bytes, place, value),
    }
}

// Values side by side, each of so many bytes.
#[derive(Clone, Copy)]
pub(crate) struct Values<'a> {
    pub(crate) bytes: &'a [u8],
    pub(crate) width: usize,
    ghost each_byte: { (k : ℕ) → slice_index bytes.now k < 256 },
}

impl<'a> Values<'a> {
    #[inline(always)]
    pub(crate) fn new(bytes: &'a [u8], width: usize) -> Values<'a>
        ensures bytes { result.bytes.now ≡ bytes.now }
        ensures width { result.width ≡ width }
    {
        Values { bytes, width }
    }
}

// Puts the value of a pixel, or leaves the pixel as it was. What is stored in any case, the compiler makes steps of many pixels of;
// pixels of three bytes it does not, so that there only a value is stored.
#[inline(always)]
fn put_made(bytes: &mut [u8], place: usize, width: usize, made: Option<u32>)
    requires few { width ≤ 4 }
    requires room { place + width ≤ length bytes.old }
    ensures after { bytes.new ≡ put_value place width made bytes.old }
    ensures long { length bytes.new ≡ length bytes.old }
{
    if width == 3 {
        if let Some(value) = made {
            put(bytes, place, 3, value);
        }
        return;
    }
    let old = value(bytes, place, width);
    put(bytes, place, width, made.unwrap_or(old));
}

// Draws so many pixels of a strip.
#[inline(always)]
pub(crate) fn draw_each<F: OnValues>(
    rule: &F,
    first: Values,
    second: Values,
    target: &mut [u8],
    width: usize,
    count: usize,
)
    requires first_few { first.width ≤ 4 }
    requires second_few { second.width ≤ 4 }
    requires few { width ≤ 4 }
    requires first_room { count * first.width ≤ length first.bytes.now }
    requires second_room { count * second.width ≤ length second.bytes.now }
    requires room { count * width ≤ length target.old }
    ensures after { target.new ≡ stripped (F.gives rule.now) first.entry.width second.entry.width width first.entry.bytes.now second.entry.bytes.now count target.old }
    ensures long { length target.new ≡ length target.old }
{
    for i in 0..count {
        let x = value(first.bytes, i * first.width, first.width);
        let y = value(second.bytes, i * second.width, second.width);
        put_made(target, i * width, width, rule.value(x, y));
    }
}
