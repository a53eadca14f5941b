// What a put leaves: through two piles of layers over the two boards, through a board alone, and through any memory.
#![tactic(auto)]

ghost use Rattle.std.specs.Prelude.{◌≡◌, ◌+◌, if◌then◌else◌, Ok, Err, drop, slice_set};
ghost use Rattle.refusal.specs.Numbers.{numbered};
ghost use Rattle.memory.specs.Bytes.{put_at};
ghost use Rattle.memory.specs.Boards.{of_bytes, of_words};
ghost use Rattle.memory.specs.Spans.{merged, copied};
ghost use Rattle.pixel.specs.Rasters.{raster_channel};
ghost use Rattle.layers.specs.Part.{part};
ghost use Rattle.piles.specs.Reach.{has};

use layers::{Stretch, WriteQueue};
use memory::{ByteBoard, Memory, WordBoard};
use refusal::Refusal;

// What a put answered, what a read of the same address then answered, and the block once the pile is taken apart.
#[derive(Drop)]
pub struct BytePut<'a> {
    pub answer: Result<(), Refusal>,
    pub seen: Result<u8, Refusal>,
    pub block: &'a mut [u8],
}

// A put through a stretch over a queue over a byte board. Where the stretch lacks the address, refusal 12 is answered and nothing
// changes.
pub fn put_queued_bytes<'a>(
    block: &'a mut [u8],
    start: u32,
    most: u32,
    address: u32,
    value: u8,
) -> BytePut<'a>
    ensures answer { numbered result.answer ≡ (if has (of_bytes block.old) start most address then Ok tt else Err 12) }
    ensures seen { numbered result.seen ≡ (if has (of_bytes block.old) start most address then Ok value else Err 12) }
    ensures block { of_bytes result.block.now ≡ (if has (of_bytes block.old) start most address then slice_set (of_bytes block.old) (start + address) value else of_bytes block.old) }
{
    let mut stretch = Stretch::new(WriteQueue::new(ByteBoard::new(block)), start, most);
    let answer = stretch.put(address, value);
    let seen = stretch.read(address);
    let block = stretch.into_below().into_below().into_block();
    BytePut {
        answer,
        seen,
        block,
    }
}

// What a put and a read answered, how many puts then waited, and the stretch once the queue is taken apart: another pile, so other
// facts, and not one type with `BytePut`.
#[derive(Drop)]
pub struct WordPut<'a> {
    pub answer: Result<(), Refusal>,
    pub seen: Result<u8, Refusal>,
    pub waiting: u8,
    pub stretch: Stretch<WordBoard<'a>>,
}

// A put through a queue over a stretch over a word board. It waits until the queue is taken apart; where the stretch lacks the
// address, refusal 12 is answered and nothing waits.
pub fn put_stretched_words<'a>(
    block: &'a mut [u16],
    start: u32,
    most: u32,
    address: u32,
    value: u8,
) -> WordPut<'a>
    ensures answer { numbered result.answer ≡ (if has (of_words block.old) start most address then Ok tt else Err 12) }
    ensures seen { numbered result.seen ≡ (if has (of_words block.old) start most address then Ok value else Err 12) }
    ensures waiting { result.waiting ≡ (if has (of_words block.old) start most address then 1 else 0) }
    ensures stretch { part (of_words result.stretch.below.block.now) result.stretch.start result.stretch.length ≡ slice_set (part (of_words block.old) start most) address value }
{
    let mut queue = WriteQueue::new(Stretch::new(WordBoard::new(block), start, most));
    let answer = queue.put(address, value);
    let seen = queue.read(address);
    let waiting = queue.waiting_count();
    let stretch = queue.into_below();
    WordPut {
        answer,
        seen,
        waiting,
        stretch,
    }
}

// A put to a block of bytes, by a board that is let go. The block keeps what was put, and what it has past display memory is as it was.
pub fn put_byte(block: &mut [u8], address: u32, value: u8) -> Result<(), Refusal>
    ensures answer { numbered result ≡ put_at (of_bytes block.old) address }
    ensures block { of_bytes block.new ≡ slice_set (of_bytes block.old) address value }
    ensures rest { drop 16777216 block.new ≡ drop 16777216 block.old }
{
    let mut board = ByteBoard::new(block);
    board.put(address, value)
}

// A put to a memory whose type is known only while the program runs.
pub fn put_to_any(memory: &mut dyn Memory, address: u32, value: u8) -> Result<(), Refusal>
    ensures answer { numbered result ≡ put_at (bytes memory.old) address }
    ensures after { bytes memory.new ≡ slice_set (bytes memory.old) address value }
{
    memory.put(address, value)
}

/// A copy within a memory whose type is known only while the program runs.
pub fn copy_in_any(memory: &mut dyn Memory, from: u32, to: u32, count: u32)
    ensures { bytes memory.new ≡ copied (bytes memory.old) from to count }
{
    memory.copy(from, to, count);
}

/// Bytes made by a raster rule within a memory whose type is known only while the program runs.
pub fn raster_in_any(
    memory: &mut dyn Memory,
    rule: u8,
    first: u32,
    second: u32,
    to: u32,
    count: u32,
)
    ensures { bytes memory.new ≡ merged (raster_channel rule) (bytes memory.old) first second to count }
{
    memory.raster(rule, first, second, to, count);
}
