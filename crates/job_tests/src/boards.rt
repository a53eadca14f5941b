// Jobs on every kind of memory: on a board of bytes, on one of words, and on a maker's memory. Each holds the same bytes before, and
// has to hold the same picture after.
ghost use Rattle.std.specs.Prelude.{◌≡◌};

use crate::plain::{bytes_to_send, colour, draw_plainly, value};
use colour::{Colour, Palette};
use job::Settings;
use memory::{ByteBoard, Memory, WordBoard};
use refusal::Refusal;
use samples::begin;
use std::process::Abort;

// A memory as a maker may write one: it reads and puts single bytes, and offers nothing else of its own.
#[derive(Drop)]
struct SingleBytes<M> {
    below: M,
}

impl<M: Memory> Memory for SingleBytes<M> {
    ghost bytes = { λ s. M.Memory.bytes s.below };

    ghost sound = { λ s. M.Memory.sound s.below };

    fn size(&self) -> u32 {
        self.below.size()
    }

    fn read(&self, address: u32) -> Result<u8, Refusal> {
        self.below.read(address)
    }

    fn put(&mut self, address: u32, value: u8) -> Result<(), Refusal> {
        self.below.put(address, value)
    }
}

// How a job is cut: the pixels of its first run or the bytes of its first burst, and those of each later one.
#[derive(Clone, Copy)]
pub(crate) struct Cut {
    pub(crate) first: u16,
    pub(crate) later: u16,
}

// A job in one piece.
pub(crate) const WHOLE: Cut = Cut {
    first: u16::MAX,
    later: u16::MAX,
};

// The most bytes that a memory of these tests has, and the most pieces that a job is cut into.
const MOST_BYTES: usize = 9_000;

const MOST_PIECES: usize = 1_000;

// The byte that lies at an address before a job, or that the host sends in this place.
fn byte_before(place: usize) -> u8 {
    (place % 251 * 37 % 256) as u8
}

// The colour of the pixel that begins at an address before a job.
pub(crate) fn colour_before(depth: u8, address: u32) -> Colour {
    let address = address as usize;
    let bytes = [
        byte_before(address),
        byte_before(address + 1),
        byte_before(address + 2),
    ];
    colour(depth, value(&bytes, 0, depth))
}

// Fills bytes with those that lie there before a job.
fn numbered(bytes: &mut [u8]) {
    for (place, byte) in bytes.iter_mut().enumerate() {
        *byte = byte_before(place);
    }
}

// Runs or feeds a job to its end, and answers the pixels drawn and the bytes that are left.
fn draw<M: Memory>(
    memory: &mut M,
    settings: Settings,
    sent: &[u8],
    cut: Cut,
) -> Result<(u32, usize), Refusal> {
    let palette = Palette::new();
    let mut begun = begin(memory, settings)?;
    let mut rest = sent;
    let mut piece = cut.first;
    for _ in 0..MOST_PIECES {
        if begun.runs() {
            begun.run(memory, &palette, piece as u32)?;
        } else if begun.awaits() {
            let (burst, later) = rest.split_at(rest.len().min(piece as usize));
            begun.feed(memory, &palette, burst)?;
            rest = later;
        }
        piece = cut.later;
    }
    Ok((begun.drawn(), rest.len()))
}

// Draws a job on a memory, and checks all that it then holds.
fn check_on<M: Memory>(
    rt: &impl Abort,
    memory: &mut M,
    settings: Settings,
    sent: &[u8],
    cut: Cut,
    expected: &[u8],
) {
    for address in 0..memory.size() {
        let _ = memory.put(address, byte_before(address as usize));
    }
    let pixels = settings.width as u32 * settings.height as u32;
    assert_eq!(rt; draw(memory, settings, sent, cut), Ok((pixels, 0)));
    for (address, byte) in (0..memory.size()).zip(expected) {
        assert_eq!(rt; memory.read(address), Ok(*byte), "at {address}");
    }
}

// Draws a job on every memory of `size` bytes, and checks its picture against one that is drawn plainly.
pub(crate) fn check(rt: &impl Abort, size: usize, settings: Settings, cut: Cut) {
    let size = size.min(MOST_BYTES);
    let mut host = [0; MOST_BYTES];
    let mut expected = [0; MOST_BYTES];
    let mut bytes = [0; MOST_BYTES];
    let mut words = [0; MOST_BYTES / 2];
    numbered(&mut host);
    numbered(&mut expected);
    let sent = &host[..bytes_to_send(&settings).min(MOST_BYTES)];
    let expected = &mut expected[..size];
    draw_plainly(&settings, sent, expected);
    let mut board = ByteBoard::new(&mut bytes[..size]);
    check_on(rt, &mut board, settings, sent, cut, expected);
    let mut single = SingleBytes { below: board };
    check_on(rt, &mut single, settings, sent, cut, expected);
    let mut board = WordBoard::new(&mut words[..size / 2]);
    check_on(rt, &mut board, settings, sent, cut, expected);
}
