// Puts and reads through a queue, a stretch, and piles of both, and by a board that is let go.
use crate::numbered::put_numbers;
use layers::{Stretch, WriteQueue};
use memory::{ByteBoard, Memory, WordBoard};
use piles::{BytePut, WordPut, put_byte, put_queued_bytes, put_stretched_words};
use refusal::Refusal;

// What a read or a put past the end answers.
const PAST: Refusal = Refusal::NoSuchAddress;

fn look<M: Memory>(memory: &M, first: u32, second: u32, third: u32) -> [Result<u8, Refusal>; 3] {
    [memory.read(first), memory.read(second), memory.read(third)]
}

// How many bytes wait, and what lies below two addresses.
fn waiting_and_below<M: Memory>(
    queue: &WriteQueue<M>,
    first: u32,
    second: u32,
) -> (u8, [Result<u8, Refusal>; 2]) {
    (
        queue.waiting_count(),
        [queue.read_below(first), queue.read_below(second)],
    )
}

// 17 puts, of which 16 can wait: 100 at address 0, 101 at 1 and so on.
#[test]
fn oldest_goes_below(rt: HostRuntime) {
    let mut block = [7u8; 20];
    let mut queue = WriteQueue::new(ByteBoard::new(&mut block));
    put_numbers(&mut queue, 0..17, 100);
    let under = waiting_and_below(&queue, 0, 1);
    let shown = look(&queue, 0, 1, 16);
    let past = queue.put(20, 1);
    let still = waiting_and_below(&queue, 16, 20);
    let taken_apart = look(&queue.into_below(), 1, 16, 17);
    assert_eq!(rt;
        (under, shown, past),
        (
            (16, [Ok(100), Ok(7)]),
            [Ok(100), Ok(101), Ok(116)],
            Err(PAST)
        )
    );
    assert_eq!(rt;
        (still, taken_apart),
        ((16, [Ok(7), Err(PAST)]), [Ok(101), Ok(116), Ok(7)])
    );
}

// A put to an address that waits keeps its place: address 5 stays the oldest, and goes below with its later value.
#[test]
fn waiting_address_keeps_its_place(rt: HostRuntime) {
    let mut block = [0u8; 40];
    let mut queue = WriteQueue::new(ByteBoard::new(&mut block));
    for (address, value) in [(5u32, 1u8), (6, 2), (5, 3)] {
        let _ = queue.put(address, value);
    }
    let two = waiting_and_below(&queue, 5, 6);
    put_numbers(&mut queue, 10..25, 0);
    let full = waiting_and_below(&queue, 5, 6);
    queue.drain();
    let drained = waiting_and_below(&queue, 6, 24);
    let _ = queue.into_below();
    assert_eq!(rt;
        [two, full, drained],
        [
            (2, [Ok(0), Ok(0)]),
            (16, [Ok(3), Ok(0)]),
            (0, [Ok(2), Ok(24)])
        ]
    );
}

#[test]
fn stretch_past_the_end(rt: HostRuntime) {
    let mut block = [1u8, 2, 3, 4, 5, 6, 7, 8, 9, 10];
    let mut stretch = Stretch::new(ByteBoard::new(&mut block), 8, 5);
    let size = stretch.size();
    let before = look(&stretch, 0, 1, 2);
    let puts = [stretch.put(2, 77), stretch.put(1, 77)];
    let after = look(&stretch.into_below(), 7, 8, 9);
    assert_eq!(rt;
        (size, before, puts, after),
        (
            2,
            [Ok(9), Ok(10), Err(PAST)],
            [Err(PAST), Ok(())],
            [Ok(8), Ok(9), Ok(77)],
        )
    );
}

#[test]
fn stretch_from_past_the_end(rt: HostRuntime) {
    let mut block = [1u8, 2, 3];
    let at_end = Stretch::new(ByteBoard::new(&mut block), 3, 5);
    let none = at_end.size();
    let mut past = Stretch::new(at_end.into_below(), 4, 5);
    let declined = (past.size(), past.put(0, 9));
    let all = Stretch::new(past.into_below(), 0, 4_294_967_295);
    let whole = all.size();
    let one = Stretch::new(all.into_below(), 1, 1);
    let shown = (one.size(), look(&one, 0, 1, 2));
    assert_eq!(rt;
        (none, declined, whole, shown),
        (0, (0, Err(PAST)), 3, (1, [Ok(2), Err(PAST), Err(PAST)]))
    );
}

// Byte 1 is the high half of word 0, and byte 2 the low half of word 1.
#[test]
fn halves_of_words(rt: HostRuntime) {
    let mut block = [0x1234u16, 0x5678];
    let mut queue = WriteQueue::new(Stretch::new(WordBoard::new(&mut block), 1, 2));
    let before = look(&queue, 0, 1, 2);
    let puts = [queue.put(0, 0xAB), queue.put(1, 0xCD), queue.put(2, 0xEF)];
    let under = waiting_and_below(&queue, 0, 1);
    let words: &[u16] = queue.into_below().into_below().into_block();
    assert_eq!(rt;
        (before, puts, under),
        (
            [Ok(0x12), Ok(0x78), Err(PAST)],
            [Ok(()), Ok(()), Err(PAST)],
            (2, [Ok(0x12), Ok(0x78)]),
        )
    );
    assert_eq!(rt; words, [0xAB34, 0x56CD].as_slice());
}

#[test]
fn bytes_through_a_pile(rt: HostRuntime) {
    let mut bytes = [0u8; 6];
    let BytePut {
        answer,
        seen,
        block,
    } = put_queued_bytes(&mut bytes, 4, 9, 1, 50);
    assert_eq!(rt; (answer, seen), (Ok(()), Ok(50)));
    let BytePut {
        answer,
        seen,
        block,
    } = put_queued_bytes(block, 4, 9, 2, 60);
    assert_eq!(rt; (answer, seen), (Err(PAST), Err(PAST)));
    assert_eq!(rt;
        look(&ByteBoard::new(block), 3, 4, 5),
        [Ok(0), Ok(0), Ok(50)]
    );
}

#[test]
fn words_through_a_pile(rt: HostRuntime) {
    let mut words = [0x1111u16, 0x2222];
    let WordPut {
        answer,
        seen,
        waiting,
        stretch,
    } = put_stretched_words(&mut words, 1, 2, 1, 0x7F);
    assert_eq!(rt; (answer, seen, waiting), (Ok(()), Ok(0x7F), 1));
    let words: &[u16] = stretch.into_below().into_block();
    assert_eq!(rt; words, [0x1111, 0x227F].as_slice());
}

#[test]
fn board_that_is_let_go(rt: HostRuntime) {
    let mut bytes = [1u8, 2, 3];
    let puts = [put_byte(&mut bytes, 1, 9), put_byte(&mut bytes, 3, 9)];
    assert_eq!(rt; (puts, bytes), ([Ok(()), Err(PAST)], [1, 9, 3]));
}
