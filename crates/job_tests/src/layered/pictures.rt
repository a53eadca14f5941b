// A queue is taken apart before the answers of its picture are looked at.
use colour::Palette;
use job::{Settings, Surface};
use layers::{Stretch, WriteQueue};
use memory::{ByteBoard, WordBoard};
use refusal::Refusal;
use samples::{draw, feed, rgb, surface};

// Images 4 wide of 3:3:2, with the raster rule that copies the first source.
fn settings(operation: u8, width: u16, height: u16) -> Settings {
    Settings {
        width,
        height,
        foreground: rgb(1, 2, 3),
        ..samples::settings(operation, 12, 4)
    }
}

// The bytes 1 2 3 4 lie at 2 of the block, and a stretch of four has them. Copied one to the right, each is drawn before the
// next is read, also while it still waits in the queue.
#[test]
fn copy_through_stretch_and_queue(rt: HostRuntime) {
    let mut block = [9u8, 9, 1, 2, 3, 4, 9];
    let mut pile = Stretch::new(WriteQueue::new(ByteBoard::new(&mut block)), 2, 4);
    let target = Surface {
        left: 1,
        ..surface(0, 0, 4)
    };
    let answer = draw(
        &mut pile,
        &Palette::new(),
        Settings {
            target,
            ..settings(2, 3, 1)
        },
    );
    let _ = pile.into_below().into_below();
    assert_eq!(rt; (answer, block), (Ok(3), [9, 9, 1, 1, 1, 1, 9]));
}

// A fill of 3 × 3 pixels of 8:8:8 in (1, 2, 3), 27 bytes 3 2 1 3 2 1 and so on, in a stretch from address 1: more puts than
// can wait. The word at the start has its low byte left, and then come the words 0102h, 0203h, 0301h over and over.
#[test]
fn fill_through_queue_and_stretch(rt: HostRuntime) {
    let mut block = [0x1111u16; 15];
    let mut pile = WriteQueue::new(Stretch::new(WordBoard::new(&mut block), 1, 27));
    let target = surface(2, 0, 3);
    let answer = draw(
        &mut pile,
        &Palette::new(),
        Settings {
            target,
            ..settings(12, 3, 3)
        },
    );
    let waiting = pile.waiting_count();
    let _ = pile.into_below();
    assert_eq!(rt; (answer, waiting), (Ok(9), 16));
    assert_eq!(rt;
        block,
        [
            0x0311, 0x0102, 0x0203, 0x0301, 0x0102, 0x0203, 0x0301, 0x0102, 0x0203, 0x0301, 0x0102,
            0x0203, 0x0301, 0x0102, 0x1111,
        ]
    );
}

// Two pixels of 5:6:5 from the host, drawn in 3:3:2 over a stretch that begins at an odd byte of the words: red, F800h, is
// E0h, and blue, 001Fh, is 03h. The second source is read, though rule 12 takes nothing of it.
#[test]
fn host_through_queue_and_stretch(rt: HostRuntime) {
    let mut block = [0x1111u16, 0x2222];
    let mut pile = WriteQueue::new(Stretch::new(WordBoard::new(&mut block), 1, 2));
    let first = surface(1, 0, 4);
    let bursts: [&[u8]; 2] = [&[0x00, 0xF8, 0x1F], &[0x00]];
    let answers = feed(
        &mut pile,
        &Palette::new(),
        Settings {
            first,
            ..settings(0, 2, 1)
        },
        &bursts,
    );
    let _ = pile.into_below();
    assert_eq!(rt; (answers, block), (Ok([(3, 1), (1, 1)]), [0xE011, 0x2203]));
}

// A fill of three pixels past the end of a stretch of two is declined with 8, though the memory below has room, and draws
// nothing. Of two pixels it is accepted: (1, 2, 3) is 0 in 3:3:2.
#[test]
fn past_a_stretch(rt: HostRuntime) {
    let mut block = [9u8; 8];
    let mut pile = Stretch::new(WriteQueue::new(ByteBoard::new(&mut block)), 2, 2);
    let declined = draw(&mut pile, &Palette::new(), settings(12, 3, 1));
    let drawn = draw(&mut pile, &Palette::new(), settings(12, 2, 1));
    let _ = pile.into_below().into_below();
    assert_eq!(rt; [declined, drawn], [Err(Refusal::PastMemory), Ok(2)]);
    assert_eq!(rt; block, [9, 9, 0, 0, 9, 9, 9, 9]);
}
