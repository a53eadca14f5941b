// The same calls, cut in two ways, over a byte board and a word board.
use memory::{ByteBoard, WordBoard};
use panel_calls::{Answer, Call};
use replay::{Replays, replay_both};
use std::process::Abort;

fn write(register: u8, value: u8) -> Call<'static> {
    Call::Write { register, value }
}

// The bytes taken and the pixels drawn of all bursts.
fn burst_totals(answers: &[Answer]) -> (usize, u32) {
    answers.iter().fold(
        (0, 0),
        |(taken, drawn): (usize, u32), answer| match *answer {
            Answer::Burst(Ok((bytes, pixels))) => (
                taken.saturating_add(bytes),
                drawn.saturating_add(pixels),
            ),
            _ => (taken, drawn),
        },
    )
}

// Over a byte board and a word board: of five bytes four are taken, and two pixels are drawn.
fn check_both(rt: &(impl Abort + AllocGlobal), calls: &[Call<'_>], others: &[Call<'_>]) {
    let mut block = [0u8; 6];
    let mut words = [0u16; 3];
    let Replays { first, second } = replay_both(
        ByteBoard::new(&mut block),
        WordBoard::new(&mut words),
        calls,
        others,
        Vec::new(rt.alloc()),
        Vec::new(rt.alloc()),
    );
    assert_eq!(rt; burst_totals(&first.answers), (4, 2));
    assert_eq!(rt; burst_totals(&second.answers), (4, 2));
    assert_eq!(rt; first.panel.status(), 0x54);
    assert_eq!(rt; second.panel.status(), 0x54);
    drop(first);
    drop(second);
    assert_eq!(rt; block, [0x11, 0x22, 0x33, 0x44, 0, 0]);
    assert_eq!(rt; words, [0x2211, 0x4433, 0]);
}

// Rule 12 of operation 0 copies two pixels of 5:6:5, 2211h and 4433h. Five bytes come, of which the last is not taken:
// in bursts of 1, 2 and 2, and in one of 5.
#[test]
fn bursts(rt: HostRuntime) {
    let calls = [
        write(0x91, 0xC0),
        write(0x92, 0x25),
        write(0xA1, 2),
        write(0xAB, 2),
        write(0xB1, 2),
        write(0xB3, 1),
        write(0x90, 0x10),
        Call::Burst(&[0x11]),
        Call::Burst(&[0x22, 0x33]),
        Call::Burst(&[0x44, 0x55]),
        Call::Status,
    ];
    let others = [
        write(0x91, 0xC0),
        write(0x92, 0x25),
        write(0xA1, 2),
        write(0xAB, 2),
        write(0xB1, 2),
        write(0xB3, 1),
        write(0x90, 0x10),
        Call::Burst(&[0x11, 0x22, 0x33, 0x44, 0x55]),
        Call::Status,
    ];
    check_both(&rt, &calls, &others);
}
