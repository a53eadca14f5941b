// A draft that was declined comes back as it was.
use colour::Palette;
use job::{Declined, Draft, Settings, Surface};
use memory::{ByteBoard, Memory};
use refusal::Refusal;
use samples::{settings, surface};

// The grounds against a draft over one memory, and then over another.
fn grounds<M: Memory>(draft: Draft, memory: &M, other: &M) -> [Option<Refusal>; 2] {
    let Err(Declined { draft, refusal }) = draft.clear(memory) else {
        return [None, None];
    };
    [
        Some(refusal),
        draft.clear(other).err().map(|again| again.refusal),
    ]
}

// What settings are declined with stays what they are declined with, until memory is large enough.
#[test]
fn declined_again(rt: HostRuntime) {
    let mut block = [0u8; 1];
    let small = ByteBoard::new(&mut block);
    let mut block = [0u8; 2];
    let large = ByteBoard::new(&mut block);
    let no_such = Draft::new(settings(13, 0, 8));
    assert_eq!(rt;
        grounds(no_such, &small, &large),
        [Some(Refusal::NoSuchOperation); 2]
    );
    let target = surface(1, 0, 8);
    let past = Settings {
        target,
        ..settings(12, 0, 8)
    };
    assert_eq!(rt;
        grounds(Draft::new(past), &small, &small),
        [Some(Refusal::PastMemory); 2]
    );
    assert_eq!(rt;
        grounds(Draft::new(past), &small, &large),
        [Some(Refusal::PastMemory), None]
    );
}

// Runs a job that a draft came back from one memory for, over another.
fn draw_after<M: Memory>(draft: Draft, memory: &M, other: &mut M) -> Result<u32, Refusal> {
    let Err(declined) = draft.clear(memory) else {
        return Ok(0);
    };
    let Declined { draft, refusal: _ } = declined;
    draft.clear(other)?.begin().run(other, &Palette::new(), 9)
}

// A copy of three pixels one to the right is declined over three bytes, and draws over four just as it was drafted.
#[test]
fn declined_and_drawn(rt: HostRuntime) {
    let mut block = [5u8; 3];
    let small = ByteBoard::new(&mut block);
    let mut picture = [1u8, 2, 3, 4];
    let mut large = ByteBoard::new(&mut picture);
    let target = Surface {
        left: 1,
        image: 4,
        ..surface(0, 0, 8)
    };
    let copy = Settings {
        code: 12,
        target,
        width: 3,
        ..settings(2, 0, 8)
    };
    let answer = draw_after(Draft::new(copy), &small, &mut large);
    assert_eq!(rt; answer, Ok(3));
    assert_eq!(rt; block, [5, 5, 5]);
    assert_eq!(rt; picture, [1, 1, 1, 1]);
}
