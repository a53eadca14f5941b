// Jobs from their settings to their last pixel.
use colour::Palette;
use job::Settings;
use memory::ByteBoard;
use samples::{draw, feed};
use std::process::Abort;

// Four pixels of 3:3:2 at 0, all in black, with the raster rule that copies the first source.
pub(crate) fn settings() -> Settings {
    Settings {
        width: 4,
        ..samples::settings(2, 12, 4)
    }
}

// Draws over a block of bytes, and checks how many pixels that were and what the whole block then holds.
pub(crate) fn check_drawn(
    rt: &impl Abort,
    block: &mut [u8],
    settings: Settings,
    drawn: u32,
    expected: &[u8],
) {
    let answer = draw(&mut ByteBoard::new(block), &Palette::new(), settings);
    assert_eq!(rt; answer, Ok(drawn));
    assert_eq!(rt; *block, *expected);
}

// The same for a job that the host serves: what each burst comes to, and what the block then holds. Bursts and answers are two arrays,
// as `feed` takes the one and gives the other.
pub(crate) fn check_fed(
    rt: &impl Abort,
    block: &mut [u8],
    settings: Settings,
    bursts: &[&[u8]; 3],
    answers: [(usize, u32); 3],
    expected: &[u8],
) {
    let answer = feed(
        &mut ByteBoard::new(block),
        &Palette::new(),
        settings,
        bursts,
    );
    assert_eq!(rt; answer, Ok(answers));
    assert_eq!(rt; *block, *expected);
}
