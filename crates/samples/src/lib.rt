// Settings and windows that tests begin from, and the jobs that they begin.
#![tactic(auto)]

ghost use Rattle.std.specs.Prelude.{◌≡◌, false, length, map};
ghost use Rattle.refusal.specs.Numbers.{numbered};
ghost use Rattle.job.specs.Works.{clearing};
ghost use Rattle.samples.specs.Samples.{black, sample_surface, begun_of, draw_outcome, feed_outcome};

mod windows;

use colour::{Colour, Palette};
use job::{Begun, Draft, Settings, Surface};
use memory::Memory;
use refusal::Refusal;
use std::convert::AsSlice;
pub use windows::pair;

pub fn rgb(red: u8, green: u8, blue: u8) -> Colour
    ensures { result ≡ record { red = red; green = green; blue = blue } }
{
    Colour { red, green, blue }
}

// An image, from its first pixel on.
pub fn surface(depth: u8, start: u32, image: u16) -> Surface
    ensures { result ≡ sample_surface depth start image }
{
    Surface {
        depth,
        start,
        image,
        left: 0,
        top: 0,
    }
}

// One pixel of 3:3:2 at address 0 of images so many pixels wide, all in black.
pub fn settings(operation: u8, code: u8, image: u16) -> Settings
    ensures { result ≡ record {
      operation = operation;
      code = code;
      large = false;
      level = 0;
      first = sample_surface 0 0 image;
      second = sample_surface 0 0 image;
      target = sample_surface 0 0 image;
      width = 1;
      height = 1;
      foreground = black;
      background = black;
    } }
{
    Settings {
        operation,
        code,
        large: false,
        level: 0,
        first: surface(0, 0, image),
        second: surface(0, 0, image),
        target: surface(0, 0, image),
        width: 1,
        height: 1,
        foreground: rgb(0, 0, 0),
        background: rgb(0, 0, 0),
    }
}

// A job that was begun over a memory, or the ground against it.
pub fn begin<M: Memory>(memory: &M, settings: Settings) -> Result<Begun, Refusal>
    ensures { numbered result ≡ begun_of (clearing settings (length (M.bytes memory.now))) }
{
    Ok(Draft::new(settings).clear(memory)?.begin())
}

// Runs a job for a thousand pixels, more than any sample has, and answers how many it drew.
pub fn draw<M: Memory>(
    memory: &mut M,
    palette: &Palette,
    settings: Settings,
) -> Result<u32, Refusal>
    ensures { (numbered result, M.bytes memory.new) ≡ draw_outcome settings palette.now (M.bytes memory.old) }
{
    begin(memory, settings)?.run(memory, palette, 1000)
}

// Feeds a job, and answers what each burst came to: the bytes taken and the pixels drawn. A burst is any `B` that lends bytes,
// since the borrow checker does not cover an array of slices whose length is a parameter.
pub fn feed<M: Memory, B: AsSlice<u8>, const N: usize>(
    memory: &mut M,
    palette: &Palette,
    settings: Settings,
    bursts: &[B; N],
) -> Result<[(usize, u32); N], Refusal>
    ensures { (numbered result, M.bytes memory.new) ≡ feed_outcome settings palette.now (M.bytes memory.old) (map B.items bursts.now) }
{
    let mut begun = begin(memory, settings)?;
    let mut answers = [(0, 0); N];
    for (i, burst) in bursts.iter().enumerate() {
        answers[i] = begun.feed(memory, palette, burst.as_slice())?;
    }
    Ok(answers)
}
