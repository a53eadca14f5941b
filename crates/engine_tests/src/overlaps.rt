// Pictures in a maker's own format whose source overlaps them, against a loop over pairs of bytes.
use blue_first::Bgr565;
use colour::Palette;
use engine::Drawing;
use memory::{ByteBoard, Memory, WordBoard};
use refusal::Refusal;
use rules::{Key, PixelRule, Raster};
use samples::rgb;
use source::Source;
use std::process::Abort;
use std::test::Fail;
use window::{Area, PixelSize, SIDE_LIMIT, Window};

// How many bytes there are, and how many pixels are drawn.
const BYTES: usize = 64;

const PIXELS: u16 = 9;

// The pixel of the source that the key leaves out, and that all begin with: 25 of blue, 38 of green and 11 of red.
const KEY: u16 = 0xCCCB;

// What is made of the values of two pixels.
#[derive(Clone, Copy)]
enum Made {
    Copy,
    ExclusiveOr,
    Keyed,
}

impl Made {
    fn value(self, first: u16, second: u16) -> Option<u16> {
        match self {
            Made::Copy => Some(first),
            Made::ExclusiveOr => Some(first ^ second),
            Made::Keyed => (first != KEY).then_some(first),
        }
    }
}

// The bytes before: pixels that are the key, and between them others.
fn bytes_before() -> [u8; BYTES] {
    let mut bytes = [0; BYTES];
    for (place, byte) in bytes.iter_mut().enumerate() {
        *byte = [0xCB, 0xCC, 0xCB, 0xCC, 0x12, 0x34, 0x56][place % 7];
    }
    bytes
}

// The value of the pixel that begins at a place.
fn word(bytes: &[u8], place: usize) -> u16 {
    match bytes.get(place..) {
        Some([low, high, ..]) => u16::from_le_bytes([*low, *high]),
        _ => 0,
    }
}

// Draws the pixels one by one.
fn draw_plainly(made: Made, from: u32, to: u32, bytes: &mut [u8]) {
    for pixel in 0..PIXELS as usize {
        let place = to as usize + 2 * pixel;
        let first = word(bytes, from as usize + 2 * pixel);
        let second = word(bytes, place);
        if let Some(value) = made.value(first, second) {
            let held = bytes.get_mut(place..).unwrap_or_default();
            for (byte, own) in held.iter_mut().zip(value.to_le_bytes()) {
                *byte = own;
            }
        }
    }
}

// A row of pixels from an address on.
fn row(start: u32) -> Result<Window, Refusal> {
    let area = Area {
        start,
        image: PIXELS,
        left: 0,
        top: 0,
        width: PIXELS,
        height: 1,
    };
    Window::new(SIDE_LIMIT, area)
}

fn image(window: Window) -> Source {
    Source::Image {
        window,
        size: PixelSize::of(&Bgr565),
    }
}

// Draws a row by a rule.
fn draw<R: PixelRule + Copy, M: Memory>(
    memory: &mut M,
    rule: R,
    from: u32,
    to: u32,
) -> Result<u32, Refusal> {
    let target = row(to)?;
    let drawing = Drawing {
        rule,
        canvas: Bgr565,
        first: image(row(from)?),
        second: image(target),
        target,
    };
    drawing.draw(&Palette::new(), memory, 0, 0, PIXELS as u32)
}

// Draws a row on a board of bytes and on one of words, and checks what they hold.
fn check<R: PixelRule + Copy>(rt: &impl Abort, rule: R, made: Made, from: u32, to: u32) {
    let mut expected = bytes_before();
    draw_plainly(made, from, to, &mut expected);
    let mut bytes = bytes_before();
    let mut words = [0u16; BYTES / 2];
    for (place, word_before) in words.iter_mut().enumerate() {
        *word_before = word(&bytes, 2 * place);
    }
    let on_bytes = draw(&mut ByteBoard::new(&mut bytes), rule, from, to);
    let on_words = draw(&mut WordBoard::new(&mut words), rule, from, to);
    let pixels = PIXELS as u32;
    assert_eq!(rt; (on_bytes, on_words), (Ok(pixels), Ok(pixels)));
    assert_eq!(rt; bytes, expected, "from {from} to {to}");
    for (place, held) in words.iter().enumerate() {
        assert_eq!(rt; *held, word(&expected, 2 * place), "from {from} to {to}");
    }
}

// Pictures from three pixels before their source to three after it, byte by byte.
#[test]
fn every_distance(rt: HostRuntime) -> Result<(), Fail> {
    let raster = |rule| Raster {
        rule,
        first: Bgr565,
        second: Bgr565,
    };
    let key = Key {
        background: rgb(0x5F, 0x9B, 0xC8),
        first: Bgr565,
    };
    for to in 14..=26u32 {
        check(&rt, raster(12), Made::Copy, 20, to);
        check(&rt, raster(6), Made::ExclusiveOr, 20, to);
        check(&rt, key, Made::Keyed, 20, to);
    }
    Ok(())
}
