// A maker's rule and memory that hold a function pointer, and rules as trait objects, worked by hand.
ghost use Rattle.std.specs.Prelude.{◌≡◌, ℕ, ◌<◌, ◌^◌, ⊤};

use colour::{Colour, Palette};
use engine::Drawing;
use formats::{Depth, OverlayKind, Rgb332};
use memory::{ByteBoard, Memory};
use refusal::Refusal;
use rules::{ColourRule, Fill, Key, OverlayBlend, PixelRule, Raster, Rule};
use samples::rgb;
use source::Source;
use std::alloc::AllocError;
use std::test::Fail;
use window::{Area, PixelSize, SIDE_LIMIT, Window};

// It tells each value of the first source, and yields what another rule does.
struct Told<R> {
    rule: R,
    tell: fn(u32),
    ghost tells: { (x : ℕ) → x < 2 ^ 32 → pre tell x },
}

impl<R: Copy> Copy for Told<R> {}

impl<R: Copy> Clone for Told<R> {
    ghost is_clone = { λ s r. r ≡ s };

    ghost is_infallible = { λ _. ⊤ };

    fn clone(&self) -> Result<Told<R>, AllocError> {
        Ok(*self)
    }
}

impl<R: PixelRule> PixelRule for Told<R> {
    ghost yields = { λ told. R.yields told.rule };

    fn colour(&self, palette: &Palette, first: u32, second: u32) -> Option<Colour> {
        (self.tell)(first);
        self.rule.colour(palette, first, second)
    }
}

fn hear(_value: u32) {}

// It tells the address of each put, and is otherwise the memory below. It has the three calls that a memory has to have.
#[derive(Drop)]
struct ToldMemory<M> {
    below: M,
    tell: fn(u32),
    ghost tells: { (x : ℕ) → x < 2 ^ 32 → pre tell x },
}

impl<M: Memory> Memory for ToldMemory<M> {
    ghost bytes = { λ told. M.Memory.bytes told.below };

    ghost sound = { λ told. M.Memory.sound told.below };

    fn size(&self) -> u32 {
        self.below.size()
    }

    fn read(&self, address: u32) -> Result<u8, Refusal> {
        self.below.read(address)
    }

    fn put(&mut self, address: u32, value: u8) -> Result<(), Refusal> {
        (self.tell)(address);
        self.below.put(address, value)
    }
}

// Eight pixels in a row.
fn row(start: u32) -> Result<Window, Refusal> {
    let area = Area {
        start,
        image: 8,
        left: 0,
        top: 0,
        width: 8,
        height: 1,
    };
    Window::new(SIDE_LIMIT, area)
}

// Red, (255, 0, 0), is 111 000 00, E0h.
#[test]
fn told_fill(rt: HostRuntime) -> Result<(), Fail> {
    let mut block = [7u8; 10];
    let mut board = ByteBoard::new(&mut block);
    let drawing = Drawing {
        rule: Told {
            rule: Fill {
                foreground: rgb(255, 0, 0),
            },
            tell: hear,
        },
        canvas: Rgb332,
        first: Source::Unused,
        second: Source::Unused,
        target: row(1)?,
    };
    assert_eq!(rt; drawing.draw(&Palette::new(), &mut board, 0, 0, 9), Ok(8));
    let red = 0xE0;
    assert_eq!(rt; block, [7, red, red, red, red, red, red, red, red, 7]);
    Ok(())
}

// The background (255, 0, 0) is E0h, so every second pixel is left as it was; 1Ch is 000 111 00, green.
#[test]
fn told_key(rt: HostRuntime) -> Result<(), Fail> {
    let mut block = [
        0xE0u8, 0x1C, 0xE0, 0x1C, 0xE0, 0x1C, 0xE0, 0x1C, 0, 1, 2, 3, 4, 5, 6, 7,
    ];
    let mut board = ByteBoard::new(&mut block);
    let drawing = Drawing {
        rule: Told {
            rule: Key {
                background: rgb(255, 0, 0),
                first: Rgb332,
            },
            tell: hear,
        },
        canvas: Rgb332,
        first: Source::Image {
            window: row(0)?,
            size: PixelSize::of(&Rgb332),
        },
        second: Source::Unused,
        target: row(8)?,
    };
    assert_eq!(rt; drawing.draw(&Palette::new(), &mut board, 0, 0, 9), Ok(8));
    assert_eq!(rt;
        block,
        [
            0xE0, 0x1C, 0xE0, 0x1C, 0xE0, 0x1C, 0xE0, 0x1C, 0, 0x1C, 2, 0x1C, 4, 0x1C, 6, 0x1C,
        ]
    );
    Ok(())
}

// What a raster rule makes in such a memory of the eight pixels at 0 and of those at 8, there.
fn told_raster(rule: u8, block: [u8; 16]) -> Result<[u8; 16], Refusal> {
    let mut block = block;
    let mut memory = ToldMemory {
        below: ByteBoard::new(&mut block),
        tell: hear,
    };
    let target = row(8)?;
    let size = PixelSize::of(&Rgb332);
    let drawing = Drawing {
        rule: Raster {
            rule,
            first: Rgb332,
            second: Rgb332,
        },
        canvas: Rgb332,
        first: Source::Image {
            window: row(0)?,
            size,
        },
        second: Source::Image {
            window: target,
            size,
        },
        target,
    };
    drawing.draw(&Palette::new(), &mut memory, 0, 0, 8)?;
    Ok(block)
}

#[test]
fn told_rasters(rt: HostRuntime) {
    let block = [
        0x0F, 0x33, 0x55, 0xFF, 1, 2, 3, 4, 0xFF, 0xFF, 0, 0, 0xAA, 0xAA, 0xAA, 0xAA,
    ];
    let exclusive = [
        0x0F, 0x33, 0x55, 0xFF, 1, 2, 3, 4, 0xF0, 0xCC, 0x55, 0xFF, 0xAB, 0xA8, 0xA9, 0xAE,
    ];
    let copied = [
        0x0F, 0x33, 0x55, 0xFF, 1, 2, 3, 4, 0x0F, 0x33, 0x55, 0xFF, 1, 2, 3, 4,
    ];
    let both = [
        0x0F, 0x33, 0x55, 0xFF, 1, 2, 3, 4, 0x0F, 0x33, 0, 0, 0, 2, 2, 0,
    ];
    assert_eq!(rt; told_raster(6, block), Ok(exclusive));
    assert_eq!(rt; told_raster(12, block), Ok(copied));
    assert_eq!(rt; told_raster(8, block), Ok(both));
}

// Whether a rule is known to be a fill.
fn fills(rule: &dyn PixelRule) -> bool {
    matches!(rule.on_colours(), Some(ColourRule::Fill(_)))
}

// A rule as a trait object has both calls. At level 32, of F000h, a blend is the first source; what it does is not known beforehand.
#[test]
fn trait_objects(rt: HostRuntime) {
    let fill = Fill {
        foreground: rgb(255, 0, 0),
    };
    let blend = Rule::OverlayBlend(OverlayBlend {
        first: Depth::Rgb565,
        second: OverlayKind::Argb4444,
    });
    let palette = Palette::new();
    let known: &dyn PixelRule = &fill;
    let unknown: &dyn PixelRule = &blend;
    assert_eq!(rt;
        known.colour(&palette, 0xF800, 0xF000),
        Some(rgb(255, 0, 0))
    );
    assert_eq!(rt;
        unknown.colour(&palette, 0xF800, 0xF000),
        Some(rgb(255, 0, 0))
    );
    assert!(rt; fills(known));
    assert!(rt; !fills(unknown));
}
