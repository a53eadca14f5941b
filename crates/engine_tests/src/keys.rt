// What a key leaves out: values of a source are compared with the background, narrowed into the source's format.
use colour::{Canvas, Colour, Palette, Readable};
use formats::Depth;
use pixel::keyed;

// Whether a source's pixel is left out before a background.
fn left_out(depth: Depth, value: u32, red: u8, green: u8, blue: u8) -> bool {
    let key = depth.narrow(Colour { red, green, blue });
    keyed(value, key, depth.colour(&Palette::new(), value)).is_none()
}

// 8Eh is 100 011 10: red 4, green 3 and blue 2, the highest bits of 80h to 9Fh, 60h to 7Fh and 80h to BFh.
#[test]
fn keys_of_332(rt: HostRuntime) {
    assert!(rt; left_out(Depth::Rgb332, 0x8E, 0x80, 0x60, 0x80));
    assert!(rt; left_out(Depth::Rgb332, 0x8E, 0x9F, 0x7F, 0xBF));
    assert!(rt; !left_out(Depth::Rgb332, 0x8E, 0xA0, 0x7F, 0xBF));
    assert!(rt; !left_out(Depth::Rgb332, 0x8E, 0x9F, 0x80, 0xBF));
    assert!(rt; !left_out(Depth::Rgb332, 0x8E, 0x9F, 0x7F, 0xC0));
    assert!(rt; !left_out(Depth::Rgb332, 0x8F, 0x9F, 0x7F, 0xBF));
}

// 9BF7h is 10011 011111 10111: red 19, green 31 and blue 23, the highest bits of 98h to 9Fh, 7Ch to 7Fh and B8h to BFh.
#[test]
fn keys_of_565(rt: HostRuntime) {
    assert!(rt; left_out(Depth::Rgb565, 0x9BF7, 0x9F, 0x7F, 0xBF));
    assert!(rt; left_out(Depth::Rgb565, 0x9BF7, 0x98, 0x7C, 0xB8));
    assert!(rt; !left_out(Depth::Rgb565, 0x9BF7, 0x97, 0x7C, 0xB8));
    assert!(rt; !left_out(Depth::Rgb565, 0x9BF7, 0x98, 0x7B, 0xB8));
    assert!(rt; !left_out(Depth::Rgb565, 0x9BF7, 0x98, 0x7C, 0xC0));
    assert!(rt; !left_out(Depth::Rgb565, 0x9BF6, 0x98, 0x7C, 0xB8));
}

// In 8:8:8 no bit is dropped, so each bit counts.
#[test]
fn keys_of_888(rt: HostRuntime) {
    assert!(rt; left_out(Depth::Rgb888, 0x9F7FBF, 0x9F, 0x7F, 0xBF));
    assert!(rt; !left_out(Depth::Rgb888, 0x9F7FBF, 0x9E, 0x7F, 0xBF));
    assert!(rt; !left_out(Depth::Rgb888, 0x9F7FBF, 0x9F, 0x7E, 0xBF));
    assert!(rt; !left_out(Depth::Rgb888, 0x9F7FBF, 0x9F, 0x7F, 0xBE));
    assert!(rt; !left_out(Depth::Rgb888, 0x9F7FBE, 0x9F, 0x7F, 0xBF));
}
