// The raster table, with each formula worked out by the language's own operators.
use colour::Colour;
use pixel::{raster, raster_channel};

fn formula(code: u8, s0: u8, s1: u8) -> u8 {
    match code {
        0 => 0,
        1 => !s0 & !s1,
        2 => !s0 & s1,
        3 => !s0,
        4 => s0 & !s1,
        5 => !s1,
        6 => s0 ^ s1,
        7 => !s0 | !s1,
        8 => s0 & s1,
        9 => !(s0 ^ s1),
        10 => s1,
        11 => !s0 | s1,
        12 => s0,
        13 => s0 | !s1,
        14 => s0 | s1,
        _ => 255,
    }
}

// The lowest bit takes each of the four pairs, and the seven bits above it are 0 in both.
#[test]
fn all_pairs_of_bits(rt: HostRuntime) {
    for code in 0..16u8 {
        for pair in 0..4u8 {
            let s0 = pair / 2;
            let s1 = pair % 2;
            assert_eq!(rt; raster_channel(code, s0, s1), formula(code, s0, s1));
        }
    }
}

#[test]
fn some_bytes(rt: HostRuntime) {
    for code in 0..16u8 {
        for (s0, s1) in [
            (0xF0u8, 0xCCu8),
            (0x0F, 0x3C),
            (0x00, 0xA5),
            (0xFF, 0xA5),
            (0x96, 0x69),
        ] {
            assert_eq!(rt; raster_channel(code, s0, s1), formula(code, s0, s1));
        }
    }
}

// F0h and CCh have each pair of bits twice, from 1 1 down to 0 0, so a rule whose bits are dcba gives ddccbbaa: rule 6, 0110,
// gives 3Ch, and rule 11, 1011, gives CFh. The bits of a rule above the lowest four do not count.
#[test]
fn every_pair_twice(rt: HostRuntime) {
    for (code, byte) in [
        (0u8, 0x00u8),
        (1, 0x03),
        (2, 0x0C),
        (4, 0x30),
        (8, 0xC0),
        (6, 0x3C),
        (11, 0xCF),
        (0xF6, 0x3C),
    ] {
        assert_eq!(rt; raster_channel(code, 0xF0, 0xCC), byte);
    }
}

// Red, green and blue each go by the formula, and by no other channel.
#[test]
fn channels_apart(rt: HostRuntime) {
    let first = Colour {
        red: 0x0F,
        green: 0xF0,
        blue: 0x81,
    };
    let second = Colour {
        red: 0x3C,
        green: 0xCC,
        blue: 0x18,
    };
    for code in 0..16u8 {
        let expected = Colour {
            red: formula(code, 0x0F, 0x3C),
            green: formula(code, 0xF0, 0xCC),
            blue: formula(code, 0x81, 0x18),
        };
        assert_eq!(rt; raster(code, first, second), Some(expected));
    }
}
