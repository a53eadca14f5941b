// Refusals 7 and 8: limits of windows, and the end of memory.
use super::settings::{ground, ground_over};
use job::{Settings, Surface};
use samples::{settings, surface};

// A fill of a rectangle in an image, over 8,192 bytes.
fn ground_of_fill(image: u16, left: u16, top: u16, width: u16, height: u16) -> u8 {
    let target = Surface {
        image,
        left,
        top,
        ..surface(0, 0, 8)
    };
    ground_over(
        &mut [0; 8192],
        Settings {
            target,
            width,
            height,
            ..settings(12, 0, 8)
        },
    )
}

// 7: an image and a side have 1 to 8,191 pixels.
#[test]
fn sides(rt: HostRuntime) {
    for (image, left, top, width, height, number) in [
        (8191u16, 0u16, 0u16, 8191u16, 1u16, 0u8),
        (8192, 0, 0, 8191, 1, 7),
        (8192, 0, 0, 8192, 1, 7),
        (1, 0, 0, 1, 8191, 0),
        (1, 0, 0, 1, 8192, 7),
        (1, 0, 0, 1, 1, 0),
        (0, 0, 0, 1, 1, 7),
        (1, 0, 0, 0, 1, 7),
        (1, 0, 0, 1, 0, 7),
    ] {
        assert_eq!(rt; ground_of_fill(image, left, top, width, height), number);
    }
}

// 7: a rectangle ends within its image's width, and begins at 8,191 at most. Row 8,191 of an image 1 wide is byte 8,191.
#[test]
fn corners(rt: HostRuntime) {
    for (image, left, top, width, height, number) in [
        (4u16, 1u16, 0u16, 3u16, 1u16, 0u8),
        (4, 2, 0, 3, 1, 7),
        (4, 0, 0, 5, 1, 7),
        (8191, 8190, 0, 1, 1, 0),
        (8191, 8191, 0, 1, 1, 7),
        (1, 0, 8191, 1, 1, 0),
        (1, 0, 8192, 1, 1, 7),
    ] {
        assert_eq!(rt; ground_of_fill(image, left, top, width, height), number);
    }
}

// 7: the window of each source that is used counts, and of no other.
#[test]
fn windows_of_sources(rt: HostRuntime) {
    for (operation, of_first, of_second) in [
        (0u8, 0u8, 7u8),
        (2, 7, 7),
        (4, 0, 0),
        (5, 7, 0),
        (6, 7, 7),
        (7, 7, 0),
        (8, 0, 0),
        (9, 0, 0),
        (10, 7, 7),
        (11, 0, 7),
        (12, 0, 0),
        (14, 0, 0),
        (15, 0, 0),
    ] {
        let settings = settings(operation, 0, 8);
        let first = surface(0, 0, 0);
        let second = first;
        assert_eq!(rt; ground(Settings { first, ..settings }), of_first);
        assert_eq!(rt; ground(Settings { second, ..settings }), of_second);
    }
}

// A pattern for a rectangle of one pixel, in an image of some width from a column on, over a block of bytes.
fn ground_of_pattern(large: bool, width: u16, left: u16, block: &mut [u8]) -> u8 {
    let first = Surface {
        left,
        ..surface(0, 0, width)
    };
    ground_over(
        block,
        Settings {
            large,
            first,
            ..settings(7, 0, 8)
        },
    )
}

// 7 and 8: a pattern counts whole, 8 × 8 or 16 × 16, though the rectangle has one pixel. Of 8 × 8 in an image 8 wide it
// has 64 bytes; in one 9 wide from column 1 on it ends at 7 × 9 + 9 = 72; of 16 × 16 in an image 16 wide it has 256.
#[test]
fn patterns(rt: HostRuntime) {
    let mut block = [0; 256];
    for (large, width, left, bytes, number) in [
        (false, 8u16, 0u16, 64usize, 0u8),
        (false, 8, 0, 63, 8),
        (false, 7, 0, 256, 7),
        (false, 8, 1, 256, 7),
        (false, 9, 1, 72, 0),
        (false, 9, 1, 71, 8),
        (true, 16, 0, 256, 0),
        (true, 16, 0, 255, 8),
        (true, 15, 0, 256, 7),
    ] {
        assert_eq!(rt;
            ground_of_pattern(large, width, left, &mut block[..bytes]),
            number
        );
    }
}

// 8: over 10 bytes a pixel of one byte begins at 9 at most, one of two at 8 and one of three at 7.
#[test]
fn ends_of_targets(rt: HostRuntime) {
    for (depth, start, number) in [
        (0u8, 9u32, 0u8),
        (0, 10, 8),
        (1, 8, 0),
        (1, 9, 8),
        (2, 7, 0),
        (2, 8, 8),
        (2, 4_294_967_295, 8),
    ] {
        let target = surface(depth, start, 8);
        assert_eq!(rt;
            ground_over(
                &mut [0; 10],
                Settings {
                    target,
                    ..settings(12, 0, 8)
                },
            ),
            number
        );
    }
}

// 8: the same of a first source that is read, and of a second one, also of an overlay: kind 4 has one byte and 5 has two.
#[test]
fn ends_of_sources(rt: HostRuntime) {
    for (depth, kind, first, second, number) in [
        (1u8, 4u8, 8u32, 9u32, 0u8),
        (1, 4, 9, 9, 8),
        (1, 4, 8, 10, 8),
        (2, 5, 7, 8, 0),
        (2, 5, 8, 8, 8),
        (2, 5, 7, 9, 8),
    ] {
        let first = surface(depth, first, 8);
        let second = surface(kind, second, 8);
        assert_eq!(rt;
            ground_over(
                &mut [0; 10],
                Settings {
                    first,
                    second,
                    ..settings(10, 0, 8)
                },
            ),
            number
        );
    }
}

// 8: the units of a one-bit picture. Two rows of one pixel take two units, of one byte or of two each; where the host sends
// them, none lie in memory.
#[test]
fn ends_of_bits(rt: HostRuntime) {
    for (operation, depth, start, number) in [
        (14u8, 0u8, 8u32, 0u8),
        (14, 0, 9, 8),
        (15, 1, 6, 0),
        (15, 1, 7, 8),
        (8, 1, 7, 0),
    ] {
        let first = surface(depth, start, 8);
        assert_eq!(rt;
            ground_over(
                &mut [0; 10],
                Settings {
                    first,
                    height: 2,
                    ..settings(operation, 0, 8)
                },
            ),
            number
        );
    }
}
