// Refusals 3 to 6: the numbers of an operation, a depth, a kind, a start bit and a level.
use super::settings::ground;
use job::Settings;
use samples::{settings, surface};

// 3: of the sixteen codes, 1, 3 and 13 are no operation.
#[test]
fn operations(rt: HostRuntime) {
    for operation in [0u8, 2, 4, 5, 6, 7, 8, 9, 10, 11, 12, 14, 15] {
        assert_eq!(rt; ground(settings(operation, 0, 8)), 0);
    }
    for operation in [1u8, 3, 13] {
        assert_eq!(rt; ground(settings(operation, 0, 8)), 3);
    }
}

// 4: a one-bit picture has depth 0 or 1.
#[test]
fn depths_of_bits(rt: HostRuntime) {
    for operation in [8u8, 9, 14, 15] {
        for (depth, number) in [(0u8, 0u8), (1, 0), (2, 4), (3, 4)] {
            let first = surface(depth, 0, 8);
            assert_eq!(rt;
                ground(Settings {
                    first,
                    ..settings(operation, 0, 8)
                }),
                number
            );
        }
    }
}

// A first source of pixels and a destination have any depth, and a fill has no first source.
#[test]
fn depths_of_pixels(rt: HostRuntime) {
    for operation in [0u8, 2, 4, 5, 6, 7, 10, 11, 12] {
        for depth in [1u8, 2, 3] {
            let first = surface(depth, 0, 8);
            let target = surface(depth, 0, 8);
            assert_eq!(rt;
                ground(Settings {
                    first,
                    target,
                    ..settings(operation, 0, 8)
                }),
                0
            );
        }
    }
}

fn ground_of_kind(operation: u8, kind: u8) -> u8 {
    ground(Settings {
        second: surface(kind, 0, 8),
        ..settings(operation, 0, 8)
    })
}

// 4: the second source of a raster rule has kind 0, 1 or 2, and that of a blend may have kind 4 or 5 too.
#[test]
fn kinds(rt: HostRuntime) {
    for (kind, of_raster, of_blend) in [
        (0u8, 0u8, 0u8),
        (1, 0, 0),
        (2, 0, 0),
        (3, 4, 4),
        (4, 4, 0),
        (5, 4, 0),
        (6, 4, 4),
        (7, 4, 4),
    ] {
        for operation in [0u8, 2, 6] {
            assert_eq!(rt; ground_of_kind(operation, kind), of_raster);
        }
        for operation in [10u8, 11] {
            assert_eq!(rt; ground_of_kind(operation, kind), of_blend);
        }
    }
}

// Where no second source is used, its kind does not count.
#[test]
fn kinds_of_others(rt: HostRuntime) {
    for operation in [4u8, 5, 7, 8, 9, 12, 14, 15] {
        assert_eq!(rt; ground_of_kind(operation, 3), 0);
        assert_eq!(rt; ground_of_kind(operation, 7), 0);
    }
}

// 5: the start bit is below 8 in units of 8, and below 16 in units of 16.
#[test]
fn start_bits(rt: HostRuntime) {
    for operation in [8u8, 9, 14, 15] {
        for (depth, code, number) in [
            (0u8, 7u8, 0u8),
            (0, 8, 5),
            (0, 15, 5),
            (1, 8, 0),
            (1, 15, 0),
            (1, 16, 5),
        ] {
            let first = surface(depth, 0, 8);
            assert_eq!(rt;
                ground(Settings {
                    code,
                    first,
                    ..settings(operation, 0, 8)
                }),
                number
            );
        }
    }
}

// The raster rule of another operation may be any number.
#[test]
fn codes_of_others(rt: HostRuntime) {
    for operation in [0u8, 2, 4, 5, 6, 7, 10, 11, 12] {
        assert_eq!(rt;
            ground(Settings {
                code: 255,
                ..settings(operation, 0, 8)
            }),
            0
        );
    }
}

// 6: a blend uses the level unless its second source is an overlay, and no other operation does.
#[test]
fn levels(rt: HostRuntime) {
    for (operation, kind, level, number) in [
        (10u8, 0u8, 32u8, 0u8),
        (10, 0, 33, 6),
        (10, 2, 32, 0),
        (10, 2, 33, 6),
        (11, 1, 32, 0),
        (11, 1, 33, 6),
        (10, 4, 33, 0),
        (10, 5, 255, 0),
        (11, 4, 255, 0),
        (11, 5, 33, 0),
        (2, 0, 33, 0),
        (12, 0, 255, 0),
    ] {
        let second = surface(kind, 0, 8);
        assert_eq!(rt;
            ground(Settings {
                second,
                level,
                ..settings(operation, 0, 8)
            }),
            number
        );
    }
}
