// Where several grounds hold, the lowest number is answered.
use super::settings::ground_over;
use job::{Settings, Surface};
use samples::{settings, surface};

// A blend with everything wrong, and less and less of it: the operation, the kind of the second source, its level, its window,
// and the size of memory.
#[test]
fn grounds_of_a_blend(rt: HostRuntime) {
    for (operation, kind, level, image, number) in [
        (13u8, 3u8, 33u8, 0u16, 3u8),
        (10, 3, 33, 0, 4),
        (10, 2, 33, 0, 6),
        (10, 2, 32, 0, 7),
        (10, 2, 32, 8, 8),
    ] {
        let second = Surface {
            image,
            ..surface(kind, 0, 8)
        };
        let settings = Settings {
            level,
            second,
            ..settings(operation, 0, 8)
        };
        assert_eq!(rt; ground_over(&mut [], settings), number);
    }
    assert_eq!(rt;
        ground_over(
            &mut [0; 3],
            Settings {
                second: surface(2, 0, 8),
                ..settings(10, 0, 8)
            },
        ),
        0
    );
}

// An expansion: the operation, the depth of its units, its start bit, its width, and the size of memory.
#[test]
fn grounds_of_an_expansion(rt: HostRuntime) {
    for (operation, depth, code, width, number) in [
        (3u8, 2u8, 16u8, 0u16, 3u8),
        (14, 2, 16, 0, 4),
        (14, 1, 16, 0, 5),
        (14, 1, 15, 0, 7),
        (14, 1, 15, 1, 8),
    ] {
        let first = surface(depth, 0, 8);
        let settings = Settings {
            code,
            first,
            width,
            ..settings(operation, 0, 8)
        };
        assert_eq!(rt; ground_over(&mut [], settings), number);
    }
    assert_eq!(rt;
        ground_over(
            &mut [0; 2],
            Settings {
                first: surface(1, 0, 8),
                ..settings(14, 0, 8)
            },
        ),
        0
    );
}
