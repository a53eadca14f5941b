// The levels of the overlay formats.
use colour::Overlay;
use formats::{Argb4444, Index26, OverlayKind};

// Bits 7 and 6 choose the level, whatever the six bits below.
#[test]
fn levels_of_two_bits(rt: HostRuntime) {
    for low in [0u32, 1, 0x2A, 0x3F] {
        assert_eq!(rt; Index26.level(low), 0);
        assert_eq!(rt; Index26.level(0x40 + low), 10);
        assert_eq!(rt; Index26.level(0x80 + low), 21);
        assert_eq!(rt; Index26.level(0xC0 + low), 32);
    }
}

// Twice the field of bits 15 to 12, but 32 for 15, whatever the twelve bits below.
#[test]
fn levels_of_four_bits(rt: HostRuntime) {
    let levels = [
        (0u32, 0u8),
        (1, 2),
        (2, 4),
        (3, 6),
        (4, 8),
        (5, 10),
        (6, 12),
        (7, 14),
        (8, 16),
        (9, 18),
        (10, 20),
        (11, 22),
        (12, 24),
        (13, 26),
        (14, 28),
        (15, 32),
    ];
    for (field, level) in levels {
        assert_eq!(rt; Argb4444.level(field % 16 * 4096), level);
        assert_eq!(rt; Argb4444.level(field % 16 * 4096 + 4095), level);
    }
}

#[test]
fn levels_of_a_chosen_kind(rt: HostRuntime) {
    assert_eq!(rt; OverlayKind::Index26.level(0x80), 21);
    assert_eq!(rt; OverlayKind::Index26.level(0xFF), 32);
    assert_eq!(rt; OverlayKind::Argb4444.level(0x8000), 16);
    assert_eq!(rt; OverlayKind::Argb4444.level(0x00FF), 0);
    assert_eq!(rt; OverlayKind::Argb4444.level(0xF000), 32);
}
