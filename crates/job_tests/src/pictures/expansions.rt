// Operations 8, 9, 14 and 15.
use super::jobs::{check_drawn, check_fed, settings};
use job::Settings;
use samples::{rgb, surface};

// Units of 8 from bit 5, four pixels a row, so one unit a row: ECh is 11 1011 00 and 07h is 00 0001 11.
// Red is E0h and blue 03h in 3:3:2. An empty burst takes and draws nothing.
#[test]
fn bits_from_host(rt: HostRuntime) {
    let expand = Settings {
        operation: 8,
        code: 5,
        height: 2,
        foreground: rgb(255, 0, 0),
        background: rgb(0, 0, 255),
        ..settings()
    };
    check_fed(
        &rt,
        &mut [0x55; 9],
        expand,
        &[&[0xEC], &[], &[0x07, 0x99]],
        [(1, 4), (0, 0), (1, 4)],
        &[0xE0, 0x03, 0xE0, 0xE0, 0x03, 0x03, 0x03, 0xE0, 0x55],
    );
}

// Units of 16 from bit 0: of three pixels the first is bit 0 of unit 1h, and the others the bits 15 and 14 of unit 4000h.
// So they are 1, 0 and 1. Both units are cut in the middle.
#[test]
fn units_of_sixteen_from_host(rt: HostRuntime) {
    let expand = Settings {
        operation: 8,
        code: 0,
        first: surface(1, 0, 3),
        target: surface(2, 0, 3),
        width: 3,
        foreground: rgb(1, 2, 3),
        background: rgb(4, 5, 6),
        ..settings()
    };
    check_fed(
        &rt,
        &mut [0x55; 10],
        expand,
        &[&[0x01], &[0x00, 0x00], &[0x40]],
        [(1, 0), (2, 1), (1, 2)],
        &[3, 2, 1, 6, 5, 4, 3, 2, 1, 0x55],
    );
}

// Units of 8 from bit 0, two pixels a row, so two units a row: bit 0 of the first and bit 7 of the second.
// 01h 7Fh are 1 0, and FEh 80h are 0 1. The foreground is FC08h in 5:6:5, and a 0 leaves its pixel.
#[test]
fn bits_from_host_over(rt: HostRuntime) {
    let over = Settings {
        operation: 9,
        code: 0,
        target: surface(1, 0, 2),
        width: 2,
        height: 2,
        foreground: rgb(255, 128, 64),
        background: rgb(255, 255, 255),
        ..settings()
    };
    check_fed(
        &rt,
        &mut [0x11, 0x11, 0x22, 0x22, 0x33, 0x33, 0x44, 0x44],
        over,
        &[&[0x01, 0x7F], &[0xFE], &[0x80]],
        [(2, 2), (1, 1), (1, 1)],
        &[0x08, 0xFC, 0x22, 0x22, 0x33, 0x33, 0x08, 0xFC],
    );
}

// Units of 16 from bit 15, three pixels a row, so one unit a row, the first at address 1: A000h is 101 and 6000h is 011.
// Red is E0h and green 1Ch in 3:3:2.
#[test]
fn bits_from_memory(rt: HostRuntime) {
    let expand = Settings {
        operation: 14,
        code: 15,
        first: surface(1, 1, 1),
        target: surface(0, 5, 3),
        width: 3,
        height: 2,
        foreground: rgb(255, 0, 0),
        background: rgb(0, 255, 0),
        ..settings()
    };
    check_drawn(
        &rt,
        &mut [0x99, 0x00, 0xA0, 0x00, 0x60, 0, 0, 0, 0, 0, 0],
        expand,
        6,
        &[
            0x99, 0x00, 0xA0, 0x00, 0x60, 0xE0, 0x1C, 0xE0, 0x1C, 0xE0, 0xE0,
        ],
    );
}

// Units of 8 from bit 1, three pixels a row: the bits 1 and 0 of one unit and bit 7 of the next, so two units a row.
// 02h 80h are 10 1, and 01h 7Fh are 01 0. The foreground is FC08h in 5:6:5, and a 0 leaves its pixel.
#[test]
fn bits_from_memory_over(rt: HostRuntime) {
    let over = Settings {
        operation: 15,
        code: 1,
        target: surface(1, 4, 3),
        width: 3,
        height: 2,
        foreground: rgb(255, 128, 64),
        ..settings()
    };
    check_drawn(
        &rt,
        &mut [0x02, 0x80, 0x01, 0x7F, 5, 5, 5, 5, 5, 5, 5, 5, 5, 5, 5, 5],
        over,
        6,
        &[
            0x02, 0x80, 0x01, 0x7F, 0x08, 0xFC, 5, 5, 0x08, 0xFC, 5, 5, 0x08, 0xFC, 5, 5,
        ],
    );
}
