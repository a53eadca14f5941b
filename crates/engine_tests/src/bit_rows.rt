// Units of one-bit pictures, counted and placed by hand.
use source::{BitRows, Unit};
use std::process::Abort;
use std::test::Fail;

// A row of 50 pixels. The start bit s leaves out U − 1 − s bits at the top of the first unit of U:
// 50 bits are 7 units of 8, 50 + 3 too, 50 + 6 are exactly 7, and 50 + 7 are 8;
// 50 bits are 4 units of 16, 50 + 14 exactly 4, and 50 + 15 are 5.
#[test]
fn units_of_fifty(rt: HostRuntime) -> Result<(), Fail> {
    for (unit, start_bit, units) in [
        (Unit::Eight, 7u8, 7u32),
        (Unit::Eight, 4, 7),
        (Unit::Eight, 1, 7),
        (Unit::Eight, 0, 8),
        (Unit::Sixteen, 15, 4),
        (Unit::Sixteen, 1, 4),
        (Unit::Sixteen, 0, 5),
    ] {
        assert_eq!(rt; BitRows::new(unit, start_bit, 50)?.units(), units);
    }
    Ok(())
}

// 23 bits are 3 units of 8, and 23 + 4 are 4; 23 + 12 are 3 units of 16. A single pixel takes one unit at any start bit.
#[test]
fn units_of_few(rt: HostRuntime) -> Result<(), Fail> {
    for (unit, start_bit, columns, units) in [
        (Unit::Eight, 7u8, 23u16, 3u32),
        (Unit::Eight, 3, 23, 4),
        (Unit::Sixteen, 3, 23, 3),
        (Unit::Eight, 0, 1, 1),
        (Unit::Eight, 0, 2, 2),
        (Unit::Sixteen, 0, 1, 1),
    ] {
        assert_eq!(rt; BitRows::new(unit, start_bit, columns)?.units(), units);
    }
    Ok(())
}

// The bit of each pixel and the address of its byte, in rows from address 100 on.
fn check_places(rt: &impl Abort, rows: BitRows, places: &[(u32, u32, u64)]) {
    for &(pixel, bit, address) in places {
        assert_eq!(rt; (rows.bit(pixel), rows.address(100, pixel)), (bit, address));
    }
}

// Units of 8 from bit 7: unit 0 has the pixels 0 to 7, unit 1 has 8 to 15, and unit 2 has 16 to 22 and a bit to spare.
// Row 1 begins in unit 3.
#[test]
fn bits_from_the_top(rt: HostRuntime) -> Result<(), Fail> {
    check_places(
        &rt,
        BitRows::new(Unit::Eight, 7, 23)?,
        &[
            (0, 7, 100),
            (7, 0, 100),
            (8, 7, 101),
            (16, 7, 102),
            (22, 1, 102),
            (23, 7, 103),
            (46, 7, 106),
        ],
    );
    Ok(())
}

// From bit 3: unit 0 has the pixels 0 to 3, unit 1 has 4 to 11, unit 2 has 12 to 19, and unit 3 has 20 to 22 in its bits
// 7 to 5. Row 1 begins in unit 4 at bit 3.
#[test]
fn bits_from_the_middle(rt: HostRuntime) -> Result<(), Fail> {
    check_places(
        &rt,
        BitRows::new(Unit::Eight, 3, 23)?,
        &[
            (0, 3, 100),
            (3, 0, 100),
            (4, 7, 101),
            (12, 7, 102),
            (20, 7, 103),
            (22, 5, 103),
            (23, 3, 104),
            (27, 7, 105),
        ],
    );
    Ok(())
}

// Units of 16 from bit 3, low byte first: unit 0 has the pixels 0 to 3 in its low byte; unit 1 has 4 to 11 in its high
// byte, at 103, and 12 to 19 in its low one, at 102; unit 2 has 20 to 22 in its high byte. Row 1 begins in unit 3.
#[test]
fn bits_of_two_bytes(rt: HostRuntime) -> Result<(), Fail> {
    check_places(
        &rt,
        BitRows::new(Unit::Sixteen, 3, 23)?,
        &[
            (0, 3, 100),
            (4, 15, 103),
            (11, 8, 103),
            (12, 7, 102),
            (19, 0, 102),
            (22, 13, 105),
            (23, 3, 106),
        ],
    );
    Ok(())
}

// How many of a unit's bits are pixels, by the unit's first pixel: in the rows from bit 3, and in a row of two pixels.
#[test]
fn pixels_of_units(rt: HostRuntime) -> Result<(), Fail> {
    for (unit, start_bit, columns, pixel, pixels) in [
        (Unit::Eight, 3u8, 23u16, 0u32, 4u32),
        (Unit::Eight, 3, 23, 4, 8),
        (Unit::Eight, 3, 23, 20, 3),
        (Unit::Eight, 3, 23, 23, 4),
        (Unit::Sixteen, 3, 23, 4, 16),
        (Unit::Sixteen, 3, 23, 20, 3),
        (Unit::Eight, 7, 2, 0, 2),
    ] {
        assert_eq!(rt;
            BitRows::new(unit, start_bit, columns)?.unit_pixels(pixel),
            pixels
        );
    }
    Ok(())
}
