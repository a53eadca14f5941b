// A source of pixel values.
use crate::rows::BitRows;
use window::{PixelSize, Window};

// Clauses see it by `origin_of`, since an enum can have no model. `Unused` is one of six cases, and an Option of the other five
// would only nest the matches.
#[derive(Clone, Copy)]
pub enum Source {
    // nothing is taken
    Unused,
    // pixel values that the host sends
    Host(PixelSize),
    // bits that the host sends, in units
    HostBits(BitRows),
    // the pixels of a window; its size stands beside it and not in it, since a destination's is that of its canvas
    Image {
        window: Window,
        size: PixelSize,
    },
    // a window repeated over a rectangle with so many columns
    Pattern {
        window: Window,
        size: PixelSize,
        columns: u16,
    },
    // bits in memory, the rows without gaps from an address on
    Bits {
        rows: BitRows,
        start: u32,
    },
}
