// Windows: rectangles of pixels within an image in display memory.
#![tactic(auto)]

mod area;
mod bytes;
mod pixels;
mod size;
mod window;

pub use area::Area;
pub use bytes::{byte_at, bytes_at, put_byte};
pub use size::PixelSize;
pub use window::{SIDE_LIMIT, Window};
