// The numbers of a window.

// The rectangle of `width` by `height` pixels at (left, top) of an image, `image` pixels wide, that begins at `start`.
#[derive(Clone, Copy)]
pub struct Area {
    pub start: u32,
    pub image: u16,
    pub left: u16,
    pub top: u16,
    pub width: u16,
    pub height: u16,
}
