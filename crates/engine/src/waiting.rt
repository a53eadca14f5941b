// The bytes of an unfinished pixel or unit. An enum and no buffer: it is copied with its progress, and cannot hold four bytes, so
// that no bound is carried or tested.
#[derive(Clone, Copy, Default)]
pub enum Waiting {
    #[default]
    None,
    One(u8),
    Two(u8, u8),
    Three(u8, u8, u8),
}
