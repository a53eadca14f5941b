// The ground against settings, by its number: the tests say which number a host sees, and an Option of a refusal would make no row of
// a table plainer.
use job::Settings;
use memory::ByteBoard;
use samples::begin;

// The number that settings are declined with over a block of bytes, or 0 where they are accepted.
pub(crate) fn ground_over(block: &mut [u8], settings: Settings) -> u8 {
    match begin(&ByteBoard::new(block), settings) {
        Ok(_) => 0,
        Err(refusal) => refusal.number(),
    }
}

// The same over 192 bytes, which have room for a pattern of 8 × 8 at three bytes a pixel.
pub(crate) fn ground(settings: Settings) -> u8 {
    ground_over(&mut [0; 192], settings)
}
