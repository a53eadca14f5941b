// How many bytes a pixel has.
ghost use Rattle.std.specs.Prelude.{◌≡◌, ◌≤◌};

// At least one, and at most four, so that a value fits 32 bits.
// A ghost field and no model: where a value with a model stands inside an enum, as it would in `Source`, another crate that keeps
// a drawing over a branch gets no proof.
#[derive(Clone, Copy)]
pub struct PixelSize {
    pub(crate) bytes: u8,
    ghost some: { 1 ≤ bytes },
    ghost few: { bytes ≤ 4 },
}
