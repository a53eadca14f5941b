// A window that lies within its image.
ghost use Rattle.std.specs.Prelude.{◌≡◌, true};
ghost use Rattle.window.specs.Limits.{within};

use crate::area::Area;

// The largest image width and rectangle side, for panels and jobs.
pub const SIDE_LIMIT: u16 = 8191;

// Clauses see its numbers by `area_of`. A ghost field and no model: where a value with a model stands inside an enum, as it would in `Source`, another crate that keeps
// a drawing over a branch gets no proof.
#[derive(Clone, Copy)]
pub struct Window {
    pub(crate) area: Area,
    ghost limited: { within 8191 area ≡ true },
}
