// Windows that tests draw in.
ghost use Rattle.std.specs.Prelude.{◌≡◌, Ok};
ghost use Rattle.window.specs.Places.{shown};
ghost use Rattle.samples.specs.Samples.{pair_at};

use refusal::Refusal;
use window::{Area, SIDE_LIMIT, Window};

// Two pixels in a row.
pub fn pair(start: u32) -> Result<Window, Refusal>
    ensures { shown result ≡ Ok (pair_at start) }
{
    let area = Area {
        start,
        image: 2,
        left: 0,
        top: 0,
        width: 2,
        height: 1,
    };
    Window::new(SIDE_LIMIT, area)
}
