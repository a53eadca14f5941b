// The ground alone, for a caller that passes it on with `?`.
ghost use Rattle.std.specs.Prelude.{◌≡◌};

use crate::job::Declined;
use refusal::Refusal;

impl From<Declined> for Refusal {
    ghost from_gives = { λ declined refusal. refusal ≡ declined.refusal };

    fn from(declined: Declined) -> Refusal {
        declined.refusal
    }
}
