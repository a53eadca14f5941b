// How far a load of the palette has come.
use std::marker::Model;

// The entries loaded, and the low byte of the next where it has come.
#[derive(Clone, Copy)]
pub struct PaletteLoad {
    pub(crate) entries: u8,
    pub(crate) low: Option<u8>,
}

// Clauses see the byte that waits as a list of one, or of none.
impl Model for PaletteLoad {
    ghost use Rattle.palette_load.specs.Loads.{Load, Keeps};

    ghost Value = { Load };

    ghost use Rattle.palette_load.specs.States.{load_of, inside_of, inside_again};

    ghost view = { load_of };

    ghost invariant = { λ l. Keeps (load_of l) };

    ghost inverse = { inside_of };

    ghost inverse_ok = { λ l _. inside_again l };
}
