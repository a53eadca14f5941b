// The bytes of a load.
ghost use Rattle.std.specs.Prelude.{◌≡◌, ℕ, ◌+◌, ◌<◌, ◌≤◌, Bool, []};
ghost use Rattle.palette_load.specs.Loads.{Loading, loading, unfinished, come, loaded_by, bytes_taken, LoadInParts, Keeps};

use crate::load::PaletteLoad;
use colour::Palette;

impl PaletteLoad {
    // A load of which no byte has come.
    pub fn new() -> PaletteLoad
        ensures { result ≡ record { entries = 0; waiting = [] } }
    {
        PaletteLoad {
            entries: 0,
            low: None,
        }
    }

    // Whether a byte is awaited. What a load keeps is handed on here, since callers see its model alone.
    pub fn awaits(&self) -> bool
        ensures is { result ≡ unfinished self.now.entries }
        ensures keeps { Keeps self.now }
    {
        self.entries < 64
    }

    // Takes a byte that is awaited; an entry is complete with its second byte.
    fn accept(&mut self, palette: &mut Palette, byte: u8)
        requires { self.old.entries < 64 }
        ensures { loading palette.new self.new ≡ come (loading palette.old self.old) byte }
    {
        match self.low {
            None => self.low = Some(byte),
            Some(low) => {
                palette.set_from_bytes(self.entries, low, byte);
                self.entries += 1;
                self.low = None;
            }
        }
    }

    // Takes bytes until they end or the load does, and answers how many it took.
    pub fn feed(&mut self, palette: &mut Palette, sent: &[u8]) -> usize
        ensures after { loading palette.new self.new ≡ loaded_by (loading palette.old self.old) sent.now }
        ensures taken { result ≡ bytes_taken (loading palette.old self.old) sent.now }
        ensures parts { LoadInParts }
    {
        for (taken, byte) in sent.iter().enumerate() {
            if !self.awaits() {
                return taken;
            }
            self.accept(palette, *byte);
        }
        sent.len()
    }
}
