// Drawings inside memory.
ghost use Rattle.std.specs.Prelude.{◌≡◌, Bool};
ghost use Rattle.engine.specs.Painted.{op_of};
ghost use Rattle.engine.specs.Inside.{sources_cover, lies_inside, InsideExactly};
ghost use Rattle.engine.specs.History.{Begins};

use crate::drawing::Drawing;
use colour::{Canvas, Readable};
use rules::PixelRule;

impl<R: PixelRule, D: Canvas> Drawing<R, D> {
    // Whether the sources have a pixel for each of the target, and the second is not sent by the host.
    fn sources_cover(&self) -> bool
        ensures { result ≡ sources_cover (op_of R.yields D.format D.narrowed self.now) }
    {
        let width = self.target.width();
        let height = self.target.height();
        self.first.covers(width, height)
            && self.second.covers(width, height)
            && self.second.awaited() == 0
    }

    /// Whether the drawing lies inside a memory of `size` bytes: its sources have a pixel for each of the target, and what they
    /// and the target have in memory ends there. A source's window is as wide as the target, and as high or higher; a pattern
    /// and rows of bits have as many columns; the host sends for the first source alone.
    #[tactic(auto, using(crate::proofs::Bytes::drawing_exactly, crate::proofs::Histories::drawing_begins))]
    pub fn lies_inside(&self, size: u32) -> bool
        ensures is { result ≡ lies_inside (op_of R.yields D.format D.narrowed self.now) size }
        ensures exactly { InsideExactly (op_of R.yields D.format D.narrowed self.now) size
            (lies_inside (op_of R.yields D.format D.narrowed self.now) size) }
        ensures begins { Begins (op_of R.yields D.format D.narrowed self.now)
            (lies_inside (op_of R.yields D.format D.narrowed self.now) size) }
    {
        let size = size as u64;
        let height = self.target.height();
        self.sources_cover()
            && self.first.reach(height) <= size
            && self.second.reach(height) <= size
            && self.target.reach(self.canvas.bytes_per_pixel()) <= size
    }
}
