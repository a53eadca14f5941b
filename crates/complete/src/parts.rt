// The engine's drawing as a complete operation.
ghost use Rattle.std.specs.Prelude.{◌≡◌, true, map, length, nat_le};
ghost use Rattle.window.specs.Places.{area_of, pixels};
ghost use Rattle.engine.specs.Painted.{op_of};
ghost use Rattle.engine.specs.Fed.{stage};
ghost use Rattle.engine.specs.Inside.{lies_inside};
ghost use Rattle.complete.specs.Parts.{run as spent, portion_of, stepped, parted};
ghost use Rattle.complete.specs.Complete.{begun, way_in_parts};

use crate::operation::{CompleteOperation, Drawn};
use crate::part::Part;
use colour::{Canvas, Palette, Readable};
use engine::{Drawing, Progress};
use memory::Memory;
use rules::PixelRule;

// A drawing under a palette, by parts.
#[derive(Drop)]
pub struct PartedDrawing<'a, 'b, R, D> {
    pub drawing: Drawing<R, D>,
    pub palette: Palette,
    pub parts: &'a [Part<'b>],
}

impl<R: PixelRule, D: Canvas> PartedDrawing<'_, '_, R, D> {
    // Spends an allowance of pixels, if memory serves the operation.
    fn run<M: Memory>(&self, memory: &mut M, progress: &mut Progress, allowance: u32)
        requires { lies_inside (op_of R.yields D.format D.narrowed self.now.drawing)
            (length (M.bytes memory.old)) ≡ true }
        ensures size { length (M.bytes memory.new) ≡ length (M.bytes memory.old) }
        ensures after { stage (M.bytes memory.new) progress.new ≡ stepped (op_of R.yields D.format D.narrowed self.now.drawing) self.now.palette (stage (M.bytes memory.old) progress.old) (spent allowance) }
    {
        if self.drawing.first.awaited() > 0 {
            return;
        }
        let drawn = self
            .drawing
            .draw(&self.palette, memory, 0, progress.drawn, allowance);
        if let Ok(count) = drawn {
            progress.drawn += count;
        }
    }

    // One part more.
    fn step<M: Memory>(&self, memory: &mut M, progress: &mut Progress, part: &Part<'_>)
        requires { lies_inside (op_of R.yields D.format D.narrowed self.now.drawing)
            (length (M.bytes memory.old)) ≡ true }
        ensures size { length (M.bytes memory.new) ≡ length (M.bytes memory.old) }
        ensures after { stage (M.bytes memory.new) progress.new ≡ stepped (op_of R.yields D.format D.narrowed self.now.drawing) self.now.palette (stage (M.bytes memory.old) progress.old) (portion_of part.now) }
    {
        match *part {
            Part::Feed(bytes) => {
                let _ = self.drawing.feed(&self.palette, memory, progress, bytes);
            }
            Part::Run(allowance) => self.run(memory, progress, allowance),
        }
    }

    // Draws the parts, and answers how far the drawing has come.
    fn draw_parts<M: Memory>(&self, memory: &mut M) -> Progress
        requires { lies_inside (op_of R.yields D.format D.narrowed self.now.drawing)
            (length (M.bytes memory.old)) ≡ true }
        ensures { stage (M.bytes memory.new) result ≡ parted (op_of R.yields D.format D.narrowed self.now.drawing) self.now.palette (begun (M.bytes memory.old)) (map portion_of self.now.parts.now) }
    {
        let mut progress = Progress::default();
        for part in self.parts {
            self.step(memory, &mut progress, part);
        }
        progress
    }

    // Whether all pixels are drawn.
    fn is_complete(&self, progress: &Progress) -> bool
        ensures { result ≡ nat_le (pixels (area_of self.now.drawing.target)) progress.now.drawn }
    {
        self.drawing.target.pixels() <= progress.drawn
    }
}

impl<R: PixelRule, D: Canvas> CompleteOperation for PartedDrawing<'_, '_, R, D> {
    ghost way = { λ d. way_in_parts (op_of R.yields D.format D.narrowed d.drawing) d.palette d.parts.now };

    fn draw<M: Memory>(&self, mut memory: M) -> Drawn<M> {
        if !self.drawing.lies_inside(memory.size()) {
            return Drawn {
                memory,
                complete: false,
            };
        }
        let progress = self.draw_parts(&mut memory);
        Drawn {
            memory,
            complete: self.is_complete(&progress),
        }
    }
}
