// The exclusive or of a source and a window, in any formats.
ghost use Rattle.std.specs.Prelude.{◌≡◌, true, map};
ghost use Rattle.window.specs.Places.{area_of};
ghost use Rattle.source.specs.Origins.{origin_of, image};
ghost use Rattle.complete.specs.Parts.{portion_of, sent_in};
ghost use Rattle.complete.specs.Complete.{way_in_parts};
ghost use Rattle.complete.specs.Undo.{exclusive_or_of, SourceApart};
ghost use Rattle.complete.specs.Laws.{DrawnByBoth};

use crate::laws::twice;
use crate::operation::Drawn;
use crate::part::Part;
use crate::parts::PartedDrawing;
use colour::{Canvas, Palette, Readable};
use engine::Drawing;
use memory::Memory;
use rules::Raster;
use source::Source;
use window::{PixelSize, Window};

#[derive(Clone, Copy)]
pub struct ExclusiveOr<F, D> {
    // the source and its format
    pub first: Source,
    pub format: F,
    // the window and its format
    pub target: Window,
    pub canvas: D,
}

impl<F: Readable + Copy, D: Canvas + Copy> ExclusiveOr<F, D> {
    // Raster rule 6, with the window as its own second source.
    fn drawing(&self) -> Drawing<Raster<F, D>, D>
        ensures rule { result.rule ≡ record { rule = 6; first = self.now.format; second = self.now.canvas } }
        ensures canvas { result.canvas ≡ self.now.canvas }
        ensures first { result.first ≡ self.now.first }
        ensures second { origin_of result.second ≡ image (area_of self.now.target) (D.format self.now.canvas).width }
        ensures target { result.target ≡ self.now.target }
    {
        let size = PixelSize::of(&self.canvas);
        Drawing {
            rule: Raster {
                rule: 6,
                first: self.format,
                second: self.canvas,
            },
            canvas: self.canvas,
            first: self.first,
            second: Source::Image {
                window: self.target,
                size,
            },
            target: self.target,
        }
    }
}

// Draws an exclusive or by parts, and again by other parts. With the same bytes, memory ends as it was, whatever the
// formats are.
pub fn exclusive_or_twice<F: Readable + Copy, D: Canvas + Copy, M: Memory>(
    operation: &ExclusiveOr<F, D>,
    palette: &Palette,
    parts: &[Part<'_>],
    again: &[Part<'_>],
    memory: M,
) -> Drawn<M>
    ensures drawn { DrawnByBoth (way_in_parts (exclusive_or_of F.format D.format D.narrowed operation.now) palette.now parts.now) (way_in_parts (exclusive_or_of F.format D.format D.narrowed operation.now) palette.now again.now) (M.bytes memory) (M.bytes result.memory) result.complete }
    ensures restored { sent_in (map portion_of parts.now) ≡ sent_in (map portion_of again.now) → SourceApart (exclusive_or_of F.format D.format D.narrowed operation.now) → result.complete ≡ true → M.bytes result.memory ≡ M.bytes memory }
{
    let once = PartedDrawing {
        drawing: operation.drawing(),
        palette: *palette,
        parts,
    };
    let second = PartedDrawing {
        drawing: operation.drawing(),
        palette: *palette,
        parts: again,
    };
    twice(&once, &second, memory)
}
