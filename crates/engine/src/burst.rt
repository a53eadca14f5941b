// Pixels that lie side by side, drawn together by the values that the host sent for them.
ghost use Rattle.std.specs.Prelude.{◌≡◌, ℕ, ◌*◌, ◌≤◌, true, Some, IfSome, length};
ghost use Rattle.window.specs.Places.{area_of, place};
ghost use Rattle.window.specs.Geometry.{SideBySide};
ghost use Rattle.source.specs.Origins.{origin_of, host};
ghost use Rattle.source.specs.Strips.{Ahead};
ghost use Rattle.rules.specs.Values.{Agrees};
ghost use Rattle.rules.specs.declared.values.ValueRule.TheVariants.{First};
ghost use Rattle.engine.specs.Painted.{op_of, sent_drawn, painted};

use crate::drawing::Drawing;
use crate::rows::address_of;
use crate::strips::Values;
use colour::{Canvas, Palette};
use memory::Memory;
use rules::{PixelRule, ValueRule};
use window::PixelSize;

// How many bytes a buffer has: bursts are short, and a buffer costs the time that it takes to clear it.
const ROOM: usize = 512;

// Whether what a rule does on values is known, and leaves those of the first source as they are.
fn is_first(known: Option<ValueRule>) -> bool
    ensures { result ≡ true → known ≡ Some First }
{
    matches!(known, Some(ValueRule::First))
}

impl<R: PixelRule, D: Canvas> Drawing<R, D> {
    // How many pixels from k on, which begins at `at`, are drawn together: up to `most`, or those of the row where of so many one might
    // take a byte of the second source that one before it wrote; none where it might even so.
    fn ahead_of(&self, k: u32, most: u32, at: u32) -> u32
        ensures few { result ≤ most }
        ensures ahead { Ahead (origin_of self.now.second) k result at (D.format self.now.canvas).width }
    {
        let bytes = self.canvas.bytes_per_pixel();
        if self.second.keeps_ahead(k, most, at as u64, bytes) {
            return most;
        }
        let row = most.min(self.target.rest_of_row(k));
        if row < most && self.second.keeps_ahead(k, row, at as u64, bytes) {
            return row;
        }
        0
    }

    // Draws pixels from k on, which begins at `at`, by what the rule makes of the values, up to `most`, and answers how many: none
    // where the host sends for the second source too, or where a pixel might take a byte that one before it wrote.
    #[tactic(auto, unfolding(crate::specs::Painted::painted))]
    fn work_sent<M: Memory>(
        &self,
        palette: &Palette,
        memory: &mut M,
        known: Option<ValueRule>,
        sent: Values,
        at: u32,
        k: u32,
        most: u32,
    ) -> u32
        requires known { IfSome known (Agrees (R.yields self.now.rule) (D.format self.now.canvas) (D.narrowed self.now.canvas)) }
        requires host { origin_of self.now.first ≡ host sent.width }
        requires first_few { sent.width ≤ 4 }
        requires room { most * sent.width ≤ length sent.bytes.now }
        requires gapless { SideBySide (area_of self.now.target) k most }
        requires address { at ≡ place (area_of self.now.target) (D.format self.now.canvas).width k }
        ensures few { result ≤ most }
        ensures after { M.bytes memory.new
            ≡ painted (sent_drawn (op_of R.yields D.format D.narrowed self.now) palette.now
            sent.entry.width k sent.entry.bytes.now) k result (M.bytes memory.old) }
    {
        let size = PixelSize::of(&self.canvas);
        if self.second.awaited() > 0 {
            return 0;
        }
        let most = self.ahead_of(k, most.min((ROOM / size.bytes() as usize) as u32), at);
        if most == 0 {
            return 0;
        }
        let mut bytes = [0; ROOM];
        let count = self.second.values(memory, 0, k, most, &mut bytes);
        let second = Values::new(&bytes, self.second.value_bytes() as usize);
        let mut target = [0; ROOM];
        self.draw_at(
            palette,
            memory,
            known,
            sent,
            second,
            &mut target,
            at,
            count as usize,
        );
        count
    }

    // Draws pixels from k on by the values, up to `count`, and answers how many: none where they cannot be drawn together. Where each
    // pixel is to hold its value as it came, the bytes are put in memory at once.
    #[tactic(auto, unfolding(crate::specs::Painted::painted))]
    pub(crate) fn draw_sent<M: Memory>(
        &self,
        palette: &Palette,
        memory: &mut M,
        known: Option<ValueRule>,
        sent: Values,
        k: u32,
        count: u32,
    ) -> u32
        requires known { IfSome known (Agrees (R.yields self.now.rule) (D.format self.now.canvas) (D.narrowed self.now.canvas)) }
        requires host { origin_of self.now.first ≡ host sent.width }
        requires first_few { sent.width ≤ 4 }
        requires room { count * sent.width ≤ length sent.bytes.now }
        requires gapless { SideBySide (area_of self.now.target) k count }
        ensures few { result ≤ count }
        ensures after { M.bytes memory.new
            ≡ painted (sent_drawn (op_of R.yields D.format D.narrowed self.now) palette.now
            sent.entry.width k sent.entry.bytes.now) k result (M.bytes memory.old) }
    {
        let size = PixelSize::of(&self.canvas);
        let width = size.bytes() as usize;
        let Some(at) = address_of(&self.target, size, k) else {
            return 0;
        };
        if is_first(known) && sent.width == width {
            memory.store(at, &sent.bytes[..count as usize * width]);
            return count;
        }
        self.work_sent(palette, memory, known, sent, at, k, count)
    }
}
