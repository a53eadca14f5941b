// A drawing drawn step by step, each of as many pixels as can be drawn at once.
ghost use Rattle.std.specs.Prelude.{◌≡◌, ℕ, ◌+◌, ◌^◌, ◌<◌, ◌≤◌, true, IfSome, length};
ghost use Rattle.refusal.specs.Numbers.{numbered};
ghost use Rattle.window.specs.Places.{area_of, place};
ghost use Rattle.window.specs.Values.{stored};
ghost use Rattle.colour.specs.declared.Palette.{Palette};
ghost use Rattle.rules.specs.Values.{Agrees};
ghost use Rattle.engine.specs.Painted.{op_of, yielded, plotted, painted};
ghost use Rattle.engine.specs.Inside.{lies_inside};
ghost use Rattle.engine.specs.Calls.{allowed, draw_answer, draw_after, DrawsAllowed, Drew};
ghost use Rattle.engine.specs.Accepted.{DrewInside};
ghost use Rattle.engine.specs.History.{RunsOn};

use crate::drawing::Drawing;
use crate::together::{FEW, NARROW};
use colour::{Canvas, Colour, Palette};
use memory::Memory;
use refusal::Refusal;
use rules::{PixelRule, ValueRule};
use window::PixelSize;

// Rows of fewer pixels than this are not each tried for a strip.
const SHORT: u32 = 32;

impl<R: PixelRule, D: Canvas> Drawing<R, D> {
    // What the rule yields for pixel k, where the host sent a number.
    fn yielded<M: Memory>(&self, palette: &Palette, memory: &M, sent: u32, k: u32) -> Option<Colour>
        ensures { result ≡ yielded (op_of R.yields D.format D.narrowed self.now) palette.now sent k (M.bytes memory.now) }
    {
        let first = self.first.value(memory, sent, k);
        let second = self.second.value(memory, sent, k);
        self.rule.colour(palette, first, second)
    }

    // Stores a colour as pixel k.
    fn put<M: Memory>(&self, memory: &mut M, k: u32, colour: Colour)
        ensures { M.bytes memory.new ≡ stored (M.bytes memory.old) (place (area_of self.now.target) (D.format self.now.canvas).width k) (D.format self.now.canvas).width (D.narrowed self.now.canvas colour) }
    {
        let size = PixelSize::of(&self.canvas);
        self.target
            .store(size, memory, k, self.canvas.narrow(colour));
    }

    // Draws pixel k, where the host sent a number.
    #[tactic(auto, unfolding(crate::specs::Painted::plotted))]
    #[inline(always)]
    fn plot<M: Memory>(&self, palette: &Palette, memory: &mut M, sent: u32, k: u32)
        ensures { M.bytes memory.new ≡ plotted (op_of R.yields D.format D.narrowed self.now) palette.now sent k (M.bytes memory.old) }
    {
        if let Some(colour) = self.yielded(palette, memory, sent, k) {
            self.put(memory, k, colour);
        }
    }

    // How many pixels there are to draw from `first` on, where so many are allowed.
    fn allowed(&self, first: u32, allowance: u32) -> u32
        ensures { result ≡ allowed (op_of R.yields D.format D.narrowed self.now) first allowance }
    {
        allowance.min(self.target.pixels().saturating_sub(first))
    }

    // Draws up to `most` pixels from k on that memory draws by itself, and answers how many.
    #[tactic(auto, unfolding(crate::specs::Painted::painted))]
    fn draw_by_memory<M: Memory>(
        &self,
        memory: &mut M,
        known: Option<ValueRule>,
        k: u32,
        most: u32,
    ) -> u32
        requires { IfSome known (Agrees (R.yields self.now.rule) (D.format self.now.canvas) (D.narrowed self.now.canvas)) }
        ensures few { result ≤ most }
        ensures after { (p : Palette) (sent : ℕ) → M.bytes memory.new
            ≡ painted (plotted (op_of R.yields D.format D.narrowed self.now) p sent) k result
            (M.bytes memory.old) }
    {
        match known {
            Some(ValueRule::Fill(value)) => self.fill(memory, value, k, most),
            Some(ValueRule::First) => self.copy(memory, k, most),
            Some(ValueRule::Raster(rule)) => self.merge(memory, rule, k, most),
            _ => 0,
        }
    }

    // Draws so many pixels from k on, one after another.
    #[tactic(auto, using(crate::proofs::Painting::painted_more), unfolding(crate::specs::Painted::painted))]
    #[inline(always)]
    fn plot_each<M: Memory>(&self, palette: &Palette, memory: &mut M, sent: u32, k: u32, count: u32)
        requires { k + count < 2 ^ 32 }
        ensures { M.bytes memory.new
            ≡ painted (plotted (op_of R.yields D.format D.narrowed self.now) palette.now sent) k count
            (M.bytes memory.old) }
    {
        for pixel in k..k + count {
            self.plot(palette, memory, sent, pixel);
        }
    }

    // How many pixels from k on, up to `most`, are drawn one after another where they make no strip: those of the row, or all where
    // rows are narrow, or short and a strip would have been long enough, since then there is none in the next row either.
    fn without_strip(&self, k: u32, most: u32) -> u32
        requires { 1 ≤ most }
        ensures some { 1 ≤ result }
        ensures few { result ≤ most }
    {
        let width = u32::from(self.target.width());
        let rest = self.target.rest_of_row(k);
        if width < NARROW || width < SHORT && NARROW <= rest {
            return most;
        }
        rest.min(most)
    }

    // Draws pixels from k on, at least one and up to `most`, in as large a step as can be made, and answers how many: by memory
    // itself, or in strips. Where a pixel takes what one before it wrote, they are drawn one after another to the end of the row, and
    // where a row is narrow, to the last.
    fn step<M: Memory>(
        &self,
        palette: &Palette,
        memory: &mut M,
        known: Option<ValueRule>,
        sent: u32,
        k: u32,
        most: u32,
    ) -> u32
        requires known { IfSome known (Agrees (R.yields self.now.rule) (D.format self.now.canvas) (D.narrowed self.now.canvas)) }
        requires own { k + most < 2 ^ 32 }
        requires some { 1 ≤ most }
        ensures some { 1 ≤ result }
        ensures few { result ≤ most }
        ensures after { M.bytes memory.new
            ≡ painted (plotted (op_of R.yields D.format D.narrowed self.now) palette.now sent) k result
            (M.bytes memory.old) }
    {
        let drawn = self.draw_by_memory(memory, known, k, most);
        if drawn > 0 {
            return drawn;
        }
        let drawn = self.draw_strips(palette, memory, known, sent, k, most);
        if drawn > 0 {
            return drawn;
        }
        let rest = self.without_strip(k, most);
        self.plot_each(palette, memory, sent, k, rest);
        rest
    }

    // Draws so many pixels from `first` on in as large steps as can be made.
    fn paint_together<M: Memory>(
        &self,
        palette: &Palette,
        memory: &mut M,
        sent: u32,
        first: u32,
        count: u32,
    )
        requires { first + count < 2 ^ 32 }
        ensures { M.bytes memory.new
            ≡ painted (plotted (op_of R.yields D.format D.narrowed self.now) palette.now sent) first count
            (M.bytes memory.old) }
    {
        let known = rules::on_values(&self.rule, &self.canvas);
        let mut k = first;
        let mut left = count;
        while left > 0 {
            let drawn = self.step(palette, memory, known, sent, k, left);
            k += drawn;
            left -= drawn;
        }
    }

    // Draws so many pixels, or as many as are left, from `first` on, whether the drawing lies inside memory or not.
    #[inline(always)]
    fn paint<M: Memory>(
        &self,
        palette: &Palette,
        memory: &mut M,
        sent: u32,
        first: u32,
        allowance: u32,
    ) -> u32
        ensures count { result ≡ allowed (op_of R.yields D.format D.narrowed self.now) first allowance }
        ensures after { M.bytes memory.new
            ≡ painted (plotted (op_of R.yields D.format D.narrowed self.now) palette.now sent) first result
            (M.bytes memory.old) }
    {
        let count = self.allowed(first, allowance);
        if count < FEW {
            self.plot_each(palette, memory, sent, first, count);
        } else {
            self.paint_together(palette, memory, sent, first, count);
        }
        count
    }

    // The same, as a call of its own: of the bytes that come one by one most draw nothing.
    #[inline(never)]
    pub(crate) fn paint_due<M: Memory>(
        &self,
        palette: &Palette,
        memory: &mut M,
        sent: u32,
        first: u32,
        due: u32,
    ) -> u32
        ensures count { result ≡ allowed (op_of R.yields D.format D.narrowed self.now) first due }
        ensures after { M.bytes memory.new
            ≡ painted (plotted (op_of R.yields D.format D.narrowed self.now) palette.now sent) first result
            (M.bytes memory.old) }
    {
        self.paint(palette, memory, sent, first, due)
    }

    /// [`Drawing::draw`] where the drawing is known to lie inside memory, without the test. Elsewhere what lies past memory reads as 0,
    /// and nothing is put there.
    pub fn draw_inside<M: Memory>(
        &self,
        palette: &Palette,
        memory: &mut M,
        sent: u32,
        first: u32,
        allowance: u32,
    ) -> u32
        ensures count { result ≡ allowed (op_of R.yields D.format D.narrowed self.now) first allowance }
        ensures after { M.bytes memory.new
            ≡ painted (plotted (op_of R.yields D.format D.narrowed self.now) palette.now sent) first result
            (M.bytes memory.old) }
        ensures inside { lies_inside (op_of R.yields D.format D.narrowed self.now) (length (M.bytes memory.old)) ≡ true
            → DrewInside (op_of R.yields D.format D.narrowed self.now) palette.now sent first allowance result
            (M.bytes memory.old) (M.bytes memory.new) }
    {
        self.paint(palette, memory, sent, first, allowance)
    }

    /// Draws `allowance` pixels, or as many as are left, from pixel `first` on, and answers how many that were. `sent` is the number
    /// of the pixel or unit that the host sent; an operation that memory serves takes none. Declined with `PastMemory`, and nothing
    /// drawn, where the drawing does not lie inside memory.
    // Palette and memory come apart, here and in jobs, since the one is read and the other written: lent as one, each contract
    // would have to add that the palette stays. So do memory and progress, of which a draw changes the one alone.
    pub fn draw<M: Memory>(
        &self,
        palette: &Palette,
        memory: &mut M,
        sent: u32,
        first: u32,
        allowance: u32,
    ) -> Result<u32, Refusal>
        ensures answer { numbered result
            ≡ draw_answer (op_of R.yields D.format D.narrowed self.now) (M.bytes memory.old) first allowance }
        ensures after { M.bytes memory.new
            ≡ draw_after (op_of R.yields D.format D.narrowed self.now) palette.now sent first allowance
            (M.bytes memory.old) }
        ensures accepts { DrawsAllowed (op_of R.yields D.format D.narrowed self.now)
            (length (M.bytes memory.old)) first allowance (numbered result) }
        ensures drew { Drew (op_of R.yields D.format D.narrowed self.now) palette.now sent first
            (numbered result) (M.bytes memory.old) (M.bytes memory.new) }
        ensures history { RunsOn (op_of R.yields D.format D.narrowed self.now) palette.now first
            (numbered result) (M.bytes memory.old) (M.bytes memory.new) }
    {
        if !self.lies_inside(memory.size()) {
            return Err(Refusal::PastMemory);
        }
        Ok(self.draw_inside(palette, memory, sent, first, allowance))
    }
}
