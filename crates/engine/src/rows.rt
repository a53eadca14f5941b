// Pixels side by side that memory draws by itself: of one value, copied, or made of two values byte by byte.
ghost use Rattle.std.specs.Prelude.{◌≡◌, ℕ, ◌≤◌, true, IfSome};
ghost use Rattle.colour.specs.declared.Palette.{Palette};
ghost use Rattle.window.specs.Places.{area_of, place};
ghost use Rattle.source.specs.Origins.{origin_of, image};
ghost use Rattle.rules.specs.Values.{Agrees};
ghost use Rattle.rules.specs.declared.values.ValueRule.TheVariants.{Fill, First, Raster};
ghost use Rattle.engine.specs.Painted.{op_of, plotted, painted};
ghost use Rattle.engine.specs.Strips.{ReadFirst};

use crate::drawing::Drawing;
use colour::{Canvas, Readable};
use memory::Memory;
use rules::PixelRule;
use source::Source;
use window::{PixelSize, Window};

// Whether pixels of so many bytes that are read from `from` on and written from `to` on, one after another, are each read before
// any of their bytes is written.
fn are_read_first(from: u32, to: u32, bytes: u8) -> bool
    ensures { result ≡ true → ReadFirst from to bytes }
{
    to <= from || from as u64 + bytes as u64 <= to as u64
}

// Where pixel k of a window begins, if memory can have such an address.
pub(crate) fn address_of(window: &Window, size: PixelSize, k: u32) -> Option<u32>
    ensures { IfSome result (λ a. a ≡ place (area_of window.now) size.bytes k) }
{
    u32::try_from(window.address(size, k)).ok()
}

impl<R: PixelRule, D: Canvas> Drawing<R, D> {
    // Draws up to `most` pixels from k on in one value, and answers how many.
    #[tactic(auto, unfolding(crate::specs::Painted::painted))]
    pub(crate) fn fill<M: Memory>(&self, memory: &mut M, value: u32, k: u32, most: u32) -> u32
        requires { Agrees (R.yields self.now.rule) (D.format self.now.canvas) (D.narrowed self.now.canvas) (Fill value) }
        ensures few { result ≤ most }
        ensures after { (p : Palette) (sent : ℕ) → M.bytes memory.new ≡ painted (plotted (op_of R.yields D.format D.narrowed self.now) p sent) k result (M.bytes memory.old) }
    {
        let size = PixelSize::of(&self.canvas);
        let Some(address) = address_of(&self.target, size, k) else {
            return 0;
        };
        let count = self.target.beside(k).min(most);
        memory.fill(
            address,
            &value.to_le_bytes()[..size.bytes() as usize],
            count,
        );
        count
    }

    // The window of a source whose pixels are as wide as those drawn.
    fn window_of(&self, source: Source) -> Option<Window>
        ensures { IfSome result (λ w. origin_of source ≡ image (area_of w) (D.format self.now.canvas).width) }
    {
        let Source::Image { window, size } = source else {
            return None;
        };
        (size.bytes() == self.canvas.bytes_per_pixel()).then_some(window)
    }

    // Draws up to `most` pixels from k on, each as the first source has it, and answers how many: none where a byte might be
    // overwritten before it is read, or where the first source is no window of such pixels.
    #[tactic(auto, unfolding(crate::specs::Painted::painted))]
    pub(crate) fn copy<M: Memory>(&self, memory: &mut M, k: u32, most: u32) -> u32
        requires { Agrees (R.yields self.now.rule) (D.format self.now.canvas) (D.narrowed self.now.canvas) First }
        ensures few { result ≤ most }
        ensures after { (p : Palette) (sent : ℕ) → M.bytes memory.new ≡ painted (plotted (op_of R.yields D.format D.narrowed self.now) p sent) k result (M.bytes memory.old) }
    {
        let Some(window) = self.window_of(self.first) else {
            return 0;
        };
        let size = PixelSize::of(&self.canvas);
        let Some(from) = address_of(&window, size, k) else {
            return 0;
        };
        let Some(to) = address_of(&self.target, size, k) else {
            return 0;
        };
        if !are_read_first(from, to, size.bytes()) {
            return 0;
        }
        let count = self.target.beside(k).min(window.beside(k)).min(most);
        let Some(bytes) = count.checked_mul(size.bytes() as u32) else {
            return 0;
        };
        memory.copy(from, to, bytes);
        count
    }

    // The same, each pixel made of those of both sources by a raster rule.
    #[tactic(auto, unfolding(crate::specs::Painted::painted))]
    pub(crate) fn merge<M: Memory>(&self, memory: &mut M, rule: u8, k: u32, most: u32) -> u32
        requires { Agrees (R.yields self.now.rule) (D.format self.now.canvas) (D.narrowed self.now.canvas) (Raster rule) }
        ensures few { result ≤ most }
        ensures after { (p : Palette) (sent : ℕ) → M.bytes memory.new ≡ painted (plotted (op_of R.yields D.format D.narrowed self.now) p sent) k result (M.bytes memory.old) }
    {
        let Some(first_window) = self.window_of(self.first) else {
            return 0;
        };
        let Some(second_window) = self.window_of(self.second) else {
            return 0;
        };
        let size = PixelSize::of(&self.canvas);
        let Some(first) = address_of(&first_window, size, k) else {
            return 0;
        };
        let Some(second) = address_of(&second_window, size, k) else {
            return 0;
        };
        let Some(to) = address_of(&self.target, size, k) else {
            return 0;
        };
        if !are_read_first(first, to, size.bytes()) {
            return 0;
        }
        if !are_read_first(second, to, size.bytes()) {
            return 0;
        }
        let beside = first_window.beside(k).min(second_window.beside(k));
        let count = self.target.beside(k).min(beside).min(most);
        let Some(bytes) = count.checked_mul(size.bytes() as u32) else {
            return 0;
        };
        memory.raster(rule, first, second, to, bytes);
        count
    }
}
