// Pixels side by side that are drawn together: their values go into buffers, the rule works on those, and what comes is stored at once.
ghost use Rattle.std.specs.Prelude.{◌≡◌, ℕ, ◌+◌, ◌*◌, ◌^◌, ◌<◌, ◌≤◌, true, IfSome, length};
ghost use Rattle.std.specs.Option.{option_map};
ghost use Rattle.memory.specs.Spans.{span, overlaid};
ghost use Rattle.rules.specs.Values.{Agrees};
ghost use Rattle.engine.specs.Painted.{op_of, plotted, painted};
ghost use Rattle.source.specs.Origins.{origin_of};
ghost use Rattle.source.specs.Strips.{Ahead};
ghost use Rattle.engine.specs.Strips.{stripped, made};
ghost use Rattle.engine.specs.Side.{IsStrip};

use crate::drawing::Drawing;
use crate::known::{draw_known, is_alike};
use crate::rows::address_of;
use crate::strips::{Values, draw_each};
use crate::values::ByColours;
use colour::{Canvas, Palette, Readable};
use memory::Memory;
use rules::{PixelRule, ValueRule};
use window::PixelSize;

// How many bytes a buffer has.
const ROOM: usize = 1024;

// Fewer pixels than this are not drawn together, since the buffers have to be made ready first.
pub(crate) const FEW: u32 = 8;

// Fewer pixels than this side by side make no strip.
pub(crate) const NARROW: u32 = 3;

// Pixels side by side: where the first of them begins in memory, and how many they are.
#[derive(Clone, Copy)]
pub(crate) struct Strip {
    at: u32,
    count: u32,
}

// The values of both sources, and the pixels that come of them.
#[derive(Drop)]
pub(crate) struct Buffers {
    first: [u8; ROOM],
    second: [u8; ROOM],
    target: [u8; ROOM],
}

impl Buffers {
    pub(crate) fn new() -> Buffers {
        Buffers {
            first: [0; ROOM],
            second: [0; ROOM],
            target: [0; ROOM],
        }
    }
}

impl<R: PixelRule, D: Canvas> Drawing<R, D> {
    // Works on so many pixels in buffers: by what the rule does on values where that is known, and else by colours.
    pub(crate) fn work(
        &self,
        palette: &Palette,
        known: Option<ValueRule>,
        first: Values,
        second: Values,
        target: &mut [u8],
        count: usize,
    )
        requires known { IfSome known (Agrees (R.yields self.now.rule) (D.format self.now.canvas) (D.narrowed self.now.canvas)) }
        requires first_few { first.width ≤ 4 }
        requires second_few { second.width ≤ 4 }
        requires first_room { count * first.width ≤ length first.bytes.now }
        requires second_room { count * second.width ≤ length second.bytes.now }
        requires room { count * (D.format self.now.canvas).width ≤ length target.old }
        ensures after { target.new ≡ stripped (made (D.narrowed self.now.canvas) (R.yields self.now.rule palette.now)) first.entry.width second.entry.width (D.format self.now.canvas).width first.entry.bytes.now second.entry.bytes.now count target.old }
        ensures long { length target.new ≡ length target.old }
    {
        let width = self.canvas.bytes_per_pixel() as usize;
        if let Some(rule) = known {
            if is_alike(rule, first.width, second.width, width) {
                draw_known(rule, first, second, target, width, count);
                return;
            }
        }
        let by_colours = ByColours {
            rule: &self.rule,
            canvas: &self.canvas,
            palette,
        };
        draw_each(&by_colours, first, second, target, width, count);
    }

    // Draws so many pixels from an address on, by the values of their sources.
    pub(crate) fn draw_at<M: Memory>(
        &self,
        palette: &Palette,
        memory: &mut M,
        known: Option<ValueRule>,
        first: Values,
        second: Values,
        buffer: &mut [u8],
        at: u32,
        count: usize,
    )
        requires known { IfSome known (Agrees (R.yields self.now.rule) (D.format self.now.canvas) (D.narrowed self.now.canvas)) }
        requires first_few { first.width ≤ 4 }
        requires second_few { second.width ≤ 4 }
        requires first_room { count * first.width ≤ length first.bytes.now }
        requires second_room { count * second.width ≤ length second.bytes.now }
        requires room { count * (D.format self.now.canvas).width ≤ length buffer.old }
        ensures { M.bytes memory.new
            ≡ overlaid (M.bytes memory.old) at
            (stripped (made (D.narrowed self.now.canvas) (R.yields self.now.rule palette.now)) first.entry.width second.entry.width (D.format self.now.canvas).width
            first.entry.bytes.now second.entry.bytes.now count
            (span (M.bytes memory.old) at (count * (D.format self.now.canvas).width))) }
    {
        let target = &mut buffer[..count * self.canvas.bytes_per_pixel() as usize];
        memory.load(at, target);
        self.work(palette, known, first, second, target, count);
        memory.store(at, target);
    }

    // Whether none of so many pixels from k on takes a byte that one before it wrote, where they begin at `at`.
    fn keeps_ahead(&self, k: u32, count: u32, at: u32) -> bool
        ensures first { result ≡ true → Ahead (origin_of self.now.first) k count at (D.format self.now.canvas).width }
        ensures second { result ≡ true → Ahead (origin_of self.now.second) k count at (D.format self.now.canvas).width }
    {
        let bytes = self.canvas.bytes_per_pixel();
        self.first.keeps_ahead(k, count, at as u64, bytes)
            && self.second.keeps_ahead(k, count, at as u64, bytes)
    }

    // The strip that begins with pixel k and has up to `most`: as many as lie side by side and fit into a buffer, or those of the row
    // where of so many one might take a byte that another wrote. None where one of the row might too, where they are fewer than
    // `NARROW`, or where memory can have no such address.
    fn strip(&self, k: u32, most: u32) -> Option<Strip>
        ensures { IfSome result (λ s. IsStrip (op_of R.yields D.format D.narrowed self.now) k most s.at s.count) }
    {
        let size = PixelSize::of(&self.canvas);
        let room = (ROOM / size.bytes() as usize) as u32;
        let most = most.min(room).min(self.target.beside(k));
        if most < NARROW {
            return None;
        }
        let at = address_of(&self.target, size, k)?;
        if self.keeps_ahead(k, most, at) {
            return Some(Strip { at, count: most });
        }
        let count = most.min(self.target.rest_of_row(k));
        if NARROW <= count && count < most && self.keeps_ahead(k, count, at) {
            return Some(Strip { at, count });
        }
        None
    }

    // Draws a strip that begins with pixel k, of up to `most`, and answers how many pixels it has; none where there is no strip.
    #[tactic(auto, unfolding(crate::specs::Painted::painted))]
    fn draw_strip<M: Memory>(
        &self,
        palette: &Palette,
        memory: &mut M,
        buffers: &mut Buffers,
        known: Option<ValueRule>,
        sent: u32,
        k: u32,
        most: u32,
    ) -> u32
        requires known { IfSome known (Agrees (R.yields self.now.rule) (D.format self.now.canvas) (D.narrowed self.now.canvas)) }
        ensures few { result ≤ most }
        ensures after { M.bytes memory.new
            ≡ painted (plotted (op_of R.yields D.format D.narrowed self.now) palette.now sent) k result
            (M.bytes memory.old) }
    {
        let Some(strip) = self.strip(k, most) else {
            return 0;
        };
        let given = self
            .first
            .values(memory, sent, k, strip.count, &mut buffers.first);
        let count = self
            .second
            .values(memory, sent, k, given, &mut buffers.second);
        let first = Values::new(&buffers.first, self.first.value_bytes() as usize);
        let second = Values::new(&buffers.second, self.second.value_bytes() as usize);
        let target = &mut buffers.target[..];
        self.draw_at(
            palette,
            memory,
            known,
            first,
            second,
            target,
            strip.at,
            count as usize,
        );
        count
    }

    // Draws up to `most` pixels from k on in strips, and answers how many.
    #[tactic(auto, unfolding(crate::specs::Painted::painted))]
    pub(crate) fn draw_strips<M: Memory>(
        &self,
        palette: &Palette,
        memory: &mut M,
        known: Option<ValueRule>,
        sent: u32,
        k: u32,
        most: u32,
    ) -> u32
        requires known { IfSome known (Agrees (R.yields self.now.rule) (D.format self.now.canvas) (D.narrowed self.now.canvas)) }
        requires own { k + most < 2 ^ 32 }
        ensures few { result ≤ most }
        ensures after { M.bytes memory.new
            ≡ painted (plotted (op_of R.yields D.format D.narrowed self.now) palette.now sent) k result
            (M.bytes memory.old) }
    {
        if most < FEW || self.strip(k, most).is_none() {
            return 0;
        }
        let mut buffers = Buffers::new();
        let mut drawn = 0;
        while drawn < most {
            let count = self.draw_strip(
                palette,
                memory,
                &mut buffers,
                known,
                sent,
                k + drawn,
                most - drawn,
            );
            drawn += count;
            if count == 0 {
                break;
            }
        }
        drawn
    }
}
