// Bytes from the host.
ghost use Rattle.std.specs.Prelude.{◌≡◌, ℕ, ◌+◌, ◌-◌, ◌<◌, ◌≤◌, Bool, true, false, List, [], ◌∷◌, ◌++◌, length, Some, None, nat_lt, take, IfSome};
ghost use Rattle.refusal.specs.Numbers.{numbered};
ghost use Rattle.rules.specs.Values.{Agrees};
ghost use Rattle.engine.specs.Painted.{op_of};
ghost use Rattle.engine.specs.Fed.{waits, number, stage, takes, come, Feed};
ghost use Rattle.engine.specs.Inside.{lies_inside};
ghost use Rattle.engine.specs.Calls.{feed_answer, feed_after, FeedsCounted, FedOnly};
ghost use Rattle.engine.specs.Accepted.{FedInside};
ghost use Rattle.engine.specs.Laws.{FeedsInParts, WholesHold};
ghost use Rattle.engine.specs.Totals.{TakesInAll, TakesAwaited};
ghost use Rattle.engine.specs.History.{GoesOn};

use crate::drawing::{Drawing, Progress};
use crate::strips::Values;
use crate::waiting::Waiting;
use colour::{Canvas, Palette};
use memory::Memory;
use refusal::Refusal;
use rules::{PixelRule, ValueRule};
use source::Source;

// Where fewer pixels than this have come, each byte is taken by itself, which then costs less.
const FEW: usize = 2;

impl Waiting {
    // The bytes with one more, or none where that makes a whole.
    fn and(self, last: u8, awaited: u8) -> Option<Waiting>
        requires { awaited ≤ 4 }
        ensures { elim result [ Some w ↦ (waits w ≡ waits self ++ last ∷ []) × (nat_lt (length (waits self ++ last ∷ [])) awaited ≡ true) | None ↦ nat_lt (length (waits self ++ last ∷ [])) awaited ≡ false ] }
    {
        match self {
            Waiting::None if awaited > 1 => Some(Waiting::One(last)),
            Waiting::One(a) if awaited > 2 => Some(Waiting::Two(a, last)),
            Waiting::Two(a, b) if awaited > 3 => Some(Waiting::Three(a, b, last)),
            _ => None,
        }
    }

    // The number that the bytes hold with the last one, low byte first.
    fn number(self, last: u8) -> u32
        ensures { result ≡ number (waits self ++ last ∷ []) }
    {
        u32::from_le_bytes(match self {
            Waiting::None => [last, 0, 0, 0],
            Waiting::One(a) => [a, last, 0, 0],
            Waiting::Two(a, b) => [a, b, last, 0],
            Waiting::Three(a, b, c) => [a, b, c, last],
        })
    }
}

impl<R: PixelRule, D: Canvas> Drawing<R, D> {
    // Whether a byte is awaited.
    pub fn takes(&self, drawn: u32) -> bool
        ensures { result ≡ takes (op_of R.yields D.format D.narrowed self.now) drawn }
    {
        0 < self.first.awaited() && drawn < self.target.pixels()
    }

    // Takes a byte that is awaited.
    fn accept<M: Memory>(
        &self,
        palette: &Palette,
        memory: &mut M,
        progress: &mut Progress,
        byte: u8,
    )
        ensures { stage (M.bytes memory.new) progress.new ≡ come (op_of R.yields D.format D.narrowed self.now) palette.now (stage (M.bytes memory.old) progress.old) (waits progress.old.waiting ++ byte ∷ []) }
    {
        match progress.waiting.and(byte, self.first.awaited()) {
            Some(waiting) => progress.waiting = waiting,
            None => {
                let sent = progress.waiting.number(byte);
                let due = self.first.served(progress.drawn);
                progress.drawn += self.paint_due(palette, memory, sent, progress.drawn, due);
                progress.waiting = Waiting::None;
            }
        }
    }

    // Whether the host sends pixels, and so many bytes hold enough of them that they may be drawn together.
    fn sends_pixels(&self, bytes: usize) -> bool {
        let Source::Host(size) = self.first else {
            return false;
        };
        bytes >= FEW * size.bytes() as usize
    }

    // Takes the bytes of whole pixels, as many as can be drawn together, and answers how many bytes: none where it was found that they
    // cannot, where bytes wait, where the host does not send pixels, where the bytes of fewer than `FEW` are there, or where the pixels
    // are not drawn together.
    fn take_pixels<M: Memory>(
        &self,
        palette: &Palette,
        memory: &mut M,
        progress: &mut Progress,
        known: Option<ValueRule>,
        together: bool,
        sent: &[u8],
    ) -> usize
        requires { IfSome known (Agrees (R.yields self.now.rule) (D.format self.now.canvas) (D.narrowed self.now.canvas)) }
        ensures { Feed (op_of R.yields D.format D.narrowed self.now) palette.now
            (stage (M.bytes memory.old) progress.old) (take result sent.now) (stage (M.bytes memory.new) progress.new)
            result (progress.new.drawn - progress.old.drawn) }
    {
        if !together {
            return 0;
        }
        let Source::Host(size) = self.first else {
            return 0;
        };
        let Waiting::None = progress.waiting else {
            return 0;
        };
        let width = size.bytes() as usize;
        if sent.len() < FEW * width {
            return 0;
        }
        let k = progress.drawn;
        let left = self.target.pixels().saturating_sub(k);
        let most = left.min(self.target.beside(k));
        let count = (sent.len() / width).min(most as usize) as u32;
        let values = Values::new(sent, width);
        let drawn = self.draw_sent(palette, memory, known, values, k, count);
        progress.drawn += drawn;
        drawn as usize * width
    }

    // Takes bytes one after another until they end or the drawing does, whether it lies inside memory or not.
    fn take_each<M: Memory>(
        &self,
        palette: &Palette,
        memory: &mut M,
        progress: &mut Progress,
        sent: &[u8],
    ) -> (usize, u32)
        ensures { Feed (op_of R.yields D.format D.narrowed self.now) palette.now
            (stage (M.bytes memory.old) progress.old) sent.now (stage (M.bytes memory.new) progress.new)
            result.0 result.1 }
    {
        let before = progress.drawn;
        for (taken, byte) in sent.iter().enumerate() {
            if !self.takes(progress.drawn) {
                return (taken, progress.drawn - before);
            }
            self.accept(palette, memory, progress, *byte);
        }
        (sent.len(), progress.drawn - before)
    }

    // The same, but the bytes of whole pixels together where that can be. Once they could not be, no more of the burst are tried.
    fn take_together<M: Memory>(
        &self,
        palette: &Palette,
        memory: &mut M,
        progress: &mut Progress,
        sent: &[u8],
    ) -> (usize, u32)
        ensures { Feed (op_of R.yields D.format D.narrowed self.now) palette.now
            (stage (M.bytes memory.old) progress.old) sent.now (stage (M.bytes memory.new) progress.new)
            result.0 result.1 }
    {
        let before = progress.drawn;
        let known = rules::on_values(&self.rule, &self.canvas);
        let mut together = true;
        let mut taken = 0;
        while taken < sent.len() && self.takes(progress.drawn) {
            let whole = self.take_pixels(
                palette,
                memory,
                progress,
                known,
                together,
                &sent[taken..],
            );
            if whole == 0 {
                together = together && !matches!(progress.waiting, Waiting::None);
                self.accept(palette, memory, progress, sent[taken]);
                taken += 1;
            } else {
                taken += whole;
            }
        }
        (taken, progress.drawn - before)
    }

    // Takes bytes until they end or the drawing does, whether it lies inside memory or not.
    fn take<M: Memory>(
        &self,
        palette: &Palette,
        memory: &mut M,
        progress: &mut Progress,
        sent: &[u8],
    ) -> (usize, u32)
        ensures { Feed (op_of R.yields D.format D.narrowed self.now) palette.now
            (stage (M.bytes memory.old) progress.old) sent.now (stage (M.bytes memory.new) progress.new)
            result.0 result.1 }
    {
        if self.sends_pixels(sent.len()) {
            self.take_together(palette, memory, progress, sent)
        } else {
            self.take_each(palette, memory, progress, sent)
        }
    }

    /// [`Drawing::feed`] where the drawing is known to lie inside memory, without the test. Elsewhere what lies past memory reads as 0,
    /// and nothing is put there.
    pub fn feed_inside<M: Memory>(
        &self,
        palette: &Palette,
        memory: &mut M,
        progress: &mut Progress,
        sent: &[u8],
    ) -> (usize, u32)
        ensures fed { Feed (op_of R.yields D.format D.narrowed self.now) palette.now
            (stage (M.bytes memory.old) progress.old) sent.now (stage (M.bytes memory.new) progress.new)
            result.0 result.1 }
        ensures parts { FeedsInParts (op_of R.yields D.format D.narrowed self.now) palette.now }
        ensures wholes { WholesHold (op_of R.yields D.format D.narrowed self.now) palette.now }
        ensures in_all { TakesInAll (op_of R.yields D.format D.narrowed self.now) palette.now }
        ensures inside { lies_inside (op_of R.yields D.format D.narrowed self.now) (length (M.bytes memory.old)) ≡ true
            → FedInside (op_of R.yields D.format D.narrowed self.now) palette.now
            (stage (M.bytes memory.old) progress.old) sent.now result (stage (M.bytes memory.new) progress.new) }
    {
        self.take(palette, memory, progress, sent)
    }

    /// Takes bytes until they end or the drawing does. Answers the bytes taken and the pixels drawn. Declined with `PastMemory`, and
    /// none taken, where the drawing does not lie inside memory.
    pub fn feed<M: Memory>(
        &self,
        palette: &Palette,
        memory: &mut M,
        progress: &mut Progress,
        sent: &[u8],
    ) -> Result<(usize, u32), Refusal>
        ensures answer { numbered result
            ≡ feed_answer (op_of R.yields D.format D.narrowed self.now) palette.now
            (stage (M.bytes memory.old) progress.old) sent.now }
        ensures after { stage (M.bytes memory.new) progress.new
            ≡ feed_after (op_of R.yields D.format D.narrowed self.now) palette.now
            (stage (M.bytes memory.old) progress.old) sent.now }
        ensures counts { FeedsCounted (op_of R.yields D.format D.narrowed self.now)
            (stage (M.bytes memory.old) progress.old) (numbered result)
            (stage (M.bytes memory.new) progress.new) }
        ensures only { FedOnly (op_of R.yields D.format D.narrowed self.now)
            (stage (M.bytes memory.old) progress.old) (numbered result) (M.bytes memory.new) }
        ensures parts { FeedsInParts (op_of R.yields D.format D.narrowed self.now) palette.now }
        ensures wholes { WholesHold (op_of R.yields D.format D.narrowed self.now) palette.now }
        ensures in_all { TakesInAll (op_of R.yields D.format D.narrowed self.now) palette.now }
        ensures rest { TakesAwaited (op_of R.yields D.format D.narrowed self.now)
            (stage (M.bytes memory.old) progress.old) sent.now (numbered result)
            (stage (M.bytes memory.new) progress.new) }
        ensures history { GoesOn (op_of R.yields D.format D.narrowed self.now) palette.now
            (stage (M.bytes memory.old) progress.old) sent.now (numbered result)
            (stage (M.bytes memory.new) progress.new) }
    {
        if !self.lies_inside(memory.size()) {
            return Err(Refusal::PastMemory);
        }
        Ok(self.feed_inside(palette, memory, progress, sent))
    }
}
