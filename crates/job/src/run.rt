// The calls of a job.
ghost use Rattle.std.specs.Prelude.{◌≡◌, length};
ghost use Rattle.refusal.specs.Numbers.{numbered};
ghost use Rattle.rules.specs.Meanings.{RuleMeans};
ghost use Rattle.job.specs.Bounds.{clearing_of, AcceptedInside, HostBytes};
ghost use Rattle.job.specs.Table.{ByTheTable};
ghost use Rattle.job.specs.Works.{LiesInside, Keeps, clearing, awaits, runs, at_stage, feed_answer, feed_after, run_answer, run_after, Ran, FedOnly, FeedsAwaited, RunsAllowed, Begins, FeedTakes, FeedGoesOn, RunGoesOn};

use crate::job::{Begun, Cleared, Closed, Declined, Draft};
use crate::settings::Settings;
use colour::Palette;
use engine::Progress;
use memory::Memory;
use refusal::Refusal;

impl Draft {
    pub fn new(settings: Settings) -> Draft
        ensures { result ≡ settings }
    {
        Draft { settings }
    }

    // Tests the draft against a memory; a declined one comes back unchanged.
    #[tactic(auto, using(crate::proofs::ByTable::by_the_table, crate::proofs::Past::host_bytes))]
    pub fn clear<M: Memory>(self, memory: &M) -> Result<Cleared, Declined>
        ensures answer { clearing_of result ≡ clearing self (length (M.bytes memory.now)) }
        ensures inside { AcceptedInside result }
        ensures table { ByTheTable self (length (M.bytes memory.now))
            (clearing self (length (M.bytes memory.now))) }
        ensures bytes { HostBytes (clearing self (length (M.bytes memory.now))) }
    {
        let size = memory.size();
        match self.settings.clear(size) {
            Ok(drawing) => Ok(Cleared { drawing, size }),
            Err(refusal) => Err(Declined {
                draft: self,
                refusal,
            }),
        }
    }
}

impl Cleared {
    pub fn begin(self) -> Begun
        ensures work { result ≡ self }
        ensures inside { LiesInside result }
        ensures history { Begins result }
    {
        let Cleared { drawing, size } = self;
        Begun {
            drawing,
            size,
            progress: Progress::default(),
        }
    }
}

impl Begun {
    // Whether bytes are awaited. What a state of a job holds to is handed on by a call of each, since callers see its model alone.
    pub fn awaits(&self) -> bool
        ensures answer { result ≡ awaits self.now }
        ensures keeps { Keeps self.now }
    {
        self.drawing.takes(self.progress.drawn)
    }

    // Whether pixels can be run.
    pub fn runs(&self) -> bool
        ensures answer { result ≡ runs self.now }
        ensures keeps { Keeps self.now }
    {
        self.drawing.first.awaited() == 0 && self.progress.drawn < self.drawing.target.pixels()
    }

    // How many pixels have been drawn.
    pub fn drawn(&self) -> u32
        ensures { result ≡ self.now.drawn }
    {
        self.progress.drawn // those that their rule left count too
    }

    // Bytes for a job that the host serves. Answers the bytes taken and the pixels drawn.
    #[tactic(auto, using(rules::proofs::Meanings::rule_means, crate::proofs::Under::feeds_awaited))]
    pub fn feed<M: Memory>(
        &mut self,
        memory: &mut M,
        palette: &Palette,
        sent: &[u8],
    ) -> Result<(usize, u32), Refusal>
        ensures answer { numbered result ≡ feed_answer self.old palette.now (M.bytes memory.old) sent.now }
        ensures memory { M.bytes memory.new ≡ (feed_after self.old palette.now (M.bytes memory.old) sent.now).memory }
        ensures job { self.new ≡ at_stage self.old (feed_after self.old palette.now (M.bytes memory.old) sent.now) }
        ensures allowed { FeedsAwaited self.old (M.bytes memory.old) (numbered result) self.new }
        ensures only { FedOnly self.old (numbered result) (M.bytes memory.old) (M.bytes memory.new) }
        ensures rule { RuleMeans self.old.plan.rule }
        ensures rest { FeedTakes self.old sent.now (numbered result)
            (M.bytes memory.old) self.new (M.bytes memory.new) }
        ensures history { FeedGoesOn self.old palette.now sent.now (numbered result)
            (M.bytes memory.old) self.new (M.bytes memory.new) }
        ensures keeps { Keeps self.new }
    {
        if memory.size() < self.size {
            return Err(Refusal::PastMemory);
        }
        if !self.awaits() {
            return Err(Refusal::NoByteAwaited);
        }
        Ok(
            self.drawing
                .feed_inside(palette, memory, &mut self.progress, sent),
        )
    }

    // Draws as many pixels as are allowed and left of a job that memory serves, and answers how many that were.
    #[tactic(auto, using(window::proofs::Limits::pixels_few, rules::proofs::Meanings::rule_means, crate::proofs::Under::runs_allowed))]
    pub fn run<M: Memory>(
        &mut self,
        memory: &mut M,
        palette: &Palette,
        allowance: u32,
    ) -> Result<u32, Refusal>
        ensures answer { numbered result ≡ run_answer self.old (M.bytes memory.old) allowance }
        ensures memory { M.bytes memory.new ≡ (run_after self.old palette.now (M.bytes memory.old) allowance).memory }
        ensures job { self.new ≡ at_stage self.old (run_after self.old palette.now (M.bytes memory.old) allowance) }
        ensures allowed { RunsAllowed self.old (M.bytes memory.old) allowance (numbered result) self.new }
        ensures pixels { Ran self.old palette.now (numbered result) (M.bytes memory.old) (M.bytes memory.new) }
        ensures rule { RuleMeans self.old.plan.rule }
        ensures history { RunGoesOn self.old palette.now (M.bytes memory.old)
            self.new (M.bytes memory.new) }
        ensures keeps { Keeps self.new }
    {
        if memory.size() < self.size {
            return Err(Refusal::PastMemory);
        }
        if !self.runs() {
            return Err(Refusal::NothingToRun);
        }
        let count = self
            .drawing
            .draw_inside(palette, memory, 0, self.progress.drawn, allowance);
        self.progress.drawn += count;
        Ok(count)
    }

    // Ends the job.
    pub fn close(self) -> Closed
        ensures { result ≡ self.drawn }
    {
        let Begun {
            drawing: _,
            size: _,
            progress,
        } = self;
        Closed {
            drawn: progress.drawn,
        }
    }
}

impl Closed {
    // How many pixels the job drew.
    pub fn drawn(&self) -> u32
        ensures { result ≡ self.now }
    {
        self.drawn // from its begin to its close
    }
}
