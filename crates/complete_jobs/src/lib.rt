#![tactic(auto)]
// A job, from its draft to its close, as a complete operation.
ghost use Rattle.std.specs.Prelude.{◌≡◌, true, map, nat_le};
ghost use Rattle.window.specs.Places.{pixels};
ghost use Rattle.complete.specs.Parts.{portion_of, stepped, parted};
ghost use Rattle.job.specs.Plans.{op_at};
ghost use Rattle.job.specs.Works.{serves, stage_of, at_stage};
ghost use Rattle.complete.specs.Laws.{DrawnByBoth};
ghost use Rattle.complete_jobs.specs.Ways.{way_of};
ghost use Rattle.complete_jobs.specs.Undo.{SettingsUndone, SettingsUndoThemselves};

use colour::Palette;
use complete::{CompleteOperation, Drawn, Part, twice};
use job::{Begun, Draft, Settings};
use memory::Memory;

// The settings of an operation, its palette, and the parts in which it is drawn.
#[derive(Drop)]
pub struct PartedJob<'a, 'b> {
    pub settings: Settings,
    pub palette: Palette,
    pub parts: &'a [Part<'b>],
}

impl PartedJob<'_, '_> {
    // One part more; a declined feed or run changes nothing. Not one text with the engine's `PartedDrawing`: a job may decline a part, and
    // carries its own progress, so a trait over both would only add a clause for each difference.
    fn step<M: Memory>(&self, begun: &mut Begun, memory: &mut M, part: &Part<'_>)
        requires { serves begun.old (M.bytes memory.old) ≡ true }
        ensures job { begun.new ≡ at_stage begun.old (stepped (op_at begun.old.plan) self.now.palette (stage_of begun.old (M.bytes memory.old)) (portion_of part.now)) }
        ensures memory { M.bytes memory.new ≡ (stepped (op_at begun.old.plan) self.now.palette (stage_of begun.old (M.bytes memory.old)) (portion_of part.now)).memory }
    {
        match *part {
            Part::Feed(bytes) => {
                let _ = begun.feed(memory, &self.palette, bytes);
            }
            Part::Run(allowance) => {
                let _ = begun.run(memory, &self.palette, allowance);
            }
        }
    }

    // Feeds and runs a job that was begun, and answers whether all its pixels are drawn.
    fn draw_parts<M: Memory>(&self, mut begun: Begun, memory: &mut M) -> bool
        requires { serves begun (M.bytes memory.old) ≡ true }
        ensures memory { M.bytes memory.new ≡ (parted (op_at begun.plan) self.now.palette (stage_of begun (M.bytes memory.old)) (map portion_of self.now.parts.now)).memory }
        ensures ended { result ≡ nat_le (pixels begun.plan.target) (parted (op_at begun.plan) self.now.palette (stage_of begun (M.bytes memory.old)) (map portion_of self.now.parts.now)).drawn }
    {
        for part in self.parts {
            self.step(&mut begun, memory, part);
        }
        let complete = is_over(&begun);
        let _ = begun.close();
        complete
    }
}

// Whether all pixels are drawn: a job that is not over awaits bytes, or runs.
fn is_over(begun: &Begun) -> bool
    ensures { result ≡ nat_le (pixels begun.now.plan.target) begun.now.drawn }
{
    !begun.awaits() && !begun.runs()
}

impl CompleteOperation for PartedJob<'_, '_> {
    ghost way = { λ j. way_of j.settings j.palette j.parts.now };

    fn draw<M: Memory>(&self, mut memory: M) -> Drawn<M> {
        let complete = match Draft::new(self.settings).clear(&memory) {
            Ok(cleared) => self.draw_parts(cleared.begin(), &mut memory),
            Err(_) => false,
        };
        Drawn { memory, complete }
    }
}

// Draws what settings mean in one way, as a job does, and again in another.
pub fn settings_twice<V: CompleteOperation, W: CompleteOperation, M: Memory>(
    operation: &V,
    again: &W,
    memory: M,
) -> Drawn<M>
    ensures drawn { DrawnByBoth (V.way operation.now) (W.way again.now) (M.bytes memory) (M.bytes result.memory) result.complete }
    ensures undone { SettingsUndone (V.way operation.now) (W.way again.now) (M.bytes memory) result.complete (M.bytes result.memory) }
    ensures law { SettingsUndoThemselves }
{
    twice(operation, again, memory)
}
