// Bursts of bytes.
ghost use Rattle.std.specs.Prelude.{◌≡◌};
ghost use Rattle.refusal.specs.Numbers.{numbered};
ghost use Rattle.panel.specs.State.{seen, burst_answer, burst_after};
ghost use Rattle.panel.specs.Histories.{BurstGoesOn};

use crate::activity::Activity;
use crate::panel::Panel;
use memory::Memory;
use refusal::Refusal;

impl<M: Memory> Panel<M> {
    // Takes bytes until they end or what they feed does, which ends with its last pixel or entry. Answers the bytes taken and
    // the pixels drawn.
    pub fn burst(&mut self, sent: &[u8]) -> Result<(usize, u32), Refusal>
        ensures answer { numbered result ≡ burst_answer (seen M.bytes self.old) (seen M.bytes self.old).doing sent.now }
        ensures after { seen M.bytes self.new ≡ burst_after (seen M.bytes self.old) (seen M.bytes self.old).doing sent.now }
        ensures history { BurstGoesOn (seen M.bytes self.old) (seen M.bytes self.old).doing sent.now
            (numbered result) (seen M.bytes self.new) }
    {
        match &mut self.activity {
            Activity::Awaiting(begun) => {
                let counts = begun.feed(&mut self.memory, &self.palette, sent)?;
                if !begun.awaits() {
                    self.activity = Activity::Idle;
                }
                Ok(counts)
            }
            Activity::PaletteLoad(load) => {
                let taken = load.feed(&mut self.palette, sent);
                if !load.awaits() {
                    self.activity = Activity::Idle;
                }
                Ok((taken, 0))
            }
            _ => Err(Refusal::NoByteAwaited),
        }
    }
}
