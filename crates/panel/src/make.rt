// Calls as values.
ghost use Rattle.std.specs.Prelude.{◌≡◌, IfSome};
ghost use Rattle.panel_calls.specs.Calls.{call_of};
ghost use Rattle.panel_calls.specs.Replies.{reply_of};
ghost use Rattle.panel.specs.State.{seen};
ghost use Rattle.panel.specs.Histories.{CallGoesOn};
ghost use Rattle.panel.specs.Calls.{answered, left_by, declined_by, DeclinedChangesNothing, OwnNumber, LeftByCalls};

use crate::activity::Activity;
use crate::panel::Panel;
use memory::Memory;
use panel_calls::{Answer, Call};
use refusal::Refusal;

impl<M: Memory> Panel<M> {
    // What is under way decides together with the call.
    fn dispatch(&mut self, call: Call<'_>) -> Answer
        ensures answer { reply_of result ≡ answered (seen M.bytes self.old) (call_of call.entry) }
        ensures after { seen M.bytes self.new ≡ left_by (seen M.bytes self.old) (call_of call.entry) }
        ensures history { CallGoesOn (seen M.bytes self.old) (call_of call.entry) (reply_of result)
            (seen M.bytes self.new) }
    {
        match (&self.activity, call) {
            (_, Call::Write { register, value }) => Answer::Write(self.write(register, value)),
            (_, Call::Read { register }) => Answer::Read(self.read(register)),
            (Activity::Awaiting(_) | Activity::PaletteLoad(_), Call::Burst(sent)) => Answer::Burst(
                self.burst(sent),
            ),
            (_, Call::Burst(_)) => Answer::Burst(Err(Refusal::NoByteAwaited)),
            (Activity::Drawing(_), Call::Run { pixels }) => Answer::Run(self.run(pixels)),
            (_, Call::Run { .. }) => Answer::Run(Err(Refusal::NothingToRun)),
            (Activity::Idle, Call::Stop) => Answer::Stop(Err(Refusal::NothingUnderWay)),
            (_, Call::Stop) => Answer::Stop(self.stop()),
            (_, Call::Status) => Answer::Status(self.status()),
            (_, Call::Memory { address }) => Answer::Memory(self.memory_read(address)),
        }
    }

    // Makes a call.
    pub fn make(&mut self, call: Call<'_>) -> Answer
        ensures answer { reply_of result ≡ answered (seen M.bytes self.old) (call_of call.entry) }
        ensures after { seen M.bytes self.new ≡ left_by (seen M.bytes self.old) (call_of call.entry) }
        ensures history { CallGoesOn (seen M.bytes self.old) (call_of call.entry) (reply_of result)
            (seen M.bytes self.new) }
        ensures declined { DeclinedChangesNothing (declined_by (reply_of result)) (seen M.bytes self.old) (seen M.bytes self.new) }
        ensures own { LeftByCalls (seen M.bytes self.old) → IfSome (declined_by (reply_of result)) (OwnNumber (seen M.bytes self.old).doing (call_of call.entry)) }
    {
        self.dispatch(call)
    }
}
