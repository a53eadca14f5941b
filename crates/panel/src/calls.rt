// The calls of a panel.
ghost use Rattle.std.specs.Prelude.{◌≡◌};
ghost use Rattle.refusal.specs.Numbers.{numbered};
ghost use Rattle.memory.specs.Bytes.{read_at};
ghost use Rattle.panel.specs.State.{seen, fresh, busy, kept, written, started, under_way, answer_of, after_of, register_read, run_answer, run_after, stop_answer, stopped, status_of};
ghost use Rattle.panel.specs.Histories.{Starts, RunGoesOn};

use crate::activity::Activity;
use crate::panel::Panel;
use crate::register::{CONTROL, PALETTE, Register};
use crate::registers::Registers;
use colour::Palette;
use job::{Begun, Draft};
use memory::Memory;
use palette_load::PaletteLoad;
use refusal::Refusal;

const BUSY: u8 = 0x5C;

const READY: u8 = 0x54;

fn stored_value(register: Register, value: u8) -> u8
    ensures { result ≡ kept register.number value }
{
    if register == CONTROL {
        value & 0xEF
    } else {
        value
    }
}

// The host serves an operation that was begun, or memory does.
fn under_way(begun: Begun) -> Activity
    ensures { result ≡ under_way begun }
{
    if begun.awaits() {
        Activity::Awaiting(begun)
    } else {
        Activity::Drawing(begun)
    }
}

impl<M: Memory> Panel<M> {
    // A panel with all registers and palette entries zero and nothing under way.
    pub fn new(memory: M) -> Panel<M>
        ensures { seen M.bytes result ≡ fresh (M.bytes memory) }
    {
        Panel {
            memory,
            registers: Registers::new(),
            palette: Palette::new(),
            activity: Activity::Idle,
        }
    }

    // Ends the panel and hands its memory back.
    pub fn into_memory(self) -> M
        ensures { result ≡ self.memory }
    {
        let Panel {
            memory,
            registers: _,
            palette: _,
            activity: _,
        } = self;
        memory
    }

    fn is_busy(&self) -> bool
        ensures { result ≡ busy self.now.activity }
    {
        !matches!(self.activity, Activity::Idle)
    }

    // Starts an operation by a write of 90h.
    fn start(&mut self, value: u8) -> Result<(), Refusal>
        ensures answer { numbered result ≡ answer_of (started (seen M.bytes self.old) 0x90 value) }
        ensures after { seen M.bytes self.new ≡ after_of (seen M.bytes self.old) (started (seen M.bytes self.old) 0x90 value) }
        ensures history { Starts 0x90 value (numbered result)
            (seen M.bytes self.old) (seen M.bytes self.new) }
    {
        let draft = Draft::new(self.registers.settings(value));
        let begun = draft.clear(&self.memory)?.begin();
        self.registers.set(CONTROL, stored_value(CONTROL, value));
        self.activity = under_way(begun);
        Ok(())
    }

    // A host's bus carries any number, so which registers exist is asked here.
    pub fn write(&mut self, register: u8, value: u8) -> Result<(), Refusal>
        ensures answer { numbered result ≡ answer_of (written (seen M.bytes self.old) register value) }
        ensures after { seen M.bytes self.new ≡ after_of (seen M.bytes self.old) (written (seen M.bytes self.old) register value) }
        ensures history { Starts register value (numbered result)
            (seen M.bytes self.old) (seen M.bytes self.new) }
    {
        let register = Register::try_from(register)?;
        if self.is_busy() {
            return Err(Refusal::Busy);
        }
        if register == CONTROL && value / 16 % 2 == 1 {
            return self.start(value);
        }
        self.registers.set(register, stored_value(register, value));
        if register == PALETTE && value % 4 == 3 {
            self.activity = Activity::PaletteLoad(PaletteLoad::new());
        }
        Ok(())
    }

    // Any number, as in a write.
    pub fn read(&self, register: u8) -> Result<u8, Refusal>
        ensures { numbered result ≡ register_read (seen M.bytes self.now) register }
    {
        let register = Register::try_from(register)?;
        let value = self.registers.value(register);
        match self.activity {
            Activity::Drawing(_) | Activity::Awaiting(_) if register == CONTROL => Ok(value | 0x10),
            _ => Ok(value),
        }
    }

    // Draws as many pixels as are allowed and left of the operation under way, which ends with its last pixel.
    pub fn run(&mut self, pixels: u32) -> Result<u32, Refusal>
        ensures answer { numbered result ≡ run_answer (seen M.bytes self.old) (seen M.bytes self.old).doing pixels }
        ensures after { seen M.bytes self.new ≡ run_after (seen M.bytes self.old) (seen M.bytes self.old).doing pixels }
        ensures history { RunGoesOn (seen M.bytes self.old) (seen M.bytes self.old).doing pixels
            (numbered result) (seen M.bytes self.new) }
    {
        let Activity::Drawing(begun) = &mut self.activity else {
            return Err(Refusal::NothingToRun);
        };
        let count = begun.run(&mut self.memory, &self.palette, pixels)?;
        if !begun.runs() {
            self.activity = Activity::Idle;
        }
        Ok(count)
    }

    // Ends what is under way, and answers the pixels that it drew.
    pub fn stop(&mut self) -> Result<u32, Refusal>
        ensures answer { numbered result ≡ stop_answer (seen M.bytes self.old).doing }
        ensures after { seen M.bytes self.new ≡ stopped (seen M.bytes self.old) }
    {
        let drawn = match &self.activity {
            Activity::Idle => return Err(Refusal::NothingUnderWay),
            Activity::Drawing(begun) | Activity::Awaiting(begun) => begun.drawn(),
            Activity::PaletteLoad(_) => 0,
        };
        self.activity = Activity::Idle;
        Ok(drawn)
    }

    pub fn status(&self) -> u8
        ensures { result ≡ status_of (seen M.bytes self.now).doing }
    {
        if self.is_busy() { BUSY } else { READY }
    }

    // One byte of display memory.
    pub fn memory_read(&self, address: u32) -> Result<u8, Refusal>
        ensures { numbered result ≡ read_at (seen M.bytes self.now).memory address }
    {
        self.memory.read(address)
    }
}
