// The calls that make an operation.
ghost use Rattle.std.specs.Prelude.{◌≡◌, not, map, is_ok};
ghost use Rattle.complete.specs.Parts.{portion_of};
ghost use Rattle.complete.specs.Complete.{DrawnBy};
ghost use Rattle.panel.specs.declared.activity.Activity.TheVariants.{Idle};
ghost use Rattle.panel.specs.State.{seen, written, busy};
ghost use Rattle.complete_panels.specs.Settings.{is_setting, control_value, panel_way, way_on};
ghost use Rattle.complete_panels.specs.Plays.{left_by_write, palette_loaded, one_set, all_set, played, all_played, performed, finished};

use crate::operation::{PanelOperation, RegisterWrite};
use complete::{CompleteOperation, Drawn, Part};
use memory::Memory;
use panel::Panel;

const PALETTE: u8 = 0x03;

const CONTROL: u8 = 0x90;

const READY: u8 = 0x54;

// Loads the palette; a load whose bytes fall short is stopped.
fn load_palette<M: Memory>(panel: &mut Panel<M>, sent: &[u8])
    ensures { seen M.bytes panel.new ≡ palette_loaded (seen M.bytes panel.old) sent.now }
{
    let _ = panel.write(PALETTE, 0x03);
    let _ = panel.burst(sent);
    let _ = panel.stop();
}

impl RegisterWrite {
    // Whether the register is one of the settings.
    fn is_setting(&self) -> bool
        ensures { result ≡ is_setting self.now.register }
    {
        matches!(self.register, 0x91..=0xB5 | 0xD2..=0xD7)
    }
}

// Makes a write, if it is one of the settings.
fn set_register<M: Memory>(panel: &mut Panel<M>, write: &RegisterWrite)
    ensures { seen M.bytes panel.new ≡ one_set (seen M.bytes panel.old) write.now }
{
    if write.is_setting() {
        let _ = panel.write(write.register, write.value);
    }
}

#[tactic(auto, using(std::proofs::lemmas::List::Sums::fold_more))]
fn set_registers<M: Memory>(panel: &mut Panel<M>, writes: &[RegisterWrite])
    ensures { seen M.bytes panel.new ≡ all_set (seen M.bytes panel.old) writes.now }
{
    for write in writes {
        set_register(panel, write);
    }
}

// What a start writes.
fn control(large: bool) -> u8
    ensures { result ≡ control_value large }
{
    if large { 0x11 } else { 0x10 }
}

// Starts the operation, and answers whether it was accepted.
fn start<M: Memory>(panel: &mut Panel<M>, large: bool) -> bool
    ensures answer { result ≡ is_ok (written (seen M.bytes panel.old) 0x90 (control_value large)) }
    ensures after { seen M.bytes panel.new ≡ left_by_write (seen M.bytes panel.old) 0x90 (control_value large) }
{
    panel.write(CONTROL, control(large)).is_ok()
}

// A part is a burst or a run; a declined one changes nothing.
fn play<M: Memory>(panel: &mut Panel<M>, part: &Part<'_>)
    ensures { seen M.bytes panel.new ≡ played (seen M.bytes panel.old) (portion_of part.now) }
{
    match *part {
        Part::Feed(sent) => {
            let _ = panel.burst(sent);
        }
        Part::Run(pixels) => {
            let _ = panel.run(pixels);
        }
    }
}

fn play_all<M: Memory>(panel: &mut Panel<M>, parts: &[Part<'_>])
    ensures { seen M.bytes panel.new ≡ all_played (seen M.bytes panel.old) (map portion_of parts.now) }
{
    for part in parts {
        play(panel, part);
    }
}

// Whether nothing is under way.
fn is_ready<M: Memory>(panel: &Panel<M>) -> bool
    ensures { result ≡ not (busy (seen M.bytes panel.now).doing) }
{
    panel.status() == READY
}

// Draws an operation on a panel as it is, by a start and then bursts and runs. Answers whether it was accepted and has
// ended; if it answers so on a panel that was idle, the operation is complete.
#[tactic(auto, using(crate::proofs::Starting::declined))]
pub fn draw_on<M: Memory>(panel: &mut Panel<M>, large: bool, parts: &[Part<'_>]) -> bool
    ensures answer { result ≡ finished (seen M.bytes panel.old) large (map portion_of parts.now) }
    ensures after { seen M.bytes panel.new ≡ performed (seen M.bytes panel.old) large (map portion_of parts.now) }
    ensures drawn { (seen M.bytes panel.old).doing ≡ Idle → DrawnBy (way_on (seen M.bytes panel.old) large parts.now) (seen M.bytes panel.old).memory (seen M.bytes panel.new).memory result }
{
    if !start(panel, large) {
        return false;
    }
    play_all(panel, parts);
    is_ready(panel)
}

impl CompleteOperation for PanelOperation<'_, '_> {
    ghost way = { panel_way };

    fn draw<M: Memory>(&self, memory: M) -> Drawn<M> {
        let mut panel = Panel::new(memory);
        load_palette(&mut panel, self.palette);
        set_registers(&mut panel, self.writes);
        let complete = draw_on(&mut panel, self.large, self.parts);
        Drawn {
            memory: panel.into_memory(),
            complete,
        }
    }
}
