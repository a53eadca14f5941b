// Operations by panel calls and as jobs, in both orders and twice. All pixels are 3:3:2.
use colour::Palette;
use complete::{CompleteOperation, Drawn, Orders, Part, in_either_order};
use complete_jobs::{PartedJob, settings_twice};
use complete_panels::{PanelOperation, RegisterWrite};
use job::Settings;
use memory::{ByteBoard, WordBoard};
use samples::{rgb, surface};

fn write(register: u8, value: u8) -> RegisterWrite {
    RegisterWrite { register, value }
}

// Two pixels from an address on; the second source is the window that is drawn on.
fn settings(operation: u8, code: u8, start: u32) -> Settings {
    Settings {
        second: surface(0, start, 2),
        target: surface(0, start, 2),
        width: 2,
        foreground: rgb(255, 0, 0),
        ..samples::settings(operation, code, 2)
    }
}

fn job<'a, 'b>(settings: Settings, parts: &'a [Part<'b>]) -> PartedJob<'a, 'b> {
    PartedJob {
        settings,
        palette: Palette::new(),
        parts,
    }
}

fn panel<'a, 'b>(writes: &'a [RegisterWrite], parts: &'a [Part<'b>]) -> PanelOperation<'a, 'b> {
    PanelOperation {
        palette: &[],
        writes,
        large: false,
        parts,
    }
}

// Red, E0h, on bytes 0 and 1, and 5 and 6 from the host on bytes 2 and 3. The byte board has the fill by panel calls
// first and then the host's job; the word board the host's pixels by panel calls, and then the fill as a job.
#[test]
fn either_order(rt: HostRuntime) {
    let red = [
        write(0x91, 0x0C),
        write(0xAB, 2),
        write(0xB1, 2),
        write(0xB3, 1),
        write(0xD2, 255),
    ];
    let sent = [
        write(0x91, 0xC0),
        write(0x9D, 2),
        write(0xA1, 2),
        write(0xA7, 2),
        write(0xAB, 2),
        write(0xB1, 2),
        write(0xB3, 1),
    ];
    let mut block = [0u8; 6];
    let mut words = [0u16; 3];
    let Orders {
        one,
        other,
        complete,
    } = in_either_order(
        &panel(&red, &[Part::Run(1), Part::Run(9)]),
        &job(settings(0, 12, 2), &[Part::Feed(&[5, 6])]),
        &panel(&sent, &[Part::Feed(&[5]), Part::Feed(&[6])]),
        &job(settings(12, 0, 0), &[Part::Run(2)]),
        ByteBoard::new(&mut block),
        WordBoard::new(&mut words),
    );
    drop(one);
    drop(other);
    assert_eq!(rt; complete, true);
    assert_eq!(rt; block, [0xE0, 0xE0, 5, 6, 0, 0]);
    assert_eq!(rt; words, [0xE0E0, 0x0605, 0]);
}

// 0Fh and 3Ch with 33h and 55h from the host are 3Ch and 69h.
#[test]
fn exclusive_or_once(rt: HostRuntime) {
    let mut block = [0x0F, 0x3C, 7];
    let Drawn { memory, complete } = job(settings(0, 6, 0), &[Part::Feed(&[0x33, 0x55])]).draw(
        ByteBoard::new(&mut block),
    );
    drop(memory);
    assert_eq!(rt; complete, true);
    assert_eq!(rt; block, [0x3C, 0x69, 7]);
}

// Once as a job and once by panel calls, with other cuts, everything is as it was.
#[test]
fn exclusive_or_undone(rt: HostRuntime) {
    let writes = [
        write(0x91, 0x60),
        write(0xA1, 2),
        write(0xAB, 2),
        write(0xB1, 2),
        write(0xB3, 1),
    ];
    let mut block = [0x0F, 0x3C, 7];
    let Drawn { memory, complete } = settings_twice(
        &job(settings(0, 6, 0), &[Part::Feed(&[0x33, 0x55])]),
        &panel(
            &writes,
            &[Part::Feed(&[0x33]), Part::Run(1), Part::Feed(&[0x55])],
        ),
        ByteBoard::new(&mut block),
    );
    drop(memory);
    assert_eq!(rt; complete, true);
    assert_eq!(rt; block, [0x0F, 0x3C, 7]);
}

// A start that is declined draws nothing: the window reaches past three bytes.
#[test]
fn declined(rt: HostRuntime) {
    let mut block = [1, 2, 3];
    let Drawn { memory, complete } = job(settings(12, 0, 2), &[Part::Run(2)]).draw(ByteBoard::new(
        &mut block,
    ));
    drop(memory);
    assert_eq!(rt; complete, false);
    assert_eq!(rt; block, [1, 2, 3]);
}
