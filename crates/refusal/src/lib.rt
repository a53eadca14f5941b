// Why a call is declined.
#![tactic(auto)]

ghost use Rattle.std.specs.Prelude.{◌≡◌};
ghost use Rattle.refusal.specs.Numbers.{number_of};

// Each ground of refusal, with its number on the wire: `number_of` in specs/Numbers.antt.
#[derive(Clone, Copy, PartialEq, Eq, Debug)]
pub enum Refusal {
    NoSuchRegister = 1,
    Busy = 2,
    NoSuchOperation = 3,
    DepthNotTaken = 4,
    StartBitPastUnit = 5,
    LevelTooHigh = 6,
    OutsideWindowLimits = 7,
    PastMemory = 8,
    NoByteAwaited = 9,
    NothingToRun = 10,
    NothingUnderWay = 11,
    NoSuchAddress = 12,
}

impl Refusal {
    // The number that a host sees.
    pub fn number(self) -> u8
        ensures { result ≡ number_of self }
    {
        self as u8
    }
}
