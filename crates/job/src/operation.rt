// The thirteen operations.
ghost use Rattle.std.specs.Prelude.{◌≡◌};
ghost use Rattle.job.specs.Operations.{Decodes, code_of, first_kind, uses_second, blends};

use refusal::Refusal;

#[derive(Clone, Copy, PartialEq, Eq, Debug)]
pub enum Operation {
    RasterFromHost,
    RasterFromMemory,
    KeyFromHost,
    KeyFromMemory,
    PatternRaster,
    PatternKey,
    ExpandFromHost,
    ExpandOverFromHost,
    BlendFromMemory,
    BlendFromHost,
    Fill,
    ExpandFromMemory,
    ExpandOverFromMemory,
}

// What an operation takes its first source from. `Nothing` is a row like the others, as in each table over these kinds; an
// Option of a kind would only nest the matches.
#[derive(Clone, Copy, PartialEq, Eq, Debug)]
pub enum FirstKind {
    Nothing,
    HostPixels,
    Pixels,
    Pattern,
    HostBits,
    Bits,
}

impl TryFrom<u8> for Operation {
    type Error = Refusal;

    ghost try_from_gives = { Decodes };

    fn try_from(code: u8) -> Result<Operation, Refusal> {
        match code {
            0 => Ok(Operation::RasterFromHost),
            2 => Ok(Operation::RasterFromMemory),
            4 => Ok(Operation::KeyFromHost),
            5 => Ok(Operation::KeyFromMemory),
            6 => Ok(Operation::PatternRaster),
            7 => Ok(Operation::PatternKey),
            8 => Ok(Operation::ExpandFromHost),
            9 => Ok(Operation::ExpandOverFromHost),
            10 => Ok(Operation::BlendFromMemory),
            11 => Ok(Operation::BlendFromHost),
            12 => Ok(Operation::Fill),
            14 => Ok(Operation::ExpandFromMemory),
            15 => Ok(Operation::ExpandOverFromMemory),
            _ => Err(Refusal::NoSuchOperation),
        }
    }
}

impl Operation {
    pub(crate) fn first_kind(self) -> FirstKind
        ensures { result ≡ first_kind (code_of self) }
    {
        match self {
            Operation::RasterFromHost | Operation::KeyFromHost | Operation::BlendFromHost =>
                FirstKind::HostPixels,
            Operation::RasterFromMemory | Operation::KeyFromMemory | Operation::BlendFromMemory =>
                FirstKind::Pixels,
            Operation::PatternRaster | Operation::PatternKey => FirstKind::Pattern,
            Operation::ExpandFromHost | Operation::ExpandOverFromHost => FirstKind::HostBits,
            Operation::ExpandFromMemory | Operation::ExpandOverFromMemory => FirstKind::Bits,
            Operation::Fill => FirstKind::Nothing,
        }
    }

    pub(crate) fn blends(self) -> bool
        ensures { result ≡ blends (code_of self) }
    {
        matches!(self, Operation::BlendFromMemory | Operation::BlendFromHost)
    }

    pub(crate) fn uses_second(self) -> bool
        ensures { result ≡ uses_second (code_of self) }
    {
        matches!(
            self,
            Operation::RasterFromHost
                | Operation::RasterFromMemory
                | Operation::PatternRaster
                | Operation::BlendFromMemory
                | Operation::BlendFromHost
        )
    }
}
