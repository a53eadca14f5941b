// The codes of a start, parsed: the formats of its images.
ghost use Rattle.std.specs.Prelude.{◌≡◌, nat_le};
ghost use Rattle.refusal.specs.Numbers.{numbered};
ghost use Rattle.job.specs.declared.operation.FirstKind.TheVariants.{Bits};
ghost use Rattle.job.specs.Operations.{code_of};
ghost use Rattle.job.specs.Plans.{depth_at};
ghost use Rattle.job.specs.Grounds.{kind_taken, tested};
ghost use Rattle.job.specs.Parsed.{bit_unit_at, bits_at, first_format_at, second_format_at, first_parsed, parsed};

use crate::operation::{FirstKind, Operation};
use crate::settings::Settings;
use formats::{Depth, OverlayKind};
use refusal::Refusal;
use source::Unit;

// Bits that begin at a bit of a unit. That the unit has this bit is a fact of `BitRows`, which every source of bits holds; a
// ghost field here would keep contracts from comparing formats as plain values.
#[derive(Clone, Copy)]
pub struct BitFormat {
    pub unit: Unit,
    pub start_bit: u8,
}

// Where the first source comes from, and its format: the six kinds of `FirstKind`, which an operation has before any depth is parsed,
// each with what its depth was parsed into.
#[derive(Clone, Copy)]
pub enum FirstFormat {
    Nothing,
    HostPixels(Depth),
    Pixels(Depth),
    Pattern(Depth),
    HostBits(BitFormat),
    Bits(BitFormat),
}

#[derive(Clone, Copy)]
pub enum SecondFormat {
    Pixels(Depth),
    Overlay(OverlayKind),
}

#[derive(Clone, Copy)]
pub struct Formats {
    pub first: FirstFormat,
    pub second: Option<SecondFormat>,
    pub canvas: Depth,
}

// The format of pixels with a depth code. No `TryFrom`, here and for units: the codes are a start's, and the types other crates'.
fn depth_of(code: u8) -> Result<Depth, Refusal>
    ensures { numbered result ≡ tested 4 (nat_le code 3) (depth_at code) }
{
    match code {
        0 => Ok(Depth::Rgb332),
        1 => Ok(Depth::Rgb565),
        2 | 3 => Ok(Depth::Rgb888),
        _ => Err(Refusal::DepthNotTaken),
    }
}

// The unit of one-bit pictures that have a depth code.
fn unit_of(code: u8) -> Result<Unit, Refusal>
    ensures { numbered result ≡ tested 4 (nat_le code 1) (bit_unit_at code) }
{
    match code {
        0 => Ok(Unit::Eight),
        1 => Ok(Unit::Sixteen),
        _ => Err(Refusal::DepthNotTaken),
    }
}

impl Settings {
    fn bits(&self) -> Result<BitFormat, Refusal>
        ensures { numbered result ≡ first_parsed self.now Bits (bits_at self.now) }
    {
        let unit = unit_of(self.first.depth)?;
        let start_bit = self.code;
        if start_bit < unit.bits() {
            Ok(BitFormat { unit, start_bit })
        } else {
            Err(Refusal::StartBitPastUnit)
        }
    }

    fn first_format(&self, kind: FirstKind) -> Result<FirstFormat, Refusal>
        ensures { numbered result ≡ first_parsed self.now kind (first_format_at self.now kind) }
    {
        Ok(match kind {
            FirstKind::Nothing => FirstFormat::Nothing,
            FirstKind::HostPixels => FirstFormat::HostPixels(depth_of(self.first.depth)?),
            FirstKind::Pixels => FirstFormat::Pixels(depth_of(self.first.depth)?),
            FirstKind::Pattern => FirstFormat::Pattern(depth_of(self.first.depth)?),
            FirstKind::HostBits => FirstFormat::HostBits(self.bits()?),
            FirstKind::Bits => FirstFormat::Bits(self.bits()?),
        })
    }

    fn second_format(&self, operation: Operation) -> Result<Option<SecondFormat>, Refusal>
        ensures { numbered result ≡ tested 4 (kind_taken (code_of operation) self.now.second.depth) (second_format_at self.now (code_of operation)) }
    {
        if !operation.uses_second() {
            return Ok(None);
        }
        let blends = operation.blends();
        let format = match self.second.depth {
            0 => SecondFormat::Pixels(Depth::Rgb332),
            1 => SecondFormat::Pixels(Depth::Rgb565),
            2 => SecondFormat::Pixels(Depth::Rgb888),
            4 if blends => SecondFormat::Overlay(OverlayKind::Index26),
            5 if blends => SecondFormat::Overlay(OverlayKind::Argb4444),
            _ => return Err(Refusal::DepthNotTaken),
        };
        Ok(Some(format))
    }

    // The formats of an operation's images. The first source comes last: its start bit is tested once every depth is taken.
    #[tactic(auto, using(crate::proofs::Starts::parsed_meant))]
    pub(crate) fn formats(&self, operation: Operation) -> Result<Formats, Refusal>
        ensures { numbered result ≡ parsed self.now (code_of operation) }
    {
        let second = self.second_format(operation)?;
        let canvas = depth_of(self.target.depth)?;
        let first = self.first_format(operation.first_kind())?;
        Ok(Formats {
            first,
            second,
            canvas,
        })
    }
}
