// The tests of a start, in rising order, and the drawing that the settings mean.
ghost use Rattle.std.specs.Prelude.{◌≡◌};
ghost use Rattle.refusal.specs.Numbers.{numbered};
ghost use Rattle.window.specs.Places.{shown};
ghost use Rattle.source.specs.Rows.{shown_rows, rows_at};
ghost use Rattle.job.specs.Operations.{code_of};
ghost use Rattle.job.specs.Plans.{side_of, area_at, plan_at};
ghost use Rattle.job.specs.Parsed.{format_bytes, expansion_of, level_blend, pixel_rule_of, rule_of, bit_rows, first_made, second_made, plan_made, plan_tested};
ghost use Rattle.job.specs.Grounds.{limited, grounds, source_shown, plan_shown, or_7, outcome};

use crate::operation::Operation;
use crate::parsed::{BitFormat, FirstFormat, Formats, SecondFormat};
use crate::settings::{Settings, Surface};
use engine::Drawing;
use formats::Depth;
use refusal::Refusal;
use rules::{Blend, Expand, ExpandOver, Fill, Key, OverlayBlend, Raster, Rule};
use source::{BitRows, Source};
use window::{Area, PixelSize, SIDE_LIMIT, Window};

impl SecondFormat {
    fn size(&self) -> PixelSize
        ensures { result.bytes ≡ format_bytes self.now }
    {
        match self {
            SecondFormat::Pixels(depth) => PixelSize::of(depth),
            SecondFormat::Overlay(kind) => PixelSize::of(kind),
        }
    }
}

impl Surface {
    // A window of these sides.
    fn window(&self, width: u16, height: u16) -> Result<Window, Refusal>
        ensures { shown result ≡ or_7 (limited (area_at self.now width height)) (area_at self.now width height) }
    {
        let area = Area {
            start: self.start,
            image: self.image,
            left: self.left,
            top: self.top,
            width,
            height,
        };
        Window::new(SIDE_LIMIT, area)
    }
}

impl Settings {
    fn side(&self) -> u16
        ensures { result ≡ side_of self.now }
    {
        if self.large { 16 } else { 8 }
    }

    fn expansion(&self, operation: Operation) -> Rule
        ensures { result ≡ expansion_of self.now (code_of operation) }
    {
        let foreground = self.foreground;
        let background = self.background;
        match operation {
            Operation::ExpandOverFromHost | Operation::ExpandOverFromMemory => Rule::ExpandOver(
                ExpandOver { foreground },
            ),
            _ => Rule::Expand(Expand {
                foreground,
                background,
            }),
        }
    }

    // The blend by the level register.
    fn blend(&self, first: Depth, second: Depth) -> Result<Rule, Refusal>
        ensures { numbered result ≡ level_blend self.now first second }
    {
        Blend::new(self.level, first, second).map(Rule::Blend)
    }

    fn pixel_rule(
        &self,
        operation: Operation,
        first: Depth,
        second: Option<SecondFormat>,
    ) -> Result<Rule, Refusal>
        ensures { numbered result ≡ pixel_rule_of self.now (code_of operation) first second }
    {
        match second {
            None => Ok(Rule::Key(Key {
                background: self.background,
                first,
            })),
            Some(SecondFormat::Overlay(second)) => Ok(Rule::OverlayBlend(OverlayBlend {
                first,
                second,
            })),
            Some(SecondFormat::Pixels(second)) if operation.blends() => self.blend(first, second),
            Some(SecondFormat::Pixels(second)) => Ok(Rule::Raster(Raster {
                rule: self.code,
                first,
                second,
            })),
        }
    }

    // The pixel rule of an operation on images of these formats.
    fn rule(&self, operation: Operation, formats: Formats) -> Result<Rule, Refusal>
        ensures { numbered result ≡ rule_of self.now (code_of operation) formats.first formats.second }
    {
        match formats.first {
            FirstFormat::Nothing => Ok(Rule::Fill(Fill {
                foreground: self.foreground,
            })),
            FirstFormat::HostBits(_) | FirstFormat::Bits(_) => Ok(self.expansion(operation)),
            FirstFormat::HostPixels(depth)
            | FirstFormat::Pixels(depth)
            | FirstFormat::Pattern(depth) => self.pixel_rule(operation, depth, formats.second),
        }
    }

    fn rows(&self, format: BitFormat) -> Result<BitRows, Refusal>
        ensures { shown_rows result ≡ rows_at (bit_rows self.now format) }
    {
        BitRows::new(format.unit, format.start_bit, self.width)
    }

    fn first_source(&self, format: FirstFormat) -> Result<Source, Refusal>
        ensures { source_shown result ≡ first_made self.now format }
    {
        Ok(match format {
            FirstFormat::Nothing => Source::Unused,
            FirstFormat::HostPixels(depth) => Source::Host(PixelSize::of(&depth)),
            FirstFormat::Pixels(depth) => Source::Image {
                window: self.first.window(self.width, self.height)?,
                size: PixelSize::of(&depth),
            },
            FirstFormat::Pattern(depth) => Source::Pattern {
                window: self.first.window(self.side(), self.side())?,
                size: PixelSize::of(&depth),
                columns: self.width,
            },
            FirstFormat::HostBits(format) => Source::HostBits(self.rows(format)?),
            FirstFormat::Bits(format) => Source::Bits {
                rows: self.rows(format)?,
                start: self.first.start,
            },
        })
    }

    fn second_source(&self, format: Option<SecondFormat>) -> Result<Source, Refusal>
        ensures { source_shown result ≡ second_made self.now format }
    {
        let Some(format) = format else {
            return Ok(Source::Unused);
        };
        Ok(Source::Image {
            window: self.second.window(self.width, self.height)?,
            size: format.size(),
        })
    }

    // The drawing by a rule on images of these formats.
    fn drawing(&self, rule: Rule, formats: Formats) -> Result<Drawing<Rule, Depth>, Refusal>
        ensures { plan_shown result ≡ plan_made self.now formats rule }
    {
        Ok(Drawing {
            rule,
            canvas: formats.canvas,
            first: self.first_source(formats.first)?,
            second: self.second_source(formats.second)?,
            target: self.target.window(self.width, self.height)?,
        })
    }

    // The drawing of an operation, inside a memory of some size.
    fn drawing_inside(
        &self,
        operation: Operation,
        size: u32,
    ) -> Result<Drawing<Rule, Depth>, Refusal>
        ensures { plan_shown result ≡ plan_tested self.now size (code_of operation) }
    {
        let formats = self.formats(operation)?;
        let rule = self.rule(operation, formats)?;
        let drawing = self.drawing(rule, formats)?;
        if !drawing.lies_inside(size) {
            return Err(Refusal::PastMemory);
        }
        Ok(drawing)
    }

    // The drawing, or the lowest ground against it over a memory of some size.
    #[tactic(auto, using(crate::proofs::Starts::steps_are))]
    pub(crate) fn clear(&self, size: u32) -> Result<Drawing<Rule, Depth>, Refusal>
        ensures { plan_shown result ≡ outcome (grounds self.now size) (plan_at self.now) }
    {
        let operation = Operation::try_from(self.operation)?;
        self.drawing_inside(operation, size)
    }
}
