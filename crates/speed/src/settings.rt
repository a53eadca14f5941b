// What a caller in C sets. A job's own settings keep no layout that C knows.
ghost use Rattle.std.specs.Prelude.{◌≡◌};
ghost use Rattle.speed.specs.Settings.{surface_of, colour_of, settings_of};

use colour::Colour;
use job::{Settings, Surface};

/// An image: its depth (0 is 3:3:2, 1 is 5:6:5, 2 is 8:8:8) or kind, the address of its first byte, its width in pixels,
/// and the column and row of the window in it.
#[repr(C)]
#[derive(Clone, Copy)]
pub struct SpeedSurface {
    pub depth: u8,
    pub start: u32,
    pub image: u16,
    pub left: u16,
    pub top: u16,
}

/// A colour, each channel from 0 to 255.
#[repr(C)]
#[derive(Clone, Copy)]
pub struct SpeedColour {
    pub red: u8,
    pub green: u8,
    pub blue: u8,
}

/// One operation. `code` is the raster rule, or the start bit of an expansion; `large` chooses patterns of 16 × 16; sides
/// are in pixels.
#[repr(C)]
#[derive(Clone, Copy)]
pub struct SpeedSettings {
    pub operation: u8,
    pub code: u8,
    pub large: bool,
    pub level: u8,
    pub first: SpeedSurface,
    pub second: SpeedSurface,
    pub target: SpeedSurface,
    pub width: u16,
    pub height: u16,
    pub foreground: SpeedColour,
    pub background: SpeedColour,
}

/// One write to a register of a panel.
#[repr(C)]
#[derive(Clone, Copy)]
pub struct RegisterWrite {
    pub register: u8,
    pub value: u8,
}

impl SpeedSurface {
    fn surface(self) -> Surface
        ensures { result ≡ surface_of self }
    {
        Surface {
            depth: self.depth,
            start: self.start,
            image: self.image,
            left: self.left,
            top: self.top,
        }
    }
}

impl SpeedColour {
    fn colour(self) -> Colour
        ensures { result ≡ colour_of self }
    {
        Colour {
            red: self.red,
            green: self.green,
            blue: self.blue,
        }
    }
}

impl SpeedSettings {
    pub(crate) fn settings(&self) -> Settings
        ensures { result ≡ settings_of self.now }
    {
        Settings {
            operation: self.operation,
            code: self.code,
            large: self.large,
            level: self.level,
            first: self.first.surface(),
            second: self.second.surface(),
            target: self.target.surface(),
            width: self.width,
            height: self.height,
            foreground: self.foreground.colour(),
            background: self.background.colour(),
        }
    }
}
