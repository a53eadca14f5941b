// Colours, the palette, and what a pixel format has to be.
#![tactic(auto)]

ghost use Rattle.std.specs.Prelude.{◌≡◌, ℕ, ◌+◌, ◌-◌, ◌*◌, ◌/◌, ◌%◌, ◌^◌, ◌<◌, ◌≤◌, set, replicate, IfSome};
ghost use Rattle.colour.specs.declared.Colour.{Colour};
ghost use Rattle.colour.specs.Entries.{entry_of_bytes, LoadsFields, entry_colour, entry_at, palette_colour};
ghost use Rattle.colour.specs.Packing.{ShowsFields};
ghost use Rattle.colour.specs.Formats.{Format, Narrows};
ghost use Rattle.colour.specs.Unpacks.{Unpacks, Packs};

mod field;
mod fields;

pub use field::FieldWidth;
pub use fields::Fields;

#[derive(Clone, Copy, PartialEq, Eq, Debug)]
pub struct Colour {
    pub red: u8,
    pub green: u8,
    pub blue: u8,
}

// 64 entries of 12 bits each.
#[derive(Clone, Copy)]
pub struct Palette {
    entries: [u16; 64],
}

// The entry that two bytes load, low byte first.
pub fn entry_of_bytes(low: u8, high: u8) -> u16
    ensures is { result ≡ entry_of_bytes low high }
    ensures fields { LoadsFields low high result }
{
    u16::from_le_bytes([low, high % 16])
}

const ENTRY_FIELDS: Fields = Fields {
    high: FieldWidth::Four,
    middle: FieldWidth::Four,
    low: FieldWidth::Four,
};

// No `From<u16>`: an entry is twelve bits of a number.
#[inline(always)]
pub fn colour_of_entry(entry: u16) -> Colour
    ensures is { result ≡ entry_colour entry }
    ensures fields { ShowsFields 4 4 4 entry result }
{
    ENTRY_FIELDS.colour(entry as u32)
}

impl Palette {
    pub fn new() -> Palette
        ensures { result.entries ≡ replicate 64 0 }
    {
        Palette { entries: [0; 64] }
    }

    #[inline(always)]
    pub fn entry(&self, k: u8) -> u16
        ensures { result ≡ entry_at self.now k }
    {
        self.entries[(k % 64) as usize]
    }

    pub fn set_from_bytes(&mut self, k: u8, low: u8, high: u8)
        ensures { self.new.entries ≡ set self.old.entries (k % 64) (entry_of_bytes low high) }
    {
        let place = (k % 64) as usize;
        self.entries[place] = entry_of_bytes(low, high);
    }

    #[inline(always)]
    pub fn colour(&self, k: u8) -> Colour
        ensures is { result ≡ palette_colour self.now k }
        ensures fields { ShowsFields 4 4 4 (entry_at self.now k) result }
    {
        colour_of_entry(self.entry(k))
    }
}

// A format whose pixel values have colours.
pub trait Readable {
    ghost format: { Self → Format };

    fn bytes_per_pixel(&self) -> u8
        ensures { result ≡ (format self.now).width };

    fn colour(&self, palette: &Palette, value: u32) -> Colour
        ensures { result ≡ (format self.now).colour palette.now value };

    /// The fields that its values are made of, red in the highest, where the format is known to be three fields.
    fn fields(&self) -> Option<Fields>
        ensures { IfSome result (Unpacks (format self.now)) }
    {
        None
    }
}

// A format that can be drawn in: each colour narrows to a value.
pub trait Canvas: Readable {
    ghost narrowed: { Self → Colour → ℕ };

    fn narrow(&self, colour: Colour) -> u32
        ensures { result ≡ narrowed self.now colour };

    /// The fields that its values are made of both ways, where they are known: a colour also narrows to the value that packs its channels.
    fn packed_fields(&self) -> Option<Fields>
        ensures shows { IfSome result (Unpacks (Self.Readable.format self.now)) }
        ensures packs { IfSome result (Packs (narrowed self.now)) }
    {
        None
    }

    ghost keeps: { (f : Self) → Narrows (Self.Readable.format f) (narrowed f) };
}

// A format whose pixel values also have a level, 0 to 32.
pub trait Overlay: Readable {
    ghost levels: { Self → ℕ → ℕ };

    fn level(&self, value: u32) -> u8
        ensures { result ≡ levels self.now value };

    ghost bounded: { (f : Self) (v : ℕ) → levels f v ≤ 32 };
}
