// Strips drawn by what a rule does on values. Widths are numbers in the text here, so that each loop is compiled for its own.
ghost use Rattle.std.specs.Prelude.{◌≡◌, ℕ, ◌*◌, ◌<◌, ◌≤◌, true, length, slice_index};
ghost use Rattle.rules.specs.Values.{gives, by_bytes};
ghost use Rattle.rules.specs.declared.values.ValueRule.TheVariants.{Blend};
ghost use Rattle.engine.specs.Strips.{stripped, Common, Alike, strip_of_bytes};

use crate::strips::{OnValues, Values, draw_each};
use crate::values::{EachByte, FieldsMean, KeyValue, MeanByte, OddValue, Rgb565Mean, TwoValues};
use colour::{FieldWidth, Fields};
use memory::{ByteRule, First, Masks, Xor};
use rules::ValueRule;

// The fields of 3:3:2.
const RGB332: Fields = Fields {
    high: FieldWidth::Three,
    middle: FieldWidth::Three,
    low: FieldWidth::Two,
};

// Whether there is a loop for means in these fields, in pixels of so many bytes.
fn is_common(fields: Fields, width: usize) -> bool
    ensures { result ≡ true → Common fields width }
{
    let Fields { high, middle, low } = fields;
    match (high, middle, low) {
        (FieldWidth::Three, FieldWidth::Three, FieldWidth::Two) => width == 1,
        (FieldWidth::Five, FieldWidth::Six, FieldWidth::Five) => width == 2,
        (FieldWidth::Eight, FieldWidth::Eight, FieldWidth::Eight) => width == 3,
        _ => false,
    }
}

// Whether a strip can be drawn by what a rule does on values: those that it takes are as wide as those that it gives, or bits, each
// in a byte; and pixels have one, two or three bytes.
pub(crate) fn is_alike(rule: ValueRule, first: usize, second: usize, width: usize) -> bool
    ensures { result ≡ true → Alike rule first second width }
{
    if width == 0 || width > 3 {
        return false;
    }
    match rule {
        ValueRule::Fill(_) => false,
        ValueRule::Expand { .. } => first == 1,
        ValueRule::First | ValueRule::Key(_) => first == width,
        ValueRule::Raster(_) => first == width && second == width,
        ValueRule::Blend { fields, .. } => {
            first == width && second == width && is_common(fields, width)
        }
    }
}

// A strip of values that are their bytes.
#[inline(always)]
fn draw_bytes<F: ByteRule>(
    rule: F,
    first: &[u8],
    second: &[u8],
    target: &mut [u8],
    width: usize,
    count: usize,
)
    requires first { count * width ≤ length first.now }
    requires second { count * width ≤ length second.now }
    requires room { count * width ≤ length target.old }
    ensures after { target.new ≡ stripped (strip_of_bytes (F.gives rule) width) width width width first.now second.now count target.old }
    ensures long { length target.new ≡ length target.old }
    ensures first_bytes { (k : ℕ) → slice_index first.now k < 256 }
    ensures second_bytes { (k : ℕ) → slice_index second.now k < 256 }
{
    draw_each(
        &EachByte { rule },
        Values {
            bytes: first,
            width: 1,
        },
        Values {
            bytes: second,
            width: 1,
        },
        target,
        1,
        count * width,
    );
}

// A strip whose first values are as wide as its own.
fn draw_alike<F: OnValues>(rule: &F, first: Values, second: Values, target: &mut [u8], count: usize)
    requires some { 1 ≤ first.width }
    requires few { first.width ≤ 3 }
    requires second_few { second.width ≤ 4 }
    requires first_room { count * first.width ≤ length first.bytes.now }
    requires second_room { count * second.width ≤ length second.bytes.now }
    requires room { count * first.width ≤ length target.old }
    ensures after { target.new ≡ stripped (F.gives rule.now) first.entry.width second.entry.width first.entry.width first.entry.bytes.now second.entry.bytes.now count target.old }
    ensures long { length target.new ≡ length target.old }
{
    let bytes = first.bytes;
    match first.width {
        1 => draw_each(rule, Values { bytes, width: 1 }, second, target, 1, count),
        2 => draw_each(rule, Values { bytes, width: 2 }, second, target, 2, count),
        _ => draw_each(rule, Values { bytes, width: 3 }, second, target, 3, count),
    }
}

// A strip whose first values are bits, each in a byte.
fn draw_bits<F: OnValues>(
    rule: &F,
    first: Values,
    second: Values,
    target: &mut [u8],
    width: usize,
    count: usize,
)
    requires bits { first.width ≡ 1 }
    requires second_few { second.width ≤ 4 }
    requires some { 1 ≤ width }
    requires few { width ≤ 3 }
    requires first_room { count * first.width ≤ length first.bytes.now }
    requires second_room { count * second.width ≤ length second.bytes.now }
    requires room { count * width ≤ length target.old }
    ensures after { target.new ≡ stripped (F.gives rule.now) first.entry.width second.entry.width width first.entry.bytes.now second.entry.bytes.now count target.old }
    ensures long { length target.new ≡ length target.old }
{
    let bits = Values {
        bytes: first.bytes,
        width: 1,
    };
    match width {
        1 => draw_each(rule, bits, second, target, 1, count),
        2 => draw_each(rule, bits, second, target, 2, count),
        _ => draw_each(rule, bits, second, target, 3, count),
    }
}

// The mean of two strips at a level, in fields that there is a loop for.
fn draw_mean(
    level: u8,
    fields: Fields,
    first: Values,
    second: Values,
    target: &mut [u8],
    width: usize,
    count: usize,
)
    requires common { Common fields width }
    requires first_width { first.width ≡ width }
    requires second_width { second.width ≡ width }
    requires first_room { count * first.width ≤ length first.bytes.now }
    requires second_room { count * second.width ≤ length second.bytes.now }
    requires room { count * width ≤ length target.old }
    ensures after { target.new ≡ stripped (gives (Blend level fields) width) first.entry.width second.entry.width width first.entry.bytes.now second.entry.bytes.now count target.old }
    ensures long { length target.new ≡ length target.old }
{
    match width {
        1 => {
            let first = Values::new(first.bytes, 1);
            let second = Values::new(second.bytes, 1);
            let rule = FieldsMean {
                level,
                fields: RGB332,
            };
            draw_each(&rule, first, second, target, 1, count);
        }
        2 => {
            let first = Values::new(first.bytes, 2);
            let second = Values::new(second.bytes, 2);
            draw_each(&Rgb565Mean { level }, first, second, target, 2, count);
        }
        _ => draw_bytes(
            MeanByte { level },
            first.bytes,
            second.bytes,
            target,
            3,
            count,
        ),
    }
}

/// Draws so many pixels of a strip by what a rule does on values.
pub(crate) fn draw_known(
    rule: ValueRule,
    first: Values,
    second: Values,
    target: &mut [u8],
    width: usize,
    count: usize,
)
    requires alike { Alike rule first.width second.width width }
    requires first_few { first.width ≤ 4 }
    requires second_few { second.width ≤ 4 }
    requires few { width ≤ 4 }
    requires first_room { count * first.width ≤ length first.bytes.now }
    requires second_room { count * second.width ≤ length second.bytes.now }
    requires room { count * width ≤ length target.old }
    ensures after { target.new ≡ stripped (gives rule width) first.entry.width second.entry.width width first.entry.bytes.now second.entry.bytes.now count target.old }
    ensures long { length target.new ≡ length target.old }
{
    match rule {
        ValueRule::Fill(_) => {} // no strip has it, since memory fills by itself
        ValueRule::First => draw_bytes(First, first.bytes, first.bytes, target, width, count),
        ValueRule::Raster(6) => draw_bytes(Xor, first.bytes, second.bytes, target, width, count),
        ValueRule::Raster(rule) => {
            draw_bytes(
                Masks::of(rule),
                first.bytes,
                second.bytes,
                target,
                width,
                count,
            );
        }
        ValueRule::Key(key) => draw_alike(&KeyValue { key }, first, second, target, count),
        ValueRule::Expand {
            one,
            zero: Some(zero),
        } => {
            draw_bits(
                &TwoValues { one, zero },
                first,
                second,
                target,
                width,
                count,
            );
        }
        ValueRule::Expand { one, zero: None } => {
            draw_bits(&OddValue { one }, first, second, target, width, count);
        }
        ValueRule::Blend { level, fields } => {
            draw_mean(level, fields, first, second, target, width, count);
        }
    }
}
