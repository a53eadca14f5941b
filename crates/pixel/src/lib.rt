// What a pixel becomes: the rules that make a colour of its sources, or none, which leaves the pixel as it is.
#![tactic(auto)]

ghost use Rattle.std.specs.Prelude.{◌≡◌, ℕ, ◌+◌, ◌-◌, ◌*◌, ◌/◌, ◌%◌, ◌<◌, ◌≤◌, Some, None};
ghost use Rattle.pixel.specs.Rasters.{raster_channel, rastered, ChoosesBits, FollowsFormula};
ghost use Rattle.pixel.specs.Blends.{blend_channel, blended, Between, SomeBetween, IsMean};
ghost use Rattle.pixel.specs.Choices.{keyed, expanded, expanded_over, filled, IsKeyed, IsExpanded};
ghost use Rattle.pixel.specs.Each.{SomeEach};

use colour::Colour;

// The colour whose channels f makes of those of two colours, channel by channel.
#[inline(always)]
fn zip_channels<F: Fn(u8, u8) -> u8>(first: Colour, second: Colour, f: F) -> Colour
    requires red { F.pre f first.red second.red }
    requires green { F.pre f first.green second.green }
    requires blue { F.pre f first.blue second.blue }
    ensures red { F.post f first.red second.red result.red }
    ensures green { F.post f first.green second.green result.green }
    ensures blue { F.post f first.blue second.blue result.blue }
{
    Colour {
        red: f(first.red, second.red),
        green: f(first.green, second.green),
        blue: f(first.blue, second.blue),
    }
}

// A raster rule on one channel. It is the or of the four ways in which two bits can stand, each of which one bit of the rule keeps
// or drops. The rule is a number and no enum, since its bits are its truth table: each of the sixteen is a rule.
#[inline(always)]
#[tactic(auto, using(crate::proofs::Minterms::channel_joined, crate::proofs::Formulas::raster_chooses, crate::proofs::Formulas::joined_follows))]
pub fn raster_channel(rule: u8, first: u8, second: u8) -> u8
    ensures is { result ≡ raster_channel rule first second }
    ensures bits { ChoosesBits rule first second result }
    ensures formula { FollowsFormula rule first second result }
{
    let both = rule / 8 % 2 * (first & second);
    let only_first = rule / 4 % 2 * (first & !second);
    let only_second = rule / 2 % 2 * (!first & second);
    let neither = rule % 2 * (!first & !second);
    both | only_first | only_second | neither
}

// The same on each channel, by a rule that is a number for the same reason.
#[inline(always)]
pub fn raster(rule: u8, first: Colour, second: Colour) -> Option<Colour>
    ensures is { result ≡ Some (rastered rule first second) }
    ensures bits { SomeEach (ChoosesBits rule) first second result }
    ensures formula { SomeEach (FollowsFormula rule) first second result }
{
    Some(zip_channels(first, second, |x, y| raster_channel(rule, x, y)))
}

// The colour, but none where the source's value is the key.
#[inline(always)]
pub fn keyed(value: u32, key: u32, colour: Colour) -> Option<Colour>
    ensures is { result ≡ keyed value key colour }
    ensures means { IsKeyed value key colour result }
{
    (value != key).then_some(colour)
}

// The colour of a bit of a one-bit picture.
#[inline(always)]
pub fn expanded(bit: u32, foreground: Colour, background: Colour) -> Option<Colour>
    ensures is { result ≡ expanded bit foreground background }
    ensures means { IsExpanded bit (Some foreground) (Some background) result }
{
    Some(if bit % 2 == 1 { foreground } else { background })
}

// The same, but none for a 0.
#[inline(always)]
pub fn expanded_over(bit: u32, foreground: Colour) -> Option<Colour>
    ensures is { result ≡ expanded_over bit foreground }
    ensures means { IsExpanded bit (Some foreground) None result }
{
    (bit % 2 == 1).then_some(foreground)
}

// The mean of two channels, of which the first counts level times in 32 and the second the other times. A level above 32 counts
// as 32.
#[inline(always)]
#[tactic(auto, using(crate::proofs::Blends::blend_between), unfolding(crate::specs::Blends::blend_channel))]
pub fn blend_channel(level: u8, first: u8, second: u8) -> u8
    ensures mean { result ≡ blend_channel level first second }
    ensures weighed { IsMean level first second result }
    ensures between { Between first second result }
{
    let weight = level.min(32) as u16;
    ((first as u16 * weight + second as u16 * (32 - weight)) / 32) as u8
}

#[inline(always)]
pub fn blended(level: u8, first: Colour, second: Colour) -> Option<Colour>
    ensures mean { result ≡ Some (blended level first second) }
    ensures weighed { SomeEach (IsMean level) first second result }
    ensures between { SomeBetween first second result }
{
    Some(zip_channels(first, second, |x, y| blend_channel(level, x, y)))
}

#[inline(always)]
pub fn filled(foreground: Colour) -> Option<Colour>
    ensures is { result ≡ filled foreground }
    ensures means { result ≡ Some foreground }
{
    Some(foreground)
}
