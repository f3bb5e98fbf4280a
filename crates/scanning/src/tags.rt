// What an octet does to the scan of a first line.
ghost use Rattle.std.specs.Prelude.{◌≡◌, ◌<◌};
ghost use Rattle.scanning.specs.First.{digit_in, next_end, next_quote, next_tag, next_of};

use crate::{Next, Stand};
use sheet::{COMMA, CR, LF, QUOTE};

// What a hex digit says; 16 for an octet that is none. No `to_digit`, which takes small letters too.
#[tactic(auto, unfolding(crate::specs::First::digit_in))]
fn digit_in(x: u8) -> u32
    ensures { (result ≡ digit_in x) × (result < 17) }
{
    match x {
        b'0'..=b'9' => (x - b'0') as u32,
        b'A'..=b'F' => (x - 55) as u32,
        _ => 16,
    }
}

// A tag has ended, `count` having gone before.
#[tactic(auto, using(crate::specs::FirstCases::end_cases))]
fn end_tag(count: usize, x: u8) -> Next
    ensures { result ≡ next_end count x }
{
    if x == CR {
        Next::Tag(Stand::LineEnd)
    } else if x == COMMA && count < 15 {
        Next::Tag(Stand::InTag(false, 0))
    } else {
        Next::Stop
    }
}

// No digit: the quote that opens may stand before the first one.
#[tactic(auto, using(crate::specs::FirstCases::quote_cases))]
fn open_quote(quoted: bool, digits: u8, x: u8) -> Next
    ensures { result ≡ next_quote quoted digits x }
{
    if x == QUOTE && !quoted && digits == 0 {
        Next::Goes(Stand::InTag(true, 0), 0)
    } else {
        Next::Stop
    }
}

#[tactic(auto, using(crate::specs::FirstCases::tag_cases))]
fn in_tag(quoted: bool, digits: u8, value: u32, count: usize, x: u8) -> Next
    ensures { result ≡ next_tag quoted digits value count x }
{
    if digits < 8 {
        let d = digit_in(x);
        if d < 16 {
            return Next::Goes(Stand::InTag(quoted, digits + 1), value % 268435456 * 16 + d);
        }
        return open_quote(quoted, digits, x);
    }
    if !quoted {
        return end_tag(count, x);
    }
    if x == QUOTE {
        Next::Goes(Stand::Behind, value)
    } else {
        Next::Stop
    }
}

#[tactic(auto, using(crate::specs::FirstCases::next_cases))]
pub fn next_of(stand: Stand, value: u32, count: usize, x: u8) -> Next
    ensures { result ≡ next_of stand value count x }
{
    match stand {
        Stand::InTag(quoted, digits) => in_tag(quoted, digits, value, count, x),
        Stand::Behind => end_tag(count, x),
        Stand::LineEnd if x == LF => Next::Done,
        Stand::LineEnd => Next::Stop,
    }
}
