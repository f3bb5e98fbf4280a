// Strings at the front of a part: narrow ones (2.9.6.3) and those of UTF-8 (2.9.6.4). Both hold one character or more and end in 00.
#![tactic(auto)]

ghost use Rattle.std.specs.Prelude.{◌≡◌, ◌==◌, [], ◌∷◌, ◌++◌, ◌+◌, ◌<◌, length, position};
ghost use Rattle.answers.specs.Walk.{ends_at};
ghost use Rattle.text.specs.Cases.{CharsTo, CharsStop};
ghost use Rattle.text.specs.Narrow.{narrow_of};
ghost use Rattle.text.specs.Utf8.{low_of, high_of, width_of, char_width, text_of};

use answers::Walk;
use octets::octet;

// The place of the first 0.
fn zero_at(s: &[u8]) -> Option<usize>
    ensures { result ≡ position (λ b. b == 0) s.now }
{
    s.iter().position(|b| *b == 0)
}

// One octet or more that are not 0, and a 0.
pub fn narrow_string(s: &[u8]) -> Walk
    ensures { result ≡ narrow_of s.now }
{
    match zero_at(s) {
        Some(i) if 0 < i => Ok(i + 1),
        _ => Err(0),
    }
}

// The least and the greatest second octet after the first octet `a`.
fn low(a: u32) -> u32
    ensures { result ≡ low_of a }
{
    match a {
        224 => 160,
        240 => 144,
        _ => 128,
    }
}

fn high(a: u32) -> u32
    ensures { result ≡ high_of a }
{
    match a {
        237 => 159,
        244 => 143,
        _ => 191,
    }
}

// How many of the octets a, b, c, d are a character, where b is to lie from lo to hi; 0 where they begin none.
#[tactic(auto, unfolding(crate::specs::Utf8::width_of))]
fn width(a: u32, b: u32, c: u32, d: u32, lo: u32, hi: u32) -> usize
    ensures { (result ≡ width_of a b c d lo hi) × (result < 5) }
{
    if a < 128 {
        return 1;
    }
    if 194 <= a && a <= 244 && lo <= b && b <= hi {
        if a < 224 {
            return 2;
        }
        if 128 <= c && c <= 191 {
            if a < 240 {
                return 3;
            }
            if 128 <= d && d <= 191 {
                return 4;
            }
        }
    }
    0
}

// The width of the character at `i`, 0 where none stands there.
fn char_at(s: &[u8], i: usize) -> usize
    requires { i < 9223372036854775808 }
    ensures { (result ≡ char_width s.now i) × (result < 5) }
{
    let a = octet(s, i);
    if a < 128 {
        return 1;
    }
    let b = octet(s, i + 1);
    let c = octet(s, i + 2);
    let d = octet(s, i + 3);
    width(a, b, c, d, low(a), high(a))
}

// How many octets at the front are characters, none of them a 0: up to a 0, to octets that begin none, or to the end.
fn chars(s: &[u8]) -> usize
    ensures to { CharsTo s.now result }
    ensures stop { CharsStop s.now result }
{
    // A loop over an index: a step is as wide as the character that stands there.
    let mut i = 0;
    while i < s.len() {
        if s[i] == 0 {
            return i;
        }
        let k = char_at(s, i);
        if k == 0 {
            return i;
        }
        i += k;
    }
    i
}

// One character or more, and a 0.
pub fn utf8_string(s: &[u8]) -> Walk
    ensures { result ≡ text_of s.now }
{
    let i = chars(s);
    if s.len() <= i {
        return Err(0);
    }
    if s[i] != 0 {
        return Err(0);
    }
    if i == 0 {
        return Err(0);
    }
    Ok(i + 1)
}

// Whether the octets, handed over without their 0, are a narrow string: one or more, none of them 0.
pub fn is_narrow(s: &[u8]) -> bool
    ensures { result ≡ ends_at (narrow_of (s.now ++ (0 ∷ []))) (length s.now + 1) }
{
    !s.is_empty() && !s.contains(&0)
}

// The same of UTF-8: one character or more, none of them 0.
pub fn is_utf8(s: &[u8]) -> bool
    ensures { result ≡ ends_at (text_of (s.now ++ (0 ∷ []))) (length s.now + 1) }
{
    if s.len() == 0 {
        return false;
    }
    chars(s) == s.len()
}
