// Strings: their plain octets are passed in a loop of their own. Each walk has the whole text and a place in it, since it
// answers with a place.
ghost use Rattle.std.specs.Prelude.{◌≡◌, false, ◌≤◌, length, drop};
ghost use Rattle.scanning.specs.Passing.{is_plain, pass_from, quoted_from, string_from};

use answers::Walk;
use sheet::{COMMA, CR, LF, QUOTE};

// Whether x is no mark and no zero.
#[tactic(auto, unfolding(crate::specs::Passing::is_plain, sheet::specs::Field::is_mark))]
fn is_plain(x: u8) -> bool
    ensures { result ≡ is_plain x }
{
    !matches!(x, 0 | LF | CR | QUOTE | COMMA)
}

// Outside quotes. A call of its own: within the scan its loop takes a third more time.
#[inline(never)]
#[tactic(auto, using(crate::specs::StringCases::walk_cases))]
fn walk_plain(text: &[u8], at: usize, end: u8) -> Walk
    requires { at ≤ length text.now }
    ensures { result ≡ pass_from is_plain end at (drop at text.now) }
{
    for i in at..text.len() {
        let x = text[i];
        if !is_plain(x) {
            return if x == end { Ok(i) } else { Err(i) };
        }
    }
    Err(text.len())
}

// Behind the quote that opens; a quote closes or is the first of two.
#[tactic(auto, using(crate::specs::StringCases::turn_cases))]
fn walk_quoted(text: &[u8], at: usize, end: u8) -> Walk
    requires { at ≤ length text.now }
    ensures { result ≡ quoted_from false end at (drop at text.now) }
{
    let mut behind = false;
    for i in at..text.len() {
        let x = text[i];
        if behind {
            if x == end {
                return Ok(i);
            }
            if x != QUOTE {
                return Err(i);
            }
            behind = false;
        } else if x == QUOTE {
            behind = true;
        } else if x == 0 {
            return Err(i);
        }
    }
    Err(text.len())
}

// Where the field from `at` ends, with its quotes where it has them.
pub fn walk_string(text: &[u8], at: usize, end: u8) -> Walk
    requires { at ≤ length text.now }
    ensures { result ≡ string_from end at (drop at text.now) }
{
    if text.len() <= at {
        return Err(at);
    }
    if text[at] == QUOTE {
        return walk_quoted(text, at + 1, end);
    }
    walk_plain(text, at, end)
}
