// Strings in a lent buffer, in quotes where they must be. All that is put has room there: it was measured before.
ghost use Rattle.std.specs.Prelude.{◌≡◌, ◌+◌, ◌^◌, ◌≤◌, ◌<◌, length};
ghost use Rattle.octets.specs.Splice.{splice};
ghost use Rattle.sheet.specs.Field.{marked, twice, doubled, quoted, spelt};

use sheet::{QUOTE, is_mark};

// Whether a comma, a quote, CR or LF stands in `s`.
fn has_mark(s: &[u8]) -> bool
    ensures { result ≡ marked s.now }
{
    s.iter().any(|x| is_mark(*x))
}

#[tactic(auto, using(crate::specs::FieldCases::doubled_sizes))]
fn twice_size(x: u8) -> usize
    ensures { (result ≡ length (twice x)) × (result ≤ 2) }
{
    if x == QUOTE { 2 } else { 1 }
}

// The octets of `s` with each quote twice. Each turn adds: a count of those that pass a filter takes a third more time.
#[inline(never)]
fn doubled_size(s: &[u8]) -> usize
    requires { length s.now < 2 ^ 32 }
    ensures { (result ≡ length (doubled s.now)) × (result < 2 ^ 33) }
{
    let mut k = 0;
    for x in s {
        k += twice_size(*x);
    }
    k
}

pub fn string_size(s: &[u8]) -> usize
    requires { length s.now < 2 ^ 32 }
    ensures { (result ≡ length (spelt s.now)) × (result < 2 ^ 34) }
{
    if has_mark(s) {
        return doubled_size(s) + 2;
    }
    s.len()
}

// An octet, a quote twice; how many octets that is.
fn put_twice(out: &mut [u8], at: usize, x: u8) -> usize
    requires { at + length (twice x) ≤ length out.old }
    ensures { (result ≡ length (twice x)) × (out.new ≡ splice out.old at (twice x)) }
{
    out[at] = x;
    if x != QUOTE {
        return 1;
    }
    out[at + 1] = QUOTE;
    2
}

#[tactic(auto, using(crate::specs::FieldCases::doubled_cases))]
fn put_doubled(out: &mut [u8], at: usize, s: &[u8]) -> usize
    requires { at + length (doubled s.now) ≤ length out.old }
    ensures { (result ≡ at + length (doubled s.now))
        × (out.new ≡ splice out.old at (doubled s.now)) }
{
    let mut k = at;
    for x in s {
        k += put_twice(out, k, *x);
    }
    k
}

fn put_quoted(out: &mut [u8], at: usize, s: &[u8]) -> usize
    requires { at + length (quoted s.now) ≤ length out.old }
    ensures { (result ≡ at + length (quoted s.now))
        × (out.new ≡ splice out.old at (quoted s.now)) }
{
    out[at] = QUOTE;
    let end = put_doubled(out, at + 1, s);
    out[end] = QUOTE;
    end + 1
}

// The string stands in the buffer from `at`; where it ends.
pub fn put_string(out: &mut [u8], at: usize, s: &[u8]) -> usize
    requires { at + length (spelt s.now) ≤ length out.old }
    ensures { (result ≡ at + length (spelt s.now))
        × (out.new ≡ splice out.old at (spelt s.now)) }
{
    if has_mark(s) {
        return put_quoted(out, at, s);
    }
    octets::copy(out, at, s);
    at + s.len()
}
