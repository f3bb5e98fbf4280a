// What is handed over, by the number of a form: the octets that it takes, 0 where it breaks the form, and those octets stored.
ghost use Rattle.std.specs.Prelude.{◌≡◌, true, cond, [], ◌∷◌, ◌+◌, ◌≤◌, ◌<◌, length};
ghost use Rattle.answers.specs.Numbers.{most_octets};
ghost use Rattle.octets.specs.Splice.{stored};
ghost use Rattle.value.specs.Types.{form_at};
ghost use Rattle.giving.specs.Give.{Number, Truth, Octets, Count, octets_for, element_form};
ghost use Rattle.giving.specs.Size.{size_of, binary_size};

use octets::{copy, put_word};
use value::{BINARY, FORMS, LIST, NARROW, NUMBER, TEXT, TRUTH, UNKNOWN};
use whole::{number_width, put_number};

// The form of a list's elements; unknown where the form isn't a list's.
pub fn element_form(form: u8) -> u8
    ensures { form_at result ≡ element_form (form_at form) }
{
    if form < LIST {
        return UNKNOWN;
    }
    if form < FORMS {
        return form - LIST;
    }
    UNKNOWN
}

pub fn number_size(form: u8, value: u32) -> usize
    ensures { result ≡ size_of (form_at form) (Number value) }
{
    if form == NUMBER {
        return number_width(value);
    }
    0
}

pub fn truth_size(form: u8) -> usize
    ensures { result ≡ size_of (form_at form) (Truth true) }
{
    if form == TRUTH {
        return 1;
    }
    0
}

pub fn list_size(form: u8, count: u32) -> usize
    ensures { result ≡ size_of (form_at form) (Count count) }
{
    if count == 0 {
        return 0;
    }
    if form < LIST {
        return 0;
    }
    if form < FORMS {
        return number_width(count);
    }
    0
}

fn string_size(good: bool, n: usize) -> usize
    requires { n < 9223372036854775808 }
    ensures { result ≡ cond good (n + 1) 0 }
{
    if good { n + 1 } else { 0 }
}

fn binary_size(n: usize) -> usize
    ensures { result ≡ binary_size n }
{
    if n == 0 {
        return 0;
    }
    if n < 4294967296 {
        return number_width(n as u32) + n;
    }
    0
}

pub fn octets_size(form: u8, s: &[u8]) -> usize
    ensures { result ≡ size_of (form_at form) (Octets s.now) }
{
    match form {
        NARROW => string_size(text::is_narrow(s), s.len()),
        TEXT => string_size(text::is_utf8(s), s.len()),
        BINARY => binary_size(s.len()),
        _ => 0,
    }
}

pub fn put_truth(buf: &mut [u8], at: usize, yes: bool)
    ensures { buf.new ≡ stored buf.old at (cond yes 1 0 ∷ []) }
{
    if yes {
        put_word(buf, at, 1, 1);
        return;
    }
    put_word(buf, at, 1, 0);
}

// Octets with their length before them, or with a 0 behind.
pub fn put_octets(buf: &mut [u8], at: usize, form: u8, s: &[u8])
    requires { (at + length (octets_for (form_at form) (Octets s.now)) ≤ length buf.old)
        × (length s.now ≤ most_octets) }
    ensures { buf.new ≡ stored buf.old at (octets_for (form_at form) (Octets s.now)) }
{
    if form == BINARY {
        let n = s.len() as u32;
        put_number(buf, at, n);
        copy(buf, at + number_width(n), s);
        return;
    }
    copy(buf, at, s);
    put_word(buf, at + s.len(), 1, 0);
}
