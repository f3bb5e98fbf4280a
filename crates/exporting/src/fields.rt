// One field of a sheet, measured and written: the text of a value, of which there are no octets where it is absent.
ghost use Rattle.std.specs.Prelude.{◌≡◌, cond, eqb, ◌+◌, ◌^◌, ◌≤◌, ◌<◌, length};
ghost use Rattle.octets.specs.Splice.{splice};
ghost use Rattle.sheet.specs.Digits.{decimal, places_of};
ghost use Rattle.sheet.specs.Field.{whole_in, tag_field};
ghost use Rattle.exporting.specs.Steps.{field_for};

use crate::digits::{places, put_digits};
use crate::strings::{put_string, string_size};
use sheet::{NUMBERS, TRUTHS};

// The number that a value says, 0 where it says none.
fn number_in(v: &[u8]) -> u32
    ensures { result ≡ whole_in v.now }
{
    match whole::read_number(v) {
        Some((n, _)) => n,
        None => 0,
    }
}

// The octets that the field of a value takes, by the code of its type.
pub fn field_size(code: u32, v: &[u8]) -> usize
    requires { length v.now < 2 ^ 32 }
    ensures { (result ≡ length (field_for code v.now)) × (result < 2 ^ 34) }
{
    if v.len() < 1 {
        return 0;
    }
    if code == NUMBERS {
        return places(number_in(v));
    }
    if code == TRUTHS {
        return 1;
    }
    let end = v.len() - 1;
    string_size(&v[0..end])
}

fn truth_digit(x: u8) -> u8
    ensures { result ≡ cond (eqb x 0) 48 49 }
{
    if x == 0 {
        return 48;
    }
    49
}

fn put_number(out: &mut [u8], at: usize, n: u32) -> usize
    requires { at + places_of n ≤ length out.old }
    ensures { (result ≡ at + places_of n) × (out.new ≡ splice out.old at (decimal n)) }
{
    let k = places(n);
    put_digits(out, at, 10, k, n);
    at + k
}

// The field of a value stands in the buffer from `at`; where it ends.
pub fn put_field(out: &mut [u8], at: usize, code: u32, v: &[u8]) -> usize
    requires { at + length (field_for code v.now) ≤ length out.old }
    ensures { (result ≡ at + length (field_for code v.now))
        × (out.new ≡ splice out.old at (field_for code v.now)) }
{
    if v.len() < 1 {
        return at;
    }
    if code == NUMBERS {
        return put_number(out, at, number_in(v));
    }
    if code == TRUTHS {
        out[at] = truth_digit(v[0]);
        return at + 1;
    }
    let end = v.len() - 1;
    put_string(out, at, &v[0..end])
}

// The field of a tag.
pub fn put_tag(out: &mut [u8], at: usize, tag: u32) -> usize
    requires { at + 8 ≤ length out.old }
    ensures { (result ≡ at + 8) × (out.new ≡ splice out.old at (tag_field tag)) }
{
    put_digits(out, at, 16, 8, tag);
    at + 8
}
