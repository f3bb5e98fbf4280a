// The walk over a value of each form.
ghost use Rattle.std.specs.Prelude.{◌≡◌};
ghost use Rattle.value.specs.Types.{kind_at, form_at};
ghost use Rattle.value.specs.Short.{short_of};
ghost use Rattle.value.specs.Value.{numeric_of, truth_of, binary_of, element_of, list_of, value_of};

use crate::types::{FORMS, LIST, NARROW, NUMBER, TEXT, TRUTH};
use answers::Walk;

fn numeric(s: &[u8]) -> Walk
    ensures { result ≡ numeric_of s.now }
{
    match whole::read_number(s) {
        Some((_, w)) => Ok(w),
        None => Err(0),
    }
}

fn truth(s: &[u8]) -> Walk
    ensures { result ≡ truth_of s.now }
{
    if s.len() < 1 {
        return Err(0);
    }
    let a = s[0];
    if a < 2 {
        return Ok(1);
    }
    Err(0)
}

fn binary(s: &[u8]) -> Walk
    ensures { result ≡ binary_of s.now }
{
    let Some((n, w)) = whole::read_number(s) else {
        return Err(0);
    };
    if n < 1 {
        return Err(0);
    }
    let k = n as usize;
    if k <= s.len() - w {
        return Ok(w + k);
    }
    Err(0)
}

// One value of a kind, single or in a list.
fn element(kind: u8, s: &[u8]) -> Walk
    ensures { result ≡ element_of (kind_at kind) s.now }
{
    match kind {
        NUMBER => numeric(s),
        TRUTH => truth(s),
        NARROW => text::narrow_string(s),
        TEXT => text::utf8_string(s),
        _ => binary(s),
    }
}

fn list(kind: u8, s: &[u8]) -> Walk
    ensures { result ≡ list_of (kind_at kind) s.now }
{
    let Some((n, w)) = whole::read_number(s) else {
        return Err(0);
    };
    if n < 1 {
        return Err(0);
    }
    let mut i = w;
    for _ in 0..n {
        let Ok(k) = element(kind, &s[i..]) else {
            return Err(i);
        };
        i += k;
    }
    Ok(i)
}

// Whether one look at the front of `s` shows a sound value of one octet: yes or no, or a number below 128. Where it does, no walk is needed.
#[tactic(auto, unfolding(crate::specs::Short::short_of))]
pub fn is_short(form: u8, s: &[u8]) -> bool
    ensures { result ≡ short_of form s.now }
{
    let Some(a) = s.first() else {
        return false;
    };
    match form {
        TRUTH => *a < 2,
        NUMBER => *a < 128,
        _ => false,
    }
}

// The value of a form at the front of `s`.
pub fn walk_value(form: u8, s: &[u8]) -> Walk
    ensures { result ≡ value_of (form_at form) s.now }
{
    if form < LIST {
        return element(form, s);
    }
    if form < FORMS {
        return list(form - LIST, s);
    }
    Err(0)
}
