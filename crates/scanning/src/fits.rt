// Whether a field that has ended holds a value of its type, judged where it stands.
ghost use Rattle.std.specs.Prelude.{◌≡◌, ltb, ◌-◌, ◌<◌};
ghost use Rattle.sheet.specs.Digits.{number_in};
ghost use Rattle.scanning.specs.Scan.{fits};
ghost use Rattle.scanning.specs.Inner.{inner_of};

use sheet::{NUMBERS, QUOTE, TEXTS};

// Whether the number that digits say is at most 4,294,967,295. Eight octets, whichever they are, say less.
#[tactic(auto, using(crate::specs::FitCases::small_cases))]
fn is_small(s: &[u8]) -> bool
    ensures { result ≡ ltb (number_in s.now) 4294967296 }
{
    if s.len() < 9 {
        return true;
    }
    let mut a: u64 = 0;
    for x in s {
        a = a * 10 + u64::from(x.saturating_sub(b'0'));
        if 4294967295 < a {
            return false;
        }
    }
    true
}

// What stands between a field's quotes, where it has them.
fn inner<'a>(f: &'a [u8]) -> &'a [u8]
    ensures { result.now ≡ inner_of f.now }
{
    if f.len() < 1 {
        return f;
    }
    if f[0] == QUOTE {
        if f.len() < 2 {
            return &f[0..0];
        }
        let end = f.len() - 1;
        return &f[1..end];
    }
    f
}

pub fn fits_field(code: u32, f: &[u8]) -> bool
    ensures { result ≡ fits code (inner_of f.now) }
{
    let g = inner(f);
    if g.len() < 1 {
        return true;
    }
    if code == NUMBERS {
        return is_small(g);
    }
    if code == TEXTS {
        return text::is_utf8(g);
    }
    true
}
