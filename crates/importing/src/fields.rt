// A field of a line where it stands: its end, what it holds, and the value that is laid down for it. All that is put
// has room: it was measured before. Places count from the line's start, as the line's measures do.
ghost use Rattle.std.specs.Prelude.{◌≡◌, false, cond, [], ◌∷◌, ◌+◌, ◌-◌, ◌*◌, ◌%◌, ◌≤◌, ◌<◌, length, drop};
ghost use Rattle.octets.specs.Octets.{octet_at};
ghost use Rattle.octets.specs.Splice.{splice};
ghost use Rattle.entry.specs.Values.{entry_octets};
ghost use Rattle.sheet.specs.Digits.{number_in};
ghost use Rattle.sheet.specs.Reading.{unquoted, content_in};
ghost use Rattle.importing.specs.Fields.{plain_long, quoted_long, field_long, is_quoted, unread_by, read_by, laid_from};

use sheet::{NUMBERS, QUOTE, TRUTHS, is_mark};

// ---- where it ends

// The first mark from `at` on, or the end of `s`.
fn plain_end(s: &[u8], at: usize) -> usize
    requires { at ≤ length s.now }
    ensures { (result ≡ at + plain_long (drop at s.now)) × (result ≤ length s.now) }
{
    let rest = &s[at..];
    at + rest.iter().position(|x| is_mark(*x)).unwrap_or(rest.len())
}

// The first quote from `at` on, or the end of `s`.
fn quote_from(s: &[u8], at: usize) -> usize
    requires { at ≤ length s.now }
    ensures { (result ≡ at + quoted_long (drop at s.now)) × (result ≤ length s.now) }
{
    let rest = &s[at..];
    at + rest.iter().position(|x| *x == QUOTE).unwrap_or(rest.len())
}

// The first mark outside quotes from `at` on, or the end of `s`.
pub fn field_end(s: &[u8], at: usize) -> usize
    requires { at ≤ length s.now }
    ensures { (result ≡ at + field_long false (drop at s.now)) × (result ≤ length s.now) }
{
    let mut i = plain_end(s, at);
    // No `for`: each turn passes all that stands between two quotes, and the next one begins behind it.
    while i < s.len() {
        if s[i] != QUOTE {
            return i;
        }
        let close = quote_from(s, i + 1);
        if s.len() <= close {
            return close;
        }
        i = plain_end(s, close + 1);
    }
    i
}

// ---- what it holds

// Whether x is a quote that isn't read: the first of two, or the one that closes; `second` says that it stands behind
// such a one.
#[tactic(auto, using(crate::specs::FieldCases::unread_cases))]
fn is_unread(second: bool, x: u8) -> bool
    ensures { result ≡ unread_by second x }
{
    !second && x == QUOTE
}

#[tactic(auto, using(crate::specs::FieldCases::quoted_cases))]
fn is_quoted(f: &[u8]) -> bool
    ensures { result ≡ is_quoted f.now }
{
    !f.is_empty() && f[0] == QUOTE
}

fn counted(unread: bool) -> usize
    ensures { (result ≡ cond unread 0 1) × (result ≤ 1) }
{
    usize::from(!unread)
}

// How many octets are read of what stands behind the quote that opens.
#[tactic(auto, using(crate::specs::FieldCases::inner_long))]
fn inner_long(s: &[u8]) -> usize
    ensures { (result ≡ length (unquoted false s.now)) × (result ≤ length s.now) }
{
    let mut second = false;
    let mut k = 0;
    for x in s {
        second = is_unread(second, *x);
        k += counted(second);
    }
    k
}

// How many octets a field holds.
fn content_long(f: &[u8]) -> usize
    ensures { (result ≡ length (content_in f.now)) × (result ≤ length f.now) }
{
    if is_quoted(f) {
        return inner_long(&f[1..]);
    }
    f.len()
}

// An octet, unless it is unread; where the next one goes.
fn put_one(out: &mut [u8], at: usize, x: u8, unread: bool) -> usize
    requires { at + length (read_by unread x) ≤ length out.old }
    ensures { (result ≡ at + length (read_by unread x))
        × (out.new ≡ splice out.old at (read_by unread x)) }
{
    if unread {
        return at;
    }
    out[at] = x;
    at + 1
}

#[tactic(auto, using(crate::specs::FieldCases::put_inner))]
fn put_inner(out: &mut [u8], at: usize, s: &[u8])
    requires { at + length (unquoted false s.now) ≤ length out.old }
    ensures { out.new ≡ splice out.old at (unquoted false s.now) }
{
    let mut second = false;
    let mut k = at;
    for x in s {
        second = is_unread(second, *x);
        k = put_one(out, k, *x, second);
    }
}

// What a field holds, laid down from `at` on.
fn put_content(out: &mut [u8], at: usize, f: &[u8])
    requires { at + length (content_in f.now) ≤ length out.old }
    ensures { out.new ≡ splice out.old at (content_in f.now) }
{
    if is_quoted(f) {
        put_inner(out, at, &f[1..]);
        return;
    }
    octets::copy(out, at, f);
}

// ---- numbers and booleans

// The low 32 bits of a number with one digit more.
fn with_digit(a: u64, x: u8) -> u64
    requires { a < 4294967296 }
    ensures { (result ≡ (a * 10 + (x - 48)) % 4294967296) × (result < 4294967296) }
{
    (a * 10 + u64::from(x.saturating_sub(b'0'))) % 4294967296
}

// The same, unless the octet is unread.
fn with_octet(a: u64, x: u8, unread: bool) -> u64
    requires { a < 4294967296 }
    ensures { (result ≡ cond unread a ((a * 10 + (x - 48)) % 4294967296)) × (result < 4294967296) }
{
    if unread { a } else { with_digit(a, x) }
}

// The low 32 bits of the number that digits say.
#[tactic(auto, using(crate::specs::FieldCases::number_cases))]
fn plain_number(s: &[u8]) -> u32
    ensures { result ≡ number_in s.now % 4294967296 }
{
    let mut a: u64 = 0;
    for x in s {
        a = with_digit(a, *x);
    }
    a as u32
}

#[tactic(auto, using(crate::specs::FieldCases::number_cases))]
fn inner_number(s: &[u8]) -> u32
    ensures { result ≡ number_in (unquoted false s.now) % 4294967296 }
{
    let mut second = false;
    let mut a: u64 = 0;
    for x in s {
        second = is_unread(second, *x);
        a = with_octet(a, *x, second);
    }
    a as u32
}

fn number_in(f: &[u8]) -> u32
    ensures { result ≡ number_in (content_in f.now) % 4294967296 }
{
    if is_quoted(f) {
        return inner_number(&f[1..]);
    }
    plain_number(f)
}

fn octet_or_none(s: &[u8], i: usize) -> u8
    ensures { result ≡ octet_at s.now i }
{
    s.get(i).copied().unwrap_or(0)
}

// The first octet read of what stands behind the quote that opens.
fn inner_first(s: &[u8]) -> u8
    ensures { result ≡ octet_at (unquoted false s.now) 0 }
{
    if octet_or_none(s, 0) == QUOTE {
        return octet_or_none(s, 1);
    }
    octet_or_none(s, 0)
}

fn first_in(f: &[u8]) -> u8
    ensures { result ≡ octet_at (content_in f.now) 0 }
{
    if is_quoted(f) {
        return inner_first(&f[1..]);
    }
    octet_or_none(f, 0)
}

fn truth_in(f: &[u8]) -> u8
    ensures { result ≡ octet_at (content_in f.now) 0 - 48 }
{
    first_in(f).saturating_sub(b'0')
}

// ---- the value

// How many octets the value of a field takes; none where it holds nothing.
pub fn value_long(f: &[u8], code: u32) -> usize
    ensures { (result ≡ length (entry_octets (laid_from code (content_in f.now))))
        × (result ≤ length f.now + 5) }
{
    let k = content_long(f);
    if k == 0 {
        return 0;
    }
    if code == NUMBERS {
        return whole::number_width(number_in(f));
    }
    if code == TRUTHS {
        return 1;
    }
    k + 1
}

// The value, laid down from `at` on; where it ends.
pub fn put_value(out: &mut [u8], at: usize, f: &[u8], code: u32) -> usize
    requires { at + length (entry_octets (laid_from code (content_in f.now))) ≤ length out.old }
    ensures { (result ≡ at + length (entry_octets (laid_from code (content_in f.now))))
        × (out.new ≡ splice out.old at
        (entry_octets (laid_from code (content_in f.now)))) }
{
    let k = content_long(f);
    if k == 0 {
        return at;
    }
    if code == NUMBERS {
        let n = number_in(f);
        whole::put_number(out, at, n);
        return at + whole::number_width(n);
    }
    if code == TRUTHS {
        out[at] = truth_in(f);
        return at + 1;
    }
    put_content(out, at, f);
    out[at + k] = 0;
    at + k + 1
}
