// Where the values of a record stand, by one walk over it: an edge in front of each column's value, one behind the
// last, laid down in an array that the caller lends, so that many records can be gone through with one array.
#![tactic(auto)]

ghost use Rattle.std.specs.Prelude.{◌≡◌, ◌+◌, ◌^◌, ◌≤◌, ◌<◌, length, drop};
ghost use Rattle.octets.specs.Splice.{splice, stored};
ghost use Rattle.presence.specs.Presence.{room};
ghost use Rattle.value.specs.Types.{form_at};
ghost use Rattle.value.specs.Value.{value_of};
ghost use Rattle.entry.specs.Slots.{step_of};
ghost use Rattle.entry.specs.Read.{width_of};
ghost use Rattle.edges.specs.Passed.{passed_form, passed};
ghost use Rattle.edges.specs.Edges.{edges_from, edges_in, cell_in};
ghost use Rattle.edges.specs.Cases.{edges_inside};

use answers::Walk;
use octets::word32;
use value::{LIST, NARROW, NUMBER, TEXT};

// As many edges as a record may have: one more than columns.
pub const MOST_EDGES: usize = 129;

// The form by which a value of a good record is passed over: a text like a narrow string, which ends alike.
fn pass_form(form: u8) -> u8
    ensures { result ≡ passed_form form }
{
    if form == TEXT {
        return NARROW;
    }
    if form == LIST + TEXT {
        return LIST + NARROW;
    }
    form
}

// The walk over a value, with the commonest forms at hand.
fn pass_value(form: u8, s: &[u8]) -> Walk
    ensures { result ≡ value_of (form_at form) s.now }
{
    if form == NARROW {
        return text::narrow_string(s);
    }
    if form == NUMBER {
        return match whole::read_number(s) {
            Some((_, w)) => Ok(w),
            None => Err(0),
        };
    }
    value::walk_value(form, s)
}

// How many octets the value of column i takes; none where it is absent or breaks its form.
fn column_width(p: &[u8], i: usize, form: u8, s: &[u8]) -> usize
    ensures { (result ≡ width_of (step_of p.now i (form_at form) s.now))
        × (result ≤ length s.now) }
{
    if !presence::has(p, i) {
        return 0;
    }
    if value::is_short(form, s) {
        return 1;
    }
    pass_value(form, s).unwrap_or(0)
}

// `p` has the presence octets, `forms` the form of each column's values, and `s` is what follows the presence octets
// and stands at `at`.
fn fill_edges(p: &[u8], forms: &[u8], s: &[u8], at: usize, edges: &mut [usize])
    requires { (length forms.now < length edges.old) × (at + length s.now < 2 ^ 64) }
    ensures { edges.new ≡ splice edges.old 0
        (edges_from (passed forms.now) 0 p.now at s.now) }
{
    let mut i = 0;
    for (j, form) in forms.iter().enumerate() {
        edges[j] = at + i;
        i += column_width(p, j, pass_form(*form), &s[i..]);
    }
    edges[forms.len()] = at + i;
}

// Of the record `t`, which has its size field and its presence octets and stands at `at`.
fn edges_inside(t: &[u8], at: usize, forms: &[u8], edges: &mut [usize])
    requires { (length forms.now < length edges.old) × (4 + room (length forms.now) ≤ length t.now)
        × (at + length t.now < 2 ^ 64) }
    ensures { edges.new ≡ splice edges.old 0
        (edges_inside forms.now at t.now) }
{
    let head = 4 + presence::octets_for(forms.len());
    fill_edges(&t[4..head], forms, &t[head..], at + head, edges);
}

// The edges of the record at `at`; none are laid down where it isn't whole or the array is too short.
pub fn put_edges(book: &[u8], at: usize, forms: &[u8], edges: &mut [usize])
    ensures { edges.new ≡ stored edges.old 0
        (edges_in forms.now at (drop at book.now)) }
{
    if edges.len() <= forms.len() {
        return;
    }
    if book.len() < at {
        return;
    }
    let left = book.len() - at;
    let size = word32(book, at) as usize;
    if size < 4 + presence::octets_for(forms.len()) {
        return;
    }
    if left < size {
        return;
    }
    let end = at + size;
    edges_inside(&book[at..end], at, forms, edges);
}

// The octets of column c between its edges; none where they aren't there.
pub fn cell<'a>(book: &'a [u8], edges: &[usize], c: usize) -> &'a [u8]
    ensures { result.now ≡ cell_in book.now edges.now c }
{
    if edges.len() <= c {
        return &book[0..0];
    }
    if edges.len() <= c + 1 {
        return &book[0..0];
    }
    let start = edges[c];
    let end = edges[c + 1];
    if book.len() < end {
        return &book[0..0];
    }
    if end < start {
        return &book[0..0];
    }
    &book[start..end]
}
