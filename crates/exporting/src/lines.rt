// Lines of a sheet, measured and written: the first line, then one for each record, by the record's edges.
ghost use Rattle.std.specs.Prelude.{◌≡◌, cond, ◌+◌, ◌*◌, ◌^◌, ◌≤◌, ◌<◌, ltb, length, get_or, take, replicate};
ghost use Rattle.octets.specs.Splice.{splice};
ghost use Rattle.answers.specs.Numbers.{most_records};
ghost use Rattle.edges.specs.Edges.{most_edges};
ghost use Rattle.sheet.specs.Field.{most_chosen, comma, cr, tag_field, tag_fields, line_of};
ghost use Rattle.exporting.specs.Steps.{field_at, ended, line_by, lines_by};

use crate::fields::{field_size, put_field, put_tag};
use book::Judgement;
use edges::MOST_EDGES;
use octets::word32;
use sheet::{COMMA, CR, LF};

fn place(s: &[usize], i: usize) -> usize
    ensures { result ≡ get_or s.now i 0 }
{
    s.get(i).copied().unwrap_or(0)
}

// What stands behind field i of n.
fn end_of(i: usize, n: usize) -> u8
    requires { i + 1 < 2 ^ 64 }
    ensures { result ≡ cond (ltb (i + 1) n) comma cr }
{
    if i + 1 < n { COMMA } else { CR }
}

// ---- measured

// The field of a tag whose column is c.
fn chosen_size(book: &[u8], edges: &[usize], tag: u32, c: usize) -> usize
    requires { length book.now < 2 ^ 32 }
    ensures { (result ≡ length (field_at book.now edges.now tag c)) × (result < 2 ^ 34) }
{
    field_size(tag % 65536, edges::cell(book, edges, c))
}

#[tactic(auto, using(crate::specs::LineCases::line_sizes, crate::specs::LineCases::fields_are))]
fn line_size(book: &[u8], edges: &[usize], tags: &[u32], places: &[usize]) -> usize
    requires { (length book.now < 2 ^ 32) × (length tags.now ≤ most_chosen) }
    ensures { (result ≡ length (line_by book.now edges.now tags.now
        places.now)) × (result < 2 ^ 40) }
{
    let mut k = 1;
    for (i, tag) in tags.iter().enumerate() {
        k += chosen_size(book, edges, *tag, place(places, i)) + 1;
    }
    k
}

// The lines of a good book's address records.
#[tactic(auto, using(crate::specs::RecordCases::lines_sizes))]
pub fn lines_size(book: &[u8], j: &Judgement, tags: &[u32], places: &[usize]) -> usize
    requires { (length book.now < 2 ^ 32) × (length tags.now ≤ most_chosen) × (j.now.first < 2 ^ 32)
        × (j.now.count ≤ most_records) }
    ensures { (result ≡ length (lines_by book.now (take j.now.address.count j.now.address.forms) tags.now
        places.now j.now.count j.now.first (replicate most_edges 0))) × (result < 2 ^ 56) }
{
    let forms = j.address.forms();
    let mut edges = [0usize; MOST_EDGES];
    let mut k = 0;
    let mut i = j.first;
    for _ in 0..j.count {
        edges::put_edges(book, i, forms, &mut edges);
        k += line_size(book, &edges, tags, places);
        i += word32(book, i) as usize;
    }
    k
}

// ---- written, where it was measured that there is room

fn put_chosen(out: &mut [u8], at: usize, book: &[u8], edges: &[usize], tag: u32, c: usize) -> usize
    requires { at + length (field_at book.now edges.now tag c) ≤ length out.old }
    ensures { (result ≡ at + length (field_at book.now edges.now tag c))
        × (out.new ≡ splice out.old at (field_at book.now edges.now tag c)) }
{
    put_field(out, at, tag % 65536, edges::cell(book, edges, c))
}

// Field i, and its end.
fn put_ended(
    out: &mut [u8],
    at: usize,
    book: &[u8],
    edges: &[usize],
    tags: &[u32],
    places: &[usize],
    i: usize,
) -> usize
    requires { (i < length tags.now) × (at + length (ended (field_at book.now edges.now (get_or tags.now i 0)
        (get_or places.now i 0)) i (length tags.now)) ≤ length out.old) }
    ensures { (result ≡ at + length (ended (field_at book.now edges.now
        (get_or tags.now i 0) (get_or places.now i 0)) i (length tags.now)))
        × (out.new ≡ splice out.old at (ended (field_at book.now edges.now
        (get_or tags.now i 0) (get_or places.now i 0)) i (length tags.now))) }
{
    let c = place(places, i);
    let k = put_chosen(out, at, book, edges, tags[i], c);
    out[k] = end_of(i, tags.len());
    k + 1
}

#[tactic(auto, using(crate::specs::LineCases::line_cases, crate::specs::LineCases::fields_are))]
fn put_line(
    out: &mut [u8],
    at: usize,
    book: &[u8],
    edges: &[usize],
    tags: &[u32],
    places: &[usize],
) -> usize
    requires { at + length (line_by book.now edges.now tags.now places.now) ≤ length out.old }
    ensures { (result ≡ at + length (line_by book.now edges.now tags.now
        places.now))
        × (out.new ≡ splice out.old at (line_by book.now edges.now
        tags.now places.now)) }
{
    let mut k = at;
    for i in 0..tags.len() {
        k = put_ended(out, k, book, edges, tags, places, i);
    }
    out[k] = LF;
    k + 1
}

// Tag i, and its end.
fn put_tag_ended(out: &mut [u8], at: usize, tags: &[u32], i: usize) -> usize
    requires { (i < length tags.now)
        × (at + length (ended (tag_field (get_or tags.now i 0)) i (length tags.now)) ≤ length out.old) }
    ensures { (result ≡ at + length (ended (tag_field (get_or tags.now i 0)) i (length tags.now)))
        × (out.new ≡ splice out.old at
        (ended (tag_field (get_or tags.now i 0)) i (length tags.now))) }
{
    let k = put_tag(out, at, tags[i]);
    out[k] = end_of(i, tags.len());
    k + 1
}

// The first line; where it ends.
#[tactic(auto, using(crate::specs::LineCases::line_cases, crate::specs::LineCases::tags_are))]
pub fn put_tags(out: &mut [u8], at: usize, tags: &[u32]) -> usize
    requires { at + length (line_of (tag_fields tags.now)) ≤ length out.old }
    ensures { (result ≡ at + length (line_of (tag_fields tags.now)))
        × (out.new ≡ splice out.old at (line_of (tag_fields tags.now))) }
{
    let mut k = at;
    for i in 0..tags.len() {
        k = put_tag_ended(out, k, tags, i);
    }
    out[k] = LF;
    k + 1
}

// The lines of a good book's address records, from `to` on.
#[tactic(auto, using(crate::specs::RecordCases::lines_cases))]
pub fn put_lines(
    out: &mut [u8],
    to: usize,
    book: &[u8],
    j: &Judgement,
    tags: &[u32],
    places: &[usize],
)
    requires { (j.now.first < 2 ^ 32) × (j.now.count ≤ most_records)
        × (to + length (lines_by book.now (take j.now.address.count j.now.address.forms) tags.now places.now
        j.now.count j.now.first (replicate most_edges 0)) ≤ length out.old) }
    ensures { out.new ≡ splice out.old to
        (lines_by book.now (take j.now.address.count j.now.address.forms) tags.now places.now
        j.now.count j.now.first (replicate most_edges 0)) }
{
    let forms = j.address.forms();
    let mut edges = [0usize; MOST_EDGES];
    let mut k = to;
    let mut i = j.first;
    for _ in 0..j.count {
        edges::put_edges(book, i, forms, &mut edges);
        k = put_line(out, k, book, &edges, tags, places);
        i += word32(book, i) as usize;
    }
}
