// A view of a book: it holds the book's slice and the place where a record starts. Its functions are thin: each takes
// the view apart and leaves the work to functions on plain parameters. Other code calls `value_at` and `value_of`, whose
// parameters are plain. Each call judges the book once.
#![tactic(auto)]

ghost use Rattle.std.specs.Prelude.{◌≡◌, ◌-◌, take, drop};
ghost use Rattle.lookup.specs.Look.{stretch_by, stretch_of};
ghost use Rattle.lookup.specs.Placed.{lookup_at, stretch_at};

use lookup::{Looked, Which};

#[derive(Clone, Copy)]
pub struct View<'a> {
    pub book: &'a [u8],
    pub at: usize,
}

pub fn view_of<'a>(book: &'a [u8], at: usize) -> View<'a>
    ensures { (result.book ≡ book.entry) × (result.at ≡ at) }
{
    View { book, at }
}

// The value of the record that the view is of, with a whole tag.
pub fn view_lookup<'a>(v: View<'a>, tag: u32) -> Looked
    ensures { result ≡ lookup_at v.entry.book.now v.entry.at tag }
{
    lookup::lookup_at(v.book, v.at, tag)
}

// The stretch of the book that is that value's encoding; empty where there is no value.
pub fn view_stretch<'a>(v: View<'a>, tag: u32) -> &'a [u8]
    ensures { result.now ≡ stretch_at v.entry.book.now v.entry.at tag }
{
    lookup::stretch_at(v.book, v.at, tag)
}

// What a lookup answers, and the stretch of the book that is the value's encoding, empty where there is no value. No
// encoding is empty, so the stretch alone says whether there is a value; why there is none, the answer says.
#[derive(Clone, Copy)]
pub struct Found<'a> {
    pub looked: Looked,
    pub octets: &'a [u8],
}

// The octets from `start` up to `end`, those that there are.
fn between<'a>(book: &'a [u8], start: usize, end: usize) -> &'a [u8]
    ensures { result.now ≡ take (end - start) (drop start book.now) }
{
    if end <= start {
        return &book[0..0];
    }
    if book.len() <= start {
        return &book[0..0];
    }
    if book.len() <= end {
        return &book[start..];
    }
    &book[start..end]
}

// The stretch that a lookup found. It takes any answer; `cut` of lookup is for what a lookup of the same book found.
fn cut<'a>(book: &'a [u8], found: Looked) -> &'a [u8]
    ensures { result.now ≡ stretch_by book.now found }
{
    let Ok(value) = found else {
        return &book[0..0];
    };
    match value {
        Some((start, end)) => between(book, start, end),
        None => &book[0..0],
    }
}

// Both, for the record that the view is of.
pub fn view_found<'a>(v: View<'a>, tag: u32) -> Found<'a>
    ensures { (result.looked ≡ lookup_at v.entry.book.now v.entry.at tag)
        × (result.octets.now ≡ stretch_at v.entry.book.now v.entry.at tag) }
{
    let looked = lookup::lookup_at(v.book, v.at, tag);
    let octets = cut(v.book, looked);
    Found { looked, octets }
}

// What a view of the record at a place hands back. Its parameters are plain, so that its callers are.
pub fn value_at<'a>(book: &'a [u8], at: usize, tag: u32) -> &'a [u8]
    ensures { result.now ≡ stretch_at book.now at tag }
{
    view_stretch(view_of(book, at), tag)
}

// The stretch of the book that is the value of a record with a whole tag; empty where there is no value.
pub fn value_of<'a>(book: &'a [u8], which: Which, tag: u32) -> &'a [u8]
    ensures { result.now ≡ stretch_of book.now which tag }
{
    let looked = lookup::lookup(book, which, tag);
    cut(book, looked)
}
