// Why a record has no value under a tag (request 105). The book is judged first; then the columns of the named record's
// table, its row and its truncated properties tell. Whole tags are compared, save where another type is looked for.
#![tactic(auto)]

ghost use Rattle.std.specs.Prelude.{◌≡◌, ◌^◌, ◌≤◌, ◌<◌, length};
ghost use Rattle.answers.specs.Numbers.{most_columns};
ghost use Rattle.table.specs.Repeat.{memb};
ghost use Rattle.lookup.specs.Look.{column_in};
ghost use Rattle.reason.specs.Why.{upper, uppers_of, other_type, numbers_in, why_of};
ghost use Rattle.reason.specs.Cases.{cell_listed, cell_why, columns_why};

use answers::{Answer, refuse};
use edges::MOST_EDGES;
use lookup::Which;
use table::Columns;

// The truncated properties: a list of numbers, which are whole tags.
const TRUNCATED: u32 = 0x68051003;

// Where the rows of the header table begin, and how many octets a row takes.
const HEADER_ROWS: usize = 20;

const ROW_WIDTH: usize = 8;

// A column of the same upper half under another type: the first such tag and the place of its row. No column at all.
// Absent, and the tag is listed in the record's truncated properties, or isn't: the place of the presence octet with
// the tag's bit.
#[derive(Clone, Copy)]
pub enum Reason {
    OtherType(u32, usize),
    NoColumn,
    Listed(usize),
    NotListed(usize),
}

// Whether a list of numbers holds the tag.
fn holds(list: &[u8], tag: u32) -> bool
    ensures { result ≡ memb tag (numbers_in list.now) }
{
    let Some((n, w)) = whole::read_number(list) else {
        return false;
    };
    let mut i = w;
    for _ in 0..n {
        let Some((v, u)) = whole::read_number(&list[i..]) else {
            return false;
        };
        if tag == v {
            return true;
        }
        i += u;
    }
    false
}

// The first column of the tag's upper half.
fn find_half(tags: &[u32], tag: u32) -> Option<usize>
    ensures { result ≡ column_in (upper tag) (uppers_of tags.now) }
{
    tags.iter().position(|x| tag >> 16 == *x >> 16)
}

// The reply where the whole tag has no column; the rows of the table stand from `rows` on.
fn other_type(tags: &[u32], rows: usize, tag: u32) -> Answer<Reason>
    requires { (length tags.now ≤ most_columns) × (rows < 2 ^ 32) }
    ensures { result ≡ other_type tags.now rows tag }
{
    let Some(i) = find_half(tags, tag) else {
        return Ok(Reason::NoColumn);
    };
    Ok(Reason::OtherType(tags[i], rows + ROW_WIDTH * i))
}

// Whether the truncated properties of a record list the tag.
fn is_listed(book: &[u8], edges: &[usize], tags: &[u32], tag: u32) -> bool
    ensures { result ≡ cell_listed book.now edges.now tags.now tag }
{
    let Some(d) = lookup::find_column(tags, TRUNCATED) else {
        return false;
    };
    holds(edges::cell(book, edges, d), tag)
}

// The reply where column c of the record at `at` has the whole tag. A value takes at least one octet.
fn why_absent(
    book: &[u8],
    edges: &[usize],
    tags: &[u32],
    c: usize,
    at: usize,
    tag: u32,
) -> Answer<Reason>
    requires { (c < most_columns) × (at < 2 ^ 32) }
    ensures { result ≡ cell_why book.now edges.now tags.now c at tag }
{
    let value = edges::cell(book, edges, c);
    if 0 < value.len() {
        return refuse(answers::BREAKS_FORM, 0);
    }
    let place = at + 4 + c / 8;
    if is_listed(book, edges, tags, tag) {
        return Ok(Reason::Listed(place));
    }
    Ok(Reason::NotListed(place))
}

// The reply for the record at `at`, by the columns of its table, whose rows stand from `rows` on.
fn why_in(book: &[u8], columns: Columns, at: usize, rows: usize, tag: u32) -> Answer<Reason>
    requires { (columns.count ≤ most_columns) × (at < 2 ^ 32) × (rows < 2 ^ 32) }
    ensures { result ≡ columns_why book.now columns at rows tag }
{
    let tags = columns.tags();
    let Some(c) = lookup::find_column(tags, tag) else {
        return other_type(tags, rows, tag);
    };
    let mut edges = [0usize; MOST_EDGES];
    edges::put_edges(book, at, columns.forms(), &mut edges);
    why_absent(book, &edges, tags, c, at, tag)
}

// Why the record has no value under the whole tag.
pub fn why(book: &[u8], which: Which, tag: u32) -> Answer<Reason>
    ensures { result ≡ why_of book.now which tag }
{
    let j = book::judge(book)?;
    match which {
        Which::Header => why_in(book, j.header, j.head, HEADER_ROWS, tag),
        Which::Number(k) => {
            if j.count <= k {
                return refuse(answers::OUT_OF_TURN, 0);
            }
            let rows = j.head - ROW_WIDTH * j.address.count;
            let at = lookup::place_behind(book, j.first, k);
            why_in(book, j.address, at, rows, tag)
        }
    }
}
