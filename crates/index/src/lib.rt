// A saved index of a book (requests 103 and 111): made from the book, read beside it, and a lookup of one address record
// through it, whose cost doesn't grow with the number of records.
#![tactic(auto)]

ghost use Rattle.std.specs.Prelude.{◌≡◌, ◌+◌, ◌*◌, ◌^◌, ◌≤◌, ◌<◌, length, drop};
ghost use Rattle.answers.specs.Numbers.{most_records};
ghost use Rattle.octets.specs.Splice.{stored};
ghost use Rattle.entry.specs.Slots.{slots_from};
ghost use Rattle.index.specs.Index.{starts_offset, fields_of, make_answer, make_octets, width_by, kind_at, index_at};
ghost use Rattle.index.specs.Index.{start_at, start_of, entry_of, record_look, indexed_of};
ghost use Rattle.index.specs.MakeCases.{front_of, walked};
ghost use Rattle.index.specs.Cases.{beside_at, table_look};

use answers::{Answer, Verdict, refuse};
use book::Judgement;
use lookup::Looked;
use octets::{put_word, word32};
use table::Columns;

// Where the starts begin in an index, and how many octets each takes.
const STARTS_OFFSET: usize = 20;

const ENTRY_WIDTH: usize = 4;

// The same in an old index, and the longest book that one is for.
const OLD_OFFSET: usize = 16;

const OLD_WIDTH: usize = 3;

const OLD_MOST: usize = 16777216;

// ---- the maker

fn put_fields(out: &mut [u8], count: usize, long: usize, serial: u32)
    requires { 16 ≤ length out.old }
    ensures { out.new ≡ stored out.old 0 (fields_of count long serial starts_offset) }
{
    put_word(out, 0, 4, count as u64);
    put_word(out, 4, 4, long as u64);
    put_word(out, 8, 4, serial as u64);
    put_word(out, 12, 4, STARTS_OFFSET as u64);
}

// All that stands in front of the starts: the fifth field is the width of an entry.
fn put_front(out: &mut [u8], count: usize, long: usize, serial: u32)
    requires { starts_offset ≤ length out.old }
    ensures { out.new ≡ stored out.old 0 (front_of count long serial) }
{
    put_fields(out, count, long, serial);
    put_word(out, 16, 4, ENTRY_WIDTH as u64);
}

// The starts of a good book's address records, from `at` on and in `width` octets each.
fn put_starts(out: &mut [u8], at: usize, width: usize, book: &[u8], j: &Judgement)
    requires { (j.now.first < 2 ^ 32) × (j.now.count ≤ most_records) × (at + width * j.now.count ≤ length out.old) }
    ensures { out.new ≡ stored out.old at
        (walked width j.now.count j.now.first (drop j.now.first book.now)) }
{
    let mut to = at;
    let mut i = j.first;
    for _ in 0..j.count {
        put_word(out, to, width, i as u64);
        to += width;
        i += word32(book, i) as usize;
    }
}

// The index of a book, where the book is good and the index fits.
pub fn make_index(book: &[u8], out: &mut [u8]) -> Answer<usize>
    ensures { (result ≡ make_answer book.now out.old)
        × (out.new ≡ make_octets book.now out.old) }
{
    let j = book::judge(book)?;
    let size = STARTS_OFFSET + ENTRY_WIDTH * j.count;
    if out.len() < size {
        return refuse(answers::NO_ROOM, 0);
    }
    put_front(out, j.count, book.len(), word32(book, 4));
    put_starts(out, STARTS_OFFSET, ENTRY_WIDTH, book, &j);
    Ok(size)
}

// ---- the reader

// How many octets an entry takes in an index of this offset.
fn width_by(offset: usize) -> usize
    ensures { (result ≡ width_by offset) × (result ≤ 4) }
{
    if offset == OLD_OFFSET {
        return OLD_WIDTH;
    }
    ENTRY_WIDTH
}

// An old index, beside a book that it is for, or a new one with its width.
fn judge_kind(book: &[u8], index: &[u8]) -> Verdict
    ensures { result ≡ kind_at book.now index.now }
{
    let offset = word32(index, 12) as usize;
    if offset == OLD_OFFSET {
        if OLD_MOST < book.len() {
            return refuse(answers::WRONG_INDEX, 0);
        }
        return Ok(());
    }
    if offset != STARTS_OFFSET {
        return refuse(answers::WRONG_INDEX, 0);
    }
    if word32(index, 16) as usize != ENTRY_WIDTH {
        return refuse(answers::WRONG_INDEX, 0);
    }
    Ok(())
}

// Whether these octets can be the index of the book.
fn judge_index(book: &[u8], index: &[u8]) -> Verdict
    ensures { result ≡ index_at book.now index.now }
{
    judge_kind(book, index)?;
    let count = word32(book, 8);
    if word32(index, 0) != count {
        return refuse(answers::WRONG_INDEX, 0);
    }
    if word32(index, 4) as usize != book.len() {
        return refuse(answers::WRONG_INDEX, 0);
    }
    if word32(index, 8) != word32(book, 4) {
        return refuse(answers::WRONG_INDEX, 0);
    }
    let offset = word32(index, 12) as usize;
    if index.len() != offset + width_by(offset) * count as usize {
        return refuse(answers::WRONG_INDEX, 0);
    }
    Ok(())
}

// The index beside the book, then the record's number.
fn judge_beside(book: &[u8], index: &[u8], k: usize) -> Verdict
    ensures { result ≡ beside_at book.now index.now k }
{
    judge_index(book, index)?;
    if word32(book, 8) as usize <= k {
        return refuse(answers::OUT_OF_TURN, 0);
    }
    Ok(())
}

// The start of record k by an index of this offset and this width.
fn start_at(index: &[u8], offset: usize, width: usize, k: usize) -> usize
    requires { (width ≤ 8) × (offset + width * k < 2 ^ 64) }
    ensures { result ≡ start_at offset width k index.now }
{
    octets::word(index, offset + width * k, width) as usize
}

// The same by the offset that stands in the index.
fn start_of(index: &[u8], k: usize) -> usize
    requires { k < most_records }
    ensures { result ≡ start_of index.now k }
{
    let offset = word32(index, 12) as usize;
    start_at(index, offset, width_by(offset), k)
}

// Where address record k starts, by the index.
pub fn entry_at(book: &[u8], index: &[u8], k: usize) -> Answer<usize>
    ensures { result ≡ entry_of book.now index.now k }
{
    book::read_tables(book)?;
    judge_beside(book, index, k)?;
    let at = start_of(index, k);
    if at < book.len() {
        return Ok(at);
    }
    refuse(answers::WRONG_INDEX, 0)
}

// ---- the lookup

// Column c of the record that starts at `at`.
fn look_column(book: &[u8], at: usize, forms: &[u8], flags: &[u32], c: usize) -> Looked
    ensures { result ≡ record_look (slots_from forms.now flags.now) book.now at c }
{
    if book.len() <= at {
        return refuse(answers::WRONG_INDEX, 0);
    }
    entry::judge_record(book, at, forms, flags)?;
    lookup::seek(book, at, forms, c)
}

// The value with a tag in the record that starts at `at`.
fn look_at(book: &[u8], columns: Columns, at: usize, tag: u32) -> Looked
    ensures { result ≡ table_look columns book.now at tag }
{
    let Some(c) = lookup::find_column(columns.tags(), tag) else {
        return refuse(answers::OUT_OF_TURN, 0);
    };
    look_column(book, at, columns.forms(), columns.flags(), c)
}

// The value of address record k with a whole tag, by the index: only the header, the metadata and that record are read.
pub fn lookup_indexed(book: &[u8], index: &[u8], k: usize, tag: u32) -> Looked
    ensures { result ≡ indexed_of book.now index.now k tag }
{
    let t = book::read_tables(book)?;
    judge_beside(book, index, k)?;
    let at = start_of(index, k);
    look_at(book, t.address, at, tag)
}
