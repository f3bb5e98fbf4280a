// Beginning a book (document 01, "Writing a book"; decision 12): both tables are judged as they are handed over, then the header with serial and
// count 0 and the metadata are written. A begin that is refused leaves every octet and the writing in progress.
#![tactic(auto)]

ghost use Rattle.std.specs.Prelude.{◌≡◌, ◌+◌, ◌*◌, ◌≤◌, length};
ghost use Rattle.answers.specs.Numbers.{most_columns};
ghost use Rattle.octets.specs.Splice.{stored};
ghost use Rattle.table.specs.Table.{columns_octets, table_octets};
ghost use Rattle.begin.specs.Begin.{known_to, tags_at, columns_from, row_octets, head_octets, begin_at, begin_next};
ghost use Rattle.begin.specs.Begin.{no_writing, begin_outcome, begin_octets};

use answers::{MOST_COLUMNS, Verdict, refuse};
use octets::put_word;
use writing::{Outcome, Writing};

// The rows before the first whose type is not among the ten.
fn known(tags: &[u32]) -> usize
    ensures { (result ≡ known_to tags.now) × (result ≤ length tags.now) }
{
    for (i, tag) in tags.iter().enumerate() {
        if value::form_of(*tag) == value::UNKNOWN {
            return i;
        }
    }
    tags.len()
}

// The tags of a table whose rows count from `base`.
fn judge_tags(tags: &[u32], base: usize) -> Verdict
    requires { base ≤ most_columns }
    ensures { result ≡ tags_at base tags.now }
{
    if MOST_COLUMNS < tags.len() {
        return refuse(answers::MANY_COLUMNS, base + MOST_COLUMNS);
    }
    let k = known(tags);
    if let Some(i) = table::first_repeat(&tags[0..k]) {
        return refuse(answers::REPEATED_TAG, base + i);
    }
    if k < tags.len() {
        return refuse(answers::UNKNOWN_TYPE, base + k);
    }
    Ok(())
}

// Both tables, and room for what begin writes in n octets.
pub fn judge_begin(htags: &[u32], hflags: &[u32], tags: &[u32], flags: &[u32], n: usize) -> Verdict
    ensures { result ≡ begin_at htags.now hflags.now tags.now flags.now n }
{
    if htags.len() != hflags.len() {
        return refuse(answers::OUT_OF_TURN, 0);
    }
    if tags.len() != flags.len() {
        return refuse(answers::OUT_OF_TURN, 0);
    }
    judge_tags(htags, 0)?;
    judge_tags(tags, MOST_COLUMNS)?;
    if n < 24 + 8 * (htags.len() + tags.len()) {
        return refuse(answers::NO_ROOM, 0);
    }
    Ok(())
}

// Version, serial 0, count 0 and the size of the metadata.
fn put_head(buf: &mut [u8], size: u64)
    requires { 16 ≤ length buf.old }
    ensures { buf.new ≡ stored buf.old 0 (head_octets size) }
{
    put_word(buf, 0, 4, 32);
    put_word(buf, 4, 4, 0);
    put_word(buf, 8, 4, 0);
    put_word(buf, 12, 4, size);
}

// A row, its 30 unused flag bits zero.
fn put_row(buf: &mut [u8], at: usize, tag: u32, flags: u32)
    requires { at + 8 ≤ length buf.old }
    ensures { buf.new ≡ stored buf.old at (row_octets tag flags) }
{
    put_word(buf, at, 4, tag as u64);
    put_word(buf, at + 4, 4, (flags & 3) as u64);
}

fn put_columns(buf: &mut [u8], at: usize, tags: &[u32], flags: &[u32])
    requires { (length tags.now ≡ length flags.now) × (length tags.now ≤ most_columns)
        × (at + 8 * length tags.now ≤ length buf.old) }
    ensures { buf.new ≡ stored buf.old at (columns_octets (columns_from tags.now flags.now)) }
{
    for (i, tag) in tags.iter().enumerate() {
        put_row(buf, at + 8 * i, *tag, flags[i]);
    }
}

fn put_table(buf: &mut [u8], at: usize, tags: &[u32], flags: &[u32])
    requires { (length tags.now ≡ length flags.now) × (length tags.now ≤ most_columns)
        × (at + 4 + 8 * length tags.now ≤ length buf.old) }
    ensures { buf.new ≡ stored buf.old at (table_octets (columns_from tags.now flags.now)) }
{
    put_word(buf, at, 4, tags.len() as u64);
    put_columns(buf, at + 4, tags, flags);
}

// The state before the first begin: no other call takes it up.
pub fn no_writing() -> Writing
    ensures { result ≡ no_writing }
{
    Writing {
        written: 0,
        header: 0,
        address: 0,
        opened: 0,
        start: 0,
        next: 0,
        left: 0,
        form: 0,
        stage: writing::FINISHED,
    }
}

fn begun(header: usize, address: usize) -> Writing
    requires { (header ≤ most_columns) × (address ≤ most_columns) }
    ensures { result ≡ begin_next header address }
{
    Writing {
        written: 24 + 8 * (header + address),
        header,
        address,
        opened: 0,
        start: 0,
        next: 0,
        left: 0,
        form: 0,
        stage: writing::IN_PROGRESS,
    }
}

// `st` is not asked for its turn: it is a writing in progress that a refused begin leaves as it is.
pub fn begin(
    st: Writing,
    htags: &[u32],
    hflags: &[u32],
    tags: &[u32],
    flags: &[u32],
    buf: &mut [u8],
) -> Outcome
    ensures { (result ≡ begin_outcome st htags.now hflags.now tags.now flags.now buf.old)
        × (buf.new ≡ begin_octets htags.now hflags.now tags.now flags.now buf.old) }
{
    let v = judge_begin(htags, hflags, tags, flags, buf.len());
    let Ok(()) = v else {
        return writing::settle(v, st, st);
    };
    let h = htags.len();
    let a = tags.len();
    put_head(buf, (12 + 8 * (h + a)) as u64);
    put_table(buf, 16, htags, hflags);
    put_table(buf, 20 + 8 * h, tags, flags);
    let next = begun(h, a);
    writing::settle(v, st, next)
}
