// A table of columns (2.9.3, 2.9.4): its rows are read into arrays by value, row by row, up to the first that is refused
// by itself; then the rows that were read are searched for a repeated tag, whose refusal comes first where there is one.
#![tactic(auto)]

mod repeat;

ghost use Rattle.std.specs.Prelude.{◌≡◌, ◌+◌, ◌*◌, ◌^◌, ◌≤◌, ◌<◌, length, take, drop};
ghost use Rattle.answers.specs.Numbers.{most_columns};
ghost use Rattle.table.specs.Table.{row_at};
ghost use Rattle.table.specs.Columns.{no_columns, filled_to, settled, table_in};

use answers::{Answer, MOST_COLUMNS, Verdict, refuse};
use octets::word32;
pub use repeat::first_repeat;

// For each column its tag, its two flag bits and the form of its values; zeros behind the last. Arrays side by side and
// no array of columns: document 01 asks for tags and flags that start as `[0; 128]`, and C is handed each as it is.
#[derive(Clone, Copy)]
pub struct Columns {
    pub count: usize,
    pub tags: [u32; MOST_COLUMNS],
    pub flags: [u32; MOST_COLUMNS],
    pub forms: [u8; MOST_COLUMNS],
}

impl Columns {
    // The tags, as many as there are columns; all of them where the count says more.
    pub fn tags(&self) -> &[u32]
        ensures { result.now ≡ take self.now.count self.now.tags }
    {
        &self.tags[..self.count.min(MOST_COLUMNS)]
    }

    // The flags of each column.
    pub fn flags(&self) -> &[u32]
        ensures { result.now ≡ take self.now.count self.now.flags }
    {
        &self.flags[..self.count.min(MOST_COLUMNS)]
    }

    // The form of each column's values.
    pub fn forms(&self) -> &[u8]
        ensures { result.now ≡ take self.now.count self.now.forms }
    {
        &self.forms[..self.count.min(MOST_COLUMNS)]
    }
}

// What was read row by row: the columns up to the first row that is refused by itself, and the verdict on that row.
// A repeat among those columns is refused first.
#[derive(Clone, Copy)]
struct Rows {
    verdict: Verdict,
    columns: Columns,
}

pub fn no_columns() -> Columns
    ensures { result ≡ no_columns }
{
    Columns {
        count: 0,
        tags: [0; MOST_COLUMNS],
        flags: [0; MOST_COLUMNS],
        forms: [0; MOST_COLUMNS],
    }
}

// The row at `at` by itself.
fn judge_row(book: &[u8], at: usize) -> Verdict
    requires { at ≤ length book.now }
    ensures { result ≡ row_at at (drop at book.now) }
{
    let left = book.len() - at;
    if left < 4 {
        return refuse(answers::CUT_SHORT, at);
    }
    if left < 8 {
        return refuse(answers::CUT_SHORT, at + 4);
    }
    if value::form_of(word32(book, at)) == value::UNKNOWN {
        return refuse(answers::UNKNOWN_TYPE, at);
    }
    Ok(())
}

// The rows from `at` on, up to the first that is refused by itself.
fn fill(book: &[u8], at: usize, n: usize) -> Rows
    requires { (n ≤ most_columns) × (at ≤ length book.now) }
    ensures { (result ≡ filled_to n at (drop at book.now)) × (result.columns.count ≤ n)
        × (at + 8 * result.columns.count ≤ length book.now) }
{
    let mut columns = no_columns();
    for i in 0..n {
        let p = at + 8 * i;
        let verdict = judge_row(book, p);
        let Ok(()) = verdict else {
            return Rows { verdict, columns };
        };
        let tag = word32(book, p);
        columns.tags[i] = tag;
        columns.flags[i] = word32(book, p + 4) & 3;
        columns.forms[i] = value::form_of(tag);
        columns.count = i + 1;
    }
    Rows {
        verdict: Ok(()),
        columns,
    }
}

// The rows that were read from `at` on, once their tags are searched for a repeat.
fn settle(rows: Rows, at: usize) -> Answer<Columns>
    requires { at + 8 * rows.columns.count < 2 ^ 64 }
    ensures { result ≡ settled at rows }
{
    if let Some(i) = first_repeat(rows.columns.tags()) {
        return refuse(answers::REPEATED_TAG, at + 8 * i);
    }
    rows.verdict?;
    Ok(rows.columns)
}

// The table whose count stands at `at`.
pub fn read_table(book: &[u8], at: usize) -> Answer<Columns>
    ensures { result ≡ table_in at (drop at book.now) }
{
    if book.len() < at {
        return refuse(answers::CUT_SHORT, at);
    }
    if book.len() - at < 4 {
        return refuse(answers::CUT_SHORT, at);
    }
    let n = word32(book, at) as usize;
    if MOST_COLUMNS < n {
        return refuse(answers::MANY_COLUMNS, at);
    }
    settle(fill(book, at + 4, n), at + 4)
}
