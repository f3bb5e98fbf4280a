// Judges each book of a stream: a line for each, with what the judge answers. tests/make.py has the lines' form.
#![tactic(auto)]

use answers::Answer;
use book::Judgement;
use lines::{Answering, Lines, Refused};
use std::fmt;
use std::fmt::Write;
use table::Columns;

// The table's mark and its columns.
fn columns(out: &mut Lines, mark: char, c: &Columns) -> fmt::Result {
    write!(out, " {mark}")?;
    for (tag, flags) in c.tags.iter().zip(&c.flags).take(c.count) {
        write!(out, " {tag:08X}/{flags}")?;
    }
    Ok(())
}

fn judgement(out: &mut Lines, answer: &Answer<Judgement>) -> fmt::Result {
    match answer {
        Ok(j) => {
            write!(out, "good {} {} {} {}", j.length, j.count, j.head, j.first)?;
            columns(out, 'H', &j.header)?;
            columns(out, 'A', &j.address)?;
        }
        Err(r) => write!(out, "{}", Refused(*r))?,
    }
    writeln!(out)
}

#[derive(Clone, Copy)]
struct Judging;

impl Answering for Judging {
    fn answer(&mut self, out: &mut Lines, book: &mut [u8]) -> fmt::Result {
        judgement(out, &book::judge(book))
    }
}

fn main() {
    lines::answer_cases(&mut Judging);
}
