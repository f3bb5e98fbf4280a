// Answers each case of a stream with a saved index: a line for each. The first octet of a case says what it is: 0 a new
// book, 1 new octets that are lent as an index, 2 the book's index made, 3 an entry, 4 a value looked up through the
// octets that are lent. tests/make.py has the lines' form.
#![tactic(auto)]

use lines::{Answered, Answering, Found, Kept, Lines, behind};
use lookup::Looked;
use octets::word32;
use std::fmt;
use std::fmt::Write;

// No index is made in more octets.
const MOST_ROOM: usize = 65536;

// The octets of a value; none where it doesn't lie in the book.
fn stretch(book: &[u8], answer: Looked) -> &[u8] {
    let Ok(found) = answer else {
        return &[];
    };
    match found {
        Some((start, end)) => book.get(start..end).unwrap_or_default(),
        None => &[],
    }
}

// The book's index, made in as many octets A5 as the case says; and the serial of all of them.
fn make(out: &mut Lines, book: &[u8], room: usize) -> fmt::Result {
    let mut octets = [0xA5; MOST_ROOM];
    let Some(index) = octets.get_mut(..room) else {
        return Ok(());
    };
    let answer = index::make_index(book, index);
    write!(
        out,
        "{} {}",
        Answered("made", answer),
        serial::serial_of(index)
    )
}

// What the cases so far have lent, and the first octet of the last one that had any.
#[derive(Drop)]
struct Lent {
    book: Kept,
    index: Kept,
    what: u8,
}

impl Lent {
    fn ask(&self, out: &mut Lines, case: &[u8]) -> fmt::Result {
        let book = self.book.octets();
        let index = self.index.octets();
        let n = word32(case, 1) as usize;
        match case.first() {
            Some(2) => make(out, book, n),
            Some(3) => write!(out, "{}", Answered("at", index::entry_at(book, index, n))),
            _ => {
                let answer = index::lookup_indexed(book, index, n, word32(case, 5));
                write!(out, "{}", Found(answer, stretch(book, answer)))
            }
        }
    }
}

impl Answering for Lent {
    // An empty case behind one that lent something lends nothing in its place.
    fn answer(&mut self, out: &mut Lines, case: &mut [u8]) -> fmt::Result {
        self.what = case.first().copied().unwrap_or(self.what);
        match self.what {
            0 => {
                self.book.keep(behind(case, 1));
                writeln!(out, "book")
            }
            1 => {
                self.index.keep(behind(case, 1));
                writeln!(out, "index")
            }
            _ => {
                self.ask(out, case)?;
                writeln!(out)
            }
        }
    }
}

fn main() {
    let mut lent = Lent {
        book: Kept::new(),
        index: Kept::new(),
        what: 0,
    };
    lines::answer_cases(&mut lent);
}
