// Answers each case of a stream with the sheet of a book or the book of a sheet: a line for each. The first octet of a
// case says what it is: 0 a new book, 1 tags of which the sheet's length is asked, 2 a room and tags, and the sheet is
// written there, 3 a room, column flags, a header table and record and a text, and the book is written there.
// tests/make.py has the lines' form.
#![tactic(auto)]

ghost use Rattle.std.specs.Prelude.{◌≤◌};

use lines::{Answered, Answering, Hex, Kept, Lines, Words, behind};
use octets::word32;
use std::fmt;
use std::fmt::Write;

// Nothing is written in more octets.
const MOST_ROOM: usize = 65536;

// No case has more tags or flags.
const MOST_WORDS: usize = 192;

// ---- what is asked

// None where there are more than a case has.
fn within(n: usize) -> usize
    ensures { result ≤ 192 }
{
    if n <= MOST_WORDS { n } else { 0 }
}

// The tags that a case has behind its first k octets.
fn tags(case: &[u8], k: usize) -> Words {
    let octets = behind(case, k);
    Words::of(octets, within(octets.len() / 4))
}

fn length_of(out: &mut Lines, book: &[u8], case: &[u8]) -> fmt::Result {
    let answer = exporting::sheet_length(book, tags(case, 1).words());
    write!(out, "{}", Answered("made", answer))
}

// The sheet, written in as many octets A5 as the case says; and all of them.
fn sheet_of(out: &mut Lines, book: &[u8], case: &[u8]) -> fmt::Result {
    let mut octets = [0xA5; MOST_ROOM];
    let Some(room) = octets.get_mut(..word32(case, 1) as usize) else {
        return Ok(());
    };
    let answer = exporting::export(book, tags(case, 5).words(), room);
    write!(out, "{} {}", Answered("made", answer), Hex(room))
}

// ---- a book from a sheet

// The tags and flags of the header table, the flags of the columns, the header record and the text.
#[derive(Drop)]
struct Parts<'a> {
    htags: Words,
    hflags: Words,
    flags: Words,
    offered: &'a [u8],
    text: &'a [u8],
}

// Takes n tags or flags of four octets each off the front; none where the octets are too few.
fn words(octets: &mut &[u8], n: u32) -> Option<Words> {
    let n = within(n as usize);
    let (front, rest) = octets.split_at_checked(4 * n)?;
    *octets = rest;
    Some(Words::of(front, n))
}

// Where the case is too short for its counts there are no parts.
fn parts_of(case: &[u8]) -> Option<Parts<'_>> {
    let mut rest = case.get(21..)?;
    let htags = words(&mut rest, word32(case, 5))?;
    let hflags = words(&mut rest, word32(case, 9))?;
    let flags = words(&mut rest, word32(case, 13))?;
    let (offered, text) = rest.split_at_checked((word32(case, 17) % 65536) as usize)?;
    Some(Parts {
        htags,
        hflags,
        flags,
        offered,
        text,
    })
}

// The book, written in as many octets A5 as the case says; and all of them.
fn book_of(out: &mut Lines, case: &[u8]) -> fmt::Result {
    let mut octets = [0xA5; MOST_ROOM];
    let Some(room) = octets.get_mut(..word32(case, 1) as usize) else {
        return Ok(());
    };
    let Some(parts) = parts_of(case) else {
        return Ok(());
    };
    let answer = importing::from_sheet(
        parts.text,
        parts.flags.words(),
        parts.htags.words(),
        parts.hflags.words(),
        parts.offered,
        room,
    );
    write!(out, "{} {}", Answered("made", answer), Hex(room))
}

// ---- the stream

// The last book, and the first octet of the last case that had any.
#[derive(Drop)]
struct Play {
    book: Kept,
    what: u8,
}

impl Answering for Play {
    // An empty case asks the same as the one before it, with nothing behind.
    fn answer(&mut self, out: &mut Lines, case: &mut [u8]) -> fmt::Result {
        self.what = case.first().copied().unwrap_or(self.what);
        match self.what {
            0 => {
                self.book.keep(behind(case, 1));
                write!(out, "book")?;
            }
            1 => length_of(out, self.book.octets(), case)?,
            2 => sheet_of(out, self.book.octets(), case)?,
            _ => book_of(out, case)?,
        }
        writeln!(out)
    }
}

fn main() {
    let mut play = Play {
        book: Kept::new(),
        what: 0,
    };
    lines::answer_cases(&mut play);
}
