// Answers each case of a stream by looking a value up, or by saying why there is none: a line for each.
// A case is a length of four octets and as many octets, of which the first says what follows: 0 a new book; 1 a record
// and a tag, four octets each, to be looked up in the last book; 2 the same, to be told why there is no value. The
// record FFFFFFFF is the header record.
#![tactic(auto)]

use answers::Answer;
use lines::{Found, Kept, Lines, MOST_CASES, Refused, fill};
use lookup::Which;
use octets::word32;
use reason::Reason;
use std::fmt;
use std::fmt::Write;

// ---- lines

fn value(out: &mut Lines, book: &[u8], which: Which, tag: u32) -> fmt::Result {
    let answer = lookup::lookup(book, which, tag);
    let octets = if matches!(answer, Ok(Some(_))) {
        lookup::stretch(book, which, tag)
    } else {
        &[]
    };
    write!(out, "{}", Found(answer, octets))
}

fn why(out: &mut Lines, answer: Answer<Reason>) -> fmt::Result {
    match answer {
        Ok(Reason::OtherType(other, row)) => write!(out, "other-type {other} {row}"),
        Ok(Reason::NoColumn) => write!(out, "no-column"),
        Ok(Reason::Listed(octet)) => write!(out, "listed {octet}"),
        Ok(Reason::NotListed(octet)) => write!(out, "not-listed {octet}"),
        Err(r) => write!(out, "{}", Refused(r)),
    }
}

// ---- the stream

fn which(n: u32) -> Which {
    if n == u32::MAX {
        return Which::Header;
    }
    Which::Number(n as usize)
}

fn read_question() -> Option<(Which, u32)> {
    let mut octets = [0; 8];
    if !fill(&mut octets) {
        return None;
    }
    Some((which(word32(&octets, 0)), word32(&octets, 4)))
}

// A case of n octets, of which the first, `what`, is read.
fn answer(out: &mut Lines, n: usize, what: u8, book: &mut Kept) -> fmt::Result {
    if n < 1 {
        return Ok(());
    }
    if what == 0 {
        book.read(n - 1);
        return write!(out, "book");
    }
    match read_question() {
        Some((record, tag)) if what == 2 => why(out, reason::why(book.octets(), record, tag)),
        Some((record, tag)) => value(out, book.octets(), record, tag),
        None => Ok(()),
    }
}

fn main() {
    let mut out = Lines::new();
    let mut book = Kept::new();
    for _ in 0..MOST_CASES {
        let mut head = [0; 5];
        if !fill(&mut head) {
            break;
        }
        // Lines take every text.
        let _ = answer(&mut out, word32(&head, 0) as usize, head[4], &mut book);
        let _ = writeln!(out);
    }
    out.flush();
}
