// Lists a book that is read from standard input: a line for the book, one for its header record and one for each
// address record; or its refusal.
#![tactic(auto)]

use answers::{NO_ROOM, Refusal};
use lines::{Lines, Refused};
use octets::word32;
use std::fmt;
use std::fmt::Write;

const MOST_LISTED: usize = 65536;

// One octet more than a listed book may have, so that a longer one is seen.
const ROOM: usize = MOST_LISTED + 1;

fn refused(out: &mut Lines, r: Refusal) -> fmt::Result {
    writeln!(out, "{}", Refused(r))
}

// How many of its n columns have a value in the record at `at`.
fn present(book: &[u8], at: usize, n: usize) -> usize {
    book.get(at..)
        .and_then(|record| record.get(4..))
        .map_or(0, |part| presence::count(part, n))
}

// A record's place, its size and the number of its values.
#[derive(Clone, Copy)]
struct Measures {
    at: usize,
    size: u32,
    values: usize,
}

impl Measures {
    // Of the record at `at`, which has n columns.
    fn of(book: &[u8], at: usize, n: usize) -> Measures {
        Measures {
            at,
            size: word32(book, at),
            values: present(book, at, n),
        }
    }
}

impl fmt::Display for Measures {
    fn fmt<W: fmt::Write>(&self, f: &mut fmt::Formatter<W>) -> fmt::Result {
        write!(f, "{} {} {}", self.at, self.size, self.values)
    }
}

// Where the record behind the one at `at` stands.
fn behind(book: &[u8], at: usize) -> usize {
    let size = word32(book, at) as usize;
    match at.checked_add(size) {
        Some(end) if end <= book.len() => end,
        _ => at,
    }
}

// `count` address records of n columns from `first` on.
fn records(out: &mut Lines, book: &[u8], first: usize, count: usize, n: usize) -> fmt::Result {
    let mut at = first;
    for k in 0..count {
        writeln!(out, "record {k} {}", Measures::of(book, at, n))?;
        at = behind(book, at);
    }
    Ok(())
}

fn list(out: &mut Lines, book: &[u8]) -> fmt::Result {
    match book::judge(book) {
        Ok(j) => {
            let h = j.header.count;
            let a = j.address.count;
            writeln!(out, "book {} {h} {a} {}", j.length, j.count)?;
            writeln!(out, "header {}", Measures::of(book, j.head, h))?;
            records(out, book, j.first, j.count, a)
        }
        Err(r) => refused(out, r),
    }
}

fn answer(out: &mut Lines, book: &[u8]) -> fmt::Result {
    if MOST_LISTED < book.len() {
        return refused(
            out,
            Refusal {
                number: NO_ROOM,
                place: 0,
            },
        );
    }
    list(out, book)
}

fn main() {
    let mut room = [0; ROOM];
    let mut out = Lines::new();
    // The book ends where the input does, or where it can't be read.
    let n = io::read_full(0, &mut room);
    // Lines take every text.
    let _ = answer(&mut out, &room[..n]);
    out.flush();
}
