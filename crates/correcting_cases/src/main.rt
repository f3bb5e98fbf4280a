// Plays corrections from a stream: a line for each, with what the call answers and the serial of the whole buffer
// behind it. The first octet of a case says which call it is. tests/make.py has the list and the lines' form.
#![tactic(auto)]

use answers::Answer;
use lines::{Answered, Answering, Lines, behind};
use lookup::Which;
use octets::{octet, word32};
use std::fmt;
use std::fmt::Write;

// No buffer is longer.
const MOST_ROOM: usize = 65536;

// ---- the calls

fn which(n: u32) -> Which {
    if n == u32::MAX {
        return Which::Header;
    }
    Which::Number(n as usize)
}

fn call(what: u32, case: &[u8], buf: &mut [u8], stated: usize) -> Answer<usize> {
    let n = word32(case, 1);
    let tag = word32(case, 5);
    match what {
        1 => correcting::set(buf, stated, which(n), tag, behind(case, 9)),
        2 => correcting::clear(buf, stated, which(n), tag),
        3 => inserting::insert(buf, stated, n as usize, behind(case, 5)),
        _ => inserting::delete(buf, stated, n as usize),
    }
}

// ---- the stream

// The buffer is the first `size` octets; `stated` is the stated length of the book in it.
#[derive(Drop)]
struct Play {
    octets: [u8; MOST_ROOM],
    size: usize,
    stated: usize,
}

impl Play {
    // A new buffer: the octets of the book, then as many A5 as the case says.
    fn renew(&mut self, case: &[u8]) {
        let book = behind(case, 3);
        self.octets.fill(0xA5);
        octets::copy(&mut self.octets, 0, book);
        self.stated = book.len();
        self.size = book.len() + (word32(case, 1) % 65536) as usize;
    }
}

impl Answering for Play {
    // A new buffer, another stated length, or a call. There is no line where the buffer would be too long.
    fn answer(&mut self, out: &mut Lines, case: &mut [u8]) -> fmt::Result {
        let what = octet(case, 0);
        match what {
            0 => self.renew(case),
            5 => self.stated = word32(case, 1) as usize,
            _ => {}
        }
        let stated = self.stated;
        let Some(buf) = self.octets.get_mut(..self.size) else {
            return Ok(());
        };
        match what {
            0 => write!(out, "buffer {stated}")?,
            5 => write!(out, "length {stated}")?,
            _ => {
                let answer = call(what, case, buf, stated);
                self.stated = answer.unwrap_or(stated);
                write!(out, "{}", Answered("done", answer))?;
            }
        }
        writeln!(out, " {}", serial::serial_of(buf))
    }
}

fn main() {
    let mut play = Play {
        octets: [0; MOST_ROOM],
        size: 0,
        stated: 0,
    };
    lines::answer_cases(&mut play);
}
