// Plays the ten calls of a writing from a stream: a line for each, with what the call answers and the serial of the
// whole buffer behind it. The first octet of a case says which call it is. tests/make.py has the list and the lines'
// form.
#![tactic(auto)]

use lines::{Answered, Answering, Lines, Words, behind};
use octets::{octet, word32};
use std::fmt;
use std::fmt::Write;
use writing::{Outcome, Writing};

// No buffer is longer.
const MOST_ROOM: usize = 65536;

// ---- the calls

// Takes n tags or flags of four octets each off the front; octets that aren't there are 0.
fn numbers(octets: &mut &[u8], n: u8) -> Words {
    let n = n as usize;
    let found = Words::of(*octets, n);
    *octets = behind(*octets, 4 * n);
    found
}

// The case has the counts of tags and flags of both tables, then these, the header table's first.
fn begin(st: Writing, case: &[u8], buf: &mut [u8]) -> Outcome {
    let count = |i: usize| case.get(i).copied().unwrap_or(0);
    let mut octets = behind(case, 5);
    let htags = numbers(&mut octets, count(1));
    let hflags = numbers(&mut octets, count(2));
    let tags = numbers(&mut octets, count(3));
    let flags = numbers(&mut octets, count(4));
    begin::begin(
        st,
        htags.words(),
        hflags.words(),
        tags.words(),
        flags.words(),
        buf,
    )
}

fn call(what: u32, st: Writing, case: &[u8], buf: &mut [u8]) -> Outcome {
    let n = word32(case, 1);
    match what {
        1 => begin(st, case, buf),
        2 => framing::open(st, buf),
        3 => giving::give_number(st, buf, n, word32(case, 5)),
        4 => giving::give_truth(st, buf, n, octet(case, 5) == 1),
        5 => giving::give_octets(st, buf, n, behind(case, 5)),
        6 => giving::give_list(st, buf, n, word32(case, 5)),
        7 => giving::add_number(st, buf, n),
        8 => giving::add_octets(st, buf, behind(case, 1)),
        9 => framing::close(st, buf),
        _ => framing::finish(st, buf),
    }
}

// ---- the stream

// The buffer is the first `size` octets: those behind it stay, for a buffer that grows again. The front is that of the
// last case, and what a short case lacks there is left from the cases before it.
#[derive(Drop)]
struct Play {
    octets: [u8; MOST_ROOM],
    size: usize,
    state: Writing,
    front: [u8; 5],
}

impl Play {
    // A case of kind 0 or 12 says another length of the buffer.
    fn resize(&mut self, case: &[u8]) {
        for (to, from) in self.front.iter_mut().zip(case) {
            *to = *from;
        }
        if matches!(self.front[0], 0 | 12) {
            self.size = (word32(&self.front, 1) % 65536) as usize;
        }
    }
}

impl Answering for Play {
    // A line for a case, on the whole buffer and the state that the last case left.
    fn answer(&mut self, out: &mut Lines, case: &mut [u8]) -> fmt::Result {
        self.resize(case);
        let Some(buf) = self.octets.get_mut(..self.size) else {
            return Ok(());
        };
        match octet(case, 0) {
            // A new buffer, or another one that has the written octets of the state in front.
            0 => {
                self.state = begin::no_writing();
                buf.fill(0xA5);
                write!(out, "buffer {}", buf.len())?;
            }
            12 => {
                if let Some(rest) = buf.get_mut(self.state.written..) {
                    rest.fill(0x5A);
                }
                write!(out, "buffer {}", buf.len())?;
            }
            // The state with another written length.
            11 => {
                let length = word32(case, 1);
                self.state.written = length as usize;
                write!(out, "length {length}")?;
            }
            what => {
                let outcome = call(what, self.state, case, buf);
                self.state = outcome.state;
                write!(out, "{}", Answered("done", outcome.answer))?;
            }
        }
        writeln!(out, " {}", serial::serial_of(buf))
    }
}

fn main() {
    let mut play = Play {
        octets: [0; MOST_ROOM],
        size: 0,
        state: begin::no_writing(),
        front: [0; 5],
    };
    lines::answer_cases(&mut play);
}
