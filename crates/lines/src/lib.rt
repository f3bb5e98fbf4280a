// What a program that runs stored cases reads and prints. A case on standard input is a length in four octets, least
// first, and as many octets.
#![tactic(auto)]

mod kept;

ghost use Rattle.std.specs.Prelude.{◌≡◌, ◌/◌, ◌%◌, ◌<◌, ◌≤◌, [], ◌∷◌, true, length, IfSome, Some};
ghost use Rattle.std.specs.Fmt.{digit_glyph};
ghost use Rattle.lines.specs.Pairs.{pairs_from};
ghost use Rattle.lines.specs.Text.{hex_text, refused_text, answered_text, found_text};

use answers::{Answer, Refusal};
pub use kept::{Kept, Words, behind};
use std::fmt;
use std::fmt::Write;

// ---- what is printed

const ROOM: usize = 4096;

// Text on its way to standard output: the first `len` octets are still to be written.
#[derive(Drop)]
pub struct Lines {
    octets: [u8; ROOM],
    len: usize,
    ghost within: { len ≤ 4096 },
}

impl Lines {
    pub fn new() -> Lines
        ensures { result.len ≡ 0 }
    {
        Lines {
            octets: [0; ROOM],
            len: 0,
        }
    }

    // Writes them. What standard output doesn't take is lost. A call of its own, so that the turns that only put an octet
    // stay short.
    #[inline(never)]
    pub fn flush(&mut self)
        ensures { self.new.len ≡ 0 }
    {
        io::write_all(1, &self.octets[..self.len]);
        self.len = 0;
    }

    // Makes room for an octet: where there is none, all are written.
    fn make_room(&mut self)
        ensures { self.new.len < 4096 }
    {
        if ROOM <= self.len {
            self.flush();
        }
    }

    fn put(&mut self, octet: u8) {
        self.make_room();
        self.octets[self.len] = octet;
        self.len += 1;
    }
}

impl fmt::Write for Lines {
    fn write_str(&mut self, s: &str) -> fmt::Result {
        for octet in s.as_bytes() {
            self.put(*octet);
        }
        Ok(())
    }
}

const PAIRS: [&str; 256] = [
    "00", "01", "02", "03", "04", "05", "06", "07", "08", "09", "0A", "0B", "0C", "0D", "0E", "0F",
    "10", "11", "12", "13", "14", "15", "16", "17", "18", "19", "1A", "1B", "1C", "1D", "1E", "1F",
    "20", "21", "22", "23", "24", "25", "26", "27", "28", "29", "2A", "2B", "2C", "2D", "2E", "2F",
    "30", "31", "32", "33", "34", "35", "36", "37", "38", "39", "3A", "3B", "3C", "3D", "3E", "3F",
    "40", "41", "42", "43", "44", "45", "46", "47", "48", "49", "4A", "4B", "4C", "4D", "4E", "4F",
    "50", "51", "52", "53", "54", "55", "56", "57", "58", "59", "5A", "5B", "5C", "5D", "5E", "5F",
    "60", "61", "62", "63", "64", "65", "66", "67", "68", "69", "6A", "6B", "6C", "6D", "6E", "6F",
    "70", "71", "72", "73", "74", "75", "76", "77", "78", "79", "7A", "7B", "7C", "7D", "7E", "7F",
    "80", "81", "82", "83", "84", "85", "86", "87", "88", "89", "8A", "8B", "8C", "8D", "8E", "8F",
    "90", "91", "92", "93", "94", "95", "96", "97", "98", "99", "9A", "9B", "9C", "9D", "9E", "9F",
    "A0", "A1", "A2", "A3", "A4", "A5", "A6", "A7", "A8", "A9", "AA", "AB", "AC", "AD", "AE", "AF",
    "B0", "B1", "B2", "B3", "B4", "B5", "B6", "B7", "B8", "B9", "BA", "BB", "BC", "BD", "BE", "BF",
    "C0", "C1", "C2", "C3", "C4", "C5", "C6", "C7", "C8", "C9", "CA", "CB", "CC", "CD", "CE", "CF",
    "D0", "D1", "D2", "D3", "D4", "D5", "D6", "D7", "D8", "D9", "DA", "DB", "DC", "DD", "DE", "DF",
    "E0", "E1", "E2", "E3", "E4", "E5", "E6", "E7", "E8", "E9", "EA", "EB", "EC", "ED", "EE", "EF",
    "F0", "F1", "F2", "F3", "F4", "F5", "F6", "F7", "F8", "F9", "FA", "FB", "FC", "FD", "FE", "FF",
];

// The two digits of an octet, out of a table that has those of each.
fn pair(pairs: &[&'static str; 256], octet: u8) -> &'static str
    requires { pairs_from pairs.now 0 ≡ true }
    ensures { result.now ≡ digit_glyph true (octet / 16) ∷ digit_glyph true (octet % 16) ∷ [] }
{
    pairs[usize::from(octet)]
}

// Prints octets: two digits each, `-` for none. No `{:02X}` for each: that takes four times as long.
#[derive(Clone, Copy)]
pub struct Hex<'a>(pub &'a [u8]);

impl fmt::Display for Hex<'_> {
    ghost output = { λ h. Some (hex_text h.0.now) };

    fn fmt<W: fmt::Write>(&self, f: &mut fmt::Formatter<W>) -> fmt::Result {
        if self.0.is_empty() {
            return f.write_str("-");
        }
        for octet in self.0 {
            f.write_str(pair(&PAIRS, *octet))?;
        }
        Ok(())
    }
}

// Prints a refusal: its number and its place.
#[derive(Clone, Copy)]
pub struct Refused(pub Refusal);

impl fmt::Display for Refused {
    ghost output = { λ r. Some (refused_text r.0) };

    fn fmt<W: fmt::Write>(&self, f: &mut fmt::Formatter<W>) -> fmt::Result {
        write!(f, "refused {} {}", self.0.number, self.0.place)
    }
}

// Prints a word and the number that a call answers, or its refusal.
#[derive(Clone, Copy)]
pub struct Answered<'a>(pub &'a str, pub Answer<usize>);

impl fmt::Display for Answered<'_> {
    ghost output = { λ a. Some (answered_text a.0.now a.1) };

    fn fmt<W: fmt::Write>(&self, f: &mut fmt::Formatter<W>) -> fmt::Result {
        match self.1 {
            Ok(n) => write!(f, "{} {n}", self.0),
            Err(r) => write!(f, "{}", Refused(r)),
        }
    }
}

// Prints where a value stands, and its octets; that there is none; or the refusal.
#[derive(Clone, Copy)]
pub struct Found<'a>(pub Answer<Option<(usize, usize)>>, pub &'a [u8]);

impl fmt::Display for Found<'_> {
    ghost output = { λ a. Some (found_text a.0 a.1.now) };

    fn fmt<W: fmt::Write>(&self, f: &mut fmt::Formatter<W>) -> fmt::Result {
        match self.0 {
            Ok(Some((start, end))) => write!(f, "at {start} {end} {}", Hex(self.1)),
            Ok(None) => write!(f, "absent"),
            Err(r) => write!(f, "{}", Refused(r)),
        }
    }
}

// ---- what is read

// No case is longer.
const MOST_OCTETS: usize = 65535;

// A length at which there is no case.
pub const NO_CASE: usize = MOST_OCTETS + 1;

// No stream has more cases.
pub const MOST_CASES: usize = 100000;

// Whether standard input has as many octets as are asked for.
pub fn fill(octets: &mut [u8]) -> bool {
    io::read_full(0, octets) == octets.len()
}

// The cases of standard input, read into the same octets one after the other.
#[derive(Drop)]
struct Cases {
    octets: [u8; MOST_OCTETS],
}

impl Cases {
    fn new() -> Cases {
        Cases {
            octets: [0; MOST_OCTETS],
        }
    }

    // The next case; none where the input ends, is cut off or can't be read, and none that is too long for the octets.
    fn next_case(&mut self) -> Option<&mut [u8]>
        ensures { IfSome result (λ case. length case.now ≤ 65535) }
    {
        let mut head = [0; 4];
        if !fill(&mut head) {
            return None;
        }
        let case = self.octets.get_mut(..u32::from_le_bytes(head) as usize)?;
        if fill(case) { Some(case) } else { None }
    }
}

// A program that answers a case by printing its line. A trait and no closure: a call of a closure that was passed in has
// to be required, and no function that another crate calls requires anything.
pub trait Answering {
    fn answer(&mut self, out: &mut Lines, case: &mut [u8]) -> fmt::Result;
}

// Has each case of standard input answered.
pub fn answer_cases<A: Answering>(program: &mut A) {
    let mut cases = Cases::new();
    let mut out = Lines::new();
    for _ in 0..MOST_CASES {
        let Some(case) = cases.next_case() else {
            break;
        };
        // Lines take every text.
        let _ = program.answer(&mut out, case);
    }
    out.flush();
}
