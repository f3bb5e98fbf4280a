// What a case lends: the octets behind its front, octets that stay for the cases after it, and words.
ghost use Rattle.std.specs.Prelude.{◌≡◌, ℕ, ◌≤◌, List, [], take, drop, length, nat_le, if◌then◌else◌};

use crate::fill;
use octets::word32;
use std::marker::Model;

// The octets of a case behind its first k; none where it has fewer.
pub fn behind(case: &[u8], k: usize) -> &[u8]
    ensures { result.now ≡ drop k case.now }
{
    case.get(k..).unwrap_or_default()
}

// No book is longer.
const MOST_KEPT: usize = 65536;

// Octets that stay until others are kept: the first `len`.
#[derive(Drop)]
pub struct Kept {
    octets: [u8; MOST_KEPT],
    len: usize,
}

impl Model for Kept {
    ghost Value = { List ℕ };

    ghost view = { λ k. take k.len k.octets };

    ghost invariant = { λ k. k.len ≤ 65536 };
}

impl Kept {
    pub fn new() -> Kept
        ensures { result ≡ [] }
    {
        Kept {
            octets: [0; MOST_KEPT],
            len: 0,
        }
    }

    pub fn octets(&self) -> &[u8]
        ensures { result.now ≡ self.now }
    {
        &self.octets[..self.len]
    }

    // None where there are too many.
    pub fn keep(&mut self, octets: &[u8])
        ensures { self.new ≡ (if nat_le (length octets.now) 65536 then octets.now else []) }
    {
        self.len = 0;
        if octets.len() <= MOST_KEPT {
            self.octets[..octets.len()].copy_from_slice(octets);
            self.len = octets.len();
        }
    }

    // Keeps the next n octets of standard input; none where they can't be read.
    pub fn read(&mut self, n: usize)
        ensures { length self.new ≤ n }
    {
        self.len = 0;
        if let Some(kept) = self.octets.get_mut(..n) {
            if fill(kept) {
                self.len = n;
            }
        }
    }
}

// No table has more tags or flags.
const MOST_WORDS: usize = 256;

// Tags or flags: the first `len`.
#[derive(Drop)]
pub struct Words {
    words: [u32; MOST_WORDS],
    len: usize,
}

impl Model for Words {
    ghost Value = { List ℕ };

    ghost view = { λ w. take w.len w.words };

    ghost invariant = { λ w. w.len ≤ 256 };
}

impl Words {
    // The first n words of four octets each; octets that aren't there are 0. None where n is too many.
    pub fn of(octets: &[u8], n: usize) -> Words
        ensures { length result ≡ (if nat_le n 256 then n else 0) }
    {
        let mut words = [0; MOST_WORDS];
        for (word, octets) in words.iter_mut().zip(octets.chunks(4)).take(n) {
            *word = word32(octets, 0);
        }
        let len = if n <= MOST_WORDS { n } else { 0 };
        Words { words, len }
    }

    pub fn words(&self) -> &[u32]
        ensures { result.now ≡ self.now }
    {
        &self.words[..self.len]
    }
}
