// Octets in a lent buffer: read one by one or as little-endian words of any width, stored, moved, cleared and copied.
// Every call is total: an octet that isn't there reads as 0, and what doesn't fit changes nothing.
#![tactic(auto)]

mod moves;
mod words;

ghost use Rattle.std.specs.Prelude.{◌≡◌, ◌<◌};
ghost use Rattle.octets.specs.Octets.{octet_at};

pub use moves::{clear, copy, move_part};
pub use words::{put_word, word, word32};

// The octet at `i`, 0 past the end.
pub fn octet(s: &[u8], i: usize) -> u32
    ensures { (result ≡ octet_at s.now i) × (result < 256) }
{
    if i < s.len() { u32::from(s[i]) } else { 0 }
}
