// Presence bits (2.9.5): column i is the bit 80 >> (i mod 8) of the octet i / 8, so column 0 is the top bit of the
// first octet.
#![tactic(auto)]

ghost use Rattle.std.specs.Prelude.{◌≡◌, ◌^◌, ◌<◌, ◌≤◌};
ghost use Rattle.std.specs.Int.Count.{ones};
ghost use Rattle.std.specs.List.{sum_by};
ghost use Rattle.presence.specs.Presence.{room, bit_at, is_set, set_bit, clear_bit, spare_clear, ones_in};

use octets::octet;

// The presence octets of `n` columns.
pub fn octets_for(n: usize) -> usize
    ensures { result ≡ room n }
{
    n.div_ceil(8)
}

// Column i as 0 or 1; 0 past the end.
fn bit(s: &[u8], i: usize) -> u8
    ensures { result ≡ bit_at s.now i }
{
    let at = i / 8;
    if at < s.len() {
        s[at] >> (7 - i % 8) & 1
    } else {
        0
    }
}

// Whether column i has a value.
pub fn has(s: &[u8], i: usize) -> bool
    ensures { result ≡ is_set s.now i }
{
    bit(s, i) == 1
}

// Column i gets its bit; past the end nothing changes.
pub fn set_bit(s: &mut [u8], i: usize)
    ensures { s.new ≡ set_bit s.old i }
{
    let at = i / 8;
    if at < s.len() {
        s[at] = s[at] | 0x80 >> i % 8;
    }
}

// Column i loses its bit; past the end nothing changes.
pub fn clear_bit(s: &mut [u8], i: usize)
    ensures { s.new ≡ clear_bit s.old i }
{
    let at = i / 8;
    if at < s.len() {
        s[at] = s[at] ^ (s[at] & 0x80 >> i % 8);
    }
}

// Whether the bits behind column n - 1 in its octet are 0.
pub fn spare_clear(s: &[u8], n: usize) -> bool
    ensures { result ≡ spare_clear s.now n }
{
    let k = n % 8;
    let at = n / 8;
    if k != 0 && at < s.len() {
        s[at] & 0xff >> k == 0
    } else {
        true
    }
}

// The ones of whole octets.
fn ones(s: &[u8]) -> usize
    requires { sum_by ones s.now < 2 ^ 64 }
    ensures { result ≡ sum_by ones s.now }
{
    s.iter().map(|b| b.count_ones() as usize).sum()
}

// How many of the first n columns have a value: the ones of the whole octets, and of the last one's n % 8 highest bits.
pub fn count(s: &[u8], n: usize) -> usize
    ensures { (result ≡ ones_in s.now n) × (result ≤ n) }
{
    let whole = n / 8;
    let last = octet(s, whole) as u8 & !(0xff >> n % 8);
    ones(&s[..whole.min(s.len())]) + last.count_ones() as usize
}
