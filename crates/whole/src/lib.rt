// Whole numbers (2.9.6.1): one octet up to 127, else a count of octets and those octets, the least first and the fewest that hold the number.
#![tactic(auto)]

ghost use Rattle.std.specs.Prelude.{◌≡◌, ◌^◌, ◌≤◌, ◌<◌, length};
ghost use Rattle.octets.specs.Splice.{stored};
ghost use Rattle.whole.specs.Number.{fewest, least_of, long_number, number_of, encode_number};

use octets::{octet, word};

// The number and the octets that it takes.
pub type Number = Option<(u32, usize)>;

// The least number that takes k octets behind the first.
fn least(k: usize) -> u64
    requires { (1 ≤ k) × (k ≤ 4) }
    ensures { result ≡ least_of k }
{
    if k == 1 {
        return 128;
    }
    1 << 8 * (k - 1)
}

// A number of k octets behind the first.
fn read_long(s: &[u8], k: usize) -> Number
    ensures { result ≡ long_number k s.now }
{
    if k < 1 {
        return None;
    }
    if 4 < k {
        return None;
    }
    if s.len() <= k {
        return None;
    }
    let n = word(s, 1, k);
    if n < least(k) {
        return None;
    }
    Some((n as u32, 1 + k))
}

// The whole number at the front of `s`.
pub fn read_number(s: &[u8]) -> Number
    ensures { result ≡ number_of s.now }
{
    if s.len() < 1 {
        return None;
    }
    let first = octet(s, 0);
    if first < 128 {
        return Some((first, 1));
    }
    read_long(s, (first - 128) as usize)
}

// The octets behind the first that hold n, where n is over 127.
#[tactic(auto, unfolding(crate::specs::Number::fewest))]
fn tail(n: u32) -> usize
    ensures { (result ≡ fewest 4 n) × (result ≤ 4) }
{
    match n {
        0 => 0,
        1..=0xFF => 1,
        0x100..=0xFFFF => 2,
        0x1_0000..=0xFF_FFFF => 3,
        _ => 4,
    }
}

// The octets that n takes.
pub fn number_width(n: u32) -> usize
    ensures { (result ≡ length (encode_number n)) × (result ≤ 5) }
{
    if n < 128 {
        return 1;
    }
    1 + tail(n)
}

// n stands in the buffer from `at`, where it fits.
pub fn put_number(buf: &mut [u8], at: usize, n: u32)
    ensures { buf.new ≡ stored buf.old at (encode_number n) }
{
    if n < 128 {
        octets::put_word(buf, at, 1, n as u64);
        return;
    }
    let k = tail(n);
    let all = (128 + k) as u64 + ((n as u64) << 8);
    octets::put_word(buf, at, 1 + k, all);
}
