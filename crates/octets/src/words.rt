// Little-endian words of any width up to eight octets.
ghost use Rattle.std.specs.Prelude.{◌≡◌, ◌^◌, ◌≤◌, ◌<◌, length, drop};
ghost use Rattle.octets.specs.Splice.{stored};
ghost use Rattle.octets.specs.Word.{le_of, val_of, word_of, narrow_word};

// The number that all of `s` says, which is eight octets at most.
fn get(s: &[u8]) -> u64
    requires { length s.now ≤ 8 }
    ensures { (result ≡ val_of s.now) × (result < 256 ^ length s.now) }
{
    s.iter().rev().fold(0, |r: u64, b| (r << 8) + u64::from(*b))
}

// The number in the `n` octets from `i`, octets past the end counting as 0; 0 where `n` is over eight.
pub fn word(s: &[u8], i: usize, n: usize) -> u64
    ensures { (result ≡ narrow_word n (drop i s.now)) × (result < 256 ^ n) }
{
    if n <= 8 && i < s.len() {
        if s.len() - i < n {
            get(&s[i..])
        } else {
            get(&s[i..i + n])
        }
    } else {
        0
    }
}

// The four octets of a field.
pub fn word32(s: &[u8], i: usize) -> u32
    ensures { result ≡ word_of 4 (drop i s.now) }
{
    word(s, i, 4) as u32
}

// The lowest octets of `v`, as many as `d` has room for.
fn put(d: &mut [u8], v: u64)
    ensures { d.new ≡ le_of (length d.old) v }
{
    let mut x = v;
    for b in d.iter_mut() {
        *b = (x % 256) as u8;
        x >>= 8;
    }
}

// The `n` lowest octets of `v` are stored from `i`, where they fit.
pub fn put_word(d: &mut [u8], i: usize, n: usize, v: u64)
    ensures { d.new ≡ stored d.old i (le_of n v) }
{
    if n <= d.len() && i <= d.len() - n {
        put(&mut d[i..i + n], v);
    }
}
