// Long runs, eight octets at a time: what a word of 64 bits leaves behind is spread by shifts over the words that follow it, and nothing is looked up.
ghost use Rattle.std.specs.Prelude.{◌≡◌, ◌≤◌, length, take};
ghost use Rattle.std.specs.Int.Bits.{bit_xor};
ghost use Rattle.serial.specs.Serial.{serial_from};
ghost use Rattle.serial.specs.Wide.{steps, wide, serial_with, pending};

fn mix(x: u64, y: u64) -> u64
    ensures { result ≡ bit_xor x y }
{
    x ^ y
}

// The first eight octets as one word, the lowest first: one load, once compiled.
fn front(s: &[u8]) -> u64
    requires { 8 ≤ length s.now }
    ensures { result ≡ wide (take 8 s.now) }
{
    u64::from_le_bytes([s[0], s[1], s[2], s[3], s[4], s[5], s[6], s[7]])
}

// 64 bits go out.
fn word_step(x: u64) -> u32
    ensures { result ≡ steps 64 x }
{
    let mut y = x;
    for _ in 0..64u32 {
        y = (y >> 1) ^ (y & 1) * 0xEDB88320;
    }
    y as u32
}

// The first word goes out with x added, and y is added to what is left.
fn next(s: &[u8], x: u64, y: u64) -> u64
    requires { 8 ≤ length s.now }
    ensures { result ≡ bit_xor (steps 64 (bit_xor (wide (take 8 s.now)) x)) y }
{
    mix(word_step(mix(front(s), x)) as u64, y)
}

// The octets of `s`, with five words added.
fn tail(s: &[u8], n1: u64, n2: u64, n3: u64, n4: u64, n5: u64) -> u32
    requires { 40 ≤ length s.now }
    ensures { result ≡ serial_with s.now (pending n1 n2 n3 n4 n5) }
{
    let a = next(s, n1, n2);
    let b = next(&s[8..], a, n3);
    let c = next(&s[16..], b, n4);
    let d = next(&s[24..], c, n5);
    let e = word_step(mix(front(&s[32..]), d));
    crate::octets_from(e, &s[40..])
}

// The serial goes on from `c` over all of `s`, which is six words or more.
pub fn fold(c: u32, s: &[u8]) -> u32
    requires { 48 ≤ length s.now }
    ensures { result ≡ serial_from c s.now }
{
    let mut rest = s;
    let mut n1 = c as u64;
    let mut n2: u64 = 0;
    let mut n3: u64 = 0;
    let mut n4: u64 = 0;
    let mut n5: u64 = 0;
    // Each turn takes a word off the front, while six or more are left.
    while 48 <= rest.len() {
        let a = mix(front(rest), n1);
        n1 = n2;
        n2 = n3 ^ (a << 17) ^ (a << 55);
        n3 = n4 ^ (a >> 47) ^ (a >> 9) ^ (a << 19);
        n4 = n5 ^ (a >> 45) ^ (a << 44);
        n5 = a >> 20;
        rest = &rest[8..];
    }
    tail(rest, n1, n2, n3, n4, n5)
}
