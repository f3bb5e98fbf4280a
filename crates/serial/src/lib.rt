// The serial (2.9.1): the 32-bit cyclic check of ISO/IEC 8802-3 by bit steps, the lowest bit of each octet first, from FFFFFFFF and with no last step.
// The bit steps are the definition; runs of six words or more go through a fold that is proved equal to them.
#![tactic(auto)]

mod fold;

ghost use Rattle.std.specs.Prelude.{◌≡◌};
ghost use Rattle.serial.specs.Serial.{bit_step, octet_step, serial_from, serial_of};

fn bit_step(c: u32) -> u32
    ensures { result ≡ bit_step c }
{
    (c >> 1) ^ (c & 1) * 0xEDB88320
}

fn octet_step(c: u32, b: u8) -> u32
    ensures { result ≡ octet_step c b }
{
    let c = c ^ b as u32;
    let c = bit_step(c);
    let c = bit_step(c);
    let c = bit_step(c);
    let c = bit_step(c);
    let c = bit_step(c);
    let c = bit_step(c);
    let c = bit_step(c);
    bit_step(c)
}

// The serial goes on from `c` over all of `s`, octet by octet.
fn octets_from(c: u32, s: &[u8]) -> u32
    ensures { result ≡ serial_from c s.now }
{
    s.iter().fold(c, |r, b| octet_step(r, *b))
}

// The serial goes on from `c` over all of `s`.
pub fn serial_from(c: u32, s: &[u8]) -> u32
    ensures { result ≡ serial_from c s.now }
{
    if s.len() < 48 {
        return octets_from(c, s);
    }
    fold::fold(c, s)
}

pub fn serial_of(s: &[u8]) -> u32
    ensures { result ≡ serial_of s.now }
{
    serial_from(0xFFFFFFFF, s)
}
