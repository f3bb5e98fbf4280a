// Correcting, for C programs: the four calls under plain names. The book stands in the first `len` octets of the
// buffer; a call answers 0 or the number of its refusal, and leaves the refusal's place and the new length in two
// numbers that are lent for it.
#![tactic(auto)]

ghost use Rattle.std.specs.Prelude.{◌≡◌};
ghost use Rattle.std.proofs.Math.Option.{none, some};
ghost use Rattle.correcting.specs.Correct.{set_answer, set_octets, insert_answer, insert_octets, delete_answer};
ghost use Rattle.correcting.specs.Correct.{delete_octets};
ghost use Rattle.face_reading.specs.Lent.{made_number, made_numbers};
ghost use Rattle.face_reading.specs.Looking.{which_of};

use face_reading::{answer_number, made_numbers, which_of};

pub fn wt_set(
    buf: &mut [u8],
    len: u64,
    number: u64,
    tag: u32,
    value: &[u8],
    out: &mut [u64; 2],
) -> u32
    ensures { (result ≡ made_number
        (set_answer buf.old len (which_of number) tag (some value.now)))
        × (out.new ≡ made_numbers
        (set_answer buf.old len (which_of number) tag (some value.now)))
        × (buf.new ≡ set_octets buf.old len (which_of number) tag (some value.now)) }
{
    let which = which_of(number);
    let corrected = correcting::set(buf, len as usize, which, tag, value);
    *out = made_numbers(corrected);
    answer_number(corrected)
}

pub fn wt_clear(buf: &mut [u8], len: u64, number: u64, tag: u32, out: &mut [u64; 2]) -> u32
    ensures { (result ≡ made_number (set_answer buf.old len (which_of number) tag none))
        × (out.new ≡ made_numbers (set_answer buf.old len (which_of number) tag none))
        × (buf.new ≡ set_octets buf.old len (which_of number) tag none) }
{
    let which = which_of(number);
    let corrected = correcting::clear(buf, len as usize, which, tag);
    *out = made_numbers(corrected);
    answer_number(corrected)
}

// A record before record k.
pub fn wt_insert(buf: &mut [u8], len: u64, k: u64, offered: &[u8], out: &mut [u64; 2]) -> u32
    ensures { (result ≡ made_number (insert_answer buf.old len k offered.now))
        × (out.new ≡ made_numbers (insert_answer buf.old len k offered.now))
        × (buf.new ≡ insert_octets buf.old len k offered.now) }
{
    let corrected = inserting::insert(buf, len as usize, k as usize, offered);
    *out = made_numbers(corrected);
    answer_number(corrected)
}

pub fn wt_delete(buf: &mut [u8], len: u64, k: u64, out: &mut [u64; 2]) -> u32
    ensures { (result ≡ made_number (delete_answer buf.old len k))
        × (out.new ≡ made_numbers (delete_answer buf.old len k))
        × (buf.new ≡ delete_octets buf.old len k) }
{
    let corrected = inserting::delete(buf, len as usize, k as usize);
    *out = made_numbers(corrected);
    answer_number(corrected)
}
