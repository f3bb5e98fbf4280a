// The calls of face_correcting for C: each export calls the function of the same name there, with the same clauses.
#![tactic(auto)]

ghost use Rattle.std.specs.Prelude.{◌≡◌};
ghost use Rattle.std.proofs.Math.Option.{none, some};
ghost use Rattle.correcting.specs.Correct.{set_answer, set_octets, insert_answer, insert_octets};
ghost use Rattle.correcting.specs.Correct.{delete_answer, delete_octets};
ghost use Rattle.face_reading.specs.Lent.{made_number, made_numbers};
ghost use Rattle.face_reading.specs.Looking.{which_of};

#[unsafe(no_mangle)]
pub extern "C" fn wt_set(
    buf: &mut [u8],
    len: u64,
    number: u64,
    tag: u32,
    value: &[u8],
    out: &mut [u64; 2],
) -> u32
    ensures { (result ≡ made_number
        (set_answer buf.old len (which_of number) tag (some value.now)))
        × (out.new ≡ made_numbers
        (set_answer buf.old len (which_of number) tag (some value.now)))
        × (buf.new ≡ set_octets buf.old len (which_of number) tag (some value.now)) }
{
    face_correcting::wt_set(buf, len, number, tag, value, out)
}

#[unsafe(no_mangle)]
pub extern "C" fn wt_clear(
    buf: &mut [u8],
    len: u64,
    number: u64,
    tag: u32,
    out: &mut [u64; 2],
) -> u32
    ensures { (result ≡ made_number (set_answer buf.old len (which_of number) tag none))
        × (out.new ≡ made_numbers (set_answer buf.old len (which_of number) tag none))
        × (buf.new ≡ set_octets buf.old len (which_of number) tag none) }
{
    face_correcting::wt_clear(buf, len, number, tag, out)
}

// A record before record k.
#[unsafe(no_mangle)]
pub extern "C" fn wt_insert(
    buf: &mut [u8],
    len: u64,
    k: u64,
    offered: &[u8],
    out: &mut [u64; 2],
) -> u32
    ensures { (result ≡ made_number (insert_answer buf.old len k offered.now))
        × (out.new ≡ made_numbers (insert_answer buf.old len k offered.now))
        × (buf.new ≡ insert_octets buf.old len k offered.now) }
{
    face_correcting::wt_insert(buf, len, k, offered, out)
}

#[unsafe(no_mangle)]
pub extern "C" fn wt_delete(buf: &mut [u8], len: u64, k: u64, out: &mut [u64; 2]) -> u32
    ensures { (result ≡ made_number (delete_answer buf.old len k))
        × (out.new ≡ made_numbers (delete_answer buf.old len k))
        × (buf.new ≡ delete_octets buf.old len k) }
{
    face_correcting::wt_delete(buf, len, k, out)
}
