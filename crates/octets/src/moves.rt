// Octets moved, cleared and copied in one buffer. A move goes in the direction in which no octet is overwritten before it
// is read. Octet by octet and not by std's `copy_within` and `copy_from_slice`, which call memmove: the archive for C
// needs memcpy and memset from outside, and nothing else.
ghost use Rattle.std.specs.Prelude.{◌≡◌, ◌+◌, ◌-◌, ◌≤◌, length, replicate};
ghost use Rattle.std.proofs.Math.Seq.{slice};
ghost use Rattle.octets.specs.Splice.{splice, stored, moved};

fn move_up(buf: &mut [u8], at: usize, end: usize, to: usize)
    requires { (at ≤ to) × (at ≤ end) × (to + (end - at) ≤ length buf.old) }
    ensures { buf.new ≡ splice buf.old to (slice at end buf.old) }
{
    for k in (0..end - at).rev() {
        buf[to + k] = buf[at + k];
    }
}

fn move_down(buf: &mut [u8], at: usize, end: usize, to: usize)
    requires { (to ≤ at) × (at ≤ end) × (end ≤ length buf.old) }
    ensures { buf.new ≡ splice buf.old to (slice at end buf.old) }
{
    for j in 0..end - at {
        buf[to + j] = buf[at + j];
    }
}

// The octets from `at` to `end` move to `to`. Where they or their new place are not in the buffer nothing is done.
pub fn move_part(buf: &mut [u8], at: usize, end: usize, to: usize)
    ensures { buf.new ≡ moved buf.old at end to }
{
    if at <= end && end <= buf.len() && to <= buf.len() - (end - at) {
        if at < to {
            move_up(buf, at, end, to);
        } else {
            move_down(buf, at, end, to);
        }
    }
}

// The octets from `from` to `end` become 0, where they are in the buffer.
pub fn clear(buf: &mut [u8], from: usize, end: usize)
    ensures { buf.new ≡ stored buf.old from (replicate (end - from) 0) }
{
    if from <= end && end <= buf.len() {
        buf[from..end].fill(0);
    }
}

fn copy_in(buf: &mut [u8], at: usize, src: &[u8])
    requires { at + length src.now ≤ length buf.old }
    ensures { buf.new ≡ splice buf.old at src.now }
{
    for j in 0..src.len() {
        buf[at + j] = src[j];
    }
}

// `src` stands in the buffer from `at`, where it fits.
pub fn copy(buf: &mut [u8], at: usize, src: &[u8])
    ensures { buf.new ≡ stored buf.old at src.now }
{
    if src.len() <= buf.len() && at <= buf.len() - src.len() {
        copy_in(buf, at, src);
    }
}
