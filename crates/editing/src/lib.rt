// Parts of a book replaced in a lent buffer. The book is its first `len` octets. What follows a part is moved before anything is written over it; octets of
// the old book behind the new one become 0.
#![tactic(auto)]

ghost use Rattle.std.specs.Prelude.{◌≡◌, ◌+◌, ◌-◌, ◌^◌, ◌≤◌, ◌<◌, length, take, drop};
ghost use Rattle.octets.specs.Word.{word_of};
ghost use Rattle.presence.specs.Presence.{room};
ghost use Rattle.entry.specs.Record.{present_in};
ghost use Rattle.entry.specs.Values.{entry_octets};
ghost use Rattle.editing.specs.Put.{put, buffer_of, resealed, spliced};
ghost use Rattle.editing.specs.InPlace.{offered, marked_by, room_in};
ghost use Rattle.editing.specs.Fits.{part_fits, records_put, entry_fits, entry_behind};

use answers::{Verdict, refuse};
use octets::put_word;

// The octets from `a` up to `e` become `new`.
fn replace(buf: &mut [u8], len: usize, a: usize, e: usize, new: &[u8])
    requires { (a ≤ e) × (e ≤ len) × (len ≤ length buf.old) × (a + length new.now + (len - e) ≤ length buf.old) }
    ensures { buf.new ≡ buffer_of buf.old len (put a e new.now (take len buf.old)) }
{
    let to = a + new.len();
    let end = to + (len - e);
    octets::move_part(buf, e, len, to);
    octets::copy(buf, a, new);
    octets::clear(buf, end, len);
}

// The header of a book of `len` octets: version, serial and count.
fn reseal(buf: &mut [u8], len: usize, count: usize)
    requires { (12 ≤ len) × (len ≤ length buf.old) }
    ensures { buf.new ≡ put 0 len (resealed count (take len buf.old)) buf.old }
{
    let serial = serial::serial_of(&buf[12..len]);
    put_word(buf, 0, 4, 0x20);
    put_word(buf, 4, 4, serial as u64);
    put_word(buf, 8, 4, count as u64);
}

// The bit of column c in the presence octets from `a` up to `e`: set where a value is there, else cleared.
fn mark(buf: &mut [u8], a: usize, e: usize, c: usize, there: bool)
    requires { (a ≤ e) × (e ≤ length buf.old) }
    ensures { buf.new ≡ put a e (marked_by there (take (e - a) (drop a buf.old)) c) buf.old }
{
    if there {
        presence::set_bit(&mut buf[a..e], c);
        return;
    }
    presence::clear_bit(&mut buf[a..e], c);
}

// Whether the octets from `a` up to `e`, behind the header, stand in a book of `len` octets, and k in their place leave it room in a buffer of n.
fn part_fits(n: usize, len: usize, a: usize, e: usize, k: usize) -> bool
    ensures { result ≡ part_fits n len a e k }
{
    if a < 12 {
        return false;
    }
    if e < a {
        return false;
    }
    if len < e {
        return false;
    }
    if n < len {
        return false;
    }
    k <= n - (a + (len - e))
}

fn put_records_in(buf: &mut [u8], len: usize, a: usize, e: usize, new: &[u8], count: usize)
    requires { (12 ≤ a) × (a ≤ e) × (e ≤ len) × (len ≤ length buf.old) × (a + length new.now + (len - e) ≤ length buf.old) }
    ensures { buf.new ≡ buffer_of buf.old len (resealed count (put a e new.now (take len buf.old))) }
{
    replace(buf, len, a, e, new);
    reseal(buf, a + new.len() + (len - e), count);
}

// The records from `a` up to `e` become those of `new`, of which the book then has `count`; where that does not fit nothing changes.
pub fn put_records(buf: &mut [u8], len: usize, a: usize, e: usize, new: &[u8], count: usize)
    ensures { buf.new ≡ records_put buf.old len a e new.now count }
{
    if part_fits(buf.len(), len, a, e, new.len()) {
        put_records_in(buf, len, a, e, new, count);
    }
}

// An entry of a record: the record's place and its number of columns, the column, the entry's first octet and how many it has.
#[derive(Clone, Copy)]
pub struct Cell {
    pub place: usize,
    pub columns: usize,
    pub column: usize,
    pub start: usize,
    pub long: usize,
}

// Whether the entry stands in a book of `len` octets, in a record whose size field says `size`, and k octets in its place leave it room in a buffer of n. Where no
// value is to be there none is offered.
fn entry_fits(n: usize, len: usize, s: Cell, k: usize, there: bool, size: usize) -> bool
    ensures { result ≡ entry_fits n len s k there size }
{
    if s.place < 12 {
        return false;
    }
    if n < len {
        return false;
    }
    if len < s.start {
        return false;
    }
    if len - s.start < s.long {
        return false;
    }
    if s.start < s.place {
        return false;
    }
    if s.start - s.place < 4 + presence::octets_for(s.columns) {
        return false;
    }
    if size < s.long {
        return false;
    }
    if n - (len - s.long) < k {
        return false;
    }
    if there {
        return true;
    }
    k == 0
}

fn put_entry_in(buf: &mut [u8], len: usize, s: Cell, there: bool, value: &[u8], count: usize)
    requires { (12 ≤ s.place) × (s.place + 4 + room s.columns ≤ s.start) × (s.start + s.long ≤ len) × (len ≤ length buf.old) × (len - s.long + length value.now ≤ length buf.old) × (s.long ≤ word_of 4 (drop s.place buf.old)) × (value.now ≡ entry_octets (offered there value.now)) }
    ensures { buf.new ≡ buffer_of buf.old len (resealed count (spliced s.place s.columns s.column s.start s.long (word_of 4 (drop s.place (take len buf.old)) + length (entry_octets (offered there value.now)) - s.long) (offered there value.now) (present_in s.columns (drop s.place (take len buf.old))) (take len buf.old))) }
{
    let at = s.place;
    let size = octets::word32(buf, at) as usize;
    let bits = at + 4;
    let head = bits + presence::octets_for(s.columns);
    replace(buf, len, s.start, s.start + s.long, value);
    mark(buf, bits, head, s.column, there);
    put_word(buf, at, 4, (size - s.long + value.len()) as u64);
    reseal(buf, len - s.long + value.len(), count);
}

// The entry becomes `value` where one is to be there, else nothing; presence bit, size and header follow. Where that does not fit nothing changes.
// A flag beside the octets and no Option: the call answers for every pair, and octets offered where none is to be there
// change nothing.
pub fn put_entry(buf: &mut [u8], len: usize, s: Cell, there: bool, value: &[u8], count: usize)
    ensures { buf.new ≡ entry_behind buf.old len s there value.now count }
{
    let size = octets::word32(buf, s.place) as usize;
    if entry_fits(buf.len(), len, s, value.len(), there, size) {
        put_entry_in(buf, len, s, there, value, count);
    }
}

// A book of n octets: the limit, then the buffer, which has `room`.
pub fn judge_room(n: usize, room: usize) -> Verdict
    ensures { result ≡ room_in n room }
{
    if answers::MOST_OCTETS < n {
        return refuse(answers::BREAKS_RULE, 0);
    }
    if room < n {
        return refuse(answers::NO_ROOM, 0);
    }
    Ok(())
}
