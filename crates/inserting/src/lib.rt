// A record put into a book where it stands, or taken out of it. The book is judged first; a refused call changes no octet.
#![tactic(auto)]

ghost use Rattle.std.specs.Prelude.{◌≡◌, [], ◌+◌, ◌≤◌, length, take};
ghost use Rattle.answers.specs.Numbers.{most_columns, most_octets};
ghost use Rattle.entry.specs.Slots.{slots_from};
ghost use Rattle.correcting.specs.Correct.{offered_at, insert_answer, insert_octets, delete_answer, delete_octets};
ghost use Rattle.inserting.specs.Cases.{insert_in, insert_gap, delete_gap};

use answers::{Answer, Verdict, refuse};
use table::Columns;

// What is decided before anything is written: where records are to be replaced from and up to, and the count behind it.
#[derive(Clone, Copy)]
struct Gap {
    place: usize,
    end: usize,
    count: usize,
}

// An offered record to its last octet, keys aside; then its keys.
fn judge_offered(new: &[u8], columns: Columns) -> Verdict
    ensures { result ≡ offered_at (slots_from (take columns.count columns.forms) (take columns.count columns.flags)) new.now }
{
    let forms = columns.forms();
    let Ok(()) = entry::judge_record(new, 0, forms, &[]) else {
        return refuse(answers::BREAKS_FORM, 0);
    };
    if octets::word32(new, 0) as usize == new.len() {
        let head = 4 + presence::octets_for(forms.len());
        if entry::keys_held(&new[4..head], forms, columns.flags()) {
            return Ok(());
        }
        return refuse(answers::BREAKS_RULE, 0);
    }
    refuse(answers::BREAKS_FORM, 0)
}

// A record before record k of `count`, in a book of `len` octets and a buffer of `room`.
fn judge_insert(
    len: usize,
    room: usize,
    count: usize,
    k: usize,
    new: &[u8],
    columns: Columns,
) -> Verdict
    requires { len ≤ most_octets }
    ensures { result ≡ insert_in len room count k new.now (slots_from (take columns.count columns.forms) (take columns.count columns.flags)) }
{
    if count < k {
        return refuse(answers::OUT_OF_TURN, 0);
    }
    judge_offered(new, columns)?;
    if answers::MOST_RECORDS <= count {
        return refuse(answers::BREAKS_RULE, 0);
    }
    if answers::MOST_OCTETS < new.len() {
        return refuse(answers::BREAKS_RULE, 0);
    }
    editing::judge_room(len + new.len(), room)
}

// The book is judged, then the offered record; its place is before record k.
fn plan_insert(book: &[u8], room: usize, k: usize, new: &[u8]) -> Answer<Gap>
    ensures { result ≡ insert_gap book.now room k new.now }
{
    let j = book::judge(book)?;
    judge_insert(book.len(), room, j.count, k, new, j.address)?;
    let place = lookup::place_behind(book, j.first, k);
    Ok(Gap {
        place,
        end: place,
        count: j.count + 1,
    })
}

// The book is judged, then record k is found. The only record stays.
fn plan_delete(book: &[u8], k: usize) -> Answer<Gap>
    ensures { result ≡ delete_gap book.now k }
{
    let j = book::judge(book)?;
    if j.count <= k {
        return refuse(answers::OUT_OF_TURN, 0);
    }
    if j.count < 2 {
        return refuse(answers::BREAKS_RULE, 0);
    }
    let place = lookup::place_behind(book, j.first, k);
    let end = place + octets::word32(book, place) as usize;
    Ok(Gap {
        place,
        end,
        count: j.count - 1,
    })
}

// The offered record is put in before record k.
pub fn insert(buf: &mut [u8], len: usize, k: usize, offered: &[u8]) -> Answer<usize>
    ensures { (result ≡ insert_answer buf.old len k offered.now) × (buf.new ≡ insert_octets buf.old len k offered.now) }
{
    if buf.len() < len {
        return refuse(answers::OUT_OF_TURN, 0);
    }
    let gap = plan_insert(&buf[0..len], buf.len(), k, offered)?;
    editing::put_records(buf, len, gap.place, gap.end, offered, gap.count);
    Ok(len + offered.len())
}

// Record k is taken out.
pub fn delete(buf: &mut [u8], len: usize, k: usize) -> Answer<usize>
    ensures { (result ≡ delete_answer buf.old len k) × (buf.new ≡ delete_octets buf.old len k) }
{
    if buf.len() < len {
        return refuse(answers::OUT_OF_TURN, 0);
    }
    let gap = plan_delete(&buf[0..len], k)?;
    let nothing = [0u8; 1];
    editing::put_records(buf, len, gap.place, gap.end, &nothing[0..0], gap.count);
    Ok(gap.place + (len - gap.end))
}
