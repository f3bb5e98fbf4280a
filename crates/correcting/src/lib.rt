// A value of a book set or cleared where the book stands. The book is judged first; a refused call changes no octet.
#![tactic(auto)]

ghost use Rattle.std.specs.Prelude.{◌≡◌, [], ◌+◌, ◌^◌, ◌≤◌, ◌<◌, length, take};
ghost use Rattle.std.proofs.Math.Option.{none, some};
ghost use Rattle.answers.specs.Numbers.{most_octets};
ghost use Rattle.entry.specs.Slots.{slot, slots_from};
ghost use Rattle.entry.specs.Values.{entry_octets};
ghost use Rattle.editing.specs.Put.{spot_from};
ghost use Rattle.editing.specs.InPlace.{offered};
ghost use Rattle.editing.specs.Stands.{Stands};
ghost use Rattle.correcting.specs.Correct.{set_answer, set_octets};
ghost use Rattle.correcting.specs.Find.{as_stretch, cell_at};
ghost use Rattle.correcting.specs.Cases.{entry_of, plan_column, plan_in, plan_of};

use answers::{Answer, Verdict, refuse};
use editing::Cell;
use lookup::Which;
use table::Columns;

// Where a value stands or would stand, and how long it is.
#[derive(Clone, Copy)]
struct Stretch {
    start: usize,
    long: usize,
}

// Column c of a record; `s` is what follows the presence octets `p`, and stands at `at`.
fn find_value(p: &[u8], forms: &[u8], c: usize, s: &[u8], at: usize) -> Stretch
    requires { (c < length forms.now) × (at + length s.now < 2 ^ 64) }
    ensures { result ≡ as_stretch (spot_from (slots_from forms.now []) c 0 p.now at s.now) }
{
    let mut i = 0;
    for j in 0..c {
        let Ok(w) = entry::walk_column(p, j, forms[j], &s[i..]) else {
            return Stretch {
                start: at + i,
                long: 0,
            };
        };
        i += w;
    }
    Stretch {
        start: at + i,
        long: entry::walk_column(p, c, forms[c], &s[i..]).unwrap_or(0),
    }
}

// Column c of the record at `at`, which stands in the book.
fn find_cell(book: &[u8], at: usize, forms: &[u8], c: usize) -> Cell
    requires { (c < length forms.now) × Stands (length forms.now) at book.now }
    ensures { result ≡ cell_at (slots_from forms.now []) c at book.now }
{
    let bits = at + 4;
    let head = bits + presence::octets_for(forms.len());
    let end = at + octets::word32(book, at) as usize;
    let s = find_value(&book[bits..head], forms, c, &book[head..end], head);
    Cell {
        place: at,
        columns: forms.len(),
        column: c,
        start: s.start,
        long: s.long,
    }
}

// What is decided before anything is written: the entry, and the book's count.
#[derive(Clone, Copy)]
struct Plan {
    cell: Cell,
    count: usize,
}

// What is offered for a column: one value of its form, or nothing where it is no key.
fn judge_entry(form: u8, flags: u32, there: bool, value: &[u8]) -> Verdict
    ensures { result ≡ entry_of (slot form flags) (offered there value.now) }
{
    if there {
        let Ok(w) = value::walk_value(form, value) else {
            return refuse(answers::BREAKS_FORM, 0);
        };
        if w == value.len() {
            return Ok(());
        }
        return refuse(answers::BREAKS_FORM, 0);
    }
    if entry::is_key(flags) {
        return refuse(answers::BREAKS_RULE, 0);
    }
    Ok(())
}

// Column c of the record at `at`, in a buffer of `room` octets.
fn plan_column(
    book: &[u8],
    room: usize,
    at: usize,
    forms: &[u8],
    flags: &[u32],
    c: usize,
    there: bool,
    value: &[u8],
    count: usize,
) -> Answer<Plan>
    requires { (c < length forms.now) × Stands (length forms.now) at book.now
        × (value.now ≡ entry_octets (offered there value.now)) × (length book.now ≤ most_octets) }
    ensures { result ≡ plan_column (slots_from forms.now flags.now) c at (offered there value.now) book.now room count }
{
    judge_entry(forms[c], entry::flags_at(flags, c), there, value)?;
    if answers::MOST_OCTETS < value.len() {
        return refuse(answers::BREAKS_RULE, 0);
    }
    let cell = find_cell(book, at, forms, c);
    editing::judge_room(book.len() - cell.long + value.len(), room)?;
    Ok(Plan { cell, count })
}

// The column with a whole tag in the record at `at`, by that record's columns, of which the first `keys` may be keys.
fn plan_in(
    book: &[u8],
    room: usize,
    columns: Columns,
    keys: usize,
    at: usize,
    tag: u32,
    there: bool,
    value: &[u8],
    count: usize,
) -> Answer<Plan>
    requires { (columns.count ≤ length columns.tags) × (columns.count ≤ length columns.forms)
        × (keys ≤ length columns.flags) × Stands columns.count at book.now × (length book.now ≤ most_octets)
        × (value.now ≡ entry_octets (offered there value.now)) }
    ensures { result ≡ plan_in (take columns.count columns.tags) (slots_from (take columns.count columns.forms) (take keys columns.flags)) at tag (offered there value.now) book.now room count }
{
    let Some(c) = lookup::find_column(columns.tags(), tag) else {
        return refuse(answers::OUT_OF_TURN, 0);
    };
    let forms = columns.forms();
    let flags = &columns.flags[0..keys];
    plan_column(book, room, at, forms, flags, c, there, value, count)
}

// The book is judged, then the record and its column are found. In the header record no key binds.
fn decide(
    book: &[u8],
    room: usize,
    which: Which,
    tag: u32,
    there: bool,
    value: &[u8],
) -> Answer<Plan>
    requires { value.now ≡ entry_octets (offered there value.now) }
    ensures { result ≡ plan_of book.now room which tag (offered there value.now) }
{
    let j = book::judge(book)?;
    match which {
        Which::Header => plan_in(book, room, j.header, 0, j.head, tag, there, value, j.count),
        Which::Number(k) => {
            if j.count <= k {
                return refuse(answers::OUT_OF_TURN, 0);
            }
            let keys = j.address.count;
            let at = lookup::place_behind(book, j.first, k);
            plan_in(book, room, j.address, keys, at, tag, there, value, j.count)
        }
    }
}

// A value set where one is to be there, else cleared.
fn correct(
    buf: &mut [u8],
    len: usize,
    which: Which,
    tag: u32,
    there: bool,
    value: &[u8],
) -> Answer<usize>
    requires { value.now ≡ entry_octets (offered there value.now) }
    ensures { (result ≡ set_answer buf.old len which tag (offered there value.now)) × (buf.new ≡ set_octets buf.old len which tag (offered there value.now)) }
{
    if buf.len() < len {
        return refuse(answers::OUT_OF_TURN, 0);
    }
    let plan = decide(&buf[0..len], buf.len(), which, tag, there, value)?;
    let cell = plan.cell;
    editing::put_entry(buf, len, cell, there, value, plan.count);
    Ok(len - cell.long + value.len())
}

// The value of a record with a whole tag of its table becomes the offered encoding.
pub fn set(buf: &mut [u8], len: usize, which: Which, tag: u32, value: &[u8]) -> Answer<usize>
    ensures { (result ≡ set_answer buf.old len which tag (some value.now)) × (buf.new ≡ set_octets buf.old len which tag (some value.now)) }
{
    correct(buf, len, which, tag, true, value)
}

// The record loses its value with a whole tag of its table.
pub fn clear(buf: &mut [u8], len: usize, which: Which, tag: u32) -> Answer<usize>
    ensures { (result ≡ set_answer buf.old len which tag none) × (buf.new ≡ set_octets buf.old len which tag none) }
{
    let nothing = [0u8; 1];
    correct(buf, len, which, tag, false, &nothing[0..0])
}
