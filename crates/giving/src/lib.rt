// Giving values in a writing in progress: to a later column of the open record, and the elements of a list one at a time. Each call writes its own octets
// behind what is written; a value, or a list's count, also sets its presence bit. Refused in this order: turn and column, form, length, room.
#![tactic(auto)]

mod size;

ghost use Rattle.std.specs.Prelude.{◌≡◌, ◌+◌, ◌≤◌, ◌<◌, length};
ghost use Rattle.answers.specs.Numbers.{most_octets, most_columns};
ghost use Rattle.answers.specs.Verdict.{kept};
ghost use Rattle.writing.specs.State.{settled};
ghost use Rattle.writing.specs.Column.{column_for};
ghost use Rattle.table.specs.Found.{column_of};
ghost use Rattle.giving.specs.Give.{Number, Truth, Octets, Count, given_to, marked, give_outcome, give_octets};
ghost use Rattle.giving.specs.Give.{added_to, element_outcome, element_octets};
ghost use Rattle.giving.specs.Size.{sized_at, placed_at, added_at};

use answers::{Verdict, refuse};
use size::{element_form, list_size, number_size, octets_size, put_octets, put_truth, truth_size};
use value::form_of;
use whole::put_number;
use writing::{Outcome, Writing, find_column, judge_room, settle, within};

// A value of `size` octets, 0 where it breaks its form, behind the written octets in a buffer of n.
fn judge_size(written: usize, n: usize, size: usize) -> Verdict
    ensures { result ≡ sized_at written n size }
{
    if size == 0 {
        return refuse(answers::BREAKS_FORM, 0);
    }
    judge_room(written, n, size)
}

// The bit of a column, in the presence octets from `at`.
fn mark(buf: &mut [u8], at: usize, column: usize)
    requires { at ≤ length buf.old }
    ensures { buf.new ≡ marked buf.old at column }
{
    presence::set_bit(&mut buf[at..], column);
}

// The state behind a value of `size` octets in a column.
fn behind_value(st: Writing, column: usize, size: usize, left: usize, form: u8) -> Writing
    requires { (st.written + size ≤ most_octets) × (column < most_columns) }
    ensures { result ≡ given_to st column size left form }
{
    Writing {
        written: st.written + size,
        header: st.header,
        address: st.address,
        opened: st.opened,
        start: st.start,
        next: column + 1,
        left,
        form,
        stage: st.stage,
    }
}

// All of a value but its octets: the verdict, the presence bit and the state behind it.
fn give(st: Writing, buf: &mut [u8], tag: u32, size: usize, left: usize, form: u8) -> Outcome
    ensures { (result ≡ settled (placed_at st buf.old tag size) st (given_to st (column_of (column_for st buf.old tag)) size left form)) × (buf.new ≡ kept (placed_at st buf.old tag size) buf.old (marked buf.old (st.start + 4) (column_of (column_for st buf.old tag)))) }
{
    let Some(column) = find_column(st, buf, tag) else {
        return settle(refuse(answers::OUT_OF_TURN, 0), st, st);
    };
    let verdict = judge_size(st.written, buf.len(), size);
    let Ok(()) = verdict else {
        return settle(verdict, st, st);
    };
    mark(buf, st.start + 4, column);
    let behind = behind_value(st, column, size, left, form);
    settle(verdict, st, behind)
}

// One call a kind of value, each over `give`: the four differ in the value that their clause names.

pub fn give_number(st: Writing, buf: &mut [u8], tag: u32, value: u32) -> Outcome
    ensures { (result ≡ give_outcome st buf.old tag (Number value)) × (buf.new ≡ give_octets st buf.old tag (Number value)) }
{
    let form = form_of(tag);
    let outcome = give(st, buf, tag, number_size(form, value), 0, 0);
    let Ok(_) = outcome.answer else {
        return outcome;
    };
    put_number(buf, st.written, value);
    outcome
}

pub fn give_truth(st: Writing, buf: &mut [u8], tag: u32, yes: bool) -> Outcome
    ensures { (result ≡ give_outcome st buf.old tag (Truth yes)) × (buf.new ≡ give_octets st buf.old tag (Truth yes)) }
{
    let form = form_of(tag);
    let outcome = give(st, buf, tag, truth_size(form), 0, 0);
    let Ok(_) = outcome.answer else {
        return outcome;
    };
    put_truth(buf, st.written, yes);
    outcome
}

// Octets without their length or their final 0.
pub fn give_octets(st: Writing, buf: &mut [u8], tag: u32, s: &[u8]) -> Outcome
    ensures { (result ≡ give_outcome st buf.old tag (Octets s.now)) × (buf.new ≡ give_octets st buf.old tag (Octets s.now)) }
{
    let form = form_of(tag);
    let outcome = give(st, buf, tag, octets_size(form, s), 0, 0);
    let Ok(_) = outcome.answer else {
        return outcome;
    };
    put_octets(buf, st.written, form, s);
    outcome
}

// The count of a list, whose elements follow one at a time.
pub fn give_list(st: Writing, buf: &mut [u8], tag: u32, count: u32) -> Outcome
    ensures { (result ≡ give_outcome st buf.old tag (Count count)) × (buf.new ≡ give_octets st buf.old tag (Count count)) }
{
    let form = form_of(tag);
    let outcome = give(st, buf, tag, list_size(form, count), count as usize, form);
    let Ok(_) = outcome.answer else {
        return outcome;
    };
    put_number(buf, st.written, count);
    outcome
}

// The state behind an element of `size` octets.
fn behind_element(st: Writing, size: usize) -> Writing
    requires { (st.written + size ≤ most_octets) × (1 ≤ st.left) }
    ensures { result ≡ added_to st size }
{
    Writing {
        written: st.written + size,
        header: st.header,
        address: st.address,
        opened: st.opened,
        start: st.start,
        next: st.next,
        left: st.left - 1,
        form: st.form,
        stage: st.stage,
    }
}

// All of an element but its octets.
fn add(st: Writing, n: usize, size: usize) -> Outcome
    ensures { result ≡ settled (added_at st n size) st (added_to st size) }
{
    if within(st, n) {
        if st.left == 0 {
            return settle(refuse(answers::OUT_OF_TURN, 0), st, st);
        }
        let verdict = judge_size(st.written, n, size);
        let Ok(()) = verdict else {
            return settle(verdict, st, st);
        };
        let behind = behind_element(st, size);
        return settle(verdict, st, behind);
    }
    settle(refuse(answers::OUT_OF_TURN, 0), st, st)
}

pub fn add_number(st: Writing, buf: &mut [u8], value: u32) -> Outcome
    ensures { (result ≡ element_outcome st buf.old (Number value)) × (buf.new ≡ element_octets st buf.old (Number value)) }
{
    let form = element_form(st.form);
    let outcome = add(st, buf.len(), number_size(form, value));
    let Ok(_) = outcome.answer else {
        return outcome;
    };
    put_number(buf, st.written, value);
    outcome
}

pub fn add_octets(st: Writing, buf: &mut [u8], s: &[u8]) -> Outcome
    ensures { (result ≡ element_outcome st buf.old (Octets s.now)) × (buf.new ≡ element_octets st buf.old (Octets s.now)) }
{
    let form = element_form(st.form);
    let outcome = add(st, buf.len(), octets_size(form, s));
    let Ok(_) = outcome.answer else {
        return outcome;
    };
    put_octets(buf, st.written, form, s);
    outcome
}
