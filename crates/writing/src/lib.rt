// A writing in progress: a small state of plain numbers that goes from call to call, and what every call asks of it
// first. The tables stand in the written octets. Which states are out of turn, whatever the call, is decision 13.
#![tactic(auto)]

ghost use Rattle.std.specs.Prelude.{◌≡◌, ◌+◌, ◌-◌, ◌*◌, ◌≤◌};
ghost use Rattle.answers.specs.Numbers.{most_octets, most_columns};
ghost use Rattle.writing.specs.State.{columns_of, sane_of, idle_of, framed_of, within_of, room_at, settled};
ghost use Rattle.writing.specs.Column.{row_from, column_for};

use answers::{Answer, Verdict, refuse};
use octets::word32;

// The stages of a writing. They are numbers, as the form is, since a caller may hand in any: calls for C do.
pub const IN_PROGRESS: u8 = 0;

pub const FINISHED: u8 = 1;

#[derive(Clone, Copy)]
pub struct Writing {
    // the octets written so far
    pub written: usize,
    // the columns of each table
    pub header: usize,
    pub address: usize,
    // the records opened so far, the header record first
    pub opened: usize,
    // where the open record starts, 0 where none is open
    pub start: usize,
    // the next column of the open record
    pub next: usize,
    // the elements due of an unfinished list, and the form of its type
    pub left: usize,
    pub form: u8,
    // in progress or finished
    pub stage: u8,
}

// What a call answers, the octets written or the refusal, and the state to hand to the next one. A refused call hands on a
// state too, so the two stand side by side.
#[derive(Clone, Copy)]
pub struct Outcome {
    pub answer: Answer<usize>,
    pub state: Writing,
}

// A verdict on a call, with the state before it and the state behind it.
pub fn settle(verdict: Verdict, before: Writing, behind: Writing) -> Outcome
    ensures { result ≡ settled verdict before behind }
{
    match verdict {
        Ok(()) => Outcome {
            answer: Ok(behind.written),
            state: behind,
        },
        Err(r) => Outcome {
            answer: Err(r),
            state: before,
        },
    }
}

// The columns of the record that is opened as number k, the header record being number 1.
pub fn columns_of(st: Writing, k: usize) -> usize
    ensures { result ≡ columns_of st k }
{
    if k == 1 { st.header } else { st.address }
}

// Whether calls can leave the state in a buffer of n octets, as far as its tables and its lengths go.
#[tactic(auto, unfolding(crate::specs::State::sane_of))]
fn sane(st: Writing, n: usize) -> bool
    ensures { result ≡ sane_of st n }
{
    st.stage == IN_PROGRESS
        && st.written <= n
        && st.written <= answers::MOST_OCTETS
        && st.header <= answers::MOST_COLUMNS
        && st.address <= answers::MOST_COLUMNS
        && 24 + 8 * (st.header + st.address) <= st.written
        && st.opened <= answers::MOST_OPENED
}

// Whether the state is one between records.
#[tactic(auto, unfolding(crate::specs::State::idle_of))]
pub fn idle(st: Writing, n: usize) -> bool
    ensures { result ≡ idle_of st n }
{
    st.start == 0 && sane(st, n)
}

// Whether a record of k columns is open, and stands where one can.
#[tactic(auto, unfolding(crate::specs::State::framed_of))]
fn framed(st: Writing, k: usize) -> bool
    requires { (st.header ≤ most_columns) × (st.address ≤ most_columns) × (k ≤ most_columns) }
    ensures { result ≡ framed_of st k }
{
    st.start != 0
        && st.opened != 0
        && 24 + 8 * (st.header + st.address) <= st.start
        && st.start <= st.written
        && 4 + presence::octets_for(k) <= st.written - st.start
        && st.next <= k
}

// Whether the state is one inside a record.
pub fn within(st: Writing, n: usize) -> bool
    ensures { result ≡ within_of st n }
{
    sane(st, n) && framed(st, columns_of(st, st.opened))
}

// Whether k more octets are let in behind the written ones: by the limit, then by the buffer of n octets.
pub fn judge_room(written: usize, n: usize, k: usize) -> Verdict
    ensures { result ≡ room_at written n k }
{
    if answers::MOST_OCTETS < written {
        return refuse(answers::BREAKS_RULE, 0);
    }
    if answers::MOST_OCTETS - written < k {
        return refuse(answers::BREAKS_RULE, 0);
    }
    if n < written {
        return refuse(answers::NO_ROOM, 0);
    }
    if n - written < k {
        return refuse(answers::NO_ROOM, 0);
    }
    Ok(())
}

// The row with a whole tag, of n rows from row `from` on; row 0 stands at `base`.
fn find_row(buf: &[u8], base: usize, from: usize, n: usize, tag: u32) -> Option<usize>
    requires { (base ≤ most_octets) × (n ≤ most_columns) }
    ensures { result ≡ row_from buf.now base tag (n - from) from }
{
    for i in from..n {
        if word32(buf, base + 8 * i) == tag {
            return Some(i);
        }
    }
    None
}

// The column that a value may be given to next, by its whole tag: not passed, and no list left unfinished.
pub fn find_column(st: Writing, buf: &[u8], tag: u32) -> Option<usize>
    ensures { result ≡ column_for st buf.now tag }
{
    if within(st, buf.len()) {
        if st.left != 0 {
            return None;
        }
        if st.opened == 1 {
            return find_row(buf, 20, st.next, st.header, tag);
        }
        return find_row(buf, 24 + 8 * st.header, st.next, st.address, tag);
    }
    None
}
