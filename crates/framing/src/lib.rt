// Opening and closing a record, and the finish (document 01, "Writing a book"). Each call answers the new state and writes its own octets; a refused
// call leaves both.
#![tactic(auto)]

ghost use Rattle.std.specs.Prelude.{◌≡◌, ◌+◌, ◌*◌, ◌≤◌};
ghost use Rattle.answers.specs.Numbers.{most_octets, most_columns, most_opened};
ghost use Rattle.framing.specs.Frame.{open_size, open_at, open_next, open_outcome, open_octets, keys_from, between_of};
ghost use Rattle.framing.specs.Frame.{close_at, close_outcome, close_octets, finish_at, finish_outcome, finish_octets};
ghost use Rattle.book.specs.Sealed.{sealed_in};

use answers::{Verdict, refuse};
use octets::{put_word, word32};
use writing::{Outcome, Writing};

// ---- open

// The size field and the presence octets of the next record.
fn open_size(st: Writing) -> usize
    requires { (st.header ≤ most_columns) × (st.address ≤ most_columns) × (st.opened ≤ most_opened) }
    ensures { (result ≡ open_size st) × (result ≤ 20) }
{
    let k = writing::columns_of(st, st.opened + 1);
    4 + presence::octets_for(k)
}

fn judge_open(st: Writing, n: usize) -> Verdict
    ensures { result ≡ open_at st n }
{
    if writing::idle(st, n) {
        if st.opened < answers::MOST_OPENED {
            let k = open_size(st);
            return writing::judge_room(st.written, n, k);
        }
        return refuse(answers::BREAKS_RULE, 0);
    }
    refuse(answers::OUT_OF_TURN, 0)
}

fn opened(st: Writing, k: usize) -> Writing
    requires { (st.written + k ≤ most_octets) × (st.opened ≤ most_opened) }
    ensures { result ≡ open_next st k }
{
    Writing {
        written: st.written + k,
        opened: st.opened + 1,
        start: st.written,
        next: 0,
        left: 0,
        form: 0,
        ..st
    }
}

pub fn open(st: Writing, buf: &mut [u8]) -> Outcome
    ensures { (result ≡ open_outcome st buf.old) × (buf.new ≡ open_octets st buf.old) }
{
    let v = judge_open(st, buf.len());
    let Ok(()) = v else {
        return writing::settle(v, st, st);
    };
    let k = open_size(st);
    let at = st.written;
    octets::clear(buf, at, at + k);
    let next = opened(st, k);
    writing::settle(v, st, next)
}

// ---- close

// Whether each key of n columns has its bit; the first flags field stands at `flags`, the presence octets are the front of `p`.
fn keys_held(buf: &[u8], flags: usize, p: &[u8], n: usize) -> bool
    requires { (flags ≤ most_octets) × (n ≤ most_columns) }
    ensures { result ≡ keys_from buf.now flags p.now n 0 }
{
    for i in 0..n {
        if !entry::key_held(p, word32(buf, flags + 8 * i), i) {
            return false;
        }
    }
    true
}

fn judge_close(st: Writing, buf: &[u8]) -> Verdict
    ensures { result ≡ close_at st buf.now }
{
    if writing::within(st, buf.len()) {
        if st.left != 0 {
            return refuse(answers::OUT_OF_TURN, 0);
        }
        if st.opened == 1 {
            return Ok(());
        }
        let bits = st.start + 4;
        if keys_held(buf, 28 + 8 * st.header, &buf[bits..], st.address) {
            return Ok(());
        }
        return refuse(answers::BREAKS_RULE, 0);
    }
    refuse(answers::OUT_OF_TURN, 0)
}

// The state between records, in a stage.
fn between(st: Writing, stage: u8) -> Writing
    ensures { result ≡ between_of st stage }
{
    Writing {
        start: 0,
        next: 0,
        left: 0,
        form: 0,
        stage,
        ..st
    }
}

pub fn close(st: Writing, buf: &mut [u8]) -> Outcome
    ensures { (result ≡ close_outcome st buf.old) × (buf.new ≡ close_octets st buf.old) }
{
    let v = judge_close(st, buf);
    let Ok(()) = v else {
        return writing::settle(v, st, st);
    };
    let at = st.start;
    put_word(buf, at, 4, (st.written - at) as u64);
    let next = between(st, st.stage);
    writing::settle(v, st, next)
}

// ---- finish

fn judge_finish(st: Writing, n: usize) -> Verdict
    ensures { result ≡ finish_at st n }
{
    if writing::idle(st, n) {
        if st.opened == 0 {
            return refuse(answers::OUT_OF_TURN, 0);
        }
        if st.opened == 1 {
            return refuse(answers::BREAKS_RULE, 0);
        }
        return Ok(());
    }
    refuse(answers::OUT_OF_TURN, 0)
}

// The count and the serial of a book that is written up to `end`; where no such book can stand nothing changes.
pub fn seal(buf: &mut [u8], end: usize, count: usize)
    ensures { buf.new ≡ sealed_in buf.old end count }
{
    if 12 <= end && end <= buf.len() {
        let serial = serial::serial_of(&buf[12..end]);
        put_word(buf, 8, 4, count as u64);
        put_word(buf, 4, 4, serial as u64);
    }
}

pub fn finish(st: Writing, buf: &mut [u8]) -> Outcome
    ensures { (result ≡ finish_outcome st buf.old) × (buf.new ≡ finish_octets st buf.old) }
{
    let v = judge_finish(st, buf.len());
    let Ok(()) = v else {
        return writing::settle(v, st, st);
    };
    seal(buf, st.written, st.opened - 1);
    let next = between(st, writing::FINISHED);
    writing::settle(v, st, next)
}
