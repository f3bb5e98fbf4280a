// Writing, for C programs: the ten calls under plain names. A writing's state is ten numbers that are lent to each
// call, the refusal's place first, so that no call relies on anything that the caller can't see; a call answers 0 or
// the number of its refusal.
#![tactic(auto)]

ghost use Rattle.std.specs.Prelude.{◌≡◌, not, eqb};
ghost use Rattle.framing.specs.Frame.{open_outcome, open_octets, close_outcome, close_octets, finish_outcome, finish_octets};
ghost use Rattle.giving.specs.Give.{Number, Truth, Octets, Count, give_outcome, give_octets, element_outcome};
ghost use Rattle.giving.specs.Give.{element_octets};
ghost use Rattle.begin.specs.Begin.{begin_outcome, begin_octets};
ghost use Rattle.face_writing.specs.Calling.{form_from, stage_from, state_of, fields_of, outcome_number, state_left};

use writing::{Outcome, Writing};

fn form_from(form: u64) -> u8
    ensures { result ≡ form_from form }
{
    if 255 < form {
        return 0;
    }
    form as u8
}

fn stage_from(form: u64, stage: u64) -> u8
    ensures { result ≡ stage_from form stage }
{
    if 255 < form {
        return 2;
    }
    if 255 < stage {
        return 2;
    }
    stage as u8
}

fn take_up(state: &[u64; 10]) -> Writing
    ensures { result ≡ state_of state.now }
{
    let form = state[8];
    let stage = state[9];
    Writing {
        written: state[1] as usize,
        header: state[2] as usize,
        address: state[3] as usize,
        opened: state[4] as usize,
        start: state[5] as usize,
        next: state[6] as usize,
        left: state[7] as usize,
        form: form_from(form),
        stage: stage_from(form, stage),
    }
}

fn fields_of(st: Writing) -> [u64; 10]
    ensures { result ≡ fields_of st }
{
    [
        0,
        st.written as u64,
        st.header as u64,
        st.address as u64,
        st.opened as u64,
        st.start as u64,
        st.next as u64,
        st.left as u64,
        st.form as u64,
        st.stage as u64,
    ]
}

// What a call leaves: a refusal changes the place alone.
fn settle(state: &mut [u64; 10], o: Outcome) -> u32
    ensures { (result ≡ outcome_number o) × (state.new ≡ state_left state.old o) }
{
    match o.answer {
        Ok(_) => {
            *state = fields_of(o.state);
            0
        }
        Err(r) => {
            state[0] = r.place as u64;
            r.number
        }
    }
}

// ---- the ten calls

pub fn wt_begin(
    state: &mut [u64; 10],
    htags: &[u32],
    hflags: &[u32],
    tags: &[u32],
    flags: &[u32],
    buf: &mut [u8],
) -> u32
    ensures { (result ≡ outcome_number
        (begin_outcome (state_of state.old)
        htags.now hflags.now tags.now flags.now buf.old))
        × (state.new ≡ state_left state.old
        (begin_outcome (state_of state.old)
        htags.now hflags.now tags.now flags.now buf.old))
        × (buf.new ≡
        begin_octets
        htags.now hflags.now tags.now flags.now
        buf.old) }
{
    let st = take_up(state);
    let outcome = begin::begin(st, htags, hflags, tags, flags, buf);
    settle(state, outcome)
}

pub fn wt_open(state: &mut [u64; 10], buf: &mut [u8]) -> u32
    ensures { (result ≡ outcome_number (open_outcome (state_of state.old) buf.old))
        × (state.new ≡ state_left state.old
        (open_outcome (state_of state.old) buf.old))
        × (buf.new ≡ open_octets (state_of state.old) buf.old) }
{
    let st = take_up(state);
    let outcome = framing::open(st, buf);
    settle(state, outcome)
}

pub fn wt_close(state: &mut [u64; 10], buf: &mut [u8]) -> u32
    ensures { (result ≡ outcome_number (close_outcome (state_of state.old) buf.old))
        × (state.new ≡ state_left state.old
        (close_outcome (state_of state.old) buf.old))
        × (buf.new ≡ close_octets (state_of state.old) buf.old) }
{
    let st = take_up(state);
    let outcome = framing::close(st, buf);
    settle(state, outcome)
}

pub fn wt_finish(state: &mut [u64; 10], buf: &mut [u8]) -> u32
    ensures { (result ≡ outcome_number (finish_outcome (state_of state.old) buf.old))
        × (state.new ≡ state_left state.old
        (finish_outcome (state_of state.old) buf.old))
        × (buf.new ≡ finish_octets (state_of state.old) buf.old) }
{
    let st = take_up(state);
    let outcome = framing::finish(st, buf);
    settle(state, outcome)
}

pub fn wt_give_number(state: &mut [u64; 10], buf: &mut [u8], tag: u32, value: u32) -> u32
    ensures { (result ≡ outcome_number
        (give_outcome (state_of state.old) buf.old tag (Number value)))
        × (state.new ≡ state_left state.old
        (give_outcome (state_of state.old) buf.old tag (Number value)))
        × (buf.new ≡ give_octets (state_of state.old) buf.old tag (Number value)) }
{
    let st = take_up(state);
    let outcome = giving::give_number(st, buf, tag, value);
    settle(state, outcome)
}

// Any number but 0 is yes.
pub fn wt_give_truth(state: &mut [u64; 10], buf: &mut [u8], tag: u32, yes: u32) -> u32
    ensures { (result ≡ outcome_number
        (give_outcome (state_of state.old) buf.old tag (Truth (not (eqb yes 0)))))
        × (state.new ≡ state_left state.old
        (give_outcome (state_of state.old) buf.old tag (Truth (not (eqb yes 0)))))
        × (buf.new ≡
        give_octets (state_of state.old) buf.old tag (Truth (not (eqb yes 0)))) }
{
    let st = take_up(state);
    let outcome = giving::give_truth(st, buf, tag, yes != 0);
    settle(state, outcome)
}

// Octets without their length or their final 0.
pub fn wt_give_octets(state: &mut [u64; 10], buf: &mut [u8], tag: u32, s: &[u8]) -> u32
    ensures { (result ≡ outcome_number
        (give_outcome (state_of state.old) buf.old tag (Octets s.now)))
        × (state.new ≡ state_left state.old
        (give_outcome (state_of state.old) buf.old tag (Octets s.now)))
        × (buf.new ≡
        give_octets (state_of state.old) buf.old tag (Octets s.now)) }
{
    let st = take_up(state);
    let outcome = giving::give_octets(st, buf, tag, s);
    settle(state, outcome)
}

// The count of a list, whose elements follow one at a time.
pub fn wt_give_list(state: &mut [u64; 10], buf: &mut [u8], tag: u32, count: u32) -> u32
    ensures { (result ≡ outcome_number
        (give_outcome (state_of state.old) buf.old tag (Count count)))
        × (state.new ≡ state_left state.old
        (give_outcome (state_of state.old) buf.old tag (Count count)))
        × (buf.new ≡ give_octets (state_of state.old) buf.old tag (Count count)) }
{
    let st = take_up(state);
    let outcome = giving::give_list(st, buf, tag, count);
    settle(state, outcome)
}

pub fn wt_add_number(state: &mut [u64; 10], buf: &mut [u8], value: u32) -> u32
    ensures { (result ≡ outcome_number
        (element_outcome (state_of state.old) buf.old (Number value)))
        × (state.new ≡ state_left state.old
        (element_outcome (state_of state.old) buf.old (Number value)))
        × (buf.new ≡ element_octets (state_of state.old) buf.old (Number value)) }
{
    let st = take_up(state);
    let outcome = giving::add_number(st, buf, value);
    settle(state, outcome)
}

pub fn wt_add_octets(state: &mut [u64; 10], buf: &mut [u8], s: &[u8]) -> u32
    ensures { (result ≡ outcome_number
        (element_outcome (state_of state.old) buf.old (Octets s.now)))
        × (state.new ≡ state_left state.old
        (element_outcome (state_of state.old) buf.old (Octets s.now)))
        × (buf.new ≡
        element_octets (state_of state.old) buf.old (Octets s.now)) }
{
    let st = take_up(state);
    let outcome = giving::add_octets(st, buf, s);
    settle(state, outcome)
}
