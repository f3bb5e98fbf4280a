// The calls of face_writing for C: each export calls the function of the same name there, with the same clauses.
#![tactic(auto)]

ghost use Rattle.std.specs.Prelude.{◌≡◌, not, eqb};
ghost use Rattle.framing.specs.Frame.{open_outcome, open_octets, close_outcome, close_octets};
ghost use Rattle.framing.specs.Frame.{finish_outcome, finish_octets};
ghost use Rattle.giving.specs.Give.{Number, Truth, Octets, Count, give_outcome, give_octets};
ghost use Rattle.giving.specs.Give.{element_outcome, element_octets};
ghost use Rattle.begin.specs.Begin.{begin_outcome, begin_octets};
ghost use Rattle.face_writing.specs.Calling.{state_of, outcome_number, state_left};

#[unsafe(no_mangle)]
pub extern "C" fn wt_begin(
    state: &mut [u64; 10],
    htags: &[u32],
    hflags: &[u32],
    tags: &[u32],
    flags: &[u32],
    buf: &mut [u8],
) -> u32
    ensures { (result ≡ outcome_number
        (begin_outcome (state_of state.old)
        htags.now hflags.now tags.now flags.now buf.old))
        × (state.new ≡ state_left state.old
        (begin_outcome (state_of state.old)
        htags.now hflags.now tags.now flags.now buf.old))
        × (buf.new ≡
        begin_octets
        htags.now hflags.now tags.now flags.now
        buf.old) }
{
    face_writing::wt_begin(state, htags, hflags, tags, flags, buf)
}

#[unsafe(no_mangle)]
pub extern "C" fn wt_open(state: &mut [u64; 10], buf: &mut [u8]) -> u32
    ensures { (result ≡ outcome_number (open_outcome (state_of state.old) buf.old))
        × (state.new ≡ state_left state.old
        (open_outcome (state_of state.old) buf.old))
        × (buf.new ≡ open_octets (state_of state.old) buf.old) }
{
    face_writing::wt_open(state, buf)
}

#[unsafe(no_mangle)]
pub extern "C" fn wt_close(state: &mut [u64; 10], buf: &mut [u8]) -> u32
    ensures { (result ≡ outcome_number (close_outcome (state_of state.old) buf.old))
        × (state.new ≡ state_left state.old
        (close_outcome (state_of state.old) buf.old))
        × (buf.new ≡ close_octets (state_of state.old) buf.old) }
{
    face_writing::wt_close(state, buf)
}

#[unsafe(no_mangle)]
pub extern "C" fn wt_finish(state: &mut [u64; 10], buf: &mut [u8]) -> u32
    ensures { (result ≡ outcome_number (finish_outcome (state_of state.old) buf.old))
        × (state.new ≡ state_left state.old
        (finish_outcome (state_of state.old) buf.old))
        × (buf.new ≡ finish_octets (state_of state.old) buf.old) }
{
    face_writing::wt_finish(state, buf)
}

#[unsafe(no_mangle)]
pub extern "C" fn wt_give_number(state: &mut [u64; 10], buf: &mut [u8], tag: u32, value: u32) -> u32
    ensures { (result ≡ outcome_number
        (give_outcome (state_of state.old) buf.old tag (Number value)))
        × (state.new ≡ state_left state.old
        (give_outcome (state_of state.old) buf.old tag (Number value)))
        × (buf.new ≡ give_octets (state_of state.old) buf.old tag (Number value)) }
{
    face_writing::wt_give_number(state, buf, tag, value)
}

// Any number but 0 is yes.
#[unsafe(no_mangle)]
pub extern "C" fn wt_give_truth(state: &mut [u64; 10], buf: &mut [u8], tag: u32, yes: u32) -> u32
    ensures { (result ≡ outcome_number
        (give_outcome (state_of state.old) buf.old tag (Truth (not (eqb yes 0)))))
        × (state.new ≡ state_left state.old
        (give_outcome (state_of state.old) buf.old tag (Truth (not (eqb yes 0)))))
        × (buf.new ≡
        give_octets (state_of state.old) buf.old tag (Truth (not (eqb yes 0)))) }
{
    face_writing::wt_give_truth(state, buf, tag, yes)
}

// Octets without their length or their final 0.
#[unsafe(no_mangle)]
pub extern "C" fn wt_give_octets(state: &mut [u64; 10], buf: &mut [u8], tag: u32, s: &[u8]) -> u32
    ensures { (result ≡ outcome_number
        (give_outcome (state_of state.old) buf.old tag (Octets s.now)))
        × (state.new ≡ state_left state.old
        (give_outcome (state_of state.old) buf.old tag (Octets s.now)))
        × (buf.new ≡
        give_octets (state_of state.old) buf.old tag (Octets s.now)) }
{
    face_writing::wt_give_octets(state, buf, tag, s)
}

// The count of a list, whose elements follow one at a time.
#[unsafe(no_mangle)]
pub extern "C" fn wt_give_list(state: &mut [u64; 10], buf: &mut [u8], tag: u32, count: u32) -> u32
    ensures { (result ≡ outcome_number
        (give_outcome (state_of state.old) buf.old tag (Count count)))
        × (state.new ≡ state_left state.old
        (give_outcome (state_of state.old) buf.old tag (Count count)))
        × (buf.new ≡ give_octets (state_of state.old) buf.old tag (Count count)) }
{
    face_writing::wt_give_list(state, buf, tag, count)
}

#[unsafe(no_mangle)]
pub extern "C" fn wt_add_number(state: &mut [u64; 10], buf: &mut [u8], value: u32) -> u32
    ensures { (result ≡ outcome_number
        (element_outcome (state_of state.old) buf.old (Number value)))
        × (state.new ≡ state_left state.old
        (element_outcome (state_of state.old) buf.old (Number value)))
        × (buf.new ≡ element_octets (state_of state.old) buf.old (Number value)) }
{
    face_writing::wt_add_number(state, buf, value)
}

#[unsafe(no_mangle)]
pub extern "C" fn wt_add_octets(state: &mut [u64; 10], buf: &mut [u8], s: &[u8]) -> u32
    ensures { (result ≡ outcome_number
        (element_outcome (state_of state.old) buf.old (Octets s.now)))
        × (state.new ≡ state_left state.old
        (element_outcome (state_of state.old) buf.old (Octets s.now)))
        × (buf.new ≡
        element_octets (state_of state.old) buf.old (Octets s.now)) }
{
    face_writing::wt_add_octets(state, buf, s)
}
