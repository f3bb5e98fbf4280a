// The calls of a writing with the state lent by `&mut` (document 01, "Writing a book"): a caller keeps one `Writing` and hands it to call after call. Each
// function is thin: the work is the call of the same name that takes the state by value; the state that it hands back is stored, and its answer is
// answered. So a refused call leaves the state as it was, since the call by value does.
#![tactic(auto)]

ghost use Rattle.std.specs.Prelude.{◌≡◌};
ghost use Rattle.framing.specs.Frame.{open_outcome, open_octets, close_outcome, close_octets, finish_outcome, finish_octets};
ghost use Rattle.giving.specs.Give.{Number, Truth, Octets, Count, give_outcome, give_octets, element_outcome, element_octets};
ghost use Rattle.begin.specs.Begin.{begin_outcome, begin_octets};

use answers::Answer;
use writing::Writing;

pub fn begin(
    st: &mut Writing,
    htags: &[u32],
    hflags: &[u32],
    tags: &[u32],
    flags: &[u32],
    buf: &mut [u8],
) -> Answer<usize>
    ensures { (result ≡ (begin_outcome st.old htags.now hflags.now tags.now flags.now buf.old).answer)
        × (st.new ≡ (begin_outcome st.old htags.now hflags.now tags.now flags.now buf.old).state)
        × (buf.new ≡ begin_octets htags.now hflags.now tags.now flags.now buf.old) }
{
    let outcome = begin::begin(*st, htags, hflags, tags, flags, buf);
    *st = outcome.state;
    outcome.answer
}

pub fn open(st: &mut Writing, buf: &mut [u8]) -> Answer<usize>
    ensures { (result ≡ (open_outcome st.old buf.old).answer) × (st.new ≡ (open_outcome st.old buf.old).state) × (buf.new ≡ open_octets st.old buf.old) }
{
    let outcome = framing::open(*st, buf);
    *st = outcome.state;
    outcome.answer
}

pub fn close(st: &mut Writing, buf: &mut [u8]) -> Answer<usize>
    ensures { (result ≡ (close_outcome st.old buf.old).answer) × (st.new ≡ (close_outcome st.old buf.old).state) × (buf.new ≡ close_octets st.old buf.old) }
{
    let outcome = framing::close(*st, buf);
    *st = outcome.state;
    outcome.answer
}

pub fn finish(st: &mut Writing, buf: &mut [u8]) -> Answer<usize>
    ensures { (result ≡ (finish_outcome st.old buf.old).answer) × (st.new ≡ (finish_outcome st.old buf.old).state) × (buf.new ≡ finish_octets st.old buf.old) }
{
    let outcome = framing::finish(*st, buf);
    *st = outcome.state;
    outcome.answer
}

pub fn give_number(st: &mut Writing, buf: &mut [u8], tag: u32, value: u32) -> Answer<usize>
    ensures { (result ≡ (give_outcome st.old buf.old tag (Number value)).answer) × (st.new ≡ (give_outcome st.old buf.old tag (Number value)).state) × (buf.new ≡ give_octets st.old buf.old tag (Number value)) }
{
    let outcome = giving::give_number(*st, buf, tag, value);
    *st = outcome.state;
    outcome.answer
}

pub fn give_truth(st: &mut Writing, buf: &mut [u8], tag: u32, yes: bool) -> Answer<usize>
    ensures { (result ≡ (give_outcome st.old buf.old tag (Truth yes)).answer) × (st.new ≡ (give_outcome st.old buf.old tag (Truth yes)).state) × (buf.new ≡ give_octets st.old buf.old tag (Truth yes)) }
{
    let outcome = giving::give_truth(*st, buf, tag, yes);
    *st = outcome.state;
    outcome.answer
}

// Octets without their length or their final 0.
pub fn give_octets(st: &mut Writing, buf: &mut [u8], tag: u32, s: &[u8]) -> Answer<usize>
    ensures { (result ≡ (give_outcome st.old buf.old tag (Octets s.now)).answer) × (st.new ≡ (give_outcome st.old buf.old tag (Octets s.now)).state) × (buf.new ≡ give_octets st.old buf.old tag (Octets s.now)) }
{
    let outcome = giving::give_octets(*st, buf, tag, s);
    *st = outcome.state;
    outcome.answer
}

// The count of a list, whose elements follow one at a time.
pub fn give_list(st: &mut Writing, buf: &mut [u8], tag: u32, count: u32) -> Answer<usize>
    ensures { (result ≡ (give_outcome st.old buf.old tag (Count count)).answer) × (st.new ≡ (give_outcome st.old buf.old tag (Count count)).state) × (buf.new ≡ give_octets st.old buf.old tag (Count count)) }
{
    let outcome = giving::give_list(*st, buf, tag, count);
    *st = outcome.state;
    outcome.answer
}

pub fn add_number(st: &mut Writing, buf: &mut [u8], value: u32) -> Answer<usize>
    ensures { (result ≡ (element_outcome st.old buf.old (Number value)).answer) × (st.new ≡ (element_outcome st.old buf.old (Number value)).state) × (buf.new ≡ element_octets st.old buf.old (Number value)) }
{
    let outcome = giving::add_number(*st, buf, value);
    *st = outcome.state;
    outcome.answer
}

pub fn add_octets(st: &mut Writing, buf: &mut [u8], s: &[u8]) -> Answer<usize>
    ensures { (result ≡ (element_outcome st.old buf.old (Octets s.now)).answer) × (st.new ≡ (element_outcome st.old buf.old (Octets s.now)).state) × (buf.new ≡ element_octets st.old buf.old (Octets s.now)) }
{
    let outcome = giving::add_octets(*st, buf, s);
    *st = outcome.state;
    outcome.answer
}
