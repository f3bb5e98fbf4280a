// A book laid down afresh in a buffer: its front from columns, as a writing begins, and the header record. The address
// records are the caller's to lay behind it; then the book is sealed as the writer does (framing::seal).
#![tactic(auto)]

ghost use Rattle.std.specs.Prelude.{◌≡◌, length};
ghost use Rattle.fresh.specs.Fresh.{lay_at, lay_octets};

use answers::{Verdict, refuse};

// The front: the tables of these columns, their unused flag bits zero, then the header record `head`. Where begin does
// not take the tables, or the front has no room, nothing changes.
pub fn lay_front(
    out: &mut [u8],
    htags: &[u32],
    hflags: &[u32],
    tags: &[u32],
    flags: &[u32],
    head: &[u8],
) -> Verdict
    ensures { (result ≡ lay_at htags.now hflags.now tags.now flags.now
        head.now (length out.old))
        × (out.new ≡ lay_octets htags.now hflags.now tags.now
        flags.now head.now out.old) }
{
    begin::judge_begin(htags, hflags, tags, flags, out.len())?;
    let at = 24 + 8 * (htags.len() + tags.len());
    if out.len() - at < head.len() {
        return refuse(answers::NO_ROOM, 0);
    }
    let none = begin::no_writing();
    let _begun = begin::begin(none, htags, hflags, tags, flags, out);
    octets::copy(out, at, head);
    Ok(())
}
