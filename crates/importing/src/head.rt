// The header record as it is offered: one record to its last octet; and what the writer's calls would answer that give
// it, value by value, a list by its count and then each element.
ghost use Rattle.std.specs.Prelude.{◌≡◌, [], ◌+◌, ◌^◌, ◌≤◌, ◌<◌, length};
ghost use Rattle.answers.specs.Numbers.{most_columns, most_octets};
ghost use Rattle.answers.specs.Padded.{padded};
ghost use Rattle.presence.specs.Presence.{room};
ghost use Rattle.value.specs.Types.{many, kind_at, form_at};
ghost use Rattle.entry.specs.Slots.{slots_from, step_of};
ghost use Rattle.entry.specs.Read.{width_of};
ghost use Rattle.importing.specs.Given.{elements_of, pieces_of, pieces_at};
ghost use Rattle.importing.specs.Head.{forms_for, offered_in, column_given, next_given, head_from, head_given};

use answers::{Answer, MOST_COLUMNS, Verdict, refuse};
use octets::word32;
use value::{FORMS, LIST};

// The form of each tag's values, 0 behind the last.
#[tactic(auto, using(crate::specs::HeadCases::forms_cases))]
pub fn forms_of(tags: &[u32]) -> [u8; MOST_COLUMNS]
    requires { length tags.now ≤ most_columns }
    ensures { result ≡ padded (forms_for tags.now) }
{
    let mut forms = [0u8; MOST_COLUMNS];
    for (i, tag) in tags.iter().enumerate() {
        forms[i] = value::form_of(*tag);
    }
    forms
}

// One record to its last octet; nothing must be there.
pub fn judge_offered(offered: &[u8], forms: &[u8], none: &[u32]) -> Verdict
    requires { none.now ≡ [] }
    ensures { result ≡ offered_in (slots_from forms.now []) offered.now }
{
    let Ok(()) = entry::judge_record(offered, 0, forms, none) else {
        return refuse(answers::BREAKS_FORM, 0);
    };
    if word32(offered, 0) as usize == offered.len() {
        return Ok(());
    }
    refuse(answers::BREAKS_FORM, 0)
}

// ---- what the calls answer: w octets are written, n lent

// `count` elements at the front of `s`.
#[tactic(auto, using(crate::specs::HeadCases::element_cases))]
fn judge_elements(kind: u8, s: &[u8], count: u32, w: usize, n: usize) -> Verdict
    requires { kind < 5 }
    ensures { result ≡ pieces_at w n (elements_of (kind_at kind) count s.now) }
{
    let mut k = w;
    let mut i = 0;
    for _ in 0..count {
        let Ok(long) = value::walk_value(kind, &s[i..]) else {
            return Ok(());
        };
        writing::judge_room(k, n, long)?;
        k += long;
        i += long;
    }
    Ok(())
}

// The list `v`: its count, then its elements.
fn judge_list(kind: u8, v: &[u8], w: usize, n: usize) -> Verdict
    requires { kind < 5 }
    ensures { result ≡ pieces_at w n (pieces_of (many (kind_at kind)) v.now) }
{
    let Some((count, k)) = whole::read_number(v) else {
        return Ok(());
    };
    writing::judge_room(w, n, k)?;
    judge_elements(kind, &v[k..], count, w + k, n)
}

// The value `v`.
fn judge_value(form: u8, v: &[u8], w: usize, n: usize) -> Verdict
    ensures { result ≡ pieces_at w n (pieces_of (form_at form) v.now) }
{
    if form < LIST {
        return writing::judge_room(w, n, v.len());
    }
    if form < FORMS {
        return judge_list(form - LIST, v, w, n);
    }
    Ok(())
}

// The value `v` of a column, where it has one.
fn judge_column(form: u8, v: &[u8], w: usize, n: usize) -> Verdict
    ensures { result ≡ column_given (form_at form) v.now w n }
{
    if v.len() < 1 {
        return Ok(());
    }
    judge_value(form, v, w, n)
}

// How many octets the value of column j takes; none where it is absent.
fn column_long(p: &[u8], j: usize, form: u8, s: &[u8]) -> usize
    ensures { (result ≡ width_of (step_of p.now j (form_at form) s.now))
        × (result ≤ length s.now) }
{
    entry::walk_column(p, j, form, s).unwrap_or(0)
}

// The value of column j, which stands at i of `s`, and where it ends.
fn judge_next(p: &[u8], j: usize, form: u8, s: &[u8], i: usize, w: usize, n: usize) -> Answer<usize>
    requires { (i ≤ length s.now) × (w ≤ most_octets) }
    ensures { result ≡ next_given p.now j form s.now i w n }
{
    let end = i + column_long(p, j, form, &s[i..]);
    judge_column(form, &s[i..end], w + i, n)?;
    Ok(end)
}

// The values of a good record: `p` has its presence octets, `s` is what follows them.
#[tactic(auto, using(crate::specs::HeadCases::values_given, crate::specs::HeadCases::values_begun))]
fn judge_values(p: &[u8], forms: &[u8], s: &[u8], w: usize, n: usize) -> Verdict
    requires { w ≤ most_octets }
    ensures { result ≡ head_from forms.now 0 p.now w n s.now }
{
    let mut i = 0;
    for (j, form) in forms.iter().enumerate() {
        i = judge_next(p, j, *form, s, i, w, n)?;
    }
    Ok(())
}

// A good header record, opened and given; it asks for no key.
pub fn judge_head(offered: &[u8], forms: &[u8], w: usize, n: usize) -> Verdict
    requires { (length forms.now ≤ most_columns) × (4 + room (length forms.now) ≤ length offered.now) }
    ensures { result ≡ head_given forms.now w n offered.now }
{
    let head = 4 + presence::octets_for(forms.len());
    writing::judge_room(w, n, head)?;
    judge_values(&offered[4..head], forms, &offered[head..], w + head, n)
}
