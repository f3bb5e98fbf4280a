// The lines behind a sheet's first line: what the writer's calls would answer to each, before anything is written; then
// each as a record. The lines were scanned before, and each field holds a value of its type or nothing.
ghost use Rattle.std.specs.Prelude.{◌≡◌, true, false, cond, ◌+◌, ◌*◌, ◌^◌, ◌≤◌, ◌<◌, length, drop};
ghost use Rattle.octets.specs.Splice.{splice};
ghost use Rattle.presence.specs.Presence.{set_bit};
ghost use Rattle.entry.specs.Record.{values_of, row_octets};
ghost use Rattle.book.specs.Rows.{rows_octets};
ghost use Rattle.sheet.specs.Field.{most_chosen};
ghost use Rattle.sheet.specs.One.{Exported};
ghost use Rattle.importing.specs.Fields.{laid_row, line_long};
ghost use Rattle.importing.specs.Tied.{Taken, rows_of};
ghost use Rattle.importing.specs.LinesCases.{lines_given, records_put};
ghost use Rattle.importing.specs.Lines.{key_held, line_from, record_from, values_put, line_put};

use crate::fields::{field_end, put_value, value_long};
use answers::{Answer, Verdict, refuse};

// How many octets are written behind a line, and where it ends.
#[derive(Clone, Copy)]
struct Line {
    written: usize,
    end: usize,
}

// Whether every key has a value still, the value of a column with these flags being `long` octets.
fn key_held(held: bool, flags: u32, long: usize) -> bool
    ensures { result ≡ key_held held flags long }
{
    if long == 0 {
        if entry::is_key(flags) {
            return false;
        }
    }
    held
}

// The values of a line and its close, w octets being written and n lent.
#[tactic(auto, using(crate::specs::LineCases::field_there, crate::specs::LineCases::line_judged))]
fn judge_line(s: &[u8], at: usize, codes: &[u32], flags: &[u32], w: usize, n: usize) -> Answer<Line>
    requires { at + line_long codes.now (drop at s.now) ≤ length s.now }
    ensures { result ≡ line_from codes.now flags.now true w n at
        (drop at s.now) }
{
    let mut held = true;
    let mut k = w;
    let mut i = at;
    for (j, code) in codes.iter().enumerate() {
        let end = field_end(s, i);
        let long = value_long(&s[i..end], *code);
        writing::judge_room(k, n, long)?;
        held = key_held(held, entry::flags_at(flags, j), long);
        k += long;
        i = end + 1;
    }
    if held {
        return Ok(Line {
            written: k,
            end: i + 1,
        });
    }
    refuse(answers::BREAKS_RULE, 0)
}

// A line as a record, `opened` records having been opened before.
fn judge_record(
    s: &[u8],
    at: usize,
    codes: &[u32],
    flags: &[u32],
    w: usize,
    n: usize,
    opened: usize,
) -> Answer<Line>
    requires { (at + line_long codes.now (drop at s.now) ≤ length s.now) × (length codes.now ≤ most_chosen) }
    ensures { result ≡ record_from codes.now flags.now w n opened at
        (drop at s.now) }
{
    if answers::MOST_OPENED <= opened {
        return refuse(answers::BREAKS_RULE, 0);
    }
    let head = 4 + presence::octets_for(codes.len());
    writing::judge_room(w, n, head)?;
    judge_line(s, at, codes, flags, w + head, n)
}

// ---- written

// How many octets are written behind a line's values, where the line ends, and its presence octets.
#[derive(Clone, Copy)]
struct Put {
    written: usize,
    end: usize,
    bits: [u8; 2],
}

// Bit j of presence octets, where the column has a value.
fn mark(bits: &mut [u8], j: usize, there: bool)
    ensures { bits.new ≡ cond there (set_bit bits.old j) bits.old }
{
    if there {
        presence::set_bit(bits, j);
    }
}

// The values of the line at `from`, laid down from `at` on.
#[tactic(auto, using(crate::specs::LineCases::field_there, crate::specs::LineCases::values_putting, crate::specs::LineCases::values_done))]
fn put_values(out: &mut [u8], at: usize, s: &[u8], from: usize, codes: &[u32]) -> Put
    requires { (from + line_long codes.now (drop from s.now) ≤ length s.now)
        × (at + length (values_of (laid_row codes.now (drop from s.now))) ≤ length out.old)
        × (length codes.now ≤ most_chosen) }
    ensures { (result ≡ values_put codes.now at from (drop from s.now))
        × (out.new ≡ splice out.old at
        (values_of (laid_row codes.now (drop from s.now)))) }
{
    let mut bits = [0u8; 2];
    let mut k = at;
    let mut i = from;
    for (j, code) in codes.iter().enumerate() {
        let end = field_end(s, i);
        let to = put_value(out, k, &s[i..end], *code);
        mark(&mut bits, j, k < to);
        k = to;
        i = end + 1;
    }
    Put {
        written: k,
        end: i + 1,
        bits,
    }
}

// The line at `from` as a record, laid down from `at` on: size, presence octets, values.
fn put_record(out: &mut [u8], at: usize, s: &[u8], from: usize, codes: &[u32]) -> Put
    requires { (from + line_long codes.now (drop from s.now) ≤ length s.now)
        × (at + length (row_octets (laid_row codes.now (drop from s.now))) ≤ length out.old)
        × (length codes.now ≤ most_chosen) }
    ensures { (result ≡ line_put codes.now at from (drop from s.now))
        × (out.new ≡ splice out.old at
        (row_octets (laid_row codes.now (drop from s.now)))) }
{
    let k = presence::octets_for(codes.len());
    let put = put_values(out, at + 4 + k, s, from, codes);
    let bits = put.bits;
    octets::copy(out, at + 4, &bits[0..k]);
    octets::put_word(out, at, 4, (put.written - at) as u64);
    put
}

// ---- all lines

// What the writer's calls answer to all lines and the finish, w octets being written and n lent; the header record has
// been opened before them.
pub fn judge_lines(s: &[u8], codes: &[u32], flags: &[u32], w: usize, n: usize) -> Verdict
    requires { Taken codes.now s.now × Exported codes.now × (length codes.now ≤ most_chosen) }
    ensures { result ≡ lines_given codes.now flags.now w n
        (rows_of codes.now s.now) }
{
    let mut opened = 1;
    let mut k = w;
    let mut at = 0;
    // No `for`: each turn passes a line, and the next one begins where that one ended.
    while at < s.len() {
        let line = judge_record(s, at, codes, flags, k, n, opened)?;
        k = line.written;
        at = line.end;
        opened += 1;
    }
    if opened < 2 {
        return refuse(answers::BREAKS_RULE, 0);
    }
    Ok(())
}

// How many octets are written behind the last record, and how many records there are.
#[derive(Clone, Copy)]
pub struct Records {
    pub written: usize,
    pub count: usize,
}

// Each line as a record, laid down from `w` on.
pub fn put_lines(out: &mut [u8], w: usize, s: &[u8], codes: &[u32]) -> Records
    requires { Taken codes.now s.now × (length codes.now ≤ most_chosen)
        × (w + length (rows_octets (rows_of codes.now s.now)) ≤ length out.old) }
    ensures { (result ≡ records_put w (rows_of codes.now s.now))
        × (out.new ≡ splice out.old w
        (rows_octets (rows_of codes.now s.now))) }
{
    let mut count = 0;
    let mut k = w;
    let mut at = 0;
    // No `for`: each turn passes a line, and the next one begins where that one ended.
    while at < s.len() {
        let put = put_record(out, k, s, at, codes);
        k = put.written;
        at = put.end;
        count += 1;
    }
    Records { written: k, count }
}
