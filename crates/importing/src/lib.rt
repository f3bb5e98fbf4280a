// A book from a sheet, a list of column flags and a header record with its table (request 106). The text is scanned,
// then what the writer's calls would answer is found out call by call, and only where nothing is refused the book is
// written: a refusal leaves every octet.
#![tactic(auto)]

mod fields;
mod head;
mod lines;

ghost use Rattle.std.specs.Prelude.{◌≡◌, [], ◌+◌, ◌*◌, ◌^◌, ◌≤◌, ◌<◌, length};
ghost use Rattle.octets.specs.Splice.{stored};
ghost use Rattle.answers.specs.Numbers.{most_octets, most_columns};
ghost use Rattle.answers.specs.Verdict.{clear};
ghost use Rattle.book.specs.Rows.{rows_octets};
ghost use Rattle.book.specs.Book.{book_octets};
ghost use Rattle.framing.specs.Frame.{finish_octets};
ghost use Rattle.begin.specs.Begin.{start_size};
ghost use Rattle.sheet.specs.Field.{most_chosen, codes_of};
ghost use Rattle.sheet.specs.One.{Exported};
ghost use Rattle.importing.specs.Tied.{Taken, rows_of};
ghost use Rattle.importing.specs.From.{asked_at, from_answer, from_octets};
ghost use Rattle.importing.specs.Steps.{codes_for, records_at, given_at, rest_book, given_answer, given_octets};
ghost use Rattle.importing.specs.Steps.{rest_answer, rest_octets, front_put, laid_down, closed_by};

use answers::{Answer, Verdict, refuse};
use head::{forms_of, judge_head, judge_offered};
use lines::{Records, judge_lines, put_lines};
use sheet::MOST_CHOSEN;
use writing::Writing;

// The code of each tag's type, 0 behind the last.
#[tactic(auto, using(crate::specs::Cases::codes_cases))]
fn codes_of(tags: &[u32]) -> [u32; MOST_CHOSEN]
    requires { length tags.now ≤ most_chosen }
    ensures { result ≡ codes_for tags.now }
{
    let mut codes = [0u32; MOST_CHOSEN];
    for (i, tag) in tags.iter().enumerate() {
        codes[i] = *tag % 65536;
    }
    codes
}

// The lines of a sheet of these tags, which stand at `width` of the text.
fn judge_asked(tags: &[u32], codes: &[u32], flags: &[u32], width: usize, s: &[u8]) -> Verdict
    requires { (codes.now ≡ codes_of tags.now) × (width + length s.now < 2 ^ 64) }
    ensures { result ≡ asked_at tags.now flags.now width s.now }
{
    if flags.len() != tags.len() {
        return refuse(answers::OUT_OF_TURN, 0);
    }
    if !sheet::all_exported(tags) {
        return refuse(answers::BREAKS_FORM, 0);
    }
    match scanning::scan(s, codes) {
        Ok(_) => Ok(()),
        Err(p) => refuse(answers::WRONG_SHEET, width + p),
    }
}

// The header record as it is offered, then what the writer's calls answer to it, to the lines and to the finish: w
// octets are written, n lent.
fn judge_records(
    forms: &[u8],
    codes: &[u32],
    flags: &[u32],
    offered: &[u8],
    s: &[u8],
    w: usize,
    n: usize,
) -> Verdict
    requires { (length forms.now ≤ most_columns) × (w ≤ most_octets) × (length codes.now ≤ most_chosen)
        × Taken codes.now s.now × Exported codes.now }
    ensures { result ≡ records_at forms.now codes.now flags.now
        offered.now s.now w n }
{
    judge_offered(offered, forms, &flags[0..0])?;
    judge_head(offered, forms, w, n)?;
    judge_lines(s, codes, flags, w + offered.len(), n)
}

// The octets that begin writes for tables of so many columns.
fn start_size(h: usize, a: usize) -> usize
    requires { (h ≤ most_columns) × (a ≤ most_columns) }
    ensures { (result ≡ start_size h a) × (result ≤ 2072) }
{
    24 + 8 * (h + a)
}

// What the writer's calls answer, n octets being lent: begin, then the records. The slices go one by one from call to
// call. Tried as a struct, and the proof of `write_book` didn't close: of slices in a struct the check doesn't know that
// their items are octets and words.
fn judge_given(
    tags: &[u32],
    codes: &[u32],
    flags: &[u32],
    htags: &[u32],
    hflags: &[u32],
    offered: &[u8],
    s: &[u8],
    n: usize,
) -> Verdict
    requires { (codes.now ≡ codes_of tags.now) × (length codes.now ≤ most_chosen) × Taken codes.now s.now
        × Exported codes.now }
    ensures { result ≡ given_at tags.now flags.now htags.now hflags.now
        offered.now s.now n }
{
    begin::judge_begin(htags, hflags, tags, flags, n)?;
    let h = htags.len();
    let forms = forms_of(htags);
    let w = start_size(h, tags.len());
    judge_records(&forms[0..h], codes, flags, offered, s, w, n)
}

// The state of a writing whose records are all closed.
fn closed(written: usize, header: usize, address: usize, opened: usize) -> Writing
    ensures { result ≡ closed_by written header address opened }
{
    Writing {
        written,
        header,
        address,
        opened,
        start: 0,
        next: 0,
        left: 0,
        form: 0,
        stage: writing::IN_PROGRESS,
    }
}

// The tables and the header record, one behind the other; where they end.
fn put_front(
    tags: &[u32],
    flags: &[u32],
    htags: &[u32],
    hflags: &[u32],
    offered: &[u8],
    out: &mut [u8],
) -> usize
    requires { (length htags.now ≤ most_columns) × (length tags.now ≤ most_columns)
        × (start_size (length htags.now) (length tags.now) + length offered.now ≤ length out.old) }
    ensures { (result ≡ start_size (length htags.now) (length tags.now)
        + length offered.now)
        × (out.new ≡ front_put tags.now flags.now htags.now
        hflags.now offered.now out.old) }
{
    let w = start_size(htags.len(), tags.len());
    let end = w + offered.len();
    begin::begin(begin::no_writing(), htags, hflags, tags, flags, out);
    octets::copy(out, w, offered);
    end
}

// Tables, header record and records, one behind the other.
fn lay_down(
    tags: &[u32],
    codes: &[u32],
    flags: &[u32],
    htags: &[u32],
    hflags: &[u32],
    offered: &[u8],
    s: &[u8],
    out: &mut [u8],
) -> Records
    requires { (length htags.now ≤ most_columns) × (length tags.now ≤ most_columns)
        × (length codes.now ≤ most_chosen) × Taken codes.now s.now
        × (start_size (length htags.now) (length tags.now) + length offered.now ≤ length out.old)
        × (start_size (length htags.now) (length tags.now) + length offered.now
        + length (rows_octets (rows_of codes.now s.now)) ≤ length out.old) }
    ensures { (result.written ≡ start_size (length htags.now) (length tags.now)
        + length offered.now + length (rows_octets (rows_of codes.now s.now)))
        × (result.count ≡ length (rows_of codes.now s.now))
        × (out.new ≡ laid_down tags.now codes.now flags.now
        htags.now hflags.now offered.now s.now out.old) }
{
    let w = put_front(tags, flags, htags, hflags, offered, out);
    put_lines(out, w, s, codes)
}

// The finish of a writing whose records are all closed; how many octets are written.
fn finish_book(written: usize, header: usize, address: usize, count: usize, out: &mut [u8]) -> usize
    requires { count + 1 < 2 ^ 64 }
    ensures { (result ≡ written) × (out.new ≡ finish_octets (closed_by written header address (count + 1))
        out.old) }
{
    let st = closed(written, header, address, count + 1);
    framing::finish(st, out);
    written
}

// The book, where nothing is refused; how long it is.
fn write_book(
    tags: &[u32],
    codes: &[u32],
    flags: &[u32],
    htags: &[u32],
    hflags: &[u32],
    offered: &[u8],
    s: &[u8],
    out: &mut [u8],
) -> usize
    requires { (codes.now ≡ codes_of tags.now) × (length codes.now ≤ most_chosen) × Taken codes.now s.now
        × Exported codes.now
        × (given_at tags.now flags.now htags.now hflags.now offered.now s.now (length out.old) ≡ clear) }
    ensures { (result ≡ length (book_octets (rest_book tags.now flags.now htags.now
        hflags.now offered.now s.now)))
        × (out.new ≡ stored out.old 0 (book_octets (rest_book tags.now
        flags.now htags.now hflags.now offered.now
        s.now))) }
{
    let records = lay_down(tags, codes, flags, htags, hflags, offered, s, out);
    finish_book(records.written, htags.len(), tags.len(), records.count, out)
}

// The book of lines that are a sheet's, where the writer's calls refuse nothing.
fn give_book(
    tags: &[u32],
    codes: &[u32],
    flags: &[u32],
    htags: &[u32],
    hflags: &[u32],
    offered: &[u8],
    s: &[u8],
    out: &mut [u8],
) -> Answer<usize>
    requires { (codes.now ≡ codes_of tags.now) × (length codes.now ≤ most_chosen) × Taken codes.now s.now
        × Exported codes.now }
    ensures { (result ≡ given_answer tags.now flags.now htags.now
        hflags.now offered.now s.now out.old)
        × (out.new ≡ given_octets tags.now flags.now htags.now
        hflags.now offered.now s.now out.old) }
{
    judge_given(tags, codes, flags, htags, hflags, offered, s, out.len())?;
    Ok(write_book(tags, codes, flags, htags, hflags, offered, s, out))
}

// Behind the first line: `s` are the lines, which stand at `width`, of these tags.
fn from_lines(
    tags: &[u32],
    flags: &[u32],
    htags: &[u32],
    hflags: &[u32],
    offered: &[u8],
    width: usize,
    s: &[u8],
    out: &mut [u8],
) -> Answer<usize>
    requires { (length tags.now ≤ most_chosen) × (width + length s.now < 2 ^ 64) }
    ensures { (result ≡ rest_answer tags.now flags.now htags.now
        hflags.now offered.now width s.now out.old)
        × (out.new ≡ rest_octets tags.now flags.now htags.now
        hflags.now offered.now width s.now out.old) }
{
    let k = tags.len();
    let codes = codes_of(tags);
    judge_asked(tags, &codes[0..k], flags, width, s)?;
    give_book(tags, &codes[0..k], flags, htags, hflags, offered, s, out)
}

// The book of the sheet `text`, with these column flags, and with this header record of a table of these tags and
// flags.
pub fn from_sheet(
    text: &[u8],
    flags: &[u32],
    htags: &[u32],
    hflags: &[u32],
    offered: &[u8],
    out: &mut [u8],
) -> Answer<usize>
    ensures { (result ≡ from_answer text.now flags.now htags.now
        hflags.now offered.now out.old)
        × (out.new ≡ from_octets text.now flags.now htags.now
        hflags.now offered.now out.old) }
{
    match scanning::read_first_line(text) {
        Ok(first) => from_lines(
            &first.tags[0..first.count],
            flags,
            htags,
            hflags,
            offered,
            first.end,
            &text[first.end..],
            out,
        ),
        Err(place) => refuse(answers::WRONG_SHEET, place),
    }
}
