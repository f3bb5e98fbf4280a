// The text of a sheet, scanned (request 106): the lines behind the first, field by field, and the first line with its
// tags.
#![tactic(auto)]

mod digits;
mod fits;
mod strings;
mod tags;

ghost use Rattle.std.specs.Prelude.{◌≡◌, cond, ◌+◌, ◌^◌, ◌≤◌, ◌<◌, ltb, length, drop};
ghost use Rattle.scanning.specs.declared.Fill.TheVariants.{Nothing};
ghost use Rattle.scanning.specs.declared.Stage.TheVariants.{Outside};
ghost use Rattle.scanning.specs.Steps.{field_from};
ghost use Rattle.scanning.specs.Scan.{fits, held, scan_in};
ghost use Rattle.scanning.specs.First.{head_in, first_line_of};
ghost use Rattle.scanning.specs.FieldBack.{AnEnd};
ghost use Rattle.scanning.specs.ScanCases.{field_passed, passed_of};

use answers::Walk;
use digits::{walk_number, walk_steps};
use fits::fits_field;
use sheet::{COMMA, CR, LF, NUMBERS, TRUTHS};
use strings::walk_string;
use tags::next_of;

// What has been read of what a field holds: nothing, something that more may follow, or something that nothing may
// follow.
#[derive(Clone, Copy, PartialEq, Eq)]
pub enum Fill {
    Nothing,
    More,
    All,
}

// Where the scan of a field stands: outside quotes or inside them, with what has been read, or behind a quote that
// closes or is the first of two.
#[derive(Clone, Copy)]
pub enum Stage {
    Outside(Fill),
    Inside(Fill),
    Behind,
}

// What an octet does to the scan of a field.
#[derive(Clone, Copy)]
pub enum Step {
    Goes(Stage),
    Ends,
    Broken,
}

// What follows a field or a line's end: the scan goes on with a field of the line at a place, or the octet at fault.
type Passed = Result<(usize, usize), usize>;

// Where the scan of the first line stands: in a tag, in quotes or not, with so many digits read; behind the quote that
// closes; or before the LF.
#[derive(Clone, Copy)]
pub enum Stand {
    InTag(bool, u8),
    Behind,
    LineEnd,
}

// What an octet does to it: it goes on with what the digits say so far; a tag has ended; the line has; or no first line
// has the octet there.
#[derive(Clone, Copy)]
pub enum Next {
    Goes(Stand, u32),
    Tag(Stand),
    Done,
    Stop,
}

// The tags of a first line, zeros behind the last, and where the line ends.
#[derive(Clone, Copy)]
pub struct FirstLine {
    pub tags: [u32; 16],
    pub count: usize,
    pub end: usize,
}

// What ends field j of n.
fn end_of(j: usize, n: usize) -> u8
    requires { j < n }
    ensures { (result ≡ cond (ltb (j + 1) n) 44 13) × AnEnd result }
{
    if j + 1 < n { COMMA } else { CR }
}

// Where the field from `at` ends, of the type `code` and ended by the octet `end`.
fn walk_field(text: &[u8], at: usize, code: u32, end: u8) -> Walk
    requires { (at ≤ length text.now) × AnEnd end }
    ensures { result ≡ field_from code end (Outside Nothing) at (drop at text.now) }
{
    if code == NUMBERS {
        return walk_number(text, at, end);
    }
    if code == TRUTHS {
        return walk_steps(text, at, code, end);
    }
    walk_string(text, at, end)
}

// The same, and whether what the field holds is a value; field `column` of its line.
fn pass_field(text: &[u8], code: u32, end: u8, column: usize, at: usize) -> Passed
    requires { (at ≤ length text.now) × AnEnd end × (column + 1 < 2 ^ 64) }
    ensures { result ≡ field_passed code end column at text.now }
{
    let v = walk_field(text, at, code, end)?;
    if !fits_field(code, &text[at..v]) {
        return Err(at);
    }
    Ok((column + 1, v + 1))
}

// A field with its end, or the LF of a line, `column` fields of which are done.
fn pass(text: &[u8], codes: &[u32], column: usize, at: usize) -> Passed
    requires { at < length text.now }
    ensures { result ≡ passed_of codes.now column at text.now }
{
    if column < codes.len() {
        let end = end_of(column, codes.len());
        return pass_field(text, codes[column], end, column, at);
    }
    if text[at] == LF {
        return Ok((0, at + 1));
    }
    Err(at)
}

// Whether the text is lines of fields of these types, or the place of the first fault.
pub fn scan(text: &[u8], codes: &[u32]) -> Walk
    ensures { result ≡ scan_in (held fits) codes.now text.now }
{
    let mut column = 0;
    let mut at = 0;
    // No `for`: each turn passes a whole field, and the next one begins where that one ended.
    while at < text.len() {
        (column, at) = pass(text, codes, column, at)?;
    }
    if column == 0 {
        return Ok(at);
    }
    Err(at)
}

// The first line, or the place of the octet at fault.
#[tactic(auto, using(crate::specs::FirstCases::line_cases))]
pub fn read_first_line(text: &[u8]) -> Result<FirstLine, usize>
    ensures { result ≡ first_line_of (head_in text.now) }
{
    let mut stand = Stand::InTag(false, 0);
    let mut value: u32 = 0;
    let mut count = 0;
    let mut tags: [u32; 16] = [0; 16];
    for (at, x) in text.iter().enumerate() {
        match next_of(stand, value, count, *x) {
            Next::Stop => return Err(at),
            Next::Done => {
                return Ok(FirstLine {
                    tags,
                    count,
                    end: at + 1,
                });
            }
            Next::Goes(next, says) => {
                stand = next;
                value = says;
            }
            Next::Tag(next) => {
                tags[count] = value;
                count += 1;
                stand = next;
                value = 0;
            }
        }
    }
    Err(text.len())
}
