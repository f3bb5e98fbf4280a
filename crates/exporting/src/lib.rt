// A sheet of chosen address columns of a book (request 101): the book is judged once, then the choice; the sheet is
// measured by one pass over the records and written by another. A refusal leaves every octet; the octets behind the
// sheet stay as lent.
#![tactic(auto)]

mod choice;
mod digits;
mod fields;
mod lines;
mod strings;

ghost use Rattle.std.specs.Prelude.{◌≡◌, ◌^◌, ◌≤◌, ◌<◌, length, take};
ghost use Rattle.octets.specs.Splice.{splice};
ghost use Rattle.answers.specs.Numbers.{most_records};
ghost use Rattle.sheet.specs.Field.{most_chosen};
ghost use Rattle.exporting.specs.Export.{length_answer, export_answer, export_octets};
ghost use Rattle.exporting.specs.Steps.{sheet_by, sheet_from, good_length, good_answer, good_octets};

use answers::{Answer, refuse};
use book::Judgement;
use choice::{find_places, judge_choice};

// How many octets the sheet of good records takes; `places` has the column of each tag.
fn sheet_size(book: &[u8], j: &Judgement, tags: &[u32], places: &[usize]) -> usize
    requires { (length book.now < 2 ^ 32) × (j.now.first < 2 ^ 32) × (j.now.count ≤ most_records)
        × (length tags.now ≤ most_chosen) }
    ensures { result ≡ length (sheet_by book.now (take j.now.address.count j.now.address.forms) tags.now
        places.now j.now.count j.now.first) }
{
    9 * tags.len() + 1 + lines::lines_size(book, j, tags, places)
}

// The length of the sheet of a good book, or the choice's refusal.
fn measure_good(book: &[u8], j: &Judgement, tags: &[u32]) -> Answer<usize>
    requires { (length book.now < 2 ^ 32) × (j.now.first < 2 ^ 32) × (j.now.count ≤ most_records) }
    ensures { result ≡ good_length book.now j.now.address tags.now j.now.count j.now.first }
{
    let all = j.address.tags();
    judge_choice(all, tags)?;
    let places = find_places(all, tags);
    let k = tags.len();
    Ok(sheet_size(book, j, tags, &places[0..k]))
}

// The sheet of a good book, where there is room for it.
fn write_good(book: &[u8], j: &Judgement, tags: &[u32], out: &mut [u8])
    requires { (j.now.first < 2 ^ 32) × (j.now.count ≤ most_records) × (length tags.now ≤ most_chosen)
        × (length (sheet_from book.now j.now.address tags.now j.now.count j.now.first) ≤ length out.old) }
    ensures { out.new ≡ splice out.old 0
        (sheet_from book.now j.now.address tags.now j.now.count j.now.first) }
{
    let places = find_places(j.address.tags(), tags);
    let k = tags.len();
    let at = lines::put_tags(out, 0, tags);
    lines::put_lines(out, at, book, j, tags, &places[0..k]);
}

fn export_good(book: &[u8], j: &Judgement, tags: &[u32], out: &mut [u8]) -> Answer<usize>
    requires { (length book.now < 2 ^ 32) × (j.now.first < 2 ^ 32) × (j.now.count ≤ most_records) }
    ensures { (result ≡ good_answer book.now j.now.address tags.now j.now.count j.now.first out.old)
        × (out.new ≡ good_octets book.now j.now.address tags.now j.now.count j.now.first out.old) }
{
    let size = measure_good(book, j, tags)?;
    if out.len() < size {
        return refuse(answers::NO_ROOM, 0);
    }
    write_good(book, j, tags, out);
    Ok(size)
}

// How long the sheet of these tags is.
pub fn sheet_length(book: &[u8], tags: &[u32]) -> Answer<usize>
    ensures { result ≡ length_answer book.now tags.now }
{
    let j = book::judge(book)?;
    measure_good(book, &j, tags)
}

// The sheet of these tags in the lent buffer.
pub fn export(book: &[u8], tags: &[u32], out: &mut [u8]) -> Answer<usize>
    ensures { (result ≡ export_answer book.now tags.now out.old)
        × (out.new ≡ export_octets book.now tags.now out.old) }
{
    let j = book::judge(book)?;
    export_good(book, &j, tags, out)
}
