// Sheets, for C programs: how long the sheet of chosen address columns is, its text, and a book from a sheet. No call
// relies on an earlier one.
#![tactic(auto)]

ghost use Rattle.std.specs.Prelude.{◌≡◌};
ghost use Rattle.face_reading.specs.Lent.{made_number, made_numbers};
ghost use Rattle.exporting.specs.Export.{length_answer, export_answer, export_octets};
ghost use Rattle.importing.specs.From.{from_answer, from_octets};

use face_reading::{answer_number, made_numbers};

// Place, and the sheet's length.
pub fn wt_sheet_length(book: &[u8], tags: &[u32], out: &mut [u64; 2]) -> u32
    ensures { (result ≡ made_number (length_answer book.now tags.now))
        × (out.new ≡ made_numbers (length_answer book.now tags.now)) }
{
    let measured = exporting::sheet_length(book, tags);
    *out = made_numbers(measured);
    answer_number(measured)
}

pub fn wt_sheet(book: &[u8], tags: &[u32], text: &mut [u8], out: &mut [u64; 2]) -> u32
    ensures { (result ≡ made_number (export_answer book.now tags.now text.old))
        × (out.new ≡ made_numbers (export_answer book.now tags.now text.old))
        × (text.new ≡ export_octets book.now tags.now text.old) }
{
    let made = exporting::export(book, tags, text);
    *out = made_numbers(made);
    answer_number(made)
}

// Place, and the book's length.
pub fn wt_from_sheet(
    text: &[u8],
    flags: &[u32],
    htags: &[u32],
    hflags: &[u32],
    offered: &[u8],
    book: &mut [u8],
    out: &mut [u64; 2],
) -> u32
    ensures { (result ≡ made_number (from_answer text.now flags.now htags.now
        hflags.now offered.now book.old))
        × (out.new ≡ made_numbers (from_answer text.now flags.now htags.now
        hflags.now offered.now book.old))
        × (book.new ≡ from_octets text.now flags.now htags.now
        hflags.now offered.now book.old) }
{
    let written = importing::from_sheet(text, flags, htags, hflags, offered, book);
    *out = made_numbers(written);
    answer_number(written)
}
