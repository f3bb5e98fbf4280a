// The calls of face_sheet for C: each export calls the function of the same name there, with the same clauses.
#![tactic(auto)]

ghost use Rattle.std.specs.Prelude.{◌≡◌};
ghost use Rattle.face_reading.specs.Lent.{made_number, made_numbers};
ghost use Rattle.exporting.specs.Export.{length_answer, export_answer, export_octets};
ghost use Rattle.importing.specs.From.{from_answer, from_octets};

// Place, and the sheet's length.
#[unsafe(no_mangle)]
pub extern "C" fn wt_sheet_length(book: &[u8], tags: &[u32], out: &mut [u64; 2]) -> u32
    ensures { (result ≡ made_number (length_answer book.now tags.now))
        × (out.new ≡ made_numbers (length_answer book.now tags.now)) }
{
    face_sheet::wt_sheet_length(book, tags, out)
}

#[unsafe(no_mangle)]
pub extern "C" fn wt_sheet(book: &[u8], tags: &[u32], text: &mut [u8], out: &mut [u64; 2]) -> u32
    ensures { (result ≡ made_number (export_answer book.now tags.now text.old))
        × (out.new ≡ made_numbers (export_answer book.now tags.now text.old))
        × (text.new ≡ export_octets book.now tags.now text.old) }
{
    face_sheet::wt_sheet(book, tags, text, out)
}

// Place, and the book's length.
#[unsafe(no_mangle)]
pub extern "C" fn wt_from_sheet(
    text: &[u8],
    flags: &[u32],
    htags: &[u32],
    hflags: &[u32],
    offered: &[u8],
    book: &mut [u8],
    out: &mut [u64; 2],
) -> u32
    ensures { (result ≡ made_number (from_answer text.now flags.now htags.now
        hflags.now offered.now book.old))
        × (out.new ≡ made_numbers (from_answer text.now flags.now htags.now
        hflags.now offered.now book.old))
        × (book.new ≡ from_octets text.now flags.now htags.now
        hflags.now offered.now book.old) }
{
    face_sheet::wt_from_sheet(text, flags, htags, hflags, offered, book, out)
}
