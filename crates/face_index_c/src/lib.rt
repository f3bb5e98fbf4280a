// The calls of face_index for C: each export calls the function of the same name there, with the same clauses.
#![tactic(auto)]

ghost use Rattle.std.specs.Prelude.{◌≡◌};
ghost use Rattle.face_reading.specs.Lent.{made_number, made_numbers};
ghost use Rattle.face_reading.specs.Looking.{looked_number, looked_numbers};
ghost use Rattle.index.specs.Index.{make_answer, make_octets, entry_of, indexed_of};
ghost use Rattle.face_index.specs.Placing.{placed_number, placed_numbers};

// Place, and the index's length.
#[unsafe(no_mangle)]
pub extern "C" fn wt_index(book: &[u8], buf: &mut [u8], out: &mut [u64; 2]) -> u32
    ensures { (result ≡ made_number (make_answer book.now buf.old))
        × (out.new ≡ made_numbers (make_answer book.now buf.old))
        × (buf.new ≡ make_octets book.now buf.old) }
{
    face_index::wt_index(book, buf, out)
}

// Place, and where address record k starts.
#[unsafe(no_mangle)]
pub extern "C" fn wt_index_entry(book: &[u8], index: &[u8], k: u64, out: &mut [u64; 2]) -> u32
    ensures { (result ≡ placed_number (entry_of book.now index.now k))
        × (out.new ≡ placed_numbers (entry_of book.now index.now k)) }
{
    face_index::wt_index_entry(book, index, k, out)
}

// Place, whether there is a value, and where its encoding starts and ends.
#[unsafe(no_mangle)]
pub extern "C" fn wt_lookup_indexed(
    book: &[u8],
    index: &[u8],
    k: u64,
    tag: u32,
    out: &mut [u64; 4],
) -> u32
    ensures { (result ≡ looked_number (indexed_of book.now index.now k tag))
        × (out.new ≡ looked_numbers (indexed_of book.now index.now k tag)) }
{
    face_index::wt_lookup_indexed(book, index, k, tag, out)
}
