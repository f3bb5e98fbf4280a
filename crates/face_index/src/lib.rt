// A saved index, for C programs: made from a book, read beside it, and a value looked up through it. No call relies on
// an earlier one. The header record isn't offered through an index.
#![tactic(auto)]

ghost use Rattle.std.specs.Prelude.{◌≡◌};
ghost use Rattle.face_reading.specs.Lent.{made_number, made_numbers};
ghost use Rattle.face_reading.specs.Looking.{looked_number, looked_numbers};
ghost use Rattle.index.specs.Index.{make_answer, make_octets, entry_of, indexed_of};
ghost use Rattle.face_index.specs.Placing.{placed_number, placed_numbers};

use face_reading::{answer_number, looked_numbers, made_numbers};

// Place, and the index's length.
pub fn wt_index(book: &[u8], buf: &mut [u8], out: &mut [u64; 2]) -> u32
    ensures { (result ≡ made_number (make_answer book.now buf.old))
        × (out.new ≡ made_numbers (make_answer book.now buf.old))
        × (buf.new ≡ make_octets book.now buf.old) }
{
    let made = index::make_index(book, buf);
    *out = made_numbers(made);
    answer_number(made)
}

// Place, and where address record k starts.
pub fn wt_index_entry(book: &[u8], index: &[u8], k: u64, out: &mut [u64; 2]) -> u32
    ensures { (result ≡ placed_number (entry_of book.now index.now k))
        × (out.new ≡ placed_numbers (entry_of book.now index.now k)) }
{
    let placed = index::entry_at(book, index, k as usize);
    *out = made_numbers(placed);
    answer_number(placed)
}

// Place, whether there is a value, and where its encoding starts and ends.
pub fn wt_lookup_indexed(book: &[u8], index: &[u8], k: u64, tag: u32, out: &mut [u64; 4]) -> u32
    ensures { (result ≡ looked_number (indexed_of book.now index.now k tag))
        × (out.new ≡ looked_numbers (indexed_of book.now index.now k tag)) }
{
    let looked = index::lookup_indexed(book, index, k as usize, tag);
    *out = looked_numbers(looked);
    answer_number(looked)
}
