// The calls of face_reading for C: each export calls the function of the same name there, with the same clauses.
#![tactic(auto)]

ghost use Rattle.std.specs.Prelude.{◌≡◌};
ghost use Rattle.serial.specs.Serial.{serial_of};
ghost use Rattle.book.specs.Judged.{judged_of};
ghost use Rattle.face_reading.specs.Judging.{judged_number, judged_numbers, table_of, columns_numbers, columns_left};
ghost use Rattle.lookup.specs.Look.{lookup_of};
ghost use Rattle.face_reading.specs.Looking.{which_of, looked_number, looked_numbers};
ghost use Rattle.face_reading.specs.Version.{version};

use answers::MOST_COLUMNS;

// Place, length, count, the places of the header record and of the first address record, the columns of each table.
#[unsafe(no_mangle)]
pub extern "C" fn wt_judge(book: &[u8], out: &mut [u64; 7]) -> u32
    ensures { (result ≡ judged_number (judged_of book.now))
        × (out.new ≡ judged_numbers (judged_of book.now)) }
{
    face_reading::wt_judge(book, out)
}

// The tags and the flags of a table, each with zeros behind; place and how many columns it has.
#[unsafe(no_mangle)]
pub extern "C" fn wt_columns(
    book: &[u8],
    address: u32,
    tags: &mut [u32; MOST_COLUMNS],
    flags: &mut [u32; MOST_COLUMNS],
    out: &mut [u64; 2],
) -> u32
    ensures { (result ≡ judged_number (judged_of book.now))
        × (tags.new ≡ columns_left (judged_of book.now) (λ j. (table_of j address).tags) tags.old)
        × (flags.new ≡ columns_left (judged_of book.now) (λ j. (table_of j address).flags) flags.old)
        × (out.new ≡ columns_numbers (judged_of book.now) address) }
{
    face_reading::wt_columns(book, address, tags, flags, out)
}

// The serial that a book has whose octets from 12 on are these.
#[unsafe(no_mangle)]
pub extern "C" fn wt_serial(s: &[u8]) -> u32
    ensures { result ≡ serial_of s.now }
{
    face_reading::wt_serial(s)
}

// Place, whether there is a value, and where its encoding starts and ends.
#[unsafe(no_mangle)]
pub extern "C" fn wt_lookup(book: &[u8], number: u64, tag: u32, out: &mut [u64; 4]) -> u32
    ensures { (result ≡ looked_number (lookup_of book.now (which_of number) tag))
        × (out.new ≡ looked_numbers (lookup_of book.now (which_of number) tag)) }
{
    face_reading::wt_lookup(book, number, tag, out)
}

#[unsafe(no_mangle)]
pub extern "C" fn wt_version() -> u32
    ensures { result ≡ version }
{
    face_reading::wt_version()
}
