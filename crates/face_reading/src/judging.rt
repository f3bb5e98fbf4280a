// A book judged, the columns of its tables, and the serial of any octets.
ghost use Rattle.std.specs.Prelude.{◌≡◌};
ghost use Rattle.serial.specs.Serial.{serial_of};
ghost use Rattle.book.specs.Judged.{judged_of};
ghost use Rattle.face_reading.specs.Judging.{judged_number, judged_numbers, table_of, columns_numbers, columns_left};

use crate::lent::answer_number;
use answers::{Answer, MOST_COLUMNS};
use book::Judgement;
use table::Columns;

fn judged_numbers(judged: Answer<Judgement>) -> [u64; 7]
    ensures { result ≡ judged_numbers judged }
{
    match judged {
        Ok(j) => [
            0,
            j.length as u64,
            j.count as u64,
            j.head as u64,
            j.first as u64,
            j.header.count as u64,
            j.address.count as u64,
        ],
        Err(r) => [r.place as u64, 0, 0, 0, 0, 0, 0],
    }
}

// Place, length, count, the places of the header record and of the first address record, the columns of each table.
pub fn wt_judge(book: &[u8], out: &mut [u64; 7]) -> u32
    ensures { (result ≡ judged_number (judged_of book.now))
        × (out.new ≡ judged_numbers (judged_of book.now)) }
{
    let judged = book::judge(book);
    *out = judged_numbers(judged);
    answer_number(judged)
}

// ---- the columns of a table

// The header table where `address` is 0, else the address table.
fn table_of(j: Judgement, address: u32) -> Columns
    ensures { result ≡ table_of j address }
{
    if address == 0 {
        return j.header;
    }
    j.address
}

// The tags and the flags of a table, each with zeros behind; place and how many columns it has.
pub fn wt_columns(
    book: &[u8],
    address: u32,
    tags: &mut [u32; MOST_COLUMNS],
    flags: &mut [u32; MOST_COLUMNS],
    out: &mut [u64; 2],
) -> u32
    ensures { (result ≡ judged_number (judged_of book.now))
        × (tags.new ≡ columns_left (judged_of book.now) (λ j. (table_of j address).tags) tags.old)
        × (flags.new ≡ columns_left (judged_of book.now) (λ j. (table_of j address).flags) flags.old)
        × (out.new ≡ columns_numbers (judged_of book.now) address) }
{
    match book::judge(book) {
        Ok(j) => {
            let t = table_of(j, address);
            let every_tag = t.tags;
            let every_flag = t.flags;
            *tags = every_tag;
            *flags = every_flag;
            *out = [0, t.count as u64];
            0
        }
        Err(r) => {
            *out = [r.place as u64, 0];
            r.number
        }
    }
}

// The serial that a book has whose octets from 12 on are these.
pub fn wt_serial(s: &[u8]) -> u32
    ensures { result ≡ serial_of s.now }
{
    serial::serial_of(s)
}
