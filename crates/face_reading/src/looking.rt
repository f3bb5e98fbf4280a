// A value by its record and its whole tag.
ghost use Rattle.std.specs.Prelude.{◌≡◌};
ghost use Rattle.lookup.specs.Look.{lookup_of};
ghost use Rattle.face_reading.specs.Looking.{which_of, looked_number, looked_numbers};

use crate::lent::answer_number;
use lookup::{Looked, Which};

// The record by its number from 0; the greatest number is the header record.
pub fn which_of(number: u64) -> Which
    ensures { result ≡ which_of number }
{
    if number == 0xFFFF_FFFF_FFFF_FFFF {
        return Which::Header;
    }
    Which::Number(number as usize)
}

pub fn looked_numbers(l: Looked) -> [u64; 4]
    ensures { result ≡ looked_numbers l }
{
    match l {
        Ok(value) => match value {
            Some((start, end)) => [0, 1, start as u64, end as u64],
            None => [0, 0, 0, 0],
        },
        Err(r) => [r.place as u64, 0, 0, 0],
    }
}

// Place, whether there is a value, and where its encoding starts and ends.
pub fn wt_lookup(book: &[u8], number: u64, tag: u32, out: &mut [u64; 4]) -> u32
    ensures { (result ≡ looked_number (lookup_of book.now (which_of number) tag))
        × (out.new ≡ looked_numbers (lookup_of book.now (which_of number) tag)) }
{
    let which = which_of(number);
    let l = lookup::lookup(book, which, tag);
    *out = looked_numbers(l);
    answer_number(l)
}
