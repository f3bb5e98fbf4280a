// Why a record has no value under a tag, for C programs. The call relies on no earlier one.
#![tactic(auto)]

ghost use Rattle.std.specs.Prelude.{◌≡◌};
ghost use Rattle.face_reading.specs.Looking.{which_of};
ghost use Rattle.reason.specs.Why.{why_of};
ghost use Rattle.face_reason.specs.Reasons.{reason_number, reason_numbers};

use answers::Answer;
use face_reading::{answer_number, which_of};
use reason::Reason;

// The replies as the header file numbers them.
const OTHER_TYPE: u64 = 1;

const NO_COLUMN: u64 = 2;

const LISTED: u64 = 3;

const NOT_LISTED: u64 = 4;

fn reason_numbers(why: Answer<Reason>) -> [u64; 4]
    ensures { result ≡ reason_numbers why }
{
    match why {
        Ok(reason) => match reason {
            Reason::OtherType(tag, row) => [0, OTHER_TYPE, row as u64, tag as u64],
            Reason::NoColumn => [0, NO_COLUMN, 0, 0],
            Reason::Listed(octet) => [0, LISTED, octet as u64, 0],
            Reason::NotListed(octet) => [0, NOT_LISTED, octet as u64, 0],
        },
        Err(r) => [r.place as u64, 0, 0, 0],
    }
}

// Place, the reason, the place that shows it, and the tag of the column of another type.
pub fn wt_why(book: &[u8], number: u64, tag: u32, out: &mut [u64; 4]) -> u32
    ensures { (result ≡ reason_number (why_of book.now (which_of number) tag))
        × (out.new ≡ reason_numbers (why_of book.now (which_of number) tag)) }
{
    let why = reason::why(book, which_of(number), tag);
    *out = reason_numbers(why);
    answer_number(why)
}
