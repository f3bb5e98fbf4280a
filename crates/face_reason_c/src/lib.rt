// The calls of face_reason for C: each export calls the function of the same name there, with the same clauses.
#![tactic(auto)]

ghost use Rattle.std.specs.Prelude.{◌≡◌};
ghost use Rattle.face_reading.specs.Looking.{which_of};
ghost use Rattle.reason.specs.Why.{why_of};
ghost use Rattle.face_reason.specs.Reasons.{reason_number, reason_numbers};

// Place, the reason, the place that shows it, and the tag of the column of another type.
#[unsafe(no_mangle)]
pub extern "C" fn wt_why(book: &[u8], number: u64, tag: u32, out: &mut [u64; 4]) -> u32
    ensures { (result ≡ reason_number (why_of book.now (which_of number) tag))
        × (out.new ≡ reason_numbers (why_of book.now (which_of number) tag)) }
{
    face_reason::wt_why(book, number, tag, out)
}
