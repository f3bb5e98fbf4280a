// Reading, for C programs: a book judged, its columns, a value by record and tag, the serial; every call under a plain
// name. It answers 0 or the number of its refusal; what else it has to say stands in a few numbers that are lent for
// it, the refusal's place first. No call relies on an earlier one.
#![tactic(auto)]

mod judging;
mod lent;
mod looking;
mod version;

pub use judging::{wt_columns, wt_judge, wt_serial};
pub use lent::{answer_number, made_numbers};
pub use looking::{looked_numbers, which_of, wt_lookup};
pub use version::wt_version;
