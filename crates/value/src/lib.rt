// Values (2.9.6): the walk over one value at the front of a part, which never passes the part's end, and the table of the ten types.
#![tactic(auto)]

mod types;
mod walks;

pub use types::{BINARY, FORMS, LIST, NARROW, NUMBER, TEXT, TRUTH, UNKNOWN, form_of};
pub use walks::{is_short, walk_value};
