// A sheet: comma-separated text by RFC 4180 whose first line holds tags and whose other lines hold the values of a
// record each (requests 101 and 106). What such text is and what stands in it are definitions; the code here tells the
// octets and the types that a sheet knows, for the crates that write one and read one.
#![tactic(auto)]

mod marks;
mod types;

pub use marks::{COMMA, CR, LF, QUOTE, is_mark};
pub use types::{MOST_CHOSEN, NUMBERS, TEXTS, TRUTHS, all_exported};
