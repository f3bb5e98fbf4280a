// The octets that part the fields of a sheet, and the quote.
ghost use Rattle.std.specs.Prelude.{◌≡◌};
ghost use Rattle.sheet.specs.Field.{is_mark};

pub const QUOTE: u8 = 34;

pub const COMMA: u8 = 44;

pub const CR: u8 = 13;

pub const LF: u8 = 10;

#[tactic(auto, unfolding(crate::specs::Field::is_mark))]
pub fn is_mark(x: u8) -> bool
    ensures { result ≡ is_mark x }
{
    matches!(x, COMMA | QUOTE | CR | LF)
}
