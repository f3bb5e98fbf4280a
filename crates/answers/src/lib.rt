// The answers' one vocabulary: a refusal is its number and its place, an answer is a value or a refusal, a verdict is
// an answer without a value, a walk over a value ends or breaks.
// Each refusal number and each house limit is named here, and nowhere else in code.
#![tactic(auto)]

ghost use Rattle.std.specs.Prelude.{◌≡◌, Err};
ghost use Rattle.answers.specs.Verdict.{refusal};

// A number, and no enum: `refuse` takes every number, and calls for C answer it as it is.
#[derive(Clone, Copy, Debug, PartialEq, Eq)]
pub struct Refusal {
    pub number: u32,
    pub place: usize,
}

// What a call answers: a value, or the refusal.
pub type Answer<T> = Result<T, Refusal>;

pub type Verdict = Answer<()>;

// Counted from the value's start: the octet behind its last, or where it breaks.
pub type Walk = Result<usize, usize>;

pub const TOO_LONG: u32 = 1;

pub const CUT_SHORT: u32 = 2;

pub const WRONG_VERSION: u32 = 3;

pub const WRONG_METADATA: u32 = 4;

pub const MANY_COLUMNS: u32 = 5;

pub const UNKNOWN_TYPE: u32 = 6;

pub const REPEATED_TAG: u32 = 7;

pub const WRONG_SIZE: u32 = 8;

pub const SPARE_BIT: u32 = 9;

pub const KEY_ABSENT: u32 = 10;

pub const BROKEN_VALUE: u32 = 11;

pub const OCTETS_LEFT: u32 = 12;

pub const WRONG_COUNT: u32 = 13;

pub const WRONG_SERIAL: u32 = 14;

pub const OUT_OF_TURN: u32 = 15;

pub const BREAKS_RULE: u32 = 16;

pub const NO_ROOM: u32 = 17;

pub const BREAKS_FORM: u32 = 18;

pub const WRONG_INDEX: u32 = 19;

pub const WRONG_SHEET: u32 = 20;

pub const MOST_OCTETS: usize = 268435456;

pub const MOST_COLUMNS: usize = 128;

pub const MOST_RECORDS: usize = 65535;

// The records of a writing, the header record first.
pub const MOST_OPENED: usize = MOST_RECORDS + 1;

pub fn refuse<T>(number: u32, place: usize) -> Answer<T>
    ensures { result ≡ Err (refusal number place) }
{
    Err(Refusal { number, place })
}
