// A tag's low 16 bits are its type (2.9.2). The form of its values is a number: that of a kind, which is below LIST, or
// LIST more for a list of the kind. It is no enum: `walk_value` and `judge_record` answer for every u8.
ghost use Rattle.std.specs.Prelude.{◌≡◌, ◌%◌};
ghost use Rattle.value.specs.Types.{number_of};

pub const NUMBER: u8 = 0;

// Yes or no.
pub const TRUTH: u8 = 1;

pub const NARROW: u8 = 2;

pub const TEXT: u8 = 3;

pub const BINARY: u8 = 4;

pub const LIST: u8 = 5;

// Every form of a type is below.
pub const FORMS: u8 = 10;

// The form where the type isn't among the ten.
pub const UNKNOWN: u8 = 255;

// 000D is a reference to another entry, stored as a narrow string (2.9.6.3).
const REFERENCE: u8 = NARROW;

// The ten type codes, each with the form of its values: a constant table that is searched, as document 01 asks.
const TYPES: [(u16, u8); 10] = [
    (0x0003, NUMBER),
    (0x000B, TRUTH),
    (0x000D, REFERENCE),
    (0x001E, NARROW),
    (0x001F, TEXT),
    (0x0102, BINARY),
    (0x1003, LIST + NUMBER),
    (0x101E, LIST + NARROW),
    (0x101F, LIST + TEXT),
    (0x1102, LIST + BINARY),
];

fn form_of_type(code: u16) -> u8
    ensures { result ≡ number_of code }
{
    for (known, form) in &TYPES {
        if *known == code {
            return *form;
        }
    }
    UNKNOWN
}

// The form of a tag's values.
pub fn form_of(tag: u32) -> u8
    ensures { result ≡ number_of (tag % 65536) }
{
    form_of_type((tag % 65536) as u16)
}
