// The types that can stand in a sheet, by the lower half of a tag, and how many tags there may be.
ghost use Rattle.std.specs.Prelude.{◌≡◌};
ghost use Rattle.sheet.specs.Field.{is_exported, all_exported};

pub const MOST_CHOSEN: usize = 16;

pub const NUMBERS: u32 = 0x0003;

pub const TRUTHS: u32 = 0x000B;

const NARROWS: u32 = 0x001E;

pub const TEXTS: u32 = 0x001F;

#[tactic(auto, unfolding(crate::specs::Field::is_exported))]
fn is_exported(code: u32) -> bool
    ensures { result ≡ is_exported code }
{
    matches!(code, NUMBERS | TRUTHS | NARROWS | TEXTS)
}

// Whether the type of each tag can be exported.
pub fn all_exported(tags: &[u32]) -> bool
    ensures { result ≡ all_exported tags.now }
{
    tags.iter().all(|tag| is_exported(*tag % 65536))
}
