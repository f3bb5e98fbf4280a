// Numbers and truths: octet by octet, but for the digits behind a number's first one. That the type is no string is asked
// of each step: the definitions go by the code, and a type for the two codes would have to be turned back in each clause.
ghost use Rattle.std.specs.Prelude.{◌≡◌, false, cond, ◌≤◌, leb, length, drop};
ghost use Rattle.sheet.specs.Field.{numbers};
ghost use Rattle.sheet.specs.Values.{is_string};
ghost use Rattle.scanning.specs.declared.Fill.TheVariants.{Nothing};
ghost use Rattle.scanning.specs.declared.Stage.TheVariants.{Outside, Inside, Behind};
ghost use Rattle.scanning.specs.Steps.{spells, filled, takes, step_of, field_from};
ghost use Rattle.scanning.specs.FieldBack.{AnEnd};
ghost use Rattle.scanning.specs.Passing.{pass_from};

use crate::{Fill, Stage, Step};
use answers::Walk;
use sheet::{NUMBERS, QUOTE};

#[tactic(auto, unfolding(crate::specs::Steps::spells))]
fn is_digit(x: u8) -> bool
    ensures { result ≡ spells numbers x }
{
    (b'0'..=b'9').contains(&x)
}

// Whether x is a digit of a number, or a truth's 0 or 1.
#[tactic(auto, using(crate::specs::DigitCases::spelt_cases))]
fn is_spelt(code: u32, x: u8) -> bool
    requires { is_string code ≡ false }
    ensures { result ≡ spells code x }
{
    if code == NUMBERS {
        is_digit(x)
    } else {
        matches!(x, b'0' | b'1')
    }
}

#[tactic(auto, using(crate::specs::DigitCases::takes_cases))]
fn is_taken(code: u32, fill: Fill, x: u8) -> bool
    requires { is_string code ≡ false }
    ensures { result ≡ takes code fill x }
{
    fill != Fill::All && is_spelt(code, x)
}

#[tactic(auto, using(crate::specs::DigitCases::fill_cases))]
fn fill_after(code: u32, fill: Fill, x: u8) -> Fill
    requires { is_string code ≡ false }
    ensures { result ≡ filled code fill x }
{
    if code == NUMBERS && (fill != Fill::Nothing || x != b'0') {
        Fill::More
    } else {
        Fill::All
    }
}

#[tactic(auto, using(crate::specs::DigitCases::out_cases))]
fn outside(code: u32, end: u8, fill: Fill, x: u8) -> Step
    requires { is_string code ≡ false }
    ensures { result ≡ step_of code end (Outside fill) x }
{
    if x == end {
        Step::Ends
    } else if x == QUOTE {
        if fill == Fill::Nothing {
            Step::Goes(Stage::Inside(Fill::Nothing))
        } else {
            Step::Broken
        }
    } else if is_taken(code, fill, x) {
        Step::Goes(Stage::Outside(fill_after(code, fill, x)))
    } else {
        Step::Broken
    }
}

#[tactic(auto, using(crate::specs::DigitCases::in_cases))]
fn inside(code: u32, end: u8, fill: Fill, x: u8) -> Step
    requires { is_string code ≡ false }
    ensures { result ≡ step_of code end (Inside fill) x }
{
    if x == QUOTE {
        Step::Goes(Stage::Behind)
    } else if is_taken(code, fill, x) {
        Step::Goes(Stage::Inside(fill_after(code, fill, x)))
    } else {
        Step::Broken
    }
}

#[tactic(auto, using(crate::specs::DigitCases::behind_cases))]
fn behind(code: u32, end: u8, x: u8) -> Step
    requires { is_string code ≡ false }
    ensures { result ≡ step_of code end Behind x }
{
    if x == end { Step::Ends } else { Step::Broken }
}

fn step_on(code: u32, end: u8, stage: Stage, x: u8) -> Step
    requires { is_string code ≡ false }
    ensures { result ≡ step_of code end stage x }
{
    match stage {
        Stage::Outside(fill) => outside(code, end, fill, x),
        Stage::Inside(fill) => inside(code, end, fill, x),
        Stage::Behind => behind(code, end, x),
    }
}

// Where the field from `at` ends.
#[tactic(auto, using(crate::specs::DigitCases::digits_cases))]
pub fn walk_steps(text: &[u8], at: usize, code: u32, end: u8) -> Walk
    requires { (at ≤ length text.now) × (is_string code ≡ false) }
    ensures { result ≡ field_from code end (Outside Nothing) at (drop at text.now) }
{
    let mut stage = Stage::Outside(Fill::Nothing);
    for i in at..text.len() {
        match step_on(code, end, stage, text[i]) {
            Step::Ends => return Ok(i),
            Step::Broken => return Err(i),
            Step::Goes(next) => stage = next,
        }
    }
    Err(text.len())
}

// Digits up to the end.
#[tactic(auto, using(crate::specs::StringCases::walk_cases))]
fn walk_more(text: &[u8], at: usize, end: u8) -> Walk
    requires { at ≤ length text.now }
    ensures { result ≡ pass_from (spells numbers) end at (drop at text.now) }
{
    for i in at..text.len() {
        let x = text[i];
        if !is_digit(x) {
            return if x == end { Ok(i) } else { Err(i) };
        }
    }
    Err(text.len())
}

fn is_first(x: u8) -> bool
    ensures { result ≡ cond (leb 49 x) (leb x 57) false }
{
    (b'1'..=b'9').contains(&x)
}

// Where the number's field from `at` ends: behind a first digit that others may follow they are passed.
#[tactic(auto, using(crate::specs::DigitCases::number_cases))]
pub fn walk_number(text: &[u8], at: usize, end: u8) -> Walk
    requires { (at ≤ length text.now) × AnEnd end }
    ensures { result ≡ field_from numbers end (Outside Nothing) at (drop at text.now) }
{
    if text.len() <= at {
        return Err(at);
    }
    if is_first(text[at]) {
        return walk_more(text, at + 1, end);
    }
    walk_steps(text, at, NUMBERS, end)
}
