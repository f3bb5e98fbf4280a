// The chosen tags: whether they may be exported, and the column of each.
ghost use Rattle.std.specs.Prelude.{◌≡◌, ◌≤◌, length};
ghost use Rattle.sheet.specs.Field.{most_chosen};
ghost use Rattle.exporting.specs.Export.{all_known, choice_at};
ghost use Rattle.exporting.specs.Steps.{place_of, places_for};

use answers::{Verdict, refuse};
use sheet::{MOST_CHOSEN, all_exported};

// Whether each tag is a column's.
fn all_known(cols: &[u32], tags: &[u32]) -> bool
    ensures { result ≡ all_known cols.now tags.now }
{
    tags.iter()
        .all(|tag| lookup::find_column(cols, *tag).is_some())
}

pub fn judge_choice(cols: &[u32], tags: &[u32]) -> Verdict
    ensures { result ≡ choice_at cols.now tags.now }
{
    if !all_known(cols, tags) {
        return refuse(answers::OUT_OF_TURN, 0);
    }
    if !all_exported(tags) {
        return refuse(answers::BREAKS_FORM, 0);
    }
    if tags.len() < 1 {
        return refuse(answers::BREAKS_FORM, 0);
    }
    if MOST_CHOSEN < tags.len() {
        return refuse(answers::BREAKS_FORM, 0);
    }
    if table::first_repeat(tags).is_some() {
        return refuse(answers::BREAKS_FORM, 0);
    }
    Ok(())
}

fn place_of(cols: &[u32], tag: u32) -> usize
    ensures { result ≡ place_of cols.now tag }
{
    lookup::find_column(cols, tag).unwrap_or(0)
}

// The column of each tag.
#[tactic(auto, using(crate::specs::ChoiceCases::places_cases))]
pub fn find_places(cols: &[u32], tags: &[u32]) -> [usize; MOST_CHOSEN]
    requires { length tags.now ≤ most_chosen }
    ensures { result ≡ places_for cols.now tags.now }
{
    let mut places = [0usize; MOST_CHOSEN];
    for (i, tag) in tags.iter().enumerate() {
        places[i] = place_of(cols, *tag);
    }
    places
}
