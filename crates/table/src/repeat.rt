// The first row whose tag stands in an earlier row.
ghost use Rattle.std.specs.Prelude.{◌≡◌};
ghost use Rattle.table.specs.Repeat.{repeat_of};

pub fn first_repeat(tags: &[u32]) -> Option<usize>
    ensures { result ≡ repeat_of tags.now }
{
    // Document 01 asks for two loops that a label leaves with the place, and only a `loop` carries a value.
    let mut i = 0;
    let found = 'rows: loop {
        if tags.len() <= i {
            break 'rows None;
        }
        for j in 0..i {
            if tags[j] == tags[i] {
                break 'rows Some(i);
            }
        }
        i += 1;
    };
    found
}
