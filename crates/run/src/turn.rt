// Whose turn it is, and how many values and numbers are wanted.
ghost use Rattle.std.specs.Prelude.{◌≡◌, ◌==◌, ◌&&◌, map};
ghost use Rattle.model.specs.Sessions.{gives, news};
ghost use Rattle.program.specs.Actions.{row_act, act_of};
ghost use Rattle.run.specs.Plain.{is_hear};
ghost use Rattle.run.specs.Filling.{line_rows};
ghost use Rattle.run.specs.Turned.{is_give, is_new};

use program::action::{Action, Row};

// Which call is asked for.
#[derive(Clone, Copy)]
pub(crate) enum Asked {
    Begin,
    Say,
    Hear,
}

pub(crate) fn hears(action: Action) -> bool
    ensures { result ≡ is_hear (act_of action) }
{
    matches!(action, Action::Hear { .. })
}

fn gives(action: Action) -> bool
    ensures { result ≡ is_give (act_of action) }
{
    matches!(action, Action::Give { .. })
}

fn makes(action: Action) -> bool
    ensures { result ≡ is_new (act_of action) }
{
    matches!(action, Action::New { .. })
}

// The rows at the front that have a line.
pub(crate) fn front<'a>(rows: &'a [Row], line: usize) -> &'a [Row]
    ensures { result.now ≡ line_rows line rows.now }
{
    for (i, row) in rows.iter().enumerate() {
        if row.line != line {
            return &rows[..i];
        }
    }
    rows
}

// Does a begin have as many values and numbers as are wanted?
pub(crate) fn counts_fit(line: &[Row], rows: &[Row], values: usize, numbers: usize) -> bool
    ensures { result ≡ (values == gives (map row_act line.now) && numbers == news (map row_act rows.now)) }
{
    values == count_gives(line) && numbers == count_news(rows)
}

// How many values are given.
fn count_gives(rows: &[Row]) -> usize
    ensures { result ≡ gives (map row_act rows.now) }
{
    let mut count = 0;
    for row in rows {
        if gives(row.action) {
            count += 1;
        }
    }
    count
}

// How many atoms are made.
pub(crate) fn count_news(rows: &[Row]) -> usize
    ensures { result ≡ news (map row_act rows.now) }
{
    let mut count = 0;
    for row in rows {
        if makes(row.action) {
            count += 1;
        }
    }
    count
}
