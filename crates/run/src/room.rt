// What a run needs room for.
ghost use Rattle.std.specs.Prelude.{◌≡◌, ◌+◌, ◌≤◌, ◌++◌, length, vec_capacity};
ghost use Rattle.run.specs.Filling.{filled_by, span_to};

use program::action::Row;

// How many registers have all that some rows fill.
pub(crate) fn width(rows: &[Row]) -> usize
    ensures { result ≡ span_to (filled_by rows.now) }
{
    let mut width: usize = 0;
    for row in rows {
        let span = row.action.fills();
        if span.count > 0 {
            width = width.max(span.first as usize + span.count as usize);
        }
    }
    width
}

// Numbers go behind those that are held, where there is room.
pub(crate) fn append(held: &mut Vec<u32>, numbers: &[u32])
    requires { length held.old.items + length numbers.now ≤ vec_capacity held.old }
    ensures items { held.new.items ≡ held.old.items ++ numbers.now }
    ensures capacity { vec_capacity held.new ≡ vec_capacity held.old }
{
    for number in numbers {
        held.push_reserved(*number);
    }
}
