// What a line says.
ghost use Rattle.std.specs.Prelude.{◌≡◌};
ghost use Rattle.run.specs.Lines.{last_said, or_before, said_handle};

use crate::registers::{Registers, VACANT};
use program::action::{Action, Row};

// The handle of what some rows say last.
pub(crate) fn said(rows: &[Row], registers: &Registers) -> u32
    ensures { result ≡ last_said registers.now rows.now }
{
    let mut said = VACANT;
    for row in rows {
        said = either(says(row.action, registers), said);
    }
    said
}

// The handle of what an action says.
fn says(action: Action, registers: &Registers) -> u32
    ensures { result ≡ said_handle registers.now action }
{
    match action {
        Action::Say { source } => registers.at(source),
        _ => VACANT,
    }
}

// A handle, or else the one before it.
fn either(handle: u32, before: u32) -> u32
    ensures { result ≡ or_before handle before }
{
    if handle == VACANT { before } else { handle }
}
