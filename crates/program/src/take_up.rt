// Taking up rows as a program.
ghost use Rattle.std.specs.Prelude.{◌≡◌};
ghost use Rattle.program.specs.declared.take_up.ProgramFault.TheVariants as faults;
ghost use Rattle.program.specs.Held.{CheckLaw};
ghost use Rattle.program.specs.TakenUp.{Holds, TakesUp, Checks};

use crate::action::Row;
use crate::check::Filled;
use crate::held::Program;
use base::NoMemory;
use std::alloc::Global;

#[derive(Clone, Copy, PartialEq, Eq, Debug)]
pub enum ProgramFault {
    // the rows do not pass the check
    Unsound,
    // only a failed allocation gives this
    NoMemory(NoMemory),
}

impl From<NoMemory> for ProgramFault {
    ghost from_gives = { λ e fault. fault ≡ faults.NoMemory e };

    fn from(lack: NoMemory) -> ProgramFault {
        ProgramFault::NoMemory(lack)
    }
}

impl<'a> Program<'a> {
    // The program of some rows, if they pass the check.
    pub fn from_rows(
        heap: Global,
        rows: &'a [Row],
        counts: &'a [u8],
    ) -> Result<Program<'a>, ProgramFault>
        ensures held { Holds rows.entry counts.entry result }
        ensures law { CheckLaw }
    {
        check(heap, rows, counts)?;
        Ok(Program { rows, counts })
    }

    // The rows become this program if they pass the check; otherwise it stays as it was.
    pub fn take_up(
        &mut self,
        heap: Global,
        rows: &'a [Row],
        counts: &'a [u8],
    ) -> Result<(), ProgramFault>
        ensures taken { TakesUp self.old self.new rows.entry counts.entry result }
        ensures law { CheckLaw }
    {
        *self = Program::from_rows(heap, rows, counts)?;
        Ok(())
    }
}

// Whether rows pass the check, one after the other.
fn check(heap: Global, rows: &[Row], counts: &[u8]) -> Result<(), ProgramFault>
    ensures { Checks counts.now rows.now result }
{
    let mut filled = Filled::new(heap)?;
    let mut line = 0;
    for row in rows {
        if !filled.step(*row, counts, line) {
            return Err(ProgramFault::Unsound);
        }
        line = row.line;
    }
    Ok(())
}
