// The actions of a line, one after the other.
ghost use Rattle.std.specs.Prelude.{ℕ, ◌≡◌, ◌<◌, ◌+◌, true, length};
ghost use Rattle.program.specs.Held.{has, from};
ghost use Rattle.run.specs.Shown.{register, vacant};
ghost use Rattle.run.specs.Filling.{filled_by};
ghost use Rattle.run.specs.Lines.{Performs, Empties};

use crate::fault::RunFault;
use crate::registers::{Registers, VACANT};
use crate::step::step;
use crate::supply::Supply;
use program::action::Row;
use program::check::Span;
use store::store::Store;

// The actions in order, where the first has a place. How many numbers are taken after them; or the fault, and then the registers that
// they filled are empty again.
pub(crate) fn perform<S: Store>(
    rows: &[Row],
    place: usize,
    store: &mut S,
    registers: &mut Registers,
    supply: Supply,
) -> Result<usize, RunFault>
    requires empty { (r : ℕ) → has r (filled_by rows.now) ≡ true → register registers.old r ≡ vacant }
    requires fits { place + length rows.now < 18446744073709551616 }
    ensures { Performs S.semantics rows.now place store.old store.new registers.old registers.new supply.entry result }
{
    let mut left = supply;
    for (i, row) in rows.iter().enumerate() {
        if let Err(fault) = step(row.action, store, registers, &mut left) {
            forget(registers, &rows[..i + 1]);
            return Err(fault.at(place + i));
        }
    }
    Ok(left.used)
}

// The registers that some rows fill are emptied.
fn forget(registers: &mut Registers, rows: &[Row])
    ensures { Empties (filled_by rows.now) registers.old registers.new }
{
    for row in rows {
        empty(registers, row.action.fills());
    }
}

// Registers in a row are emptied.
fn empty(registers: &mut Registers, span: Span)
    ensures { Empties (from span.first span.count) registers.old registers.new }
{
    for i in 0..span.count as usize {
        registers.fill(span.first as usize + i, VACANT);
    }
}
