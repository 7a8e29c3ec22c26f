// Values that an action takes apart.
ghost use Rattle.store.specs.Questions.{unlocked_value, Answers};
ghost use Rattle.run.specs.Shown.{register};
ghost use Rattle.run.specs.Actions.{Opens, FitsShape, compound_shape};

use crate::fault::StepFault;
use crate::registers::Registers;
use store::fault::StoreFault;
use store::shape::Shape;
use store::store::Store;

// The text of a register's ciphertext, opened with another's value.
pub(crate) fn decrypt<S: Store>(
    store: &S,
    registers: &Registers,
    source: u16,
    key: u16,
) -> Result<u32, StoreFault>
    ensures { Answers (S.semantics.means store.now) (unlocked_value (S.semantics.means store.now (register registers.now source)) (S.semantics.means store.now (register registers.now key))) result }
{
    store.unlock(registers.at(source), registers.at(key))
}

// A register's tuple, or application of a function, is taken apart.
pub(crate) fn take_apart<S: Store>(
    store: &S,
    registers: &mut Registers,
    first: u16,
    count: u8,
    source: u16,
    function: Option<u8>,
) -> Result<(), StepFault>
    ensures { Opens (S.semantics.means store.now) registers.old registers.new first (S.semantics.means store.now (register registers.old source)) (compound_shape function count) result }
{
    let parts = count;
    let wanted = match function {
        None => Shape::Tuple { parts },
        Some(function) => Shape::Apply { function, parts },
    };
    open(store, registers, first, source, wanted)
}

// A value must have some shape.
fn fit<S: Store>(store: &S, handle: u32, wanted: Shape) -> Result<(), StepFault>
    ensures { FitsShape (S.semantics.means store.now handle) wanted result }
{
    if store.shape(handle)? != wanted {
        return Err(StepFault::Differs);
    }
    Ok(())
}

// The parts of a compound of some shape go into registers in a row.
fn open<S: Store>(
    store: &S,
    registers: &mut Registers,
    first: u16,
    source: u16,
    wanted: Shape,
) -> Result<(), StepFault>
    ensures { Opens (S.semantics.means store.now) registers.old registers.new first (S.semantics.means store.now (register registers.old source)) wanted result }
{
    let handle = registers.at(source);
    fit(store, handle, wanted)?;
    for i in 0..wanted.count() {
        registers.fill(first as usize + i as usize, store.part(handle, i as usize)?);
    }
    Ok(())
}
