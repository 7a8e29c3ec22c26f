// One action of a run.
ghost use Rattle.std.specs.Prelude.{◌≡◌};
ghost use Rattle.run.specs.Actions.{state_of, compared, Does};

use crate::build::{atom, build, encrypt};
use crate::fault::StepFault;
use crate::open::{decrypt, take_apart};
use crate::registers::Registers;
use crate::supply::Supply;
use program::action::Action;
use store::store::Store;

pub(crate) fn step<S: Store>(
    action: Action,
    store: &mut S,
    registers: &mut Registers,
    supply: &mut Supply,
) -> Result<(), StepFault>
    ensures does { Does S.semantics action store.old (state_of registers.old supply.old) store.new (state_of registers.new supply.new) result }
    ensures numbers { supply.new.numbers.now ≡ supply.old.numbers.now }
{
    match action {
        Action::Give { target } | Action::Hear { target } => registers.keep(target, supply.input()),
        Action::New { target } => registers.keep(target, atom(store, supply)),
        Action::Say { source } => registers.filled(source),
        Action::Same { left, right } => compare(store, registers.at(left), registers.at(right)),
        Action::Crypt { target, text, key } => encrypt(store, registers, target, text, key),
        Action::Tuple { target, parts } => build(store, registers, target, None, parts),
        Action::Apply {
            target,
            function,
            parts,
        } => build(store, registers, target, Some(function), parts),
        Action::OpenCrypt {
            target,
            source,
            key,
        } => registers.keep(target, decrypt(store, registers, source, key)),
        Action::OpenTuple {
            first,
            count,
            source,
        } => take_apart(store, registers, first, count, source, None),
        Action::OpenApply {
            first,
            count,
            source,
            function,
        } => take_apart(store, registers, first, count, source, Some(function)),
    }
}

// Two values must be equal.
fn compare<S: Store>(store: &S, left: u32, right: u32) -> Result<(), StepFault>
    ensures { result ≡ compared (S.semantics.means store.now left) (S.semantics.means store.now right) }
{
    if store.same(left, right)? {
        Ok(())
    } else {
        Err(StepFault::Differs)
    }
}
