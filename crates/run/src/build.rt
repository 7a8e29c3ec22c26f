// Values that an action makes.
ghost use Rattle.std.specs.Prelude.{◌≡◌, [], ◌∷◌, drop};
ghost use Rattle.model.specs.Trees.{crypted};
ghost use Rattle.program.specs.Actions.{opened_head};
ghost use Rattle.store.specs.Makers.{Makes};
ghost use Rattle.run.specs.Actions.{Builds, next_atom};

use crate::fault::StepFault;
use crate::registers::Registers;
use crate::supply::Supply;
use program::parts::Parts;
use store::fault::StoreFault;
use store::store::Store;

// A new atom, of the next number.
pub(crate) fn atom<S: Store>(store: &mut S, supply: &mut Supply) -> Result<u32, StoreFault>
    ensures made { Makes S.semantics store.old store.new (next_atom (drop supply.old.used supply.old.numbers.now)) result }
    ensures taken { drop supply.new.used supply.new.numbers.now ≡ drop 1 (drop supply.old.used supply.old.numbers.now) }
    ensures numbers { supply.new.numbers.now ≡ supply.old.numbers.now }
    ensures handles { supply.new.handles.now ≡ supply.old.handles.now }
{
    store.make_atom(supply.number()?)
}

// A ciphertext of the values of two registers goes into a register.
pub(crate) fn encrypt<S: Store>(
    store: &mut S,
    registers: &mut Registers,
    target: u16,
    text: u16,
    key: u16,
) -> Result<(), StepFault>
    ensures { Builds S.semantics crypted (text ∷ key ∷ []) target store.old store.new registers.old registers.new result }
{
    registers.keep(
        target,
        store.make_crypt(registers.at(text), registers.at(key)),
    )
}

// A tuple of the values of some registers, or an application of a function to them, goes into a register.
pub(crate) fn build<S: Store>(
    store: &mut S,
    registers: &mut Registers,
    target: u16,
    function: Option<u8>,
    parts: Parts,
) -> Result<(), StepFault>
    ensures { Builds S.semantics (opened_head function) parts target store.old store.new registers.old registers.new result }
{
    let handles = registers.handles(parts.as_slice());
    let handles = &handles[..parts.as_slice().len()];
    let made = match function {
        None => store.make_tuple(handles),
        Some(function) => store.make_apply(function, handles),
    };
    registers.keep(target, made)
}
