// Want of memory, and the calls that can meet it.
ghost use Rattle.std.specs.Prelude.{◌≡◌, ◌++◌, ◌∷◌, [], ◌+◌, if◌then◌else◌, is_ok, vec_len, vec_capacity, replicate, IfOk, OnOk, ◌≤◌};

use std::alloc::Global;
use std::error::Error;
use std::fmt;

/// Memory was asked for, and there was none. Only the calls of this file make one, and only where an allocation failed: a fault that
/// holds one cannot be answered for another reason.
#[derive(Clone, Copy, PartialEq, Eq, Debug)]
pub struct NoMemory {
    seen: (),
}

impl fmt::Display for NoMemory {
    ghost use Rattle.std.specs.Prelude.{Some, codes};

    ghost output = { λ _. Some (codes "out of memory") };

    fn fmt<W: fmt::Write>(&self, f: &mut fmt::Formatter<W>) -> fmt::Result {
        f.write_str("out of memory")
    }
}

impl Error for NoMemory {}

/// An item is added at the end of a list. The list is as it was where memory lacks.
pub fn push<T: Drop>(list: &mut Vec<T>, item: T) -> Result<(), NoMemory>
    ensures items { list.new.items ≡ (if is_ok result then list.old.items ++ item ∷ [] else list.old.items) }
    ensures len { vec_len list.new ≡ (if is_ok result then vec_len list.old + 1 else vec_len list.old) }
{
    match list.push(item) {
        Ok(()) => Ok(()),
        Err(_) => Err(NoMemory { seen: () }),
    }
}

/// There is room for so many more items.
pub fn reserve<T>(list: &mut Vec<T>, count: usize) -> Result<(), NoMemory>
    ensures items { list.new.items ≡ list.old.items }
    ensures len { vec_len list.new ≡ vec_len list.old }
    ensures room { OnOk result (vec_len list.new + count ≤ vec_capacity list.new) }
{
    match list.reserve(count) {
        Ok(()) => Ok(()),
        Err(_) => Err(NoMemory { seen: () }),
    }
}

/// A value is put into memory of its own.
pub fn boxed<T: Drop>(heap: Global, value: T) -> Result<Box<T>, NoMemory>
    ensures { IfOk result (λ b. b.value ≡ value) }
{
    match Box::new(heap, value) {
        Ok(value) => Ok(value),
        Err(_) => Err(NoMemory { seen: () }),
    }
}

/// A list of an item so many times.
pub fn repeated<T: Clone + Drop>(heap: Global, item: T, count: usize) -> Result<Vec<T>, NoMemory>
    ensures { IfOk result (λ v. ((y : T) → T.is_clone item y → y ≡ item) → v.items ≡ replicate count item) }
{
    match vec![in heap; item; count] {
        Ok(list) => Ok(list),
        Err(_) => Err(NoMemory { seen: () }),
    }
}

/// An empty list with room for so many items.
pub fn with_room<T>(heap: Global, count: usize) -> Result<Vec<T>, NoMemory>
    ensures empty { IfOk result (λ v. v.items ≡ []) }
    ensures room { IfOk result (λ v. count ≤ vec_capacity v) }
    ensures exact { IfOk result (λ v. vec_capacity v ≡ count) }
{
    match Vec::with_capacity(heap, count) {
        Ok(list) => Ok(list),
        Err(_) => Err(NoMemory { seen: () }),
    }
}
