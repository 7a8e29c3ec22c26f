// What calls are refused with, and handles that are never valid.
use run::{Run, RunFault};
use store::fault::StoreFault;

// beyond the small stores of these tests
pub(crate) const BEYOND: u32 = 1000;

// what an empty register holds
pub(crate) const GREATEST: u32 = 4294967295;

pub(crate) fn out_of_turn(place: usize) -> RunFault {
    RunFault::OutOfTurn { place }
}

// The store's refusals.
pub(crate) fn invalid(place: usize) -> RunFault {
    of_store(StoreFault::Invalid, place)
}

pub(crate) fn locked(place: usize) -> RunFault {
    of_store(StoreFault::Mismatch, place)
}

pub(crate) fn full(place: usize) -> RunFault {
    of_store(StoreFault::Full, place)
}

fn of_store(fault: StoreFault, place: usize) -> RunFault {
    RunFault::Store { fault, place }
}

// Do these registers hold nothing?
pub(crate) fn empty(run: &Run<'_>, numbers: &[u16]) -> bool {
    for number in numbers {
        if run.register(*number).is_some() {
            return false;
        }
    }
    true
}

// Do the first registers hold just these?
pub(crate) fn holds(run: &Run<'_>, handles: &[Option<u32>]) -> bool {
    let mut number: u16 = 0;
    for handle in handles {
        if run.register(number) != *handle {
            return false;
        }
        number = number.wrapping_add(1);
    }
    true
}
