// Why a run refuses a call.
ghost use Rattle.std.specs.Prelude.{◌≡◌};
ghost use Rattle.run.specs.Faults.{run_refusal, run_fault_number, run_fault_place, fault_at};
ghost use Rattle.run.specs.declared.fault.StepFault.TheVariants as steps;

use base::{Cause, Layer, Refusal};
use store::fault::StoreFault;

/// Why a run refuses a call. A place is the number of an action, counted from 0 among those of the role: of the one that failed, or
/// of the next one where nothing was done.
#[derive(Clone, Copy, PartialEq, Eq, Debug)]
pub enum RunFault {
    /// it is not the turn of this call
    OutOfTurn { place: usize },
    /// as many values or numbers are not wanted
    Counts { place: usize },
    /// what was opened is no such compound, or two values differ
    Mismatch { place: usize },
    /// the store's own refusal
    Store { fault: StoreFault, place: usize },
}

impl RunFault {
    /// The refusal: the cause, which is the store's where the store refused, the layer of runs, and the place.
    pub fn refusal(self) -> Refusal
        ensures { result ≡ run_refusal self }
    {
        let cause = match self {
            RunFault::OutOfTurn { .. } => Cause::OutOfTurn,
            RunFault::Counts { .. } => Cause::WrongCount,
            RunFault::Mismatch { .. } => Cause::Mismatch,
            RunFault::Store { fault, .. } => fault.refusal().cause,
        };
        Refusal {
            cause,
            layer: Layer::Run,
            place: self.place(),
        }
    }

    /// The number of the refusal's cause.
    pub fn number(self) -> u8
        ensures { result ≡ run_fault_number self }
    {
        self.refusal().cause.number()
    }

    /// The number of the action that failed, or of the next one.
    pub fn place(self) -> usize
        ensures { result ≡ run_fault_place self }
    {
        match self {
            RunFault::OutOfTurn { place }
            | RunFault::Counts { place }
            | RunFault::Mismatch { place }
            | RunFault::Store { place, .. } => place,
        }
    }
}

// Why one action is refused.
#[derive(Clone, Copy, PartialEq, Eq, Debug)]
pub(crate) enum StepFault {
    Differs,
    Store(StoreFault),
}

impl StepFault {
    pub(crate) fn at(self, place: usize) -> RunFault
        ensures { result ≡ fault_at self place }
    {
        match self {
            StepFault::Differs => RunFault::Mismatch { place },
            StepFault::Store(fault) => RunFault::Store { fault, place },
        }
    }
}

impl From<StoreFault> for StepFault {
    ghost from_gives = { λ e r. r ≡ steps.Store e };

    fn from(fault: StoreFault) -> StepFault {
        StepFault::Store(fault)
    }
}
