// Why a line was refused.
ghost use Rattle.std.specs.Prelude.{◌≡◌};
ghost use Rattle.roles.specs.Refusals.{line_refusal, to_line};
ghost use Rattle.roles.specs.declared.line_fault.LineFault.TheVariants as line_faults;

use crate::exhausted::Exhausted;
use base::{Cause, Layer, NoMemory, Refusal};
use terms::fault::TermFault;

// The place is the first byte of a label, a role's name, the message, or a node within it.
#[derive(Clone, Copy, PartialEq, Eq, Debug)]
pub enum LineFault {
    // there are too many roles, terms, registers or actions
    Limit { at: usize },
    Undeclared { at: usize },
    // a wrong type, a wrong count of arguments, or a function as a term
    WrongType { at: usize },
    // the label was used before, or the receiver is the sender
    Repeated { at: usize },
    /// the sender cannot derive the message: its number in the order of first standing in a line, and the number of the first term that fails, by first reading
    Underivable { at: usize, role: usize, term: u16 },
    /// memory or the numbers of registers gave out
    Exhausted(Exhausted),
}

impl LineFault {
    // To be exhausted is no refusal: an `Option`, and no `From`.
    pub fn refusal(&self) -> Option<Refusal>
        ensures { result ≡ line_refusal self.now }
    {
        let (cause, place) = match *self {
            LineFault::Limit { at } => (Cause::Limit, at),
            LineFault::Undeclared { at } => (Cause::Undeclared, at),
            LineFault::WrongType { at } => (Cause::WrongType, at),
            LineFault::Repeated { at } => (Cause::Repeated, at),
            LineFault::Underivable { at, .. } => (Cause::Underivable, at),
            LineFault::Exhausted(_) => return None,
        };
        Some(Refusal {
            cause,
            layer: Layer::Lines,
            place,
        })
    }
}

impl From<TermFault> for LineFault {
    ghost from_gives = { λ e r. r ≡ to_line e };

    fn from(fault: TermFault) -> LineFault {
        match fault {
            TermFault::Limit { at } => LineFault::Limit { at },
            TermFault::Undeclared { at } => LineFault::Undeclared { at },
            TermFault::WrongType { at } => LineFault::WrongType { at },
            TermFault::NoMemory(lack) => LineFault::Exhausted(Exhausted::from(lack)),
        }
    }
}

impl From<Exhausted> for LineFault {
    ghost from_gives = { λ e r. r ≡ line_faults.Exhausted e };

    fn from(exhausted: Exhausted) -> LineFault {
        LineFault::Exhausted(exhausted)
    }
}

impl From<NoMemory> for LineFault {
    ghost from_gives = { λ _ r. r ≡ line_faults.Exhausted (record { seen = tt }) };

    fn from(lack: NoMemory) -> LineFault {
        LineFault::Exhausted(Exhausted::from(lack))
    }
}
