// Why a declaration or a term was refused.
ghost use Rattle.std.specs.Prelude.{◌≡◌};
ghost use Rattle.terms.specs.Refusals.{declaration_refusal, to_declaration};
ghost use Rattle.terms.specs.declared.fault.TermFault.TheVariants as term_faults;
ghost use Rattle.terms.specs.declared.fault.DeclarationFault.TheVariants as declaration_faults;

use base::{Cause, Layer, NoMemory, Refusal};

// A term is refused, in a declaration or in a line.
#[derive(Clone, Copy, PartialEq, Eq, Debug)]
pub enum TermFault {
    // there are too many terms
    Limit { at: usize },
    Undeclared { at: usize },
    // a wrong type, a wrong count of arguments, or a function as a term
    WrongType { at: usize },
    /// memory lacked
    NoMemory(NoMemory),
}

impl From<NoMemory> for TermFault {
    ghost from_gives = { λ e r. r ≡ term_faults.NoMemory e };

    fn from(lack: NoMemory) -> TermFault {
        TermFault::NoMemory(lack)
    }
}

#[derive(Clone, Copy, PartialEq, Eq, Debug)]
pub enum DeclarationFault {
    // there are too many names or terms
    Limit { at: usize },
    Redeclared { at: usize },
    Undeclared { at: usize },
    // an unknown or wrong type, a wrong count of arguments, or a function as a term
    WrongType { at: usize },
    /// memory lacked
    NoMemory(NoMemory),
}

impl DeclarationFault {
    // Want of memory is no refusal: an `Option`, and no `From`.
    pub fn refusal(&self) -> Option<Refusal>
        ensures { result ≡ declaration_refusal self.now }
    {
        let (cause, place) = match *self {
            DeclarationFault::Limit { at } => (Cause::Limit, at),
            DeclarationFault::Redeclared { at } => (Cause::Redeclared, at),
            DeclarationFault::Undeclared { at } => (Cause::Undeclared, at),
            DeclarationFault::WrongType { at } => (Cause::WrongType, at),
            DeclarationFault::NoMemory(_) => return None,
        };
        Some(Refusal {
            cause,
            layer: Layer::Declarations,
            place,
        })
    }
}

impl From<TermFault> for DeclarationFault {
    ghost from_gives = { λ e r. r ≡ to_declaration e };

    fn from(fault: TermFault) -> DeclarationFault {
        match fault {
            TermFault::Limit { at } => DeclarationFault::Limit { at },
            TermFault::Undeclared { at } => DeclarationFault::Undeclared { at },
            TermFault::WrongType { at } => DeclarationFault::WrongType { at },
            TermFault::NoMemory(lack) => DeclarationFault::NoMemory(lack),
        }
    }
}

impl From<NoMemory> for DeclarationFault {
    ghost from_gives = { λ e r. r ≡ declaration_faults.NoMemory e };

    fn from(lack: NoMemory) -> DeclarationFault {
        DeclarationFault::NoMemory(lack)
    }
}
