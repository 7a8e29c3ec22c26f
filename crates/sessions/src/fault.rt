// Why a session is not answered, and why runs are not made.
ghost use Rattle.std.specs.Prelude.{◌≡◌};
ghost use Rattle.sessions.specs.declared.fault.SessionFault.TheVariants as faults;
ghost use Rattle.sessions.specs.declared.fault.RunsFault.TheVariants as runs;
ghost use Rattle.sessions.specs.Faults.{runs_fault};

use base::NoMemory;
use program::take_up::ProgramFault;
use roles::translation_fault::TranslationFault;

/// Why no request is performed.
#[derive(Clone, Copy, PartialEq, Eq, Debug)]
pub enum SessionFault {
    /// The text is not translated.
    Translation(TranslationFault),
    /// Memory lacked for the runs, or for the replies.
    NoMemory(NoMemory),
}

impl From<TranslationFault> for SessionFault {
    ghost from_gives = { λ e r. r ≡ faults.Translation e };

    fn from(fault: TranslationFault) -> SessionFault {
        SessionFault::Translation(fault)
    }
}

impl From<NoMemory> for SessionFault {
    ghost from_gives = { λ e r. r ≡ faults.NoMemory e };

    fn from(lack: NoMemory) -> SessionFault {
        SessionFault::NoMemory(lack)
    }
}

/// Why no runs are made of a translation's roles.
#[derive(Clone, Copy, PartialEq, Eq, Debug)]
pub enum RunsFault {
    /// Some role's rows do not pass the check with these counts of parts.
    Unsound,
    /// Memory lacked.
    NoMemory(NoMemory),
}

impl From<ProgramFault> for RunsFault {
    ghost from_gives = { λ e r. r ≡ runs_fault e };

    fn from(fault: ProgramFault) -> RunsFault {
        match fault {
            ProgramFault::Unsound => RunsFault::Unsound,
            ProgramFault::NoMemory(lack) => RunsFault::NoMemory(lack),
        }
    }
}

impl From<NoMemory> for RunsFault {
    ghost from_gives = { λ e r. r ≡ runs.NoMemory e };

    fn from(lack: NoMemory) -> RunsFault {
        RunsFault::NoMemory(lack)
    }
}
