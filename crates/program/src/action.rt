// A role's program is a list of rows: each an action on registers, with the line in which it is done.
ghost use Rattle.std.specs.Prelude.{◌≡◌};
ghost use Rattle.program.specs.Actions.{built, opened};

use crate::kind::Kind;
use crate::parts::Parts;

// Registers by number; the one that is filled, or the first of those, comes first. The actions are those of the model, and each step
// over a program is a `match` on them.
#[derive(Clone, Copy)]
pub enum Action {
    // a register takes a term that the role starts from
    Give {
        target: u16,
    },
    // a register takes a name made here
    New {
        target: u16,
    },
    // a register takes the message that arrives
    Hear {
        target: u16,
    },
    // the message of a register goes out
    Say {
        source: u16,
    },
    // two registers must hold the same value
    Same {
        left: u16,
        right: u16,
    },
    // a compound is built of the values of some registers
    Crypt {
        target: u16,
        text: u16,
        key: u16,
    },
    Tuple {
        target: u16,
        parts: Parts,
    },
    Apply {
        target: u16,
        function: u8,
        parts: Parts,
    },
    // a compound is taken apart into consecutive registers
    OpenCrypt {
        target: u16,
        source: u16,
        key: u16,
    },
    OpenTuple {
        first: u16,
        count: u8,
        source: u16,
    },
    OpenApply {
        first: u16,
        count: u8,
        source: u16,
        function: u8,
    },
}

// The lines are numbered from 1, in their order; line 0 is the start.
#[derive(Clone, Copy)]
pub struct Row {
    pub line: usize,
    pub action: Action,
}

impl Action {
    // Builds a compound of some registers. A ciphertext takes the first two: text and key.
    pub fn build(target: u16, kind: Kind, parts: Parts) -> Action
        ensures { result ≡ built target kind parts }
    {
        match kind {
            Kind::Tuple => Action::Tuple { target, parts },
            Kind::Crypt => Action::Crypt {
                target,
                text: parts.at(0),
                key: parts.at(1),
            },
            Kind::Apply(function) => Action::Apply {
                target,
                function,
                parts,
            },
        }
    }

    // Opens a tuple, or an application of a function, into consecutive registers.
    pub fn open(first: u16, count: u8, source: u16, function: Option<u8>) -> Action
        ensures { result ≡ opened first count source function }
    {
        match function {
            None => Action::OpenTuple {
                first,
                count,
                source,
            },
            Some(function) => Action::OpenApply {
                first,
                count,
                source,
                function,
            },
        }
    }
}
