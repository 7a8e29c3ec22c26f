// What can be asked of a session: its runs, and the store that they share.
ghost use Rattle.std.specs.Prelude.{◌≡◌};
ghost use Rattle.sessions.specs.Requests.{width};

// A handle: by its number, or the one that an earlier request of the list answered. One that is not there is never valid.
#[derive(Clone, Copy)]
pub enum Handle {
    Number(u32),
    Answer(usize),
}

// Roles are told by their places in the specification.
#[derive(Drop)]
pub enum Request {
    Begin {
        role: usize,
        given: Vec<Handle>,
        numbers: Vec<u32>,
    },
    Say {
        role: usize,
    },
    Hear {
        role: usize,
        handle: Handle,
    },
    // what a register of a run holds
    Register {
        role: usize,
        number: u16,
    },
    // values that somebody else builds
    Atom(u32),
    Tuple(Vec<Handle>),
    Crypt {
        text: Handle,
        key: Handle,
    },
    Apply {
        function: u8,
        parts: Vec<Handle>,
    },
    // questions
    Shape(Handle),
    Part {
        of: Handle,
        index: usize,
    },
    Unlock {
        of: Handle,
        key: Handle,
    },
    Same {
        left: Handle,
        right: Handle,
    },
    Space,
}

impl Request {
    // How many handles it names in a list.
    pub(crate) fn width(&self) -> usize
        ensures { result ≡ width self.now }
    {
        match self {
            Request::Begin { given, .. } => given.len(),
            Request::Tuple(parts) | Request::Apply { parts, .. } => parts.len(),
            _ => 0,
        }
    }
}
