// How much a translation may take. A caller may lower each limit; none goes above the standard one.
ghost use Rattle.std.specs.Prelude.{◌≡◌, min};
ghost use Rattle.terms.specs.Limits.{standard_limits};

#[derive(Clone, Copy)]
pub struct Limits {
    // names, functions among them
    pub names: usize,
    // distinct terms
    pub terms: usize,
    pub roles: usize,
    // registers of a role, and actions of its program
    pub registers: usize,
    pub actions: usize,
}

pub const MOST_NAMES: usize = 128;

pub const MOST_TERMS: usize = 512;

pub const MOST_ROLES: usize = 8;

pub const MOST_REGISTERS: usize = 512;

pub const MOST_ACTIONS: usize = 4096;

impl Limits {
    pub fn standard() -> Limits
        ensures { result ≡ standard_limits }
    {
        Limits {
            names: MOST_NAMES,
            terms: MOST_TERMS,
            roles: MOST_ROLES,
            registers: MOST_REGISTERS,
            actions: MOST_ACTIONS,
        }
    }
}

// The limits that hold.
impl Limits {
    pub fn most_names(self) -> usize
        ensures { result ≡ min self.names 128 }
    {
        self.names.min(MOST_NAMES)
    }

    pub fn most_terms(self) -> usize
        ensures { result ≡ min self.terms 512 }
    {
        self.terms.min(MOST_TERMS)
    }

    pub fn most_roles(self) -> usize
        ensures { result ≡ min self.roles 8 }
    {
        self.roles.min(MOST_ROLES)
    }

    pub fn most_registers(self) -> usize
        ensures { result ≡ min self.registers 512 }
    {
        self.registers.min(MOST_REGISTERS)
    }

    pub fn most_actions(self) -> usize
        ensures { result ≡ min self.actions 4096 }
    {
        self.actions.min(MOST_ACTIONS)
    }
}
