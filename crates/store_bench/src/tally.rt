// What was done: how many calls, what they cost, and how many questions were answered by a handle or by yes.
use std::fmt;

#[derive(Clone, Copy)]
pub(crate) struct Tally {
    pub(crate) calls: u32,
    pub(crate) cost: usize,
    pub(crate) yes: u32,
}

impl fmt::Display for Tally {
    fn fmt<W: fmt::Write>(&self, f: &mut fmt::Formatter<W>) -> fmt::Result {
        write!(
            f,
            "calls {} cost {} yes {}",
            self.calls, self.cost, self.yes
        )
    }
}
