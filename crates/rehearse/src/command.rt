// What is asked of a role, by its place among the roles. Lines are counted from 0 here, and from 1 where they are read and printed.

#[derive(Clone, Copy)]
pub(crate) enum Command {
    Begin { role: usize },
    Say { role: usize },
    // the value said in a line of this hire
    Hear { role: usize, line: usize },
    // the value said in a line of the first hire
    Old { role: usize, line: usize },
}

impl Command {
    pub(crate) fn role(self) -> usize {
        match self {
            Command::Begin { role }
            | Command::Say { role }
            | Command::Hear { role, .. }
            | Command::Old { role, .. } => role,
        }
    }
}
