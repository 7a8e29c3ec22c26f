// Memory, or the numbers of registers, gave out.
ghost use Rattle.std.specs.Prelude.{◌≡◌, ◌+◌, ◌<◌, ◌++◌, map, length, drop, OnOk, MatchResult};
ghost use Rattle.roles.specs.Ended.{row};

use base::NoMemory;
use program::action::{Action, Row};

/// Memory was wanting, or the numbers of registers gave out. Only a failed allocation and a count that would pass 65,535 make one: a fault that
/// holds one cannot be answered for another reason.
#[derive(Clone, Copy, PartialEq, Eq, Debug)]
pub struct Exhausted {
    seen: (),
}

impl From<NoMemory> for Exhausted {
    fn from(_lack: NoMemory) -> Exhausted {
        Exhausted { seen: () }
    }
}

// The register behind some others.
pub(crate) fn register_behind(first: u16, count: u16) -> Result<u16, Exhausted>
    ensures { MatchResult result (λ r. r ≡ first + count) (λ _. 65535 < first + count) }
{
    if count > u16::MAX - first {
        return Err(Exhausted { seen: () });
    }
    Ok(first + count)
}

// The actions behind those that have rows get theirs, in this line.
pub(crate) fn add_rows(
    rows: &mut Vec<Row>,
    line: usize,
    actions: &[Action],
) -> Result<(), Exhausted>
    ensures { OnOk result (rows.new.items ≡ rows.old.items ++ map (row line) (drop (length rows.old.items) actions.now)) }
{
    let done = rows.len().min(actions.len());
    let added = actions[done..].iter();
    match rows.extend(added.map(|action| Row {
        line,
        action: *action,
    })) {
        Ok(()) => Ok(()),
        Err(_) => Err(Exhausted { seen: () }),
    }
}
