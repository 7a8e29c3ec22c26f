// Where a role has its values from.
use program::action::{Action, Row};
use run::run::Run;
use store::store::Store;

// The action that tells what a register holds: it built that, opened it, or compared it with what was held before.
pub(crate) fn origin(rows: &[Row], register: u16) -> Option<Action> {
    for row in rows {
        if tells(row.action, register) {
            return Some(row.action);
        }
    }
    None
}

fn tells(action: Action, register: u16) -> bool {
    match action {
        Action::Crypt { target: told, .. }
        | Action::Tuple { target: told, .. }
        | Action::Apply { target: told, .. }
        | Action::OpenCrypt { source: told, .. }
        | Action::OpenTuple { source: told, .. }
        | Action::OpenApply { source: told, .. }
        | Action::Same { left: told, .. } => told == register,
        Action::Give { .. } | Action::New { .. } | Action::Hear { .. } | Action::Say { .. } =>
            false,
    }
}

// The register in which the role opened or built a ciphertext that has the value of a handle.
pub(crate) fn crypt_of<S: Store>(
    store: &S,
    run: &Run<'_>,
    rows: &[Row],
    handle: u32,
) -> Option<u16> {
    for row in rows {
        if let Action::OpenCrypt { source: crypt, .. }
        | Action::Crypt { target: crypt, .. } = row.action
            && let Some(held) = run.register(crypt)
            && store.same(held, handle) == Ok(true)
        {
            return Some(crypt);
        }
    }
    None
}
