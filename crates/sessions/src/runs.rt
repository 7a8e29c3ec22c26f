// New runs of a translation's roles.
ghost use Rattle.std.specs.Prelude.{◌≡◌, map, IfOk};
ghost use Rattle.sessions.specs.Starting.{short_count, RunOf, RunsOf, AllNew};

use crate::fault::RunsFault;
use base::{NoMemory, with_room};
use program::action::Row;
use program::held::Program;
use roles::role::Role;
use roles::translation::Translation;
use run::run::Run;
use std::alloc::Global;
use terms::declarations::Function;

/// How many parts each function takes, by its number: what runs of a text's roles are held by. No text declares a function with more
/// than eight.
pub fn counts_of(heap: Global, functions: &[Function]) -> Result<Vec<u8>, NoMemory>
    ensures { IfOk result (λ v. v.items ≡ map short_count functions.now) }
{
    let mut counts = with_room(heap, functions.len())?;
    for function in functions {
        counts.push_reserved(function.arity().min(255) as u8);
    }
    Ok(counts)
}

/// A run for each role of a translation, before its begin. The counts are those of the translation's functions; with others a
/// program may be refused as unsound.
pub fn runs_of<'a>(
    heap: Global,
    translation: &'a Translation,
    counts: &'a [u8],
) -> Result<Vec<Run<'a>>, RunsFault>
    ensures { RunsOf translation.now counts.now result }
{
    all_new(heap, translation.roles.as_slice(), counts)
}

fn all_new<'a>(heap: Global, roles: &'a [Role], counts: &'a [u8]) -> Result<Vec<Run<'a>>, RunsFault>
    ensures { AllNew counts.now roles.now result }
{
    let mut runs = with_room(heap, roles.len())?;
    for role in roles {
        runs.push_reserved(run_of(heap, role.rows.as_slice(), counts)?);
    }
    Ok(runs)
}

// A run of rows, if they can be held.
fn run_of<'a>(heap: Global, rows: &'a [Row], counts: &'a [u8]) -> Result<Run<'a>, RunsFault>
    ensures { RunOf counts.now rows.now result }
{
    let program = Program::from_rows(heap, rows, counts)?;
    Ok(Run::new(heap, program)?)
}
