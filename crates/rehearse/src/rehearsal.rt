// Two hires over one store.
use crate::calls::call;
use crate::command::Command;
use crate::given::{Numbers, build};
use crate::hire::Hire;
use crate::plan::Plan;
use crate::report::report;
use program::print::print_name;
use std::alloc::Global;
use std::fmt::Write;
use store::store::Store;

// What is rehearsed, and the names of its functions.
#[derive(Clone, Copy)]
pub(crate) struct Scene<'a> {
    pub(crate) heap: Global,
    pub(crate) text: &'a [u8],
    pub(crate) plan: &'a Plan,
    pub(crate) functions: &'a [&'a [u8]],
}

// An honest hire, and a second one with some commands.
pub(crate) fn rehearse<S: Store + Drop>(
    scene: Scene<'_>,
    store: &mut S,
    commands: &[Command],
    out: &mut String,
) -> anyhow::Result<()> {
    let heap = scene.heap;
    let mut numbers = Numbers { next: 1 };
    let declarations = &scene.plan.translation.declarations;
    let given = build(heap, declarations, store, &mut numbers)?;
    writeln!(out, "given: space {}", store.space())?;
    writeln!(out, "first hire")?;
    let nothing = Vec::new(heap);
    let mut first = Hire::new(heap, scene.plan, &given, &mut numbers, nothing)?;
    let honest = scene.plan.honest(heap)?;
    perform(scene, store, &mut first, honest.as_slice(), out)?;
    writeln!(out, "second hire")?;
    let mut second = Hire::new(heap, scene.plan, &given, &mut numbers, first.said)?;
    perform(scene, store, &mut second, commands, out)
}

fn perform<S: Store + Drop>(
    scene: Scene<'_>,
    store: &mut S,
    hire: &mut Hire<'_>,
    commands: &[Command],
    out: &mut String,
) -> anyhow::Result<()> {
    for command in commands {
        let Some(role) = scene.plan.translation.roles.get(command.role()) else {
            continue;
        };
        let rows = role.rows.as_slice();
        let called = call(store, hire, rows, *command);
        print_name(out, role.part.of(scene.text))?;
        report(out, store, hire, rows, scene.functions, *command, called)?;
    }
    Ok(())
}
