// rehearse: a tree on standard input, and a script behind it if wanted. Its programs run over both stores of terms: an honest hire
// first, then one in which an old value arrives, or what the script asks for. Without a script both hires are performed once more, each
// as one session.
#![tactic(auto)]

mod calls;
mod command;
mod given;
mod hire;
mod input;
mod names;
mod origin;
mod plan;
mod rehearsal;
mod report;
mod script;
mod session;
mod show;
#[cfg(test)]
mod tests;
mod value;

use anyhow::anyhow;
use command::Command;
use input::Input;
use names::function_names;
use plan::Plan;
use rehearsal::Scene;
use roles::translate::translate;
use rows::rows::Rows;
use session::perform_hires;
use std::alloc::Global;
use std::fmt::Write as _;
use std::io;
use std::io::{Read, Write};
use std::process::ExitCode;
use store::store::Store;
use tape::tape::Tape;
use terms::limits::Limits;

// Nothing is written before the whole answer is there.
fn main(rt: HostRuntime) -> anyhow::Result<ExitCode> {
    let bytes = read_input(&rt)?;
    let input = Input::of(&bytes);
    let translation = match translate(rt.alloc(), input.tree, Limits::standard()) {
        Ok(translation) => translation,
        Err(fault) => {
            let Some(refusal) = fault.refusal() else {
                return Err(anyhow!("out of memory"));
            };
            println!(rt; "{refusal}")?;
            return Ok(ExitCode::FAILURE);
        }
    };
    let plan = Plan::new(rt.alloc(), input.tree, translation)?;
    let asked = match input.script {
        Some(lines) => script::read(rt.alloc(), &plan, input.tree, lines)?,
        None => Ok(plan.replayed(rt.alloc())?),
    };
    match asked {
        Ok(commands) => {
            let text = rehearse(rt.alloc(), input, &plan, commands.as_slice())?;
            rt.stdout().write_all(text.as_bytes())?;
            Ok(ExitCode::SUCCESS)
        }
        Err(line) => {
            println!(rt; "refused script {line}")?;
            Ok(ExitCode::FAILURE)
        }
    }
}

fn read_input(rt: &HostRuntime) -> io::Result<Vec<u8>> {
    let mut text = Vec::new(rt.alloc());
    rt.stdin().read_to_end(&mut text)?;
    Ok(text)
}

// Over the row table, and then over the byte tape, each as large as it can be; without a script also as sessions, over new ones.
fn rehearse(
    heap: Global,
    input: Input<'_>,
    plan: &Plan,
    commands: &[Command],
) -> anyhow::Result<String> {
    let text = input.tree;
    let functions = function_names(heap, text, plan.translation.declarations.functions())?;
    let scene = Scene {
        heap,
        text,
        plan,
        functions: functions.as_slice(),
    };
    let mut out = String::new(heap);
    let mut rows = Rows::new(heap, 4096)?;
    writeln!(out, "row table: space {}", rows.space())?;
    rehearsal::rehearse(scene, &mut rows, commands, &mut out)?;
    if input.script.is_none() {
        perform_hires(scene, &mut Rows::new(heap, 4096)?, &mut out)?;
    }
    let mut tape = Tape::new(heap, 65535)?;
    writeln!(out, "byte tape: space {}", tape.space())?;
    rehearsal::rehearse(scene, &mut tape, commands, &mut out)?;
    if input.script.is_none() {
        perform_hires(scene, &mut Tape::new(heap, 65535)?, &mut out)?;
    }
    Ok(out)
}
