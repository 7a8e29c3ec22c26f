// What came of a command: who says or hears what, what it cost, and either the rows that were done or the refusal.
use crate::calls::Called;
use crate::command::Command;
use crate::hire::Hire;
use crate::show::print_rows;
use crate::value::View;
use program::action::{Action, Row};
use run::fault::RunFault;
use std::fmt;
use std::fmt::Write;
use store::store::Store;

// The role's name stands in the line already.
pub(crate) fn report<'a, S: Store + Drop>(
    out: &mut String,
    store: &'a S,
    hire: &'a Hire<'_>,
    rows: &'a [Row],
    functions: &'a [&'a [u8]],
    command: Command,
    called: Called,
) -> fmt::Result {
    let role = command.role();
    if role >= hire.runs.len() || role >= hire.players.len() {
        return Ok(());
    }
    let done = hire.players[role].done;
    let view = View {
        store,
        run: &hire.runs[role],
        rows: rows.get(..done).unwrap_or(&[]),
        functions,
    };
    let first = done.saturating_sub(called.rows);
    let line = view.rows.get(first..).unwrap_or(&[]);
    print_command(out, command, line)?;
    match (command, moved(line)) {
        (Command::Begin { .. }, _) => {}
        (_, Some(register)) => view.print_register(out, register)?,
        (_, None) => view.print_value(out, called.handle)?,
    }
    print_cost(out, called.cost, store.space())?;
    match called.fault {
        Some(fault) => print_refusal(out, fault),
        None => print_rows(out, &view, line),
    }
}

// The register that a line says or hears.
fn moved(line: &[Row]) -> Option<u16> {
    let mut moved = None;
    for row in line {
        if let Action::Hear { target: register } | Action::Say { source: register } = row.action {
            moved = Some(register);
        }
    }
    moved
}

// What the role does, before the value if there is one.
fn print_command(out: &mut String, command: Command, rows: &[Row]) -> fmt::Result {
    match (command, rows.first()) {
        (Command::Begin { .. }, _) => out.write_str(" begins")?,
        (Command::Say { .. }, None) => out.write_str(" says ")?,
        (Command::Say { .. }, Some(row)) => write!(out, " says line {}: ", row.line)?,
        (Command::Hear { line, .. }, _) => {
            write!(out, " hears line {}: ", line.saturating_add(1))?;
        }
        (Command::Old { line, .. }, _) => {
            write!(out, " hears old line {}: ", line.saturating_add(1))?;
        }
    }
    Ok(())
}

fn print_cost(out: &mut String, cost: usize, space: usize) -> fmt::Result {
    writeln!(out, ", cost {cost}, space {space}")?;
    Ok(())
}

fn print_refusal(out: &mut String, fault: RunFault) -> fmt::Result {
    let refusal = fault.refusal();
    writeln!(out, "{refusal}")?;
    Ok(())
}
