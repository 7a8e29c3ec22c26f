// Calls of the runs of a hire.
use crate::command::Command;
use crate::given::NOTHING;
use crate::hire::{Hire, Player};
use program::action::Row;
use run::fault::RunFault;
use run::run::Run;
use store::store::Store;

// What a call came to.
#[derive(Clone, Copy)]
pub(crate) struct Called {
    // the value that was said, or that arrived
    pub(crate) handle: u32,
    pub(crate) fault: Option<RunFault>,
    // how many rows were done
    pub(crate) rows: usize,
    // of what they built, also if the last of them was refused
    pub(crate) cost: usize,
}

// A command, for a role whose program has these rows.
pub(crate) fn call<S: Store>(
    store: &mut S,
    hire: &mut Hire<'_>,
    rows: &[Row],
    command: Command,
) -> Called {
    let role = command.role();
    let mut called = Called {
        handle: arriving(hire, command),
        fault: None,
        rows: 0,
        cost: 0,
    };
    if role >= hire.runs.len() || role >= hire.players.len() {
        return called;
    }
    let before = store.space();
    match start(
        store,
        &mut hire.runs[role],
        &hire.players[role],
        called.handle,
        command,
    ) {
        Ok(handle) => {
            called.handle = handle;
            called.rows = advance(hire, role, rows, command, handle);
        }
        Err(fault) => called.fault = Some(fault),
    }
    called.cost = before.saturating_sub(store.space());
    called
}

// A command was taken: its rows are done, and what was said is noted. How many rows these are.
fn advance(hire: &mut Hire<'_>, role: usize, rows: &[Row], command: Command, handle: u32) -> usize {
    let Some(player) = hire.players.get_mut(role) else {
        return 0;
    };
    let line = next_line(rows, player.done, command);
    player.done = player.done.saturating_add(line.len());
    if let (Command::Say { .. }, Some(row)) = (command, line.first()) {
        note(&mut hire.said, row.line, handle);
    }
    line.len()
}

// The value that arrives, if one does.
fn arriving(hire: &Hire<'_>, command: Command) -> u32 {
    match command {
        Command::Begin { .. } | Command::Say { .. } => NOTHING,
        Command::Hear { line, .. } => hire.said.get(line).copied().unwrap_or(NOTHING),
        Command::Old { line, .. } => hire.old.get(line).copied().unwrap_or(NOTHING),
    }
}

// The call itself. It answers the value that was said, or that arrived.
fn start<S: Store>(
    store: &mut S,
    run: &mut Run<'_>,
    player: &Player,
    handle: u32,
    command: Command,
) -> Result<u32, RunFault> {
    match command {
        Command::Begin { .. } => {
            run.begin(store, player.given.as_slice(), player.numbers.as_slice())?;
            Ok(handle)
        }
        Command::Say { .. } => run.say(store),
        Command::Hear { .. } | Command::Old { .. } => {
            run.hear(store, handle)?;
            Ok(handle)
        }
    }
}

// The rows that a command does if it is taken: those of the start, or of the next line.
fn next_line(rows: &[Row], done: usize, command: Command) -> &[Row] {
    let ahead = rows.get(done..).unwrap_or(&[]);
    let line = match (command, ahead.first()) {
        (Command::Begin { .. }, _) | (_, None) => 0,
        (_, Some(row)) => row.line,
    };
    let count = ahead.iter().take_while(|row| row.line == line).count();
    ahead.get(..count).unwrap_or(&[])
}

// The value of a line, numbered from 1.
fn note(said: &mut Vec<u32>, line: usize, handle: u32) {
    if let Some(place) = said.get_mut(line.saturating_sub(1)) {
        *place = handle;
    }
}
