// The lines of a script.
use crate::command::Command;
use crate::plan::Plan;
use std::alloc::{AllocError, Global};

// Its commands, or the number of the first line that cannot be read.
pub(crate) fn read(
    heap: Global,
    plan: &Plan,
    text: &[u8],
    script: &[u8],
) -> Result<Result<Vec<Command>, usize>, AllocError> {
    let mut commands = Vec::new(heap);
    if script.is_empty() {
        return Ok(Ok(commands));
    }
    let lines = script.strip_suffix(b"\n").unwrap_or(script);
    for (index, line) in lines.split(|byte| *byte == b'\n').enumerate() {
        match read_line(plan, text, line) {
            Some(command) => commands.push(command)?,
            None => return Ok(Err(index + 1)),
        }
    }
    Ok(Ok(commands))
}

fn read_line(plan: &Plan, text: &[u8], line: &[u8]) -> Option<Command> {
    let mut words = line.split(|byte| *byte == b' ');
    let verb = words.next()?;
    let role = read_role(plan, text, words.next()?)?;
    let number = words.next();
    if words.next().is_some() {
        return None;
    }
    match (verb, number) {
        (b"begin", None) => Some(Command::Begin { role }),
        (b"say", None) => Some(Command::Say { role }),
        (b"hear", Some(word)) => Some(Command::Hear {
            role,
            line: read_number(plan, word)?,
        }),
        (b"old", Some(word)) => Some(Command::Old {
            role,
            line: read_number(plan, word)?,
        }),
        _ => None,
    }
}

fn read_role(plan: &Plan, text: &[u8], word: &[u8]) -> Option<usize> {
    plan.translation
        .roles
        .iter()
        .position(|role| role.part.of(text) == word)
}

// The number of a line of the narration, from 1, as its place.
fn read_number(plan: &Plan, word: &[u8]) -> Option<usize> {
    let number = std::str::from_utf8(word).ok()?.parse::<usize>().ok()?;
    if number == 0 || number > plan.exchanges.len() {
        return None;
    }
    Some(number - 1)
}
