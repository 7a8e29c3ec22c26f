// What is rehearsed: the programs, and who says which line to whom.
use crate::command::Command;
use crate::names::{is_named, made_names, place_of};
use anyhow::anyhow;
use roles::translation::Translation;
use std::alloc::{AllocError, Global};
use syntax::source::Source;
use syntax::spec::{Line, Spec, Term};
use terms::declarations::Function;
use text::reading::read_text;

// One line of the narration.
#[derive(Clone, Copy)]
pub(crate) struct Exchange {
    pub(crate) sender: usize,
    pub(crate) receiver: usize,
    // a name that is made in the hire stands in the message
    pub(crate) fresh: bool,
}

#[derive(Drop)]
pub(crate) struct Plan {
    pub(crate) translation: Translation,
    // of the parameters of each function
    pub(crate) counts: Vec<u8>,
    pub(crate) exchanges: Vec<Exchange>,
}

impl Plan {
    pub(crate) fn new(heap: Global, text: &[u8], translation: Translation) -> anyhow::Result<Plan> {
        let counts = count_parameters(heap, translation.declarations.functions())?;
        let exchanges = read_exchanges(heap, text, &translation)?;
        Ok(Plan {
            translation,
            counts,
            exchanges,
        })
    }

    // All begin, and then each line is said and heard.
    pub(crate) fn honest(&self, heap: Global) -> Result<Vec<Command>, AllocError> {
        self.commands(heap, None)
    }

    // The same, but before the last line with a name that is made in the hire, its value of an earlier hire arrives.
    pub(crate) fn replayed(&self, heap: Global) -> Result<Vec<Command>, AllocError> {
        let last = self.exchanges.iter().rposition(|exchange| exchange.fresh);
        self.commands(heap, last)
    }

    fn commands(&self, heap: Global, old: Option<usize>) -> Result<Vec<Command>, AllocError> {
        let mut commands = Vec::new(heap);
        for role in 0..self.translation.roles.len() {
            commands.push(Command::Begin { role })?;
        }
        for (line, exchange) in self.exchanges.iter().enumerate() {
            let role = exchange.receiver;
            commands.push(Command::Say {
                role: exchange.sender,
            })?;
            if old == Some(line) {
                commands.push(Command::Old { role, line })?;
            }
            commands.push(Command::Hear { role, line })?;
        }
        Ok(commands)
    }
}

fn count_parameters(heap: Global, functions: &[Function]) -> Result<Vec<u8>, AllocError> {
    let mut counts = Vec::new(heap);
    for function in functions {
        counts.push(function.arity().min(255) as u8)?;
    }
    Ok(counts)
}

// The tree is read once more, since a translation does not keep its lines.
fn read_exchanges(
    heap: Global,
    text: &[u8],
    translation: &Translation,
) -> anyhow::Result<Vec<Exchange>> {
    let Ok(tree) = read_text(heap, text) else {
        return Err(anyhow!("out of memory"));
    };
    let Ok(spec) = Source { heap, text }.spec(&tree) else {
        return Err(anyhow!("out of memory"));
    };
    let Ok(made) = made_names(heap, translation) else {
        return Err(anyhow!("out of memory"));
    };
    let mut exchanges = Vec::new(heap);
    for line in &spec.lines {
        exchanges.push(exchange_of(text, translation, &spec, *line, made.as_slice()))?;
    }
    Ok(exchanges)
}

fn exchange_of(
    text: &[u8],
    translation: &Translation,
    spec: &Spec,
    line: Line,
    made: &[u8],
) -> Exchange {
    let nothing = Term::nothing();
    let message = spec.term_or(line.message, &nothing);
    Exchange {
        sender: place_of(text, translation, line.sender),
        receiver: place_of(text, translation, line.receiver),
        fresh: is_named(text, &translation.declarations, message, made),
    }
}
