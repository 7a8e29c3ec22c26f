// The programs that the tests run.
use program::action::{Action, Row};
use program::held::Program;
use program::parts::Parts;
use run::Run;
use std::alloc::Global;
use std::test::Fail;

// how many parts the functions 0 to 2 take
const COUNTS: [u8; 3] = [0, 0, 1];

pub(crate) fn run_of<'a>(heap: Global, rows: &'a [Row]) -> Result<Run<'a>, Fail> {
    Ok(Run::new(heap, Program::from_rows(heap, rows, &COUNTS)?)?)
}

fn row(line: usize, action: Action) -> Row {
    Row { line, action }
}

fn give(target: u16) -> Row {
    row(0, Action::Give { target })
}

fn new(line: usize, target: u16) -> Row {
    row(line, Action::New { target })
}

fn say(line: usize, source: u16) -> Row {
    row(line, Action::Say { source })
}

fn hear(line: usize, target: u16) -> Row {
    row(line, Action::Hear { target })
}

fn same(line: usize, left: u16, right: u16) -> Row {
    row(line, Action::Same { left, right })
}

fn crypt(line: usize, target: u16, text: u16, key: u16) -> Row {
    row(line, Action::Crypt { target, text, key })
}

fn tuple(line: usize, target: u16, parts: &[u16]) -> Row {
    let parts = Parts::from_slice(parts);
    row(line, Action::Tuple { target, parts })
}

// The function with one part.
fn apply(line: usize, target: u16, part: u16) -> Row {
    row(
        line,
        Action::Apply {
            target,
            function: 2,
            parts: Parts::from_slice(&[part]),
        },
    )
}

fn open_crypt(line: usize, target: u16, source: u16, key: u16) -> Row {
    row(
        line,
        Action::OpenCrypt {
            target,
            source,
            key,
        },
    )
}

fn open_pair(line: usize, first: u16, source: u16) -> Row {
    row(
        line,
        Action::OpenTuple {
            first,
            count: 2,
            source,
        },
    )
}

fn open_apply(line: usize, first: u16, source: u16) -> Row {
    row(
        line,
        Action::OpenApply {
            first,
            count: 1,
            source,
            function: 2,
        },
    )
}

// It says a new atom, and hears it under the key that it was given.
pub(crate) fn sender() -> [Row; 6] {
    [
        give(0),
        new(1, 1),
        say(1, 1),
        hear(2, 2),
        open_crypt(2, 3, 2, 0),
        same(2, 3, 1),
    ]
}

// It answers what it hears, under the key.
pub(crate) fn answerer() -> [Row; 4] {
    [give(0), hear(1, 1), crypt(2, 2, 1, 0), say(2, 2)]
}

// A pair of an application and its part is heard and taken apart, and both are built anew.
pub(crate) fn opener() -> [Row; 8] {
    [
        hear(1, 0),
        open_pair(1, 1, 0),
        open_apply(1, 3, 1),
        same(1, 3, 2),
        apply(2, 4, 2),
        tuple(2, 5, &[4, 3]),
        say(2, 4),
        say(2, 5),
    ]
}

// Given a key, it hears a pair, and then the pair's first part under the key.
pub(crate) fn hearer() -> [Row; 6] {
    [
        give(0),
        hear(1, 1),
        open_pair(1, 2, 1),
        hear(2, 4),
        open_crypt(2, 5, 4, 0),
        same(2, 5, 2),
    ]
}

// Given two values, it makes a ciphertext of them between the two.
pub(crate) fn starter() -> [Row; 4] {
    [give(0), crypt(0, 1, 0, 0), give(2), say(1, 2)]
}

// Given a value, it makes one of each kind, and says the last.
pub(crate) fn maker() -> [Row; 6] {
    [
        give(0),
        new(1, 1),
        crypt(1, 2, 1, 0),
        tuple(1, 3, &[2, 1]),
        apply(1, 4, 3),
        say(1, 4),
    ]
}

// It says a new atom, and then the pair of that and another new one.
pub(crate) fn pairer() -> [Row; 5] {
    [
        new(1, 1),
        say(1, 1),
        new(2, 2),
        tuple(2, 3, &[1, 2]),
        say(2, 3),
    ]
}

// Given a value, it hears the application to it, which it builds to compare.
pub(crate) fn prover() -> [Row; 4] {
    [give(0), hear(1, 1), apply(1, 2, 0), same(1, 1, 2)]
}
