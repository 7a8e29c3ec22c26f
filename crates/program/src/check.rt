// The check that rows must pass to be held.
ghost use Rattle.std.specs.Prelude.{◌≡◌, [], length, IfOk};
ghost use Rattle.program.specs.Held.{reads, counted, has_declared_count};
ghost use Rattle.program.specs.Checked.{AreFilled, is_ready, Fills, Steps, span_of};

use crate::action::{Action, Row};
use crate::marks::Marks;
use crate::parts::Parts;
use base::NoMemory;
use std::alloc::Global;

// registers have numbers up to 65,535; an opening may fill 255 from there on
const REGISTERS: usize = 65791;

// Which registers were filled.
#[derive(Drop)]
pub(crate) struct Filled {
    pub(crate) marks: Marks,
    ghost whole: { length marks ≡ 65791 },
}

impl Filled {
    pub(crate) fn new(heap: Global) -> Result<Filled, NoMemory>
        ensures { IfOk result (λ f. AreFilled f.marks []) }
    {
        Ok(Filled {
            marks: Marks::new(heap, REGISTERS)?,
        })
    }

    // Registers in a row are filled, if none of them was before.
    fn fill(&mut self, span: Span) -> bool
        ensures { Fills self.old.marks self.new.marks span.first span.count result }
    {
        let first = span.first as usize;
        // by number: each is looked up before it is marked
        for register in first..first + span.count as usize {
            if self.marks.has(register) {
                return false;
            }
            self.marks.mark(register);
        }
        true
    }

    // One row, after rows the last of which has this line.
    pub(crate) fn step(&mut self, row: Row, counts: &[u8], line: usize) -> bool
        ensures { Steps counts.now line row self.old.marks self.new.marks result }
    {
        let span = row.action.fills();
        self.is_ready(row, counts, line) && self.fill(span)
    }

    // Whether a row passes, but for what it fills.
    fn is_ready(&self, row: Row, counts: &[u8], line: usize) -> bool
        ensures { result ≡ is_ready counts.now line row self.now.marks }
    {
        row.line >= line
            && self.marks.has_all(row.action.reads().as_slice())
            && row.action.counted(counts)
    }
}

// Some registers in a row, as rows name them: the first and their count.
#[derive(Clone, Copy)]
pub struct Span {
    pub first: u16,
    pub count: u8,
}

impl Action {
    // The registers that the action reads.
    pub(crate) fn reads(self) -> Parts
        ensures { result ≡ reads self }
    {
        match self {
            Action::Give { .. } | Action::New { .. } | Action::Hear { .. } => Parts::new(),
            Action::Say { source }
            | Action::OpenTuple { source, .. }
            | Action::OpenApply { source, .. } => Parts::from_slice(&[source]),
            Action::Same { left, right } => Parts::from_slice(&[left, right]),
            Action::Crypt { text, key, .. } => Parts::from_slice(&[text, key]),
            Action::OpenCrypt { source, key, .. } => Parts::from_slice(&[source, key]),
            Action::Tuple { parts, .. } | Action::Apply { parts, .. } => parts,
        }
    }

    // The registers that the action fills.
    pub fn fills(self) -> Span
        ensures { result ≡ span_of self }
    {
        match self {
            Action::Say { .. } | Action::Same { .. } => Span { first: 0, count: 0 },
            Action::OpenTuple { first, count, .. } | Action::OpenApply { first, count, .. } => {
                Span { first, count }
            }
            Action::Give { target }
            | Action::New { target }
            | Action::Hear { target }
            | Action::Crypt { target, .. }
            | Action::Tuple { target, .. }
            | Action::Apply { target, .. }
            | Action::OpenCrypt { target, .. } => Span {
                first: target,
                count: 1,
            },
        }
    }

    // Whether its function has the declared count of parts.
    pub(crate) fn counted(self, counts: &[u8]) -> bool
        ensures { result ≡ counted counts.now self }
    {
        match self {
            Action::Apply {
                function,
                parts,
                ..
            } => has_declared_count(counts, function, parts.as_slice().len()),
            Action::OpenApply {
                count,
                function,
                ..
            } => has_declared_count(counts, function, count as usize),
            _ => true,
        }
    }
}

fn has_declared_count(counts: &[u8], function: u8, count: usize) -> bool
    ensures { result ≡ has_declared_count counts.now function count }
{
    counts
        .get(function as usize)
        .is_some_and(|declared| *declared as usize == count)
}
