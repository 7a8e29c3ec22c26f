// A run of a held program.
ghost use Rattle.std.specs.Prelude.{◌≡◌, ℕ, ◌<◌, ◌≤◌, true, false, length, map, drop, vec_capacity};
ghost use Rattle.model.specs.Sessions.{news};
ghost use Rattle.program.specs.Actions.{row_act};
ghost use Rattle.program.specs.Held.{has};
ghost use Rattle.run.specs.Shown.{register, vacant};
ghost use Rattle.run.specs.Filling.{filled_by};

use crate::fault::RunFault;
use crate::line::perform;
use crate::registers::{Registers, VACANT};
use crate::room::{append, width};
use crate::said::said;
use crate::supply::Supply;
use crate::turn::{Asked, count_news, counts_fit, front, hears};
use crate::valid::valid;
use base::NoMemory;
use program::action::Row;
use program::held::Program;
use std::alloc::Global;
use store::store::Store;

/// A role's run of its program: the registers, each of which holds a handle or nothing, the numbers for new atoms, of which some
/// were taken, whether it has begun, and its place, which is how many actions were done.
#[derive(Drop)]
pub struct Run<'a> {
    pub(crate) program: Program<'a>,
    pub(crate) registers: Registers,
    pub(crate) numbers: Vec<u32>,
    pub(crate) used: usize,
    pub(crate) begun: bool,
    pub(crate) place: usize,
    ghost within: { place ≤ length program.rows.now },
    ghost taken: { used ≤ length numbers.items },
    ghost reserved: { news (map row_act program.rows.now) ≤ vec_capacity numbers },
    ghost room: { (r : ℕ) → has r (filled_by program.rows.now) ≡ true → r < length registers },
    ghost empty_ahead: { (r : ℕ) → has r (filled_by (drop place program.rows.now)) ≡ true → register registers r ≡ vacant },
    ghost waiting: { begun ≡ false → length numbers.items ≡ 0 },
}

impl<'a> Run<'a> {
    ghost use Rattle.std.specs.Prelude.{IfOk};
    ghost use Rattle.run.specs.Called.{New};
    ghost use Rattle.run.specs.Calls.{Begins, Says, Hears};
    ghost use Rattle.run.specs.Looked.{looked};

    /// A run of a program, before its begin. It takes all the memory that it will need: as many registers as the program fills, and
    /// room for as many numbers as it makes atoms. It is refused only where memory lacks.
    pub fn new(heap: Global, program: Program<'a>) -> Result<Run<'a>, NoMemory>
        ensures { IfOk result (New program.entry) }
    {
        let rows = program.rows();
        let registers = Registers::new(heap, width(rows))?;
        let numbers = base::with_room(heap, count_news(rows))?;
        Ok(Run {
            program,
            registers,
            numbers,
            used: 0,
            begun: false,
            place: 0,
        })
    }

    /// The start: line 0 is done, with a handle for each value that is given, and a number for each atom that will be made. Out of
    /// turn it is refused first, then for wrong counts, and then the store and the run are as they were; else at the first action
    /// that is refused, and then the run is as it was.
    pub fn begin<S: Store>(
        &mut self,
        store: &mut S,
        given: &[u32],
        numbers: &[u32],
    ) -> Result<(), RunFault>
        ensures { Begins S.semantics store.old store.new self.old self.new given.now numbers.now result }
    {
        self.in_turn(Asked::Begin)?;
        let rows = self.ahead();
        let line = front(rows, 0);
        if !counts_fit(line, rows, given.len(), numbers.len()) {
            return Err(RunFault::Counts { place: self.place });
        }
        let inputs = valid(store, given);
        self.start(numbers);
        match self.try_line(store, line, inputs) {
            Ok(()) => Ok(()),
            Err(fault) => {
                self.cancel();
                Err(fault)
            }
        }
    }

    /// The next line is said. It answers the handle of what the line says last. Out of turn it is refused first, and then the store
    /// and the run are as they were; else at the first action that is refused, and then the run is as it was: tried again, the
    /// line takes the same numbers.
    pub fn say<S: Store>(&mut self, store: &mut S) -> Result<u32, RunFault>
        ensures { Says S.semantics store.old store.new self.old self.new result }
    {
        self.in_turn(Asked::Say)?;
        let line = self.line();
        self.try_line(store, line, &[])?;
        Ok(said(line, &self.registers))
    }

    /// The next line is heard, with the handle of what arrives. It is refused as a say is.
    pub fn hear<S: Store>(&mut self, store: &mut S, handle: u32) -> Result<(), RunFault>
        ensures { Hears S.semantics store.old store.new self.old self.new handle result }
    {
        self.in_turn(Asked::Hear)?;
        let line = self.line();
        let handles = [handle];
        let inputs = valid(store, &handles);
        self.try_line(store, line, inputs)
    }

    /// The handle that a register holds, or `None` for an empty one.
    pub fn register(&self, number: u16) -> Option<u32>
        ensures { result ≡ looked (register self.now.registers number) }
    {
        let handle = self.registers.at(number);
        if handle == VACANT { None } else { Some(handle) }
    }
}

impl<'a> Run<'a> {
    ghost use Rattle.run.specs.Calls.{AreNext, TriesLine};
    ghost use Rattle.run.specs.Started.{Starts, Cancels};
    ghost use Rattle.run.specs.Turned.{turn_answer, rows_ahead, line_ahead};

    // Is it the turn of a call?
    fn in_turn(&self, asked: Asked) -> Result<(), RunFault>
        ensures { result ≡ turn_answer self.now asked }
    {
        let turn = match (self.begun, self.ahead().first(), asked) {
            (false, _, Asked::Begin) => true,
            (true, Some(row), Asked::Say) => !hears(row.action),
            (true, Some(row), Asked::Hear) => hears(row.action),
            _ => false,
        };
        if turn {
            Ok(())
        } else {
            Err(RunFault::OutOfTurn { place: self.place })
        }
    }

    // The rows still to come.
    fn ahead(&self) -> &'a [Row]
        ensures { result.now ≡ rows_ahead self.now }
    {
        &self.program.rows()[self.place..]
    }

    // The rows of the next line.
    fn line(&self) -> &'a [Row]
        ensures { result.now ≡ line_ahead self.now }
    {
        let rows = self.ahead();
        match rows.first() {
            Some(row) => front(rows, row.line),
            None => rows,
        }
    }

    // Numbers are kept for a run that begins.
    fn start(&mut self, numbers: &[u32])
        requires waits { self.old.begun ≡ false }
        requires room { length numbers.now ≤ vec_capacity self.old.numbers }
        ensures { Starts self.old self.new numbers.now }
    {
        self.begun = true;
        self.used = 0;
        append(&mut self.numbers, numbers);
    }

    // It has not begun after all.
    fn cancel(&mut self)
        ensures { Cancels self.old self.new }
    {
        self.begun = false;
        self.used = 0;
        self.numbers.clear();
    }

    // The actions of a line are done, or the run is as it was.
    fn try_line<S: Store>(
        &mut self,
        store: &mut S,
        line: &[Row],
        inputs: &[u32],
    ) -> Result<(), RunFault>
        requires next { AreNext line.now self.old }
        requires begun { self.old.begun ≡ true }
        ensures { TriesLine S.semantics line.now inputs.now store.old store.new self.old self.new result }
    {
        let supply = Supply {
            handles: inputs,
            numbers: self.numbers.as_slice(),
            used: self.used,
        };
        self.used = perform(line, self.place, store, &mut self.registers, supply)?;
        self.place += line.len();
        Ok(())
    }
}
