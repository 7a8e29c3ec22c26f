// The registers of a run: each holds the handle of its value, or nothing yet.
ghost use Rattle.std.specs.Prelude.{◌≡◌, ℕ, ◌≤◌, replicate, IfOk, length, map, take, slice_set};
ghost use Rattle.run.specs.Shown.{register, vacant};
ghost use Rattle.run.specs.Actions.{Keeps, filled};

use crate::fault::StepFault;
use base::NoMemory;
use std::alloc::Global;
use std::marker::Model;
use store::fault::StoreFault;

// an empty register holds this number, which is no valid handle
pub(crate) const VACANT: u32 = 4294967295;

#[derive(Drop)]
pub struct Registers {
    cells: Vec<u32>,
}

impl Model for Registers {
    ghost use Rattle.std.specs.Prelude.{ℕ, List};

    ghost Value = { List ℕ };

    ghost view = { λ s. s.cells.items };
}

impl Registers {
    // So many registers, all empty.
    pub(crate) fn new(heap: Global, count: usize) -> Result<Registers, NoMemory>
        ensures { IfOk result (λ s. s ≡ replicate count vacant) }
    {
        Ok(Registers {
            cells: base::repeated(heap, VACANT, count)?,
        })
    }

    pub(crate) fn at(&self, number: u16) -> u32
        ensures { result ≡ register self.now number }
    {
        self.cells.get(number as usize).copied().unwrap_or(VACANT)
    }

    // The handles of up to eight registers, in the first places.
    pub(crate) fn handles(&self, numbers: &[u16]) -> [u32; 8]
        requires { length numbers.now ≤ 8 }
        ensures { take (length numbers.now) result ≡ map (λ r. register self.now r) numbers.now }
    {
        let mut handles = [VACANT; 8];
        for (i, number) in numbers.iter().enumerate() {
            handles[i] = self.at(*number);
        }
        handles
    }

    pub(crate) fn fill(&mut self, number: usize, handle: u32)
        ensures { self.new ≡ slice_set self.old number handle }
    {
        if let Some(cell) = self.cells.get_mut(number) {
            *cell = handle;
        }
    }

    // A register must hold a value.
    pub(crate) fn filled(&self, number: u16) -> Result<(), StepFault>
        ensures { result ≡ filled self.now number }
    {
        if self.at(number) == VACANT {
            return Err(StepFault::Store(StoreFault::Invalid));
        }
        Ok(())
    }

    // A handle goes into a register, unless it was refused.
    pub(crate) fn keep(
        &mut self,
        target: u16,
        made: Result<u32, StoreFault>,
    ) -> Result<(), StepFault>
        ensures { Keeps self.old self.new target made result }
    {
        self.fill(target as usize, made?);
        Ok(())
    }
}
