// Which numbers are marked, of those below some count.
ghost use Rattle.std.specs.Prelude.{◌≡◌, true, false, replicate, IfOk, slice_index_or, slice_set};
ghost use Rattle.program.specs.Marked.{marked_all};

use base::{NoMemory, repeated};
use std::alloc::Global;
use std::marker::Model;

#[derive(Drop)]
pub struct Marks {
    marks: Vec<bool>,
}

impl Model for Marks {
    ghost use Rattle.std.specs.Prelude.{Bool, List};

    ghost Value = { List Bool };

    ghost view = { λ m. m.marks.items };
}

impl Marks {
    // None of the numbers is marked.
    pub fn new(heap: Global, count: usize) -> Result<Marks, NoMemory>
        ensures { IfOk result (λ m. m ≡ replicate count false) }
    {
        Ok(Marks {
            marks: repeated(heap, false, count)?,
        })
    }

    pub fn has(&self, number: usize) -> bool
        ensures { result ≡ slice_index_or self.now number false }
    {
        self.marks.get(number).copied().unwrap_or(false)
    }

    pub fn has_all(&self, numbers: &[u16]) -> bool
        ensures { result ≡ marked_all self.now numbers.now }
    {
        numbers.iter().all(|number| self.has(*number as usize))
    }

    // A number from the count on stays unmarked.
    pub fn mark(&mut self, number: usize)
        ensures { self.new ≡ slice_set self.old number true }
    {
        if let Some(mark) = self.marks.get_mut(number) {
            *mark = true;
        }
    }
}
