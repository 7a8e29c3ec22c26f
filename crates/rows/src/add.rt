// Adding a row.
ghost use Rattle.std.specs.Prelude.{◌≡◌, ◌<◌, Ok};
ghost use Rattle.model.specs.Storable.{Storable};
ghost use Rattle.rows.specs.Rows.{values, row_value};
ghost use Rattle.rows.specs.Classes.{IsOfFirst};
ghost use Rattle.rows.specs.Chains.{head_after};
ghost use Rattle.rows.specs.Tables.{Adds};

use crate::entry::{Entry, Row};
use crate::hash;
use crate::rows::Rows;
use store::fault::StoreFault;

// Where a chain begins, once a row of a class has been added as the one with a number.
fn head_of_chain(class: usize, number: usize, next: u16) -> u16
    requires { number < 4096 }
    ensures { result ≡ head_after class number next }
{
    if class == number {
        number as u16 + 1
    } else {
        next
    }
}

impl Rows {
    // A row over first rows, if there is room.
    pub(crate) fn add(&mut self, row: Row) -> Result<u32, StoreFault>
        requires first { IsOfFirst self.old.entries.items row }
        requires held { Storable (row_value (values self.old.entries.items) row) }
        ensures { Adds self.old self.new (Ok (row_value (values self.old.entries.items) row)) result }
    {
        let number = self.entries.len();
        if number >= self.entries.capacity() {
            return Err(StoreFault::Full);
        }
        let class = self.class_of(&row);
        let chain = hash::chain(&row);
        let next = self.heads[chain];
        self.heads[chain] = head_of_chain(class, number, next);
        self.entries.push_reserved(Entry {
            row,
            class: class as u16,
            next,
        });
        Ok(number as u32)
    }
}
