// Making a row table.
ghost use Rattle.std.specs.Prelude.{◌≡◌, ℕ, None, IfOk, min};
ghost use Rattle.rows.specs.Tables.{table};

use crate::rows::Rows;
use base::NoMemory;
use std::alloc::Global;

impl Rows {
    /// An empty table for at most `most` rows, and never more than 4,096. It is refused for want of memory, and no later call asks for any.
    pub fn new(heap: Global, most: usize) -> Result<Rows, NoMemory>
        ensures empty { IfOk result (λ t. (h : ℕ) → table.means t h ≡ None) }
        ensures room { IfOk result (λ t. table.space t ≡ min most 4096) }
    {
        Ok(Rows {
            entries: base::with_room(heap, most.min(4096))?,
            heads: base::repeated(heap, 0, 4096)?,
        })
    }
}
