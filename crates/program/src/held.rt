// Programs that can be held: each register that an action reads was filled by an earlier one, none is filled twice, lines never
// fall, and each function has its declared count of parts.
ghost use Rattle.std.specs.Prelude.{◌≡◌, true, []};
ghost use Rattle.program.specs.Held.{passes};

use crate::action::Row;

// Rows that passed the check, with the count of parts of each function.
#[derive(Clone, Copy)]
pub struct Program<'a> {
    pub(crate) rows: &'a [Row],
    pub(crate) counts: &'a [u8],
    ghost sound: { passes counts.now rows.now ≡ true },
}

impl<'a> Program<'a> {
    // A program that does nothing.
    pub fn empty() -> Program<'a>
        ensures { (result.rows.now ≡ []) × (result.counts.now ≡ []) }
    {
        Program {
            rows: &[],
            counts: &[],
        }
    }

    pub fn rows(&self) -> &'a [Row]
        ensures { result.now ≡ self.now.rows.now }
    {
        self.rows
    }
}
