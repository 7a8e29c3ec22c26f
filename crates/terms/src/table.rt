// Terms by number: equal terms have one number, and a term's parts have smaller ones. The number is the place in a list and not
// the value of a map, which would own each row a second time.
ghost use Rattle.std.specs.Prelude.{◌≡◌, ◌<◌, ◌≤◌, [], take, drop, length, vec_len, MatchOption};
ghost use Rattle.program.specs.Actions.{head_of};
ghost use Rattle.terms.specs.Rows.{Ordered, Formed, Distinct, Begins, row_at, shape_of, Stands};
ghost use Rattle.terms.specs.Shapes.{named, formed, two_parts, AllBelow};
ghost use Rattle.terms.specs.Interned.{Fits, Interned, Absent, At};

use crate::fault::TermFault;
use crate::term::TermRow;
use base::push;
use program::kind::Kind;
use program::parts::Parts;
use std::alloc::Global;

/// The distinct terms, by number.
#[derive(Drop)]
pub struct TermTable {
    rows: Vec<TermRow>,
    ghost ordered: { Ordered rows.items },
    ghost whole: { Formed rows.items },
    ghost distinct: { Distinct rows.items },
    ghost numbered: { length rows.items ≤ 65536 },
}

impl TermTable {
    /// No terms.
    pub fn new(heap: Global) -> TermTable
        ensures { result.rows.items ≡ [] }
    {
        TermTable {
            rows: Vec::new(heap),
        }
    }

    /// How many terms there are.
    pub fn len(&self) -> usize
        ensures { result ≡ vec_len self.now.rows }
    {
        self.rows.len()
    }

    // It answers no `Option`, since it is called for terms that are there.
    /// The row of a term. A number that no term has gives the name 0.
    pub fn row(&self, term: u16) -> TermRow
        ensures value { result ≡ row_at self.now.rows.items term }
        ensures stands { term < vec_len self.now.rows → Stands self.now.rows.items term result }
    {
        self.rows
            .get(term as usize)
            .copied()
            .unwrap_or(TermRow::Name(0))
    }

    // The rows from a number on.
    pub(crate) fn since(&self, before: usize) -> &[TermRow]
        ensures { result.now ≡ drop before self.now.rows.items }
    {
        self.rows.get(before..).unwrap_or(&[])
    }

    // The first rows of a table.
    pub(crate) fn truncate(&mut self, count: usize)
        ensures { self.new.rows.items ≡ take count self.old.rows.items }
    {
        self.rows.truncate(count);
    }

    // The number of a name. There are at most `most` terms; one too many is refused at its place.
    pub(crate) fn name(&mut self, name: u8, most: usize, at: usize) -> Result<u16, TermFault>
        ensures begins { Begins self.old.rows.items self.new.rows.items }
        ensures interned { Interned self.old.rows.items self.new.rows.items (named name) most at result }
    {
        self.intern(TermRow::Name(name), most, at)
    }

    // The number of a compound.
    pub(crate) fn compound(
        &mut self,
        kind: Kind,
        parts: Parts,
        most: usize,
        at: usize,
    ) -> Result<u16, TermFault>
        requires below { AllBelow (vec_len self.old.rows) parts }
        requires whole { two_parts (formed (head_of kind) parts) ≡ 2 }
        ensures begins { Begins self.old.rows.items self.new.rows.items }
        ensures interned { Interned self.old.rows.items self.new.rows.items (formed (head_of kind) parts) most at result }
    {
        self.intern(TermRow::Compound { kind, parts }, most, at)
    }

    // The number of a row, which is added if it is not there.
    fn intern(&mut self, row: TermRow, most: usize, at: usize) -> Result<u16, TermFault>
        requires { Fits (vec_len self.old.rows) row }
        ensures begins { Begins self.old.rows.items self.new.rows.items }
        ensures interned { Interned self.old.rows.items self.new.rows.items (shape_of row) most at result }
    {
        if let Some(term) = find_row(&self.rows, &row) {
            return Ok(term);
        }
        let term = self.len();
        if term >= most || term > 65535 {
            return Err(TermFault::Limit { at });
        }
        push(&mut self.rows, row)?;
        Ok(term as u16)
    }
}

// The number of a row among some rows.
fn find_row(rows: &[TermRow], row: &TermRow) -> Option<u16>
    requires { length rows.now ≤ 65536 }
    ensures { MatchOption result (Absent rows.now row.now) (λ k. At rows.now row.now k) }
{
    let term = rows.iter().position(|known| *known == *row)?;
    Some(term as u16)
}
