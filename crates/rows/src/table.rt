// The row table as a store.
ghost use Rattle.rows.specs.Tables.{table};
ghost use Rattle.rows.specs.Held.{handles_hold};
ghost use Rattle.rows.specs.Fitting.{handles_fit};
ghost use Rattle.std.proofs.Common.{rules};

use crate::entry::Row;
use crate::rows::Rows;
use program::kind::Kind;
use store::fault::StoreFault;
use store::shape::Shape;
use store::store::Store;

impl Store for Rows {
    ghost semantics = { table };

    fn make_atom(&mut self, number: u32) -> Result<u32, StoreFault> {
        self.add(Row::Atom(number))
    }

    fn make_tuple(&mut self, parts: &[u32]) -> Result<u32, StoreFault> {
        self.make_compound(Kind::Tuple, parts)
    }

    fn make_crypt(&mut self, text: u32, key: u32) -> Result<u32, StoreFault> {
        self.make_compound(Kind::Crypt, &[text, key])
    }

    fn make_apply(&mut self, function: u8, parts: &[u32]) -> Result<u32, StoreFault> {
        self.make_compound(Kind::Apply(function), parts)
    }

    fn shape(&self, handle: u32) -> Result<Shape, StoreFault> {
        Ok(self.row(handle)?.shape())
    }

    fn part(&self, handle: u32, index: usize) -> Result<u32, StoreFault> {
        match self.row(handle)?.part(index) {
            Some(part) => Ok(part as u32),
            None => Err(StoreFault::NoPart),
        }
    }

    fn unlock(&self, handle: u32, key: u32) -> Result<u32, StoreFault> {
        let row = self.row(handle)?;
        let key = self.number(key)?;
        match row.text_and_key() {
            Some((text, own)) if self.equal(own as usize, key) => Ok(text as u32),
            _ => Err(StoreFault::Mismatch),
        }
    }

    fn same(&self, left: u32, right: u32) -> Result<bool, StoreFault> {
        let left = self.number(left)?;
        let right = self.number(right)?;
        Ok(self.equal(left, right))
    }

    fn space(&self) -> usize {
        self.entries.capacity() - self.entries.len()
    }

    ghost each_costs = { λ t v. Prim.search rules };

    ghost each_fits = { λ t h v e. handles_fit t.entries t.few h v e };

    ghost each_holds = { λ t h v e. handles_hold t.entries.items t.held h v e };
}
