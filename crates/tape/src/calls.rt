// A tape as a store.
ghost use Rattle.std.specs.Prelude.{vec_len};
ghost use Rattle.tape.specs.Fitting.{some_cost, tape_handle};
ghost use Rattle.tape.specs.Tapes.{tape};

use crate::header::header_at;
use crate::open::{find_part, find_text};
use crate::tape::Tape;
use crate::walk::equal;
use store::fault::StoreFault;
use store::shape::Shape;
use store::store::Store;

// How many parts a value can have.
const PARTS: usize = 8;

impl Store for Tape {
    ghost semantics = { tape };

    fn make_atom(&mut self, number: u32) -> Result<u32, StoreFault> {
        self.make(Shape::Atom(number), &[])
    }

    fn make_tuple(&mut self, parts: &[u32]) -> Result<u32, StoreFault> {
        if parts.len() > PARTS {
            return Err(StoreFault::NoPart);
        }
        let shape = Shape::Tuple {
            parts: parts.len() as u8,
        };
        self.make(shape, parts)
    }

    fn make_crypt(&mut self, text: u32, key: u32) -> Result<u32, StoreFault> {
        self.make(Shape::Crypt, &[text, key])
    }

    fn make_apply(&mut self, function: u8, parts: &[u32]) -> Result<u32, StoreFault> {
        if parts.len() > PARTS {
            return Err(StoreFault::NoPart);
        }
        let shape = Shape::Apply {
            function,
            parts: parts.len() as u8,
        };
        self.make(shape, parts)
    }

    fn shape(&self, handle: u32) -> Result<Shape, StoreFault> {
        let place = self.find(handle)?;
        Ok(header_at(self.as_bytes(), place))
    }

    fn part(&self, handle: u32, index: usize) -> Result<u32, StoreFault> {
        let place = self.find(handle)?;
        let part = find_part(self.as_bytes(), place, index)?;
        Ok(part as u32)
    }

    fn unlock(&self, handle: u32, key: u32) -> Result<u32, StoreFault> {
        let place = self.find(handle)?;
        let key = self.find(key)?;
        let text = find_text(self.as_bytes(), place, key)?;
        Ok(text as u32)
    }

    fn same(&self, left: u32, right: u32) -> Result<bool, StoreFault> {
        let left = self.find(left)?;
        let right = self.find(right)?;
        Ok(equal(self.as_bytes(), left, right))
    }

    fn space(&self) -> usize {
        self.bytes.len() - self.used
    }

    ghost each_costs = { λ t v. some_cost v };

    ghost each_fits = { λ t h v e. tape_handle t.used (vec_len t.bytes) t.bytes.items h v t.within t.small e };

    ghost each_holds = { λ t h v e. t.held h v e };
}
