// Making values on a tape.
ghost use Rattle.std.specs.Prelude.{◌≡◌, ◌≤◌, length};
ghost use Rattle.store.specs.Makers.{Makes};
ghost use Rattle.tape.specs.Headers.{parts_after};
ghost use Rattle.tape.specs.Held.{IsNumbered};
ghost use Rattle.tape.specs.Making.{asked};
ghost use Rattle.tape.specs.Tapes.{bytes_of, tape};

use crate::encode::append;
use crate::header::header_size;
use crate::parts::parts_size;
use crate::tape::Tape;
use store::fault::StoreFault;
use store::shape::Shape;

impl Tape {
    // Makes a value of a shape, if its parts are valid and there is room.
    pub(crate) fn make(&mut self, shape: Shape, parts: &[u32]) -> Result<u32, StoreFault>
        requires count { length parts.now ≡ parts_after shape }
        requires eight { length parts.now ≤ 8 }
        requires numbered { IsNumbered shape }
        ensures { Makes tape self.old self.new (asked (bytes_of self.old) shape parts.now) result }
    {
        let size = header_size(shape) + parts_size(self.as_bytes(), parts)?;
        if self.bytes.len() - self.used < size {
            return Err(StoreFault::Full);
        }
        let start = self.used;
        append(&mut self.bytes, start, shape, parts);
        self.used = start + size;
        Ok(start as u32)
    }
}
