// A tape's bytes, and the places of handles.
ghost use Rattle.std.specs.Prelude.{◌≡◌, ℕ, ◌≤◌, [], length, min, None, IfOk};
ghost use Rattle.tape.specs.Values.{IsWhole};
ghost use Rattle.tape.specs.Tapes.{bytes_of, tape, Finds};
ghost use Rattle.tape.specs.Law.{TapeLaw};

use crate::tape::Tape;
use crate::walk::starts;
use base::NoMemory;
use std::alloc::Global;
use store::fault::StoreFault;

// A handle is a place on the tape, below this.
const MOST: usize = 65535;

impl Tape {
    /// An empty tape of at most `most` bytes, and never more than 65,535. It is refused for want of memory, and no later call asks for any.
    pub fn new(heap: Global, most: usize) -> Result<Tape, NoMemory>
        ensures empty { IfOk result (λ t. (h : ℕ) → tape.means t h ≡ None) }
        ensures bytes { IfOk result (λ t. bytes_of t ≡ []) }
        ensures room { IfOk result (λ t. tape.space t ≡ min most 65535) }
        ensures law { TapeLaw }
    {
        Ok(Tape {
            bytes: base::repeated(heap, 0, most.min(MOST))?,
            used: 0,
        })
    }

    /// The encodings of the values that were made, one after the other.
    pub fn as_bytes(&self) -> &[u8]
        ensures bytes { result.now ≡ bytes_of self.now }
        ensures few { length result.now ≤ 65535 }
        ensures whole { IsWhole result.now }
    {
        &self.bytes[..self.used]
    }

    // The place of a handle's encoding.
    pub(crate) fn find(&self, handle: u32) -> Result<usize, StoreFault>
        ensures { Finds self.now handle result }
    {
        let place = handle as usize;
        if !starts(self.as_bytes(), place) {
            return Err(StoreFault::Invalid);
        }
        Ok(place)
    }
}
