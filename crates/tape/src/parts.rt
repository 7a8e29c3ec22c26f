// The parts of a value that is to be made: encodings that stand on the tape already.
ghost use Rattle.std.specs.Prelude.{◌≡◌, ◌≤◌, length, IfOk};
ghost use Rattle.tape.specs.Values.{IsWhole};
ghost use Rattle.tape.specs.Making.{parts_on, size_answer};

use crate::walk::{encoding, starts};
use store::fault::StoreFault;

// How many bytes the parts' encodings have, if all are valid.
pub(crate) fn parts_size(bytes: &[u8], parts: &[u32]) -> Result<usize, StoreFault>
    requires few { length bytes.now ≤ 65535 }
    requires whole { IsWhole bytes.now }
    requires eight { length parts.now ≤ 8 }
    ensures size { result ≡ size_answer (parts_on bytes.now parts.now) }
    ensures few { IfOk result (λ n. n ≤ 524280) }
{
    let mut size = 0;
    for part in parts {
        let start = *part as usize;
        if !starts(bytes, start) {
            return Err(StoreFault::Invalid);
        }
        size += encoding(bytes, start).len();
    }
    Ok(size)
}
