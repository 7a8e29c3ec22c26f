// The parts of a value that stands on a tape.
ghost use Rattle.std.specs.Prelude.{◌≤◌, length};
ghost use Rattle.model.specs.Trees.{Tree};
ghost use Rattle.store.specs.declared.fault.StoreFault.TheVariants.{NoPart, Mismatch};
ghost use Rattle.store.specs.Questions.{part_of, text_of};
ghost use Rattle.tape.specs.Values.{Stands, HasValue, Begins};
ghost use Rattle.tape.specs.Opening.{Gives};

use crate::header::header_at;
use crate::walk::{equal, part_at};
use store::fault::StoreFault;
use store::shape::Shape;

// Where a part of a tuple or an application begins.
pub(crate) fn find_part(bytes: &[u8], place: usize, index: usize) -> Result<usize, StoreFault>
    requires few { length bytes.now ≤ 65535 }
    requires within { place ≤ length bytes.now }
    ensures { (v : Tree) → Begins bytes.now place v → Gives bytes.now (part_of v index) NoPart result }
{
    if index >= header_at(bytes, place).count() as usize {
        return Err(StoreFault::NoPart);
    }
    Ok(part_at(bytes, place, index))
}

// Where the text of a ciphertext begins, if its key is equal to the value at a place.
pub(crate) fn find_text(bytes: &[u8], place: usize, key: usize) -> Result<usize, StoreFault>
    requires few { length bytes.now ≤ 65535 }
    requires begins { (v : Tree) × Begins bytes.now place v }
    requires key { HasValue bytes.now key }
    ensures { (v w : Tree) → Begins bytes.now place v → Stands bytes.now key w → Gives bytes.now (text_of v w) Mismatch result }
{
    let Shape::Crypt = header_at(bytes, place) else {
        return Err(StoreFault::Mismatch);
    };
    if !equal(bytes, part_at(bytes, place, 1), key) {
        return Err(StoreFault::Mismatch);
    }
    Ok(part_at(bytes, place, 0))
}
