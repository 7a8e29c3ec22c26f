// A store that can be made anew, as large as it can be.
use base::NoMemory;
use rows::rows::Rows;
use std::alloc::Global;
use store::store::Store;
use tape::tape::Tape;

pub(crate) trait Anew: Store + Drop {
    fn anew(heap: Global) -> Result<Self, NoMemory>;
}

impl Anew for Rows {
    fn anew(heap: Global) -> Result<Rows, NoMemory> {
        Rows::new(heap, 4096)
    }
}

impl Anew for Tape {
    fn anew(heap: Global) -> Result<Tape, NoMemory> {
        Tape::new(heap, 65535)
    }
}
