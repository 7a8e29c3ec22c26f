// What a row table keeps of a value.
use program::kind::Kind;
use program::parts::Parts;

// How a value is built of those of earlier rows.
#[derive(Clone, Copy, PartialEq, Eq)]
pub(crate) enum Row {
    Atom(u32),
    Compound { kind: Kind, parts: Parts },
}

#[derive(Clone, Copy)]
pub(crate) struct Entry {
    pub(crate) row: Row,
    // the number of the first row with an equal value
    pub(crate) class: u16,
    // one more than the number of the row before in its chain, or 0
    pub(crate) next: u16,
}
