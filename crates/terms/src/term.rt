// A term by number: a name, or a compound of terms with smaller numbers.
use program::kind::Kind;
use program::parts::Parts;

#[derive(Clone, Copy, PartialEq, Eq)]
pub enum TermRow {
    Name(u8),
    Compound { kind: Kind, parts: Parts },
}
