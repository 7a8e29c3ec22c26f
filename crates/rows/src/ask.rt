// What a row answers, whatever the values before it.
ghost use Rattle.std.specs.Prelude.{◌≡◌, List, slice_get};
ghost use Rattle.model.specs.Trees.{Tree};
ghost use Rattle.store.specs.Questions.{shape_of};
ghost use Rattle.rows.specs.Rows.{row_value};
ghost use Rattle.rows.specs.Classes.{parts_of};
ghost use Rattle.rows.specs.Answered.{alike, asked_parts, text_and_key};

use crate::entry::Row;
use program::kind::Kind;
use store::shape::Shape;

impl Row {
    pub(crate) fn shape(&self) -> Shape
        ensures { (vs : List Tree) → result ≡ shape_of (row_value vs self.now) }
    {
        match *self {
            Row::Atom(number) => Shape::Atom(number),
            Row::Compound { kind, parts } => {
                let parts = parts.as_slice().len() as u8;
                match kind {
                    Kind::Tuple => Shape::Tuple { parts },
                    Kind::Crypt => Shape::Crypt,
                    Kind::Apply(function) => Shape::Apply { function, parts },
                }
            }
        }
    }

    // One of the parts that can be asked for.
    pub(crate) fn part(&self, index: usize) -> Option<u16>
        ensures { result ≡ slice_get (asked_parts self.now) index }
    {
        match self {
            Row::Atom(_) => None,
            Row::Compound { kind, parts } => match kind {
                Kind::Crypt => None,
                Kind::Tuple | Kind::Apply(_) => parts.as_slice().get(index).copied(),
            },
        }
    }

    // The text and the key of a ciphertext.
    pub(crate) fn text_and_key(&self) -> Option<(u16, u16)>
        ensures { result ≡ text_and_key self.now }
    {
        match self {
            Row::Atom(_) => None,
            Row::Compound { kind, parts } => {
                let parts = parts.as_slice();
                if *kind == Kind::Crypt && parts.len() == 2 {
                    return Some((parts[0], parts[1]));
                }
                None
            }
        }
    }

    // Whether another row is of the same kind and number, whatever its parts.
    pub(crate) fn is_like(&self, other: &Row) -> bool
        ensures { result ≡ alike self.now other.now }
    {
        match (self, other) {
            (Row::Atom(number), Row::Atom(other)) => *number == *other,
            (Row::Compound { kind, .. }, Row::Compound { kind: other, .. }) => *kind == *other,
            _ => false,
        }
    }

    // The parts; an atom has none.
    pub(crate) fn parts(&self) -> &[u16]
        ensures { result.now ≡ parts_of self.now }
    {
        match self {
            Row::Atom(_) => &[],
            Row::Compound { parts, .. } => parts.as_slice(),
        }
    }
}
