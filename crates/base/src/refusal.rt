// What a refusal says: why, in which layer, and where.
ghost use Rattle.std.specs.Prelude.{◌≡◌};
ghost use Rattle.base.specs.Refusals.{cause_number, layer_number, refusal_text};

use std::fmt;

/// Why something is refused. Each cause has a number, by which a refusal is printed.
#[derive(Clone, Copy, PartialEq, Eq, Debug)]
pub enum Cause {
    /// too long, too many or too deep
    Limit = 1,
    /// no text goes on like this
    Broken = 2,
    /// not the symbol, the kind of node or the count of parts that belongs here
    Misfit = 3,
    /// a form of the language that is not translated
    NotCarried = 4,
    /// a quoted text that is no name
    NoName = 5,
    /// a name that was declared before
    Redeclared = 6,
    /// a name that is not declared
    Undeclared = 7,
    /// a wrong type, a wrong count of arguments, or a function as a term
    WrongType = 8,
    /// a label that was used before, or a receiver that is the sender
    Repeated = 9,
    /// the sender cannot derive the message
    Underivable = 10,
    /// it is not the turn of this call
    OutOfTurn = 11,
    /// a handle that is not valid
    Invalid = 12,
    /// more than eight parts, no such part, or wrong counts at a begin
    WrongCount = 13,
    /// a value is not the one that is wanted
    Mismatch = 14,
    /// the space does not suffice
    Full = 15,
}

/// The layer that refuses. Each has a number, by which a refusal is printed.
#[derive(Clone, Copy, PartialEq, Eq, Debug)]
pub enum Layer {
    /// the text; a place is a byte, counted from 0
    Text = 1,
    /// the tree's shape; a place is the first byte of a node
    Shape = 2,
    /// the declarations; a place is the first byte of a node
    Declarations = 3,
    /// the lines; a place is the first byte of a node
    Lines = 4,
    /// a run; a place is an action of its program, counted from 0
    Run = 5,
    /// a store; the place is 0
    Store = 6,
}

/// A refusal of any layer. It is printed as `refused`, the cause's number, the layer's number, and the place.
#[derive(Clone, Copy, PartialEq, Eq, Debug)]
pub struct Refusal {
    /// why
    pub cause: Cause,
    /// which layer refuses
    pub layer: Layer,
    /// where: each layer says what is counted
    pub place: usize,
}

impl Cause {
    /// The number of the cause.
    pub fn number(self) -> u8
        ensures { result ≡ cause_number self }
    {
        self as u8
    }
}

impl Layer {
    /// The number of the layer.
    pub fn number(self) -> u8
        ensures { result ≡ layer_number self }
    {
        self as u8
    }
}

impl fmt::Display for Refusal {
    ghost use Rattle.std.specs.Prelude.{Some};

    ghost output = { λ r. Some (refusal_text r) };

    fn fmt<W: fmt::Write>(&self, f: &mut fmt::Formatter<W>) -> fmt::Result {
        let cause = self.cause.number();
        let layer = self.layer.number();
        let place = self.place;
        write!(f, "refused {cause} {layer} {place}")
    }
}
