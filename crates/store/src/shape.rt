// The shapes of values.
ghost use Rattle.std.specs.Prelude.{◌≡◌};
ghost use Rattle.store.specs.Numbers.{kind_number, head_number, part_count};

/// What a value is, without its parts.
#[derive(Clone, Copy, PartialEq, Eq, Debug)]
pub enum Shape {
    /// an atom, by its number
    Atom(u32),
    /// a tuple of so many parts
    Tuple { parts: u8 },
    /// a ciphertext
    Crypt,
    /// an application of a function, by its number, to so many parts
    Apply { function: u8, parts: u8 },
}

impl Shape {
    /// The kind of value: 1 an atom, 2 a tuple, 3 a ciphertext, 4 an application.
    pub fn kind(self) -> u8
        ensures { result ≡ kind_number self }
    {
        match self {
            Shape::Atom(_) => 1,
            Shape::Tuple { .. } => 2,
            Shape::Crypt => 3,
            Shape::Apply { .. } => 4,
        }
    }

    /// The number of the atom, or of the function; else 0.
    pub fn head(self) -> u32
        ensures { result ≡ head_number self }
    {
        match self {
            Shape::Atom(number) => number,
            Shape::Apply { function, .. } => function as u32,
            Shape::Tuple { .. } | Shape::Crypt => 0,
        }
    }

    /// How many parts can be asked for: none of an atom or a ciphertext.
    pub fn count(self) -> u8
        ensures { result ≡ part_count self }
    {
        match self {
            Shape::Tuple { parts } => parts,
            Shape::Apply { parts, .. } => parts,
            Shape::Atom(_) | Shape::Crypt => 0,
        }
    }
}
