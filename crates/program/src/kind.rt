// How a compound is made: as a tuple, as a ciphertext, or by applying a function. No other kind is to come from outside, so what is
// done with a compound is a `match` on it.
#[derive(Clone, Copy, PartialEq, Eq)]
pub enum Kind {
    Tuple,
    Crypt,
    Apply(u8),
}
