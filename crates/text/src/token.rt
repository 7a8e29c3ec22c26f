// The tokens of a text, each with its place.
use crate::part::Part;

#[derive(Clone, Copy, PartialEq, Eq, Debug)]
pub enum Token {
    // the place of the first quote, and the bytes between the quotes
    Quoted { at: usize, inside: Part },
    Integer { at: usize, value: u32 },
    // an opening bracket with its symbol
    Open { at: usize, symbol: Part },
    Close { at: usize },
}
