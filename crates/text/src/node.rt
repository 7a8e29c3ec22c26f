// One node of a tree.
use crate::part::Part;
use crate::tree::Tree;

/// One node of a tree, with the place of its first byte and the trees in it. It borrows the tree.
#[derive(Clone, Copy)]
pub enum Node<'a> {
    /// the place of the first quote, and the bytes between the quotes
    Quoted {
        at: usize,
        inside: Part,
    },
    Integer {
        at: usize,
        value: u32,
    },
    /// an opening bracket with its symbol, and the trees in it
    Bracket {
        at: usize,
        symbol: Part,
        parts: &'a [Tree],
    },
}
