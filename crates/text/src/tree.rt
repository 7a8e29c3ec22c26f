// The tree of a text.
ghost use Rattle.std.specs.Prelude.{◌≡◌, IfOk};
ghost use Rattle.text.specs.Nodes.{tree_of, trees_of, shown};

use crate::node::Node;
use crate::part::Part;
use std::alloc::AllocError;

/// A tree with its nodes, each with the place of its first byte.
#[derive(Drop)]
pub enum Tree {
    /// the place of the first quote, and the bytes between the quotes
    Quoted {
        at: usize,
        inside: Part,
    },
    Integer {
        at: usize,
        value: u32,
    },
    /// an opening bracket with its symbol, and the trees in it
    Bracket {
        at: usize,
        symbol: Part,
        parts: Vec<Tree>,
    },
}

impl Tree {
    /// The node that the tree begins with.
    pub fn node(&self) -> Node<'_>
        ensures { shown result ≡ tree_of self.now }
    {
        match *self {
            Tree::Quoted { at, inside } => Node::Quoted { at, inside },
            Tree::Integer { at, value } => Node::Integer { at, value },
            Tree::Bracket {
                at,
                symbol,
                ref parts,
            } => Node::Bracket { at, symbol, parts },
        }
    }
}

// A clone is the same tree. A derived one would say nothing of trees in trees.
impl Clone for Tree {
    ghost is_clone = { λ v w. tree_of w ≡ tree_of v };

    fn clone(&self) -> Result<Tree, AllocError> {
        copy(self)
    }
}

#[cycle(copy)]
fn copy(node: &Tree) -> Result<Tree, AllocError>
    ensures { IfOk result (λ n. tree_of n ≡ tree_of node.now) }
{
    match node {
        Tree::Quoted { at, inside } => Ok(Tree::Quoted {
            at: *at,
            inside: *inside,
        }),
        Tree::Integer { at, value } => Ok(Tree::Integer {
            at: *at,
            value: *value,
        }),
        Tree::Bracket { at, symbol, parts } => Ok(Tree::Bracket {
            at: *at,
            symbol: *symbol,
            parts: copy_parts(parts)?,
        }),
    }
}

// In a list of just their number.
#[cycle(copy)]
fn copy_parts(parts: &Vec<Tree>) -> Result<Vec<Tree>, AllocError>
    ensures { IfOk result (λ v. trees_of v.items ≡ trees_of parts.now.items) }
{
    let mut copies = Vec::with_capacity(*parts.allocator(), parts.len())?;
    for part in parts {
        copies.push(copy(part)?)?;
    }
    Ok(copies)
}
