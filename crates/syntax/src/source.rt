// The text that a tree was read from, by which its nodes are looked at.
ghost use Rattle.std.specs.Prelude.{◌≡◌};
ghost use Rattle.text.specs.Nodes.{tree_of, trees_of};
ghost use Rattle.syntax.specs.Shape as shape;
ghost use Rattle.syntax.specs.Seeing as seeing;

use crate::fault::ShapeFault;
use crate::name::is_name;
use crate::spec::Name;
use crate::symbol::{Symbol, symbol_of};
use std::alloc::Global;
use text::node::Node;
use text::tree::Tree;

// a name has at most so many bytes
const LONGEST_NAME: usize = 31;

// a tuple has at most so many parts, an application so many arguments, a function so many parameters
pub(crate) const MOST_PARTS: usize = 8;

#[derive(Clone, Copy)]
pub struct Source<'a> {
    pub heap: Global,
    pub text: &'a [u8],
}

// A bracket with a symbol that is carried, and the trees in it.
#[derive(Clone, Copy)]
pub struct Bracket<'a> {
    pub at: usize,
    pub symbol: Symbol,
    pub parts: &'a [Tree],
}

// What a tree's first node shows of itself.
#[derive(Clone, Copy)]
pub enum Item<'a> {
    Name(Name),
    Number { at: usize, value: u32 },
    Bracket(Bracket<'a>),
}

// A name, and the trees behind it.
#[derive(Clone, Copy)]
pub struct Headed<'a> {
    pub name: Name,
    pub rest: &'a [Tree],
}

impl Source<'_> {
    // A quoted text must be a name, and a symbol one that is carried, wherever they stand.
    pub(crate) fn item<'b>(self, node: &'b Tree) -> Result<Item<'b>, ShapeFault>
        ensures { seeing.Shows self.entry.text.now (tree_of node.now) result }
    {
        match node.node() {
            Node::Quoted { at, inside: part } => {
                if !is_name(part.of(self.text)) {
                    return Err(ShapeFault::NoName { at });
                }
                Ok(Item::Name(Name { at, part }))
            }
            Node::Integer { at, value } => Ok(Item::Number { at, value }),
            Node::Bracket { at, symbol, parts } => match symbol_of(symbol.of(self.text)) {
                Symbol::NotCarried => Err(ShapeFault::NotCarried { at }),
                symbol => Ok(Item::Bracket(Bracket { at, symbol, parts })),
            },
        }
    }

    // A name of at most 31 bytes.
    pub(crate) fn name(self, node: &Tree) -> Result<Name, ShapeFault>
        ensures { result ≡ shape.a_name self.entry.text.now (tree_of node.now) }
    {
        match self.item(node)? {
            Item::Name(name) => short(name),
            other => Err(ShapeFault::Misfit { at: other.place() }),
        }
    }

    // A bracket with a symbol that is carried.
    pub(crate) fn bracket<'b>(self, node: &'b Tree) -> Result<Bracket<'b>, ShapeFault>
        ensures { seeing.Opens self.entry.text.now (tree_of node.now) result }
    {
        match self.item(node)? {
            Item::Bracket(bracket) => Ok(bracket),
            other => Err(ShapeFault::Misfit { at: other.place() }),
        }
    }

    // A bracket with this symbol.
    pub(crate) fn form<'b>(self, node: &'b Tree, wanted: Symbol) -> Result<Bracket<'b>, ShapeFault>
        ensures { seeing.Formed self.entry.text.now wanted (tree_of node.now) result }
    {
        let bracket = self.bracket(node)?;
        if bracket.symbol != wanted {
            return Err(ShapeFault::Misfit { at: bracket.at });
        }
        Ok(bracket)
    }

    // A name, and up to 8 trees behind it.
    pub(crate) fn headed<'b>(self, at: usize, parts: &'b [Tree]) -> Result<Headed<'b>, ShapeFault>
        ensures { seeing.viewed seeing.headed_by result ≡ seeing.headed self.entry.text.now at (trees_of parts.now) }
    {
        let [head, rest @ ..] = parts else {
            return Err(ShapeFault::Misfit { at });
        };
        if rest.len() > MOST_PARTS {
            return Err(ShapeFault::Limit { at });
        }
        let name = self.name(head)?;
        Ok(Headed { name, rest })
    }
}

impl Item<'_> {
    pub(crate) fn place(self) -> usize
        ensures { result ≡ seeing.item_place self.entry }
    {
        match self {
            Item::Name(name) => name.at,
            Item::Number { at, .. } => at,
            Item::Bracket(bracket) => bracket.at,
        }
    }
}

pub(crate) fn short(name: Name) -> Result<Name, ShapeFault>
    ensures { result ≡ shape.short name }
{
    if name.part.len > LONGEST_NAME {
        return Err(ShapeFault::Limit { at: name.at });
    }
    Ok(name)
}
