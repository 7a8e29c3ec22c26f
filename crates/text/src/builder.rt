// A tree that is being built from the tokens of its text.
ghost use Rattle.std.specs.Prelude.{◌≡◌, ◌+◌, ◌<◌, [], ◌∷◌, Ok, IfOk, OnOk};
ghost use Rattle.text.specs.Machine.{put};
ghost use Rattle.text.specs.Nodes.{tree_of};
ghost use Rattle.text.specs.Reading.{count, full};
ghost use Rattle.text.specs.Standing.{frames, turn, Room, Turns};
ghost use Rattle.text.specs.Trees.{none, size};
ghost use Rattle.text.specs.declared.token.Token.TheVariants.{Close as CloseToken};

use crate::fault::TextFault;
use crate::part::Part;
use crate::token::Token;
use crate::tree::Tree;
use base::{NoMemory, push, with_room};
use std::alloc::Global;

// how many nodes a text has at most
const MOST_NODES: usize = 4096;
// how many levels of nodes
const MOST_LEVELS: usize = 32;

// A bracket that is still open, with its parts so far.
#[derive(Drop)]
pub(crate) struct Open {
    pub at: usize,
    pub symbol: Part,
    pub parts: Vec<Tree>,
}

// That `begun` counts the nodes of the brackets is a clause and no invariant: it is false where memory fails after a bracket was
// taken off.
#[derive(Drop)]
pub(crate) struct Builder {
    pub heap: Global,
    // the innermost bracket last
    pub brackets: Vec<Open>,
    // Lists of brackets that were closed, for brackets to come. Parts are gathered in one of these, and move into a list of just
    // their number when the bracket closes.
    pub spare: Vec<Vec<Tree>>,
    // how many nodes have begun
    pub begun: usize,
}

impl Builder {
    pub(crate) fn new(heap: Global) -> Builder
        ensures { (result.brackets.items ≡ []) × (result.begun ≡ 0) }
    {
        Builder {
            heap,
            brackets: Vec::new(heap),
            spare: Vec::new(heap),
            begun: 0,
        }
    }

    // Would one node more pass a limit?
    pub(crate) fn is_full(&self) -> bool
        requires { self.now.begun ≡ count (frames self.now.brackets.items) }
        ensures { result ≡ full (frames self.now.brackets.items) }
    {
        self.begun >= MOST_NODES || self.brackets.len() >= MOST_LEVELS
    }

    // What a token does: the whole term, if it ends here.
    #[tactic(auto, unfolding(crate::specs::Trees::size))]
    pub(crate) fn take(&mut self, token: Token) -> Result<Option<Tree>, TextFault>
        requires counted { self.old.begun ≡ count (frames self.old.brackets.items) }
        requires room { Room self.old.begun token }
        ensures { Turns (turn (frames self.old.brackets.items) token) result self.new.brackets.items self.new.begun }
    {
        match token {
            Token::Quoted { at, inside } => self.add(Tree::Quoted { at, inside }),
            Token::Integer { at, value } => self.add(Tree::Integer { at, value }),
            Token::Open { at, symbol } => {
                self.enter(at, symbol)?;
                Ok(None)
            }
            Token::Close { at } => self.close(at),
        }
    }

    // A tree without parts.
    fn add(&mut self, node: Tree) -> Result<Option<Tree>, TextFault>
        requires counted { self.old.begun ≡ count (frames self.old.brackets.items) }
        requires room { self.old.begun < 4096 }
        requires leaf { size (tree_of node) ≡ 1 }
        ensures { Turns (Ok (put (tree_of node) (frames self.old.brackets.items))) result self.new.brackets.items self.new.begun }
    {
        self.begun += 1;
        self.put(node)
    }

    // A bracket, whose parts are to come.
    #[tactic(auto, using(crate::proofs::Building::frames_push), unfolding(crate::specs::Reading::count, crate::specs::Trees::size))]
    fn enter(&mut self, at: usize, symbol: Part) -> Result<(), NoMemory>
        requires counted { self.old.begun ≡ count (frames self.old.brackets.items) }
        requires room { self.old.begun < 4096 }
        ensures entered { OnOk result (frames self.new.brackets.items ≡ record { at = at; symbol = symbol; parts = none } ∷ frames self.old.brackets.items) }
        ensures counted { OnOk result (self.new.begun ≡ count (frames self.new.brackets.items)) }
    {
        self.begun += 1;
        let parts = self.empty_list();
        push(&mut self.brackets, Open { at, symbol, parts })
    }

    // A list without trees, to gather some in. Spare lists are empty already; clearing one says so without an invariant.
    fn empty_list(&mut self) -> Vec<Tree>
        ensures empty { result.items ≡ [] }
        ensures brackets { self.new.brackets ≡ self.old.brackets }
        ensures begun { self.new.begun ≡ self.old.begun }
    {
        match self.spare.pop() {
            Some(mut list) => {
                list.clear();
                list
            }
            None => Vec::new(self.heap),
        }
    }

    // The trees that were gathered in a list, in one of just their number.
    fn exact_list(&mut self, mut gathered: Vec<Tree>) -> Result<Vec<Tree>, NoMemory>
        ensures nodes { IfOk result (λ v. v.items ≡ gathered.items) }
        ensures brackets { self.new.brackets ≡ self.old.brackets }
        ensures begun { self.new.begun ≡ self.old.begun }
    {
        let mut list = with_room(self.heap, gathered.len())?;
        // there is room for them
        let _ = list.append(&mut gathered);
        push(&mut self.spare, gathered)?;
        Ok(list)
    }

    // The end of the innermost bracket, by a byte at `end`.
    #[tactic(auto, using(crate::proofs::Building::frames_push), unfolding(crate::specs::Reading::count, crate::specs::Trees::size))]
    fn close(&mut self, end: usize) -> Result<Option<Tree>, TextFault>
        requires { self.old.begun ≡ count (frames self.old.brackets.items) }
        ensures { Turns (turn (frames self.old.brackets.items) (CloseToken end)) result self.new.brackets.items self.new.begun }
    {
        let Some(Open { at, symbol, parts }) = self.brackets.pop() else {
            return Err(TextFault::Broken { at: end });
        };
        let parts = self.exact_list(parts)?;
        self.put(Tree::Bracket { at, symbol, parts })
    }

    // A finished tree goes into the innermost bracket; if none is open, it is the whole term.
    fn put(&mut self, node: Tree) -> Result<Option<Tree>, TextFault>
        requires { self.old.begun ≡ count (frames self.old.brackets.items) + size (tree_of node) }
        ensures { Turns (Ok (put (tree_of node) (frames self.old.brackets.items))) result self.new.brackets.items self.new.begun }
    {
        let Some(bracket) = self.brackets.last_mut() else {
            return Ok(Some(node));
        };
        push(&mut bracket.parts, node)?;
        Ok(None)
    }
}
