// The shape of a term.
ghost use Rattle.std.specs.Prelude.{◌≡◌};
ghost use Rattle.text.specs.Nodes.{tree_of, trees_of};
ghost use Rattle.syntax.specs.Shape as shape;
ghost use Rattle.syntax.specs.Seeing as seeing;
ghost use Rattle.syntax.specs.Views.{term_of, terms_of};

use crate::fault::ShapeFault;
use crate::source::{Bracket, Headed, Item, MOST_PARTS, Source, short};
use crate::spec::Term;
use crate::symbol::Symbol;
use base::{boxed, push, with_room};
use text::tree::Tree;

impl Source<'_> {
    #[cycle(term)]
    pub(crate) fn term(self, node: &Tree) -> Result<Term, ShapeFault>
        ensures { seeing.Gives term_of (shape.term self.entry.text.now (tree_of node.now)) result }
    {
        match self.item(node)? {
            Item::Name(name) => Ok(Term::Name(short(name)?)),
            Item::Number { at, .. } => Err(ShapeFault::Misfit { at }),
            Item::Bracket(Bracket { at, symbol, parts }) => match symbol {
                Symbol::Tuple => self.tuple(at, parts),
                Symbol::Crypt => self.ciphertext(at, parts),
                Symbol::Apply => self.application(at, parts),
                _ => Err(ShapeFault::Misfit { at }),
            },
        }
    }

    // By a loop: a closure that calls back into this cycle would need a contract, which cannot name the cycle's measure.
    #[cycle(term)]
    fn terms(self, parts: &[Tree]) -> Result<Vec<Term>, ShapeFault>
        ensures { seeing.Gives (λ ts. terms_of ts.items) (shape.terms self.entry.text.now (trees_of parts.now)) result }
    {
        let mut terms = with_room(self.heap, parts.len())?;
        for part in parts {
            push(&mut terms, self.term(part)?)?;
        }
        Ok(terms)
    }

    #[cycle(term)]
    fn tuple(self, at: usize, parts: &[Tree]) -> Result<Term, ShapeFault>
        ensures { seeing.Gives term_of (seeing.tuple_term self.entry.text.now at (trees_of parts.now)) result }
    {
        if parts.len() > MOST_PARTS {
            return Err(ShapeFault::Limit { at });
        }
        let parts = self.terms(parts)?;
        Ok(Term::Tuple { at, parts })
    }

    // A text and a key, and the mark behind them.
    #[cycle(term)]
    fn ciphertext(self, at: usize, parts: &[Tree]) -> Result<Term, ShapeFault>
        ensures { seeing.Gives term_of (shape.crypt_term self.entry.text.now at (trees_of parts.now)) result }
    {
        let [text, key, mark] = parts else {
            return Err(ShapeFault::Misfit { at });
        };
        let text = boxed(self.heap, self.term(text)?)?;
        let key = boxed(self.heap, self.term(key)?)?;
        self.vanilla(mark)?;
        Ok(Term::Crypt { at, text, key })
    }

    fn vanilla(self, node: &Tree) -> Result<(), ShapeFault>
        ensures { result ≡ shape.vanilla self.entry.text.now (tree_of node.now) }
    {
        let bracket = self.form(node, Symbol::Vanilla)?;
        if !bracket.parts.is_empty() {
            return Err(ShapeFault::Misfit { at: bracket.at });
        }
        Ok(())
    }

    // A function's name and the arguments.
    #[cycle(term)]
    fn application(self, at: usize, parts: &[Tree]) -> Result<Term, ShapeFault>
        ensures { seeing.Gives term_of (shape.apply_term self.entry.text.now at (trees_of parts.now)) result }
    {
        let Headed { name, rest } = self.headed(at, parts)?;
        let arguments = self.terms(rest)?;
        Ok(Term::Apply {
            at,
            function: name,
            arguments,
        })
    }
}
