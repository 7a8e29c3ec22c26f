// The shape of lines.
ghost use Rattle.std.specs.Prelude.{◌≡◌, map, IfOk};
ghost use Rattle.text.specs.Nodes.{tree_of, trees_of};
ghost use Rattle.syntax.specs.Shape as shape;
ghost use Rattle.syntax.specs.Seeing as seeing;
ghost use Rattle.syntax.specs.Numbers.{Took, AllTake, LineTakes};
ghost use Rattle.syntax.specs.Views.{line_in};

use crate::fault::ShapeFault;
use crate::source::{Bracket, Item, Source, short};
use crate::spec::{Label, Line, Spec};
use crate::symbol::Symbol;
use base::{push, reserve, with_room};
use text::tree::Tree;

impl Source<'_> {
    pub(crate) fn lines(self, parts: &[Tree], spec: &mut Spec) -> Result<Vec<Line>, ShapeFault>
        ensures adds { seeing.Adds (λ ns ts ls. map (line_in ns ts) ls.items) (shape.lines self.entry.text.now (trees_of parts.now)) spec.old spec.new result }
        ensures numbers { IfOk result (λ x. Took (AllTake LineTakes) spec.old x.items spec.new) }
    {
        let mut lines = with_room(self.heap, parts.len())?;
        reserve(&mut spec.terms, parts.len())?;
        for part in parts {
            push(&mut lines, self.line(part, spec)?)?;
        }
        Ok(lines)
    }

    // A line; a block within a block is not carried.
    fn line(self, node: &Tree, spec: &mut Spec) -> Result<Line, ShapeFault>
        ensures adds { seeing.Adds line_in (shape.line self.entry.text.now (tree_of node.now)) spec.old spec.new result }
        ensures numbers { IfOk result (λ x. Took LineTakes spec.old x spec.new) }
    {
        let Bracket { at, symbol, parts } = self.bracket(node)?;
        match symbol {
            Symbol::Comm => self.comm(at, parts, spec),
            Symbol::Block => Err(ShapeFault::NotCarried { at }),
            _ => Err(ShapeFault::Misfit { at }),
        }
    }

    // A label, the sender, the receiver and the message.
    #[tactic(auto, using(crate::proofs::Parts::not_four))]
    fn comm(self, at: usize, parts: &[Tree], spec: &mut Spec) -> Result<Line, ShapeFault>
        ensures adds { seeing.Adds line_in (shape.comm_of self.entry.text.now at (trees_of parts.now)) spec.old spec.new result }
        ensures numbers { IfOk result (λ x. Took LineTakes spec.old x spec.new) }
    {
        let [label, sender, receiver, message] = parts else {
            return Err(ShapeFault::Misfit { at });
        };
        Ok(Line {
            label: self.label(label)?,
            sender: self.name(sender)?,
            receiver: self.name(receiver)?,
            message: spec.add_term(self.term(message)?)?,
        })
    }

    fn label(self, node: &Tree) -> Result<Label, ShapeFault>
        ensures { result ≡ shape.label self.entry.text.now (tree_of node.now) }
    {
        match self.item(node)? {
            Item::Name(name) => Ok(Label::Name(short(name)?)),
            Item::Number { at, value } => Ok(Label::Number { at, value }),
            Item::Bracket(bracket) => Err(ShapeFault::Misfit { at: bracket.at }),
        }
    }
}
