// The shape of a tree: from its root to a specification. A node is looked at before its parts, and those from left to right.
ghost use Rattle.std.specs.Prelude.{◌≡◌, map, IfOk};
ghost use Rattle.text.specs.Nodes.{tree_of};
ghost use Rattle.syntax.specs.Shape as shape;
ghost use Rattle.syntax.specs.Seeing as seeing;
ghost use Rattle.syntax.specs.Numbers.{Took, AllTake, DeclarationTakes, LineTakes, InOrder};
ghost use Rattle.syntax.specs.TreeFaults.{ShapeLaw};
ghost use Rattle.syntax.specs.Views.{declared_in, line_in};

use crate::fault::ShapeFault;
use crate::source::{Bracket, Source};
use crate::spec::{Declaration, Line, Spec};
use crate::symbol::{Section, Symbol};
use text::tree::Tree;

// a block has at most so many lines
const MOST_LINES: usize = 64;

impl Source<'_> {
    /// The specification that a tree is. The first node with a fault is refused, where it stands in the text, with the fault that
    /// has the highest number there.
    #[tactic(auto, using(crate::proofs::TreeFaults::shape_law))]
    pub fn spec(self, root: &Tree) -> Result<Spec, ShapeFault>
        ensures law { ShapeLaw self.entry.text.now }
        ensures numbers { IfOk result InOrder }
        ensures shapes { seeing.Shapes (shape.shape self.entry.text.now (tree_of root.now)) result }
    {
        let Bracket { at, parts, .. } = self.form(root, Symbol::Spec)?;
        let [declare, block, sessions, assume, claim] = parts else {
            return Err(ShapeFault::Misfit { at });
        };
        let mut spec = Spec {
            declarations: Vec::new(self.heap),
            parameters: Vec::new(self.heap),
            lines: Vec::new(self.heap),
            terms: Vec::new(self.heap),
        };
        spec.declarations = self.declare(declare, &mut spec)?;
        spec.lines = self.block(block, &mut spec)?;
        self.section(sessions, Section::Sessions)?;
        self.section(assume, Section::Assume)?;
        self.section(claim, Section::Claim)?;
        Ok(spec)
    }

    // The declarations are answered; what they name by number is added to the specification.
    fn declare(self, node: &Tree, spec: &mut Spec) -> Result<Vec<Declaration>, ShapeFault>
        ensures adds { seeing.Adds (λ ns ts ds. map (declared_in ns ts) ds.items) (shape.declare self.entry.text.now (tree_of node.now)) spec.old spec.new result }
        ensures numbers { IfOk result (λ x. Took (AllTake DeclarationTakes) spec.old x.items spec.new) }
    {
        let bracket = self.form(node, Symbol::Declare)?;
        self.declarations(bracket.parts, spec)
    }

    // The lines are answered, and their messages added.
    fn block(self, node: &Tree, spec: &mut Spec) -> Result<Vec<Line>, ShapeFault>
        ensures adds { seeing.Adds (λ ns ts ls. map (line_in ns ts) ls.items) (shape.block self.entry.text.now (tree_of node.now)) spec.old spec.new result }
        ensures numbers { IfOk result (λ x. Took (AllTake LineTakes) spec.old x.items spec.new) }
    {
        let bracket = self.form(node, Symbol::Block)?;
        if bracket.parts.len() > MOST_LINES {
            return Err(ShapeFault::Limit { at: bracket.at });
        }
        self.lines(bracket.parts, spec)
    }

    // A list of which no part is carried.
    fn section(self, node: &Tree, wanted: Section) -> Result<(), ShapeFault>
        ensures { result ≡ shape.section self.entry.text.now (seeing.section_word wanted) (tree_of node.now) }
    {
        let bracket = self.form(node, Symbol::Section(wanted))?;
        if let [first, ..] = bracket.parts {
            let part = self.item(first)?;
            return Err(ShapeFault::NotCarried { at: part.place() });
        }
        Ok(())
    }
}
