// The shape of declarations.
ghost use Rattle.std.specs.Prelude.{ℕ, map, IfOk};
ghost use Rattle.text.specs.Nodes.{tree_of, trees_of};
ghost use Rattle.syntax.specs.Shape as shape;
ghost use Rattle.syntax.specs.Seeing as seeing;
ghost use Rattle.syntax.specs.Numbers.{Took, AllTake, DeclarationTakes};
ghost use Rattle.syntax.specs.Views.{declared_in};

use crate::fault::ShapeFault;
use crate::source::{Bracket, Headed, Item, Source, short};
use crate::spec::{Declaration, Name, Spec};
use crate::symbol::{FunctionClass, Symbol};
use base::push;
use text::tree::Tree;

impl Source<'_> {
    pub(crate) fn declarations(
        self,
        parts: &[Tree],
        spec: &mut Spec,
    ) -> Result<Vec<Declaration>, ShapeFault>
        ensures adds { seeing.Adds (λ ns ts ds. map (declared_in ns ts) ds.items) (shape.declarations self.entry.text.now (trees_of parts.now)) spec.old spec.new result }
        ensures numbers { IfOk result (λ x. Took (AllTake DeclarationTakes) spec.old x.items spec.new) }
    {
        // it grows as it is read: a text that is refused at its first declaration takes no room for the others
        let mut declarations = Vec::new(self.heap);
        for part in parts {
            push(&mut declarations, self.declaration(part, spec)?)?;
        }
        Ok(declarations)
    }

    fn declaration(self, node: &Tree, spec: &mut Spec) -> Result<Declaration, ShapeFault>
        ensures adds { seeing.Adds declared_in (shape.declaration self.entry.text.now (tree_of node.now)) spec.old spec.new result }
        ensures numbers { IfOk result (λ x. Took DeclarationTakes spec.old x spec.new) }
    {
        let Bracket { at, symbol, parts } = self.bracket(node)?;
        match symbol {
            Symbol::Type => self.value(at, parts),
            Symbol::TypeShared => self.shared(at, parts, spec),
            Symbol::Knows => self.knows(at, parts, spec),
            Symbol::EverybodyKnows => self.everybody_knows(at, parts, spec),
            _ => Err(ShapeFault::Misfit { at }),
        }
    }

    // A name and its type.
    #[tactic(auto, using(crate::proofs::Parts::not_two))]
    fn value(self, at: usize, parts: &[Tree]) -> Result<Declaration, ShapeFault>
        ensures gives { seeing.GivesAlways declared_in (shape.type_of self.entry.text.now at (trees_of parts.now)) result }
        ensures numbers { (p t : ℕ) → IfOk result (λ x. DeclarationTakes p t x p t) }
    {
        let [name, kind] = parts else {
            return Err(ShapeFault::Misfit { at });
        };
        Ok(Declaration::Value {
            name: self.name(name)?,
            kind: self.name(kind)?,
            shared: false,
        })
    }

    // A shared name, with a type or a function type.
    #[tactic(auto, using(crate::proofs::Parts::not_two))]
    fn shared(self, at: usize, parts: &[Tree], spec: &mut Spec) -> Result<Declaration, ShapeFault>
        ensures adds { seeing.Adds declared_in (shape.shared_of self.entry.text.now at (trees_of parts.now)) spec.old spec.new result }
        ensures numbers { IfOk result (λ x. Took DeclarationTakes spec.old x spec.new) }
    {
        let [name, kind] = parts else {
            return Err(ShapeFault::Misfit { at });
        };
        let name = self.name(name)?;
        self.shared_type(name, kind, spec)
    }

    fn shared_type(
        self,
        name: Name,
        node: &Tree,
        spec: &mut Spec,
    ) -> Result<Declaration, ShapeFault>
        ensures adds { seeing.Adds declared_in (shape.shared_as self.entry.text.now name (tree_of node.now)) spec.old spec.new result }
        ensures numbers { IfOk result (λ x. Took DeclarationTakes spec.old x spec.new) }
    {
        match self.item(node)? {
            Item::Name(kind) => Ok(Declaration::Value {
                name,
                kind: short(kind)?,
                shared: true,
            }),
            Item::Number { at, .. } => Err(ShapeFault::Misfit { at }),
            Item::Bracket(Bracket { at, symbol, parts }) => match symbol {
                Symbol::FunctionType(class) => self.function(name, class, at, parts, spec),
                _ => Err(ShapeFault::Misfit { at }),
            },
        }
    }

    // A function type: the result, then the parameters.
    fn function(
        self,
        name: Name,
        class: FunctionClass,
        at: usize,
        parts: &[Tree],
        spec: &mut Spec,
    ) -> Result<Declaration, ShapeFault>
        ensures adds { seeing.Adds declared_in (shape.function_of self.entry.text.now name class.secret class.one_way at (trees_of parts.now)) spec.old spec.new result }
        ensures numbers { IfOk result (λ x. Took DeclarationTakes spec.old x spec.new) }
    {
        let Headed { name: result, rest } = self.headed(at, parts)?;
        let first = spec.parameters.len();
        self.names(rest, &mut spec.parameters)?;
        Ok(Declaration::Function {
            name,
            class,
            result,
            first,
            end: spec.parameters.len(),
        })
    }

    // Names behind those of the list.
    fn names(self, parts: &[Tree], names: &mut Vec<Name>) -> Result<(), ShapeFault>
        ensures { seeing.Grows (shape.names self.entry.text.now (trees_of parts.now)) names.old.items names.new.items result }
    {
        for part in parts {
            push(names, self.name(part)?)?;
        }
        Ok(())
    }

    // Starting knowledge of one party.
    #[tactic(auto, using(crate::proofs::Parts::not_two))]
    fn knows(self, at: usize, parts: &[Tree], spec: &mut Spec) -> Result<Declaration, ShapeFault>
        ensures adds { seeing.Adds declared_in (shape.knows_of self.entry.text.now at (trees_of parts.now)) spec.old spec.new result }
        ensures numbers { IfOk result (λ x. Took DeclarationTakes spec.old x spec.new) }
    {
        let [knower, term] = parts else {
            return Err(ShapeFault::Misfit { at });
        };
        Ok(Declaration::Knows {
            knower: self.name(knower)?,
            term: spec.add_term(self.term(term)?)?,
        })
    }

    fn everybody_knows(
        self,
        at: usize,
        parts: &[Tree],
        spec: &mut Spec,
    ) -> Result<Declaration, ShapeFault>
        ensures adds { seeing.Adds declared_in (shape.everybody_of self.entry.text.now at (trees_of parts.now)) spec.old spec.new result }
        ensures numbers { IfOk result (λ x. Took DeclarationTakes spec.old x spec.new) }
    {
        let [term] = parts else {
            return Err(ShapeFault::Misfit { at });
        };
        Ok(Declaration::EverybodyKnows {
            term: spec.add_term(self.term(term)?)?,
        })
    }
}
