// What a party starts from, and what may be made.
ghost use Rattle.std.specs.Prelude.{◌≡◌, map, drop, IfOk};
ghost use Rattle.terms.specs.Shapes.{AllBelow};
ghost use Rattle.terms.specs.Terms.{size, tree_in};
ghost use Rattle.terms.specs.Meanings.{scope_of, table_of};
ghost use Rattle.terms.specs.Starting.{concerns, given_to, has_right, is_makeable, made_among};

use crate::declarations::{Declarations, Declared, Meaning, ValueType};
use crate::term::TermRow;
use base::{NoMemory, push};
use std::alloc::Global;

impl Declarations {
    /// The numbers of the terms that a party of this name starts from, in the order of declaration.
    pub fn starting_terms(&self, heap: Global, name: u8) -> Result<Vec<u16>, NoMemory>
        ensures below { IfOk result (λ v. AllBelow (size (table_of self.now)) v.items) }
        ensures given { IfOk result (λ v. map (tree_in (table_of self.now)) v.items ≡ given_to name (scope_of self.now).starts) }
    {
        let mut terms = Vec::new(heap);
        for start in &self.starts {
            if is_for(start.knower, name) {
                push(&mut terms, start.term)?;
            }
        }
        Ok(terms)
    }

    /// Whether a party of this name may apply a function though it is secret.
    pub fn has_right(&self, name: u8, function: usize) -> bool
        ensures { result ≡ has_right name function (scope_of self.now).rights }
    {
        self.rights.iter().any(|right| right.function as usize == function
            && is_for(right.knower, name))
    }

    /// The names that were numbered as terms from `before` on and may be made: no shared ones, and no principals.
    pub fn made_since(&self, heap: Global, before: usize) -> Result<Vec<u8>, NoMemory>
        ensures { IfOk result (λ v. v.items ≡ made_among (scope_of self.now).names (drop before (scope_of self.now).terms)) }
    {
        let mut made = Vec::new(heap);
        for row in self.terms.since(before) {
            if let TermRow::Name(name) = *row
                && self.may_be_made(name)
            {
                push(&mut made, name)?;
            }
        }
        Ok(made)
    }

    fn may_be_made(&self, name: u8) -> bool
        ensures { result ≡ is_makeable self.now.names.items name }
    {
        matches!(
            self.names.get(name as usize),
            Some(Declared {
                meaning: Meaning::Value {
                    kind: ValueType::Number,
                    shared: false
                },
                ..
            })
        )
    }
}

// Is it for everybody, or for this party?
fn is_for(knower: Option<u8>, name: u8) -> bool
    ensures { result ≡ concerns knower name }
{
    knower.is_none_or(|knower| knower == name)
}
