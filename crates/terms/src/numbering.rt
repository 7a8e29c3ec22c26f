// The number of a term: equal terms have one, parts are numbered before the whole.
ghost use Rattle.std.specs.Prelude.{◌≡◌, ◌<◌, min, IfOk, OnOk};
ghost use Rattle.syntax.specs.Views.{term_of, terms_of};
ghost use Rattle.terms.specs.Shapes.{AllBelow};
ghost use Rattle.terms.specs.Terms.{size, Grows};
ghost use Rattle.terms.specs.Meanings.{scope_of};
ghost use Rattle.terms.specs.Reads.{SameNames, Reads, ReadsAll};
ghost use Rattle.terms.specs.Rows.{Begins};
ghost use Rattle.terms.specs.Termed.{Termed};
ghost use Rattle.terms.specs.TermTypes.{TypingLaw};
ghost use Rattle.terms.specs.TermNumbers.{Follows};
ghost use Rattle.terms.specs.Numbering.{tree};

use crate::declarations::{Declarations, ValueType};
use crate::fault::TermFault;
use crate::limits::Limits;
use program::kind::Kind;
use program::parts::Parts;
use syntax::spec::Term;

// a compound has at most so many parts
const MOST_PARTS: usize = 8;

impl Declarations {
    /// The number of a term, which is added with its parts if it is not there. Its types are checked first; a limit is passed at
    /// the node that is one term too many, or at a bracket of more than eight parts. A refusal leaves all as it was.
    #[tactic(auto, using(crate::proofs::TermTypes::typing_law_of))]
    pub fn term(&mut self, text: &[u8], term: &Term, limits: Limits) -> Result<u16, TermFault>
        ensures termed { Termed text.now (min limits.terms 512) (term_of term.now) (scope_of self.old) (scope_of self.new) result }
        ensures types { TypingLaw text.now (scope_of self.old) }
        ensures numbers { OnOk result (Follows (tree text.now (scope_of self.old).names (term_of term.now)) (scope_of self.old).terms (scope_of self.new).terms) }
    {
        self.check(text, term, ValueType::Number)?;
        let before = self.terms.len();
        match self.number(text, term, limits.most_terms()) {
            Ok(number) => Ok(number),
            Err(fault) => {
                self.terms.truncate(before);
                Err(fault)
            }
        }
    }

    #[cycle(number_numbers)]
    fn number(&mut self, text: &[u8], term: &Term, most: usize) -> Result<u16, TermFault>
        ensures within { IfOk result (λ k. k < size self.new.terms) }
        ensures grows { Grows self.old.terms self.new.terms }
        ensures same { SameNames self.old self.new }
        ensures begins { Begins self.old.terms.rows.items self.new.terms.rows.items }
        ensures reads { Reads text.now self.old.names.items self.old.terms self.new.terms (term_of term.now) most result }
    {
        match term {
            Term::Name(name) => {
                let at = name.at;
                let Some(name) = self.find(text, name.part) else {
                    return Err(TermFault::Undeclared { at });
                };
                self.terms.name(name, most, at)
            }
            Term::Crypt {
                at,
                text: plain,
                key,
            } => {
                let text_number = self.number(text, plain, most)?;
                let key_number = self.number(text, key, most)?;
                let parts = [text_number, key_number];
                self.terms
                    .compound(Kind::Crypt, Parts::from_slice(&parts), most, *at)
            }
            Term::Tuple { at, parts } => {
                let parts = self.numbers(text, *at, parts, most)?;
                self.terms.compound(Kind::Tuple, parts, most, *at)
            }
            Term::Apply {
                at,
                function,
                arguments,
            } => {
                let Some(number) = self.function_of(text, function.part) else {
                    return Err(TermFault::WrongType { at: function.at });
                };
                let parts = self.numbers(text, *at, arguments, most)?;
                self.terms.compound(Kind::Apply(number), parts, most, *at)
            }
        }
    }

    // The numbers of the parts of a compound, whose bracket stands at `at`.
    #[cycle(number_numbers)]
    fn numbers(
        &mut self,
        text: &[u8],
        at: usize,
        terms: &[Term],
        most: usize,
    ) -> Result<Parts, TermFault>
        ensures within { IfOk result (λ ps. AllBelow (size self.new.terms) ps) }
        ensures grows { Grows self.old.terms self.new.terms }
        ensures same { SameNames self.old self.new }
        ensures begins { Begins self.old.terms.rows.items self.new.terms.rows.items }
        ensures reads { ReadsAll text.now self.old.names.items self.old.terms self.new.terms at (terms_of terms.now) most result }
    {
        if terms.len() > MOST_PARTS {
            return Err(TermFault::Limit { at });
        }
        let mut parts = Parts::new();
        for term in terms {
            parts.push(self.number(text, term, most)?);
        }
        Ok(parts)
    }
}
