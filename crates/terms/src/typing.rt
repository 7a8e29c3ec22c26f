// The types of a term: each node before its parts, and those from left to right.
ghost use Rattle.std.specs.Prelude.{◌≡◌};
ghost use Rattle.syntax.specs.Views.{term_of, terms_of};
ghost use Rattle.terms.specs.Scope.{meaning_of};
ghost use Rattle.terms.specs.Typing.{fits as type_fits, name_fits, applied, typed, typed_all};
ghost use Rattle.terms.specs.Meanings.{scope_of};
ghost use Rattle.terms.specs.Checked.{found};

use crate::declarations::{Declarations, Function, Meaning, ValueType};
use crate::fault::TermFault;
use syntax::spec::{Name, Term};

impl Declarations {
    // Whether a term has the type that is wanted.
    #[cycle(check_check_parts)]
    pub(crate) fn check(&self, text: &[u8], term: &Term, wanted: ValueType) -> Result<(), TermFault>
        ensures { result ≡ typed text.now (scope_of self.now) (term_of term.now) wanted }
    {
        match term {
            Term::Name(name) => self.check_name(text, *name, wanted),
            Term::Tuple { at, parts } => {
                fits(*at, ValueType::Number, wanted)?;
                self.check_parts(text, parts, &[])
            }
            Term::Crypt {
                at,
                text: plain,
                key,
            } => {
                fits(*at, ValueType::Number, wanted)?;
                self.check(text, plain, ValueType::Number)?;
                self.check(text, key, ValueType::Number)
            }
            Term::Apply {
                at,
                function,
                arguments,
            } => {
                let function = self.applied(text, *function)?;
                let parameters = self.parameters(function);
                if parameters.len() != arguments.len() {
                    return Err(TermFault::WrongType { at: *at });
                }
                fits(*at, function.result, wanted)?;
                self.check_parts(text, arguments, parameters)
            }
        }
    }

    // Some terms, against the types that are wanted of them; where none is said, a number is wanted.
    #[cycle(check_check_parts)]
    fn check_parts(
        &self,
        text: &[u8],
        parts: &[Term],
        wanted: &[ValueType],
    ) -> Result<(), TermFault>
        ensures { result ≡ typed_all text.now (scope_of self.now) (terms_of parts.now) wanted.now }
    {
        for (place, part) in parts.iter().enumerate() {
            let wanted = wanted.get(place).copied().unwrap_or(ValueType::Number);
            self.check(text, part, wanted)?;
        }
        Ok(())
    }

    fn check_name(&self, text: &[u8], name: Name, wanted: ValueType) -> Result<(), TermFault>
        ensures { result ≡ name_fits name.at (meaning_of text.now (scope_of self.now).names name.part) wanted }
    {
        let at = name.at;
        match self.meaning(text, name.part) {
            None => Err(TermFault::Undeclared { at }),
            Some(Meaning::Function(_)) => Err(TermFault::WrongType { at }),
            Some(Meaning::Value { kind, .. }) => fits(at, kind, wanted),
        }
    }

    // The function of an application.
    fn applied(&self, text: &[u8], name: Name) -> Result<Function, TermFault>
        ensures { found self.now result ≡ applied (scope_of self.now).functions name (meaning_of text.now (scope_of self.now).names name.part) }
    {
        let at = name.at;
        let Some(meaning) = self.meaning(text, name.part) else {
            return Err(TermFault::Undeclared { at });
        };
        let Meaning::Function(number) = meaning else {
            return Err(TermFault::WrongType { at });
        };
        self.functions
            .get(number as usize)
            .copied()
            .ok_or(TermFault::WrongType { at })
    }
}

// A principal may stand where a number is wanted; otherwise types are equal.
fn fits(at: usize, found: ValueType, wanted: ValueType) -> Result<(), TermFault>
    ensures { result ≡ type_fits at found wanted }
{
    if wanted == ValueType::Principal && found != ValueType::Principal {
        return Err(TermFault::WrongType { at });
    }
    Ok(())
}
