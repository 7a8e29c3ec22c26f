// What is declared: names with their types, functions, starting knowledge; and the terms, by number.
ghost use Rattle.std.specs.Prelude.{◌≡◌, ◌≤◌, vec_len};
ghost use Rattle.terms.specs.Consistency.{Defined, Started, Within};
ghost use Rattle.terms.specs.Terms.{size};

use crate::fault::TermFault;
use crate::table::TermTable;
use std::alloc::Global;
use syntax::spec::Name;
use syntax::symbol::FunctionClass;
use text::part::Part;

/// The type of a value.
#[derive(Clone, Copy, PartialEq, Eq)]
pub enum ValueType {
    /// any value
    Number,
    /// the name of a party
    Principal,
}

/// What a name stands for.
#[derive(Clone, Copy)]
pub enum Meaning {
    /// a value; a shared one is never made
    Value { kind: ValueType, shared: bool },
    /// a function, by its number
    Function(u8),
}

/// A name with what it stands for.
#[derive(Clone, Copy)]
pub struct Declared {
    /// the bytes of the name, as a part of the text
    pub name: Part,
    /// what it stands for
    pub meaning: Meaning,
}

/// A function. Its name stands here too, since a program's text goes by the number of a function. The types of its parameters stand
/// among those of all functions, from `first` to `end`: `Declarations::parameters` shows them.
#[derive(Clone, Copy)]
pub struct Function {
    /// the bytes of its name, as a part of the text
    pub name: Part,
    /// who may apply it, and whether an application hides its arguments
    pub class: FunctionClass,
    /// the type of an application
    pub result: ValueType,
    /// the place of its first parameter's type
    pub first: usize,
    /// the place behind its last parameter's type
    pub end: usize,
}

impl Function {
    ghost use Rattle.terms.specs.Meanings.{arity};

    /// How many parameters it has: how many places lie from `first` to `end`.
    pub fn arity(self) -> usize
        ensures { result ≡ arity self }
    {
        self.end.saturating_sub(self.first)
    }
}

/// A term that a party starts from: the one of that name, or everybody.
#[derive(Clone, Copy)]
pub struct Start {
    /// the number of the party's name, or none for everybody
    pub knower: Option<u8>,
    /// the number of the term
    pub term: u16,
}

/// A function that a party may apply though it is secret.
#[derive(Clone, Copy)]
pub struct Right {
    /// the number of the party's name, or none for everybody
    pub knower: Option<u8>,
    /// the number of the function
    pub function: u8,
}

/// What a specification declares. A name goes by its place in the list of names, a function by its place in the list of
/// functions, and a term by its number in the table.
#[derive(Drop)]
pub struct Declarations {
    pub(crate) names: Vec<Declared>,
    pub(crate) functions: Vec<Function>,
    // the types of all functions' parameters, in their order
    pub(crate) parameters: Vec<ValueType>,
    pub(crate) starts: Vec<Start>,
    pub(crate) rights: Vec<Right>,
    pub(crate) terms: TermTable,
    ghost few: { vec_len names ≤ 128 },
    ghost fewer: { vec_len functions ≤ vec_len names },
    ghost within: { Within functions.items (vec_len parameters) },
    ghost defined: { Defined names.items (vec_len functions) },
    ghost started: { Started starts.items (size terms) },
}

impl Declarations {
    ghost use Rattle.std.specs.Prelude.{◌≡◌, []};
    ghost use Rattle.terms.specs.Scope.{nothing_declared, number_of, meaning_of, function_of};
    ghost use Rattle.terms.specs.Declaring.{principal};
    ghost use Rattle.terms.specs.Meanings.{scope_of, table_of, functions_of, types_of, parameters_in, starts_of};

    /// Nothing is declared.
    #[tactic(auto, unfolding(crate::specs::Meanings::trees_of))]
    pub fn new(heap: Global) -> Declarations
        ensures scope { scope_of result ≡ nothing_declared }
        ensures types { types_of result ≡ [] }
    {
        Declarations {
            names: Vec::new(heap),
            functions: Vec::new(heap),
            parameters: Vec::new(heap),
            starts: Vec::new(heap),
            rights: Vec::new(heap),
            terms: TermTable::new(heap),
        }
    }

    /// The names, in the order of their declaration.
    pub fn names(&self) -> &[Declared]
        ensures { result.now ≡ (scope_of self.now).names }
    {
        &self.names
    }

    /// The functions, in the order of their declaration.
    pub fn functions(&self) -> &[Function]
        ensures { result.now ≡ functions_of self.now }
    {
        &self.functions
    }

    /// The types of a function's parameters. A row that is none of `functions()` gets what stands from its `first` to its `end`.
    pub fn parameters(&self, function: Function) -> &[ValueType]
        ensures { result.now ≡ parameters_in (types_of self.now) function }
    {
        let end = function.end.min(self.parameters.len());
        &self.parameters[function.first.min(end)..end]
    }

    /// The terms that parties start from, in the order of declaration.
    pub fn starts(&self) -> &[Start]
        ensures { result.now ≡ starts_of self.now }
    {
        &self.starts
    }

    /// The rights to apply secret functions, in the order of declaration.
    pub fn rights(&self) -> &[Right]
        ensures { result.now ≡ (scope_of self.now).rights }
    {
        &self.rights
    }

    /// The terms by number.
    pub fn terms(&self) -> &TermTable
        ensures { result.now ≡ table_of self.now }
    {
        &self.terms
    }

    // A map would own the names a second time.
    /// The number of a name of the text.
    pub fn find(&self, text: &[u8], name: Part) -> Option<u8>
        ensures { result ≡ number_of text.now (scope_of self.now).names name }
    {
        let wanted = name.of(text);
        let number = self
            .names
            .iter()
            .position(|declared| declared.name.of(text) == wanted)?;
        Some(number as u8)
    }

    /// What a name of the text stands for.
    pub fn meaning(&self, text: &[u8], name: Part) -> Option<Meaning>
        ensures { result ≡ meaning_of text.now (scope_of self.now).names name }
    {
        let number = self.find(text, name)?;
        Some(self.names.get(number as usize)?.meaning)
    }

    // The number of the function that a name stands for.
    pub(crate) fn function_of(&self, text: &[u8], name: Part) -> Option<u8>
        ensures { result ≡ function_of (meaning_of text.now (scope_of self.now).names name) }
    {
        match self.meaning(text, name)? {
            Meaning::Function(function) => Some(function),
            Meaning::Value { .. } => None,
        }
    }

    /// The number of a party, by its name. A name that is not declared, or is no principal, is refused at its place.
    pub fn principal(&self, text: &[u8], name: Name) -> Result<u8, TermFault>
        ensures { result ≡ principal text.now (scope_of self.now) name }
    {
        let at = name.at;
        let Some(number) = self.find(text, name.part) else {
            return Err(TermFault::Undeclared { at });
        };
        match self.meaning(text, name.part) {
            Some(
                Meaning::Value {
                    kind: ValueType::Principal,
                    ..
                },
            ) => Ok(number),
            _ => Err(TermFault::WrongType { at }),
        }
    }
}
