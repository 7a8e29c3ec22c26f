// Reading the declarations, in their order.
ghost use Rattle.std.specs.Prelude.{◌≡◌, ◌<◌, ◌≤◌, vec_len, OnOk};
ghost use Rattle.syntax.specs.Views.{term_of, term_in, declared_of, specification_of};
ghost use Rattle.terms.specs.Declaring.{fresh, kind_of, right_of};
ghost use Rattle.terms.specs.Meanings.{scope_of};
ghost use Rattle.terms.specs.declared.declarations.Meaning.TheVariants.{Value};
ghost use Rattle.terms.specs.Declares.{Done, MoreNames, MoreFunctions, Kinds, Knowing, Declaring, Declares, declared_name, function_name, function_row};

use crate::declarations::{Declarations, Declared, Function, Meaning, Right, Start, ValueType};
use crate::fault::DeclarationFault;
use crate::limits::Limits;
use base::{NoMemory, push, reserve};
use std::alloc::Global;
use syntax::spec::{Declaration, Name, Spec, Term};
use syntax::symbol::FunctionClass;

// What each declaration is read with. Lines are read with these and a heap, in `roles`: one type for both would be public for that alone.
#[derive(Clone, Copy)]
struct Reading<'a> {
    text: &'a [u8],
    spec: &'a Spec,
    limits: Limits,
}

impl Declarations {
    /// What a specification declares. The first declaration that is at fault is refused, at the node that is.
    pub fn read(
        heap: Global,
        text: &[u8],
        spec: &Spec,
        limits: Limits,
    ) -> Result<Declarations, DeclarationFault>
        ensures { Declares text.now limits (specification_of spec.now) result }
    {
        let reading = Reading { text, spec, limits };
        let mut declarations = Declarations::new(heap);
        for declaration in &spec.declarations {
            declarations.add(reading, *declaration)?;
        }
        Ok(declarations)
    }

    fn add(&mut self, reading: Reading, declaration: Declaration) -> Result<(), DeclarationFault>
        ensures { Declaring reading.entry.text.now reading.entry.limits self.old self.new (declared_of reading.entry.spec.now declaration) result }
    {
        match declaration {
            Declaration::Value { name, kind, shared } => {
                self.unused(reading, name)?;
                let kind = type_of(reading.text, kind)?;
                Ok(self.value(name, kind, shared)?)
            }
            Declaration::Function {
                name,
                class,
                result,
                first,
                end,
            } => {
                self.unused(reading, name)?;
                let result = type_of(reading.text, result)?;
                let before = self.parameters.len();
                let parameters = reading.spec.parameters(first, end);
                read_parameters(reading.text, parameters, &mut self.parameters)?;
                Ok(self.function(name, class, result, before)?)
            }
            Declaration::Knows { knower, term } => {
                let knower = self.principal(reading.text, knower)?;
                self.known_by_number(reading, Some(knower), term)
            }
            Declaration::EverybodyKnows { term } => self.known_by_number(reading, None, term),
        }
    }

    // The same of a term by its number.
    fn known_by_number(
        &mut self,
        reading: Reading,
        knower: Option<u8>,
        number: usize,
    ) -> Result<(), DeclarationFault>
        ensures { Knowing reading.entry.text.now reading.entry.limits self.old self.new knower (term_in reading.entry.spec.now.terms.items number) result }
    {
        let nothing = Term::nothing();
        self.known(reading, knower, reading.spec.term_or(number, &nothing))
    }

    // A name is declared once.
    fn unused(&self, reading: Reading, name: Name) -> Result<(), DeclarationFault>
        ensures room { OnOk result (vec_len self.now.names < 128) }
        ensures unused { result ≡ fresh reading.entry.text.now reading.entry.limits (scope_of self.now).names name }
    {
        let at = name.at;
        if self.find(reading.text, name.part).is_some() {
            return Err(DeclarationFault::Redeclared { at });
        }
        if self.names.len() >= reading.limits.most_names() {
            return Err(DeclarationFault::Limit { at });
        }
        Ok(())
    }

    // Called behind `unused`, which saw that there is room.
    fn value(&mut self, name: Name, kind: ValueType, shared: bool) -> Result<(), NoMemory>
        requires { vec_len self.old.names < 128 }
        ensures { Done (MoreNames self.old self.new (declared_name name (Value kind shared))) result }
    {
        let meaning = Meaning::Value { kind, shared };
        let name = name.part;
        push(&mut self.names, Declared { name, meaning })?;
        Ok(())
    }

    // The types of its parameters were read from `first` on.
    fn function(
        &mut self,
        name: Name,
        class: FunctionClass,
        res: ValueType,
        first: usize,
    ) -> Result<(), NoMemory>
        requires room { vec_len self.old.names < 128 }
        requires read { first ≤ vec_len self.old.parameters }
        ensures { Done (MoreFunctions self.old self.new (function_name name (vec_len self.old.functions)) (function_row name class res first (vec_len self.old.parameters))) result }
    {
        let number = self.functions.len() as u8;
        reserve(&mut self.functions, 1)?;
        let meaning = Meaning::Function(number);
        let name = name.part;
        push(&mut self.names, Declared { name, meaning })?;
        self.functions.push_reserved(Function {
            name,
            class,
            result: res,
            first,
            end: self.parameters.len(),
        });
        Ok(())
    }

    // Starting knowledge: a function's name alone is the right to apply it, anything else a term.
    fn known(
        &mut self,
        reading: Reading,
        knower: Option<u8>,
        term: &Term,
    ) -> Result<(), DeclarationFault>
        ensures { Knowing reading.entry.text.now reading.entry.limits self.old self.new knower (term_of term.now) result }
    {
        if let Some(function) = self.right(reading.text, term) {
            push(&mut self.rights, Right { knower, function })?;
            return Ok(());
        }
        let term = self.term(reading.text, term, reading.limits)?;
        push(&mut self.starts, Start { knower, term })?;
        Ok(())
    }

    fn right(&self, text: &[u8], term: &Term) -> Option<u8>
        ensures { result ≡ right_of text.now (scope_of self.now) (term_of term.now) }
    {
        let Term::Name(name) = term else {
            return None;
        };
        self.function_of(text, name.part)
    }
}

// There are two types, by their names.
fn type_of(text: &[u8], name: Name) -> Result<ValueType, DeclarationFault>
    ensures { result ≡ kind_of text.now name }
{
    match name.part.of(text) {
        b"number" => Ok(ValueType::Number),
        b"principal" => Ok(ValueType::Principal),
        _ => Err(DeclarationFault::WrongType { at: name.at }),
    }
}

// The types of a function's parameters, behind those of the functions before it.
fn read_parameters(
    text: &[u8],
    names: &[Name],
    parameters: &mut Vec<ValueType>,
) -> Result<(), DeclarationFault>
    ensures longer { vec_len parameters.old ≤ vec_len parameters.new }
    ensures kinds { Kinds text.now names.now parameters.old.items parameters.new.items result }
{
    for name in names {
        push(parameters, type_of(text, *name)?)?;
    }
    Ok(())
}
