// A specification as it stands in the tree. Names are parts of the text, with their places.
ghost use Rattle.std.specs.Prelude.{◌≡◌, IfOk, OnOk, suc, vec_len, slice_range, slice_index_or};
ghost use Rattle.syntax.specs.Places.{label_place, term_place};
ghost use Rattle.syntax.specs.Seeing.{Kept, Numbered};
ghost use Rattle.syntax.specs.Views.{nothing, term_of, terms_of};

use crate::symbol::FunctionClass;
use base::{NoMemory, push};
use std::alloc::AllocError;
use text::part::Part;

// A quoted name: the place of its quote, and the bytes between the quotes.
#[derive(Clone, Copy)]
pub struct Name {
    pub at: usize,
    pub part: Part,
}

// A term, with the place of each bracket.
#[derive(Drop)]
pub enum Term {
    Name(Name),
    Tuple {
        at: usize,
        parts: Vec<Term>,
    },
    Crypt {
        at: usize,
        text: Box<Term>,
        key: Box<Term>,
    },
    Apply {
        at: usize,
        function: Name,
        arguments: Vec<Term>,
    },
}

/// A declaration. A term is one of the specification's, by its number.
#[derive(Clone, Copy)]
pub enum Declaration {
    // a name with its type; a shared one is never made
    Value {
        name: Name,
        kind: Name,
        shared: bool,
    },
    // the parameters are the specification's from `first` to `end`
    Function {
        name: Name,
        class: FunctionClass,
        result: Name,
        first: usize,
        end: usize,
    },
    // starting knowledge of one party
    Knows {
        knower: Name,
        term: usize,
    },
    EverybodyKnows {
        term: usize,
    },
}

#[derive(Clone, Copy)]
pub enum Label {
    Number { at: usize, value: u32 },
    Name(Name),
}

/// A line. The message is one of the specification's terms, by its number.
#[derive(Clone, Copy)]
pub struct Line {
    pub label: Label,
    pub sender: Name,
    pub receiver: Name,
    pub message: usize,
}

/// Declarations and lines, and what they name by number: the parameters of all functions, and the terms.
#[derive(Drop)]
pub struct Spec {
    pub declarations: Vec<Declaration>,
    pub parameters: Vec<Name>,
    pub lines: Vec<Line>,
    pub terms: Vec<Term>,
}

impl Spec {
    // A term behind the others, by its number.
    pub(crate) fn add_term(&mut self, term: Term) -> Result<usize, NoMemory>
        ensures kept { OnOk result (Kept self.old self.new) }
        ensures number { IfOk result (λ k. Numbered self.new.terms.items k (term_of term)) }
        ensures takes { IfOk result (λ k. (k ≡ vec_len self.old.terms) × ((vec_len self.new.parameters ≡ vec_len self.old.parameters) × (vec_len self.new.terms ≡ suc (vec_len self.old.terms)))) }
    {
        let number = self.terms.len();
        push(&mut self.terms, term)?;
        Ok(number)
    }

    /// The parameters from `first` to `end`. Past the end of the list there are none, and none where `end` is not above `first`.
    pub fn parameters(&self, first: usize, end: usize) -> &[Name]
        ensures { result.now ≡ slice_range self.now.parameters.items first end }
    {
        let end = end.min(self.parameters.len());
        &self.parameters[first.min(end)..end]
    }

    /// The term of a number, or `other` where the number is no term's. Callers lend `Term::nothing()`, which such a number stands for.
    pub fn term_or<'a>(&'a self, number: usize, other: &'a Term) -> &'a Term
        ensures { result.now ≡ slice_index_or self.now.terms.items number other.now }
    {
        self.terms.get(number).unwrap_or(other)
    }
}

impl Term {
    /// A name without letters, at the place 0: what a number that is no term's stands for. No text has such a name.
    pub fn nothing() -> Term
        ensures { term_of result ≡ nothing }
    {
        let part = Part { at: 0, len: 0 };
        Term::Name(Name { at: 0, part })
    }

    pub fn place(&self) -> usize
        ensures { result ≡ term_place (term_of self.now) }
    {
        match self {
            Term::Name(name) => name.at,
            Term::Tuple { at, .. } | Term::Crypt { at, .. } | Term::Apply { at, .. } => *at,
        }
    }
}

impl Label {
    pub fn place(self) -> usize
        ensures { result ≡ label_place self }
    {
        match self {
            Label::Number { at, .. } => at,
            Label::Name(name) => name.at,
        }
    }
}

// A clone is the same term. A derived one would say nothing of terms in terms.
impl Clone for Term {
    ghost is_clone = { λ v w. term_of w ≡ term_of v };

    fn clone(&self) -> Result<Term, AllocError> {
        copy(self)
    }
}

#[cycle(copy)]
fn copy(term: &Term) -> Result<Term, AllocError>
    ensures { IfOk result (λ t. term_of t ≡ term_of term.now) }
{
    match term {
        Term::Name(name) => Ok(Term::Name(*name)),
        Term::Tuple { at, parts } => Ok(Term::Tuple {
            at: *at,
            parts: copy_terms(parts)?,
        }),
        Term::Crypt { at, text, key } => Ok(Term::Crypt {
            at: *at,
            text: copy_boxed(text)?,
            key: copy_boxed(key)?,
        }),
        Term::Apply {
            at,
            function,
            arguments,
        } => Ok(Term::Apply {
            at: *at,
            function: *function,
            arguments: copy_terms(arguments)?,
        }),
    }
}

#[cycle(copy)]
fn copy_boxed(term: &Box<Term>) -> Result<Box<Term>, AllocError>
    ensures { IfOk result (λ b. term_of b.value ≡ term_of term.now.value) }
{
    Ok(Box::new(*Box::allocator(term), copy(term)?)?)
}

// In a list of just their number.
#[cycle(copy)]
fn copy_terms(terms: &Vec<Term>) -> Result<Vec<Term>, AllocError>
    ensures { IfOk result (λ v. terms_of v.items ≡ terms_of terms.now.items) }
{
    let mut copies = Vec::with_capacity(*terms.allocator(), terms.len())?;
    for term in terms {
        copies.push(copy(term)?)?;
    }
    Ok(copies)
}
