// Names of the text: roles, and those that are made in a hire.
use roles::translation::Translation;
use std::alloc::{AllocError, Global};
use syntax::spec::{Name, Term};
use terms::declarations::{Declarations, Function};
use terms::fault::TermFault;

// The place of the role with a name; past the end if there is none.
pub(crate) fn place_of(text: &[u8], translation: &Translation, name: Name) -> usize {
    let wanted = name.part.of(text);
    translation
        .roles
        .iter()
        .position(|role| role.part.of(text) == wanted)
        .unwrap_or(translation.roles.len())
}

// How many terms the declarations number: each is one that somebody starts from, or within one before it.
pub(crate) fn given_terms(declarations: &Declarations) -> usize {
    let mut count: usize = 0;
    for start in declarations.starts() {
        count = count.max(start.term as usize + 1);
    }
    count
}

// The names that some line makes.
pub(crate) fn made_names(heap: Global, translation: &Translation) -> Result<Vec<u8>, TermFault> {
    let declarations = &translation.declarations;
    Ok(declarations.made_since(heap, given_terms(declarations))?)
}

// Whether one of some names stands in a term.
pub(crate) fn is_named(
    text: &[u8],
    declarations: &Declarations,
    term: &Term,
    names: &[u8],
) -> bool {
    match term {
        Term::Name(name) => match declarations.find(text, name.part) {
            Some(number) => names.contains(&number),
            None => false,
        },
        Term::Tuple { parts, .. } => {
            for part in parts {
                if is_named(text, declarations, part, names) {
                    return true;
                }
            }
            false
        }
        Term::Crypt {
            text: inner,
            key,
            ..
        } => {
            is_named(text, declarations, inner, names) || is_named(text, declarations, key, names)
        }
        Term::Apply { arguments, .. } => {
            for argument in arguments {
                if is_named(text, declarations, argument, names) {
                    return true;
                }
            }
            false
        }
    }
}

// The names of functions, by number.
pub(crate) fn function_names<'a>(
    heap: Global,
    text: &'a [u8],
    functions: &[Function],
) -> Result<Vec<&'a [u8]>, AllocError> {
    functions
        .iter()
        .map(|function| function.name.of(text))
        .collect(heap)
}
