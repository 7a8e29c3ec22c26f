// The values that roles start from, and fresh numbers for atoms.
use crate::names::given_terms;
use program::action::{Action, Row};
use program::kind::Kind;
use std::alloc::{AllocError, Global};
use store::fault::StoreFault;
use store::store::Store;
use terms::declarations::Declarations;
use terms::term::TermRow;

// no handle is as large
pub(crate) const NOTHING: u32 = 4294967295;

// The next number for an atom.
#[derive(Clone, Copy)]
pub(crate) struct Numbers {
    pub(crate) next: u32,
}

impl Numbers {
    fn take(&mut self) -> u32 {
        let number = self.next;
        self.next = number.saturating_add(1);
        number
    }

    // As many as some rows make atoms.
    pub(crate) fn for_rows(&mut self, heap: Global, rows: &[Row]) -> Result<Vec<u32>, AllocError> {
        let mut numbers = Vec::new(heap);
        for row in rows {
            if let Action::New { .. } = row.action {
                numbers.push(self.take())?;
            }
        }
        Ok(numbers)
    }
}

// A handle for each term that somebody starts from, by the term's number: an atom for each name, and compounds of these. What the
// store refuses has none.
pub(crate) fn build<S: Store>(
    heap: Global,
    declarations: &Declarations,
    store: &mut S,
    numbers: &mut Numbers,
) -> Result<Vec<u32>, AllocError> {
    let mut handles = Vec::new(heap);
    let count = given_terms(declarations);
    for term in 0..=65535u16 {
        if term as usize >= count {
            break;
        }
        let made = make(
            store,
            declarations.terms().row(term),
            handles.as_slice(),
            numbers,
        );
        handles.push(made.unwrap_or(NOTHING))?;
    }
    Ok(handles)
}

fn make<S: Store>(
    store: &mut S,
    row: TermRow,
    handles: &[u32],
    numbers: &mut Numbers,
) -> Result<u32, StoreFault> {
    let (kind, parts) = match row {
        TermRow::Name(_) => return store.make_atom(numbers.take()),
        TermRow::Compound { kind, parts } => (kind, parts),
    };
    let mut built = [NOTHING; 8];
    let parts = parts.as_slice();
    for (i, part) in parts.iter().enumerate() {
        built[i] = handle_of(handles, *part);
    }
    match kind {
        Kind::Tuple => store.make_tuple(&built[..parts.len()]),
        Kind::Crypt => store.make_crypt(built[0], built[1]),
        Kind::Apply(function) => store.make_apply(function, &built[..parts.len()]),
    }
}

fn handle_of(handles: &[u32], term: u16) -> u32 {
    handles.get(term as usize).copied().unwrap_or(NOTHING)
}

// What a role of a name is given: each term that it starts from once, in the order of declaration.
pub(crate) fn given_to(
    heap: Global,
    declarations: &Declarations,
    name: u8,
    handles: &[u32],
) -> Result<Vec<u32>, AllocError> {
    let mut terms = Vec::new(heap);
    let mut given = Vec::new(heap);
    let Ok(starting) = declarations.starting_terms(heap, name) else {
        return Err(AllocError);
    };
    for term in &starting {
        if !terms.contains(term) {
            terms.push(*term)?;
            given.push(handle_of(handles, *term))?;
        }
    }
    Ok(given)
}
