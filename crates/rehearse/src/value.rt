// Values as a role sees them. A ciphertext is closed, unless the role opened or built it.
use crate::origin::{crypt_of, origin};
use program::action::{Action, Row};
use program::print::print_name;
use run::run::Run;
use std::fmt;
use std::fmt::Write;
use store::shape::Shape;
use store::store::Store;

// terms nest to level 32 at most, and each level is gone through by a register and by its value
const DEPTH: u8 = 96;

// A role's run, the rows of its program that are done, and the names of functions.
#[derive(Drop)]
pub(crate) struct View<'a, 'r, S: Store> {
    pub(crate) store: &'a S,
    pub(crate) run: &'a Run<'r>,
    pub(crate) rows: &'a [Row],
    pub(crate) functions: &'a [&'a [u8]],
}

impl<S: Store> View<'_, '_, S> {
    pub(crate) fn print_register(&self, out: &mut String, register: u16) -> fmt::Result {
        self.print_held(DEPTH, out, register)
    }

    pub(crate) fn print_value(&self, out: &mut String, handle: u32) -> fmt::Result {
        self.print(DEPTH, out, Some(handle))
    }

    // What a register holds: as the program built or opened it, or as it stands in the store.
    #[cycle(printing)]
    fn print_held(&self, depth: u8, out: &mut String, register: u16) -> fmt::Result {
        if depth == 0 {
            return print_text(out, "..");
        }
        let Some(action) = origin(self.rows, register) else {
            return self.print(depth - 1, out, self.run.register(register));
        };
        match action {
            Action::Crypt { text, key, .. } => self.print_crypt(depth - 1, out, text, key),
            Action::OpenCrypt { target, key, .. } => self.print_crypt(depth - 1, out, target, key),
            Action::Tuple { parts, .. } => {
                out.write_str("tuple")?;
                self.print_list(depth - 1, out, parts.as_slice())
            }
            Action::Apply {
                function,
                parts,
                ..
            } => {
                self.print_function(out, function)?;
                self.print_list(depth - 1, out, parts.as_slice())
            }
            Action::OpenTuple { first, count, .. } => {
                out.write_str("tuple")?;
                self.print_span(depth - 1, out, first, count)
            }
            Action::OpenApply {
                first,
                count,
                function,
                ..
            } => {
                self.print_function(out, function)?;
                self.print_span(depth - 1, out, first, count)
            }
            Action::Same { right, .. } => self.print_held(depth - 1, out, right),
            _ => self.print(depth - 1, out, self.run.register(register)),
        }
    }

    // The parts of a compound, in registers.
    #[cycle(printing)]
    fn print_list(&self, depth: u8, out: &mut String, registers: &[u16]) -> fmt::Result {
        out.write_str("(")?;
        for (index, register) in registers.iter().enumerate() {
            print_comma(out, index)?;
            self.print_held(depth, out, *register)?;
        }
        print_text(out, ")")
    }

    // The same, for registers in a row.
    #[cycle(printing)]
    fn print_span(&self, depth: u8, out: &mut String, first: u16, count: u8) -> fmt::Result {
        out.write_str("(")?;
        for index in 0..count as u16 {
            print_comma(out, index as usize)?;
            self.print_held(depth, out, first.saturating_add(index))?;
        }
        print_text(out, ")")
    }

    // A ciphertext whose text and key are in registers.
    #[cycle(printing)]
    fn print_crypt(&self, depth: u8, out: &mut String, text: u16, key: u16) -> fmt::Result {
        out.write_str("crypt(")?;
        self.print_held(depth, out, text)?;
        out.write_str(", ")?;
        self.print_held(depth, out, key)?;
        print_text(out, ")")
    }

    // A value in the store: an atom's number, or a compound's parts.
    #[cycle(printing)]
    fn print(&self, depth: u8, out: &mut String, handle: Option<u32>) -> fmt::Result {
        let Some(handle) = handle else {
            return print_text(out, "nothing");
        };
        if depth == 0 {
            return print_text(out, "..");
        }
        match self.store.shape(handle) {
            Err(_) => print_text(out, "nothing"),
            Ok(Shape::Atom(number)) => print_number(out, number),
            Ok(Shape::Tuple { parts }) => {
                out.write_str("tuple")?;
                self.print_parts(depth - 1, out, handle, parts)
            }
            Ok(Shape::Apply { function, parts }) => {
                self.print_function(out, function)?;
                self.print_parts(depth - 1, out, handle, parts)
            }
            Ok(Shape::Crypt) => match crypt_of(self.store, self.run, self.rows, handle) {
                Some(register) => self.print_held(depth - 1, out, register),
                None => print_text(out, "crypt ?"),
            },
        }
    }

    // The parts of a compound in the store.
    #[cycle(printing)]
    fn print_parts(&self, depth: u8, out: &mut String, handle: u32, count: u8) -> fmt::Result {
        out.write_str("(")?;
        for index in 0..count as usize {
            print_comma(out, index)?;
            self.print(depth, out, self.store.part(handle, index).ok())?;
        }
        print_text(out, ")")
    }

    fn print_function(&self, out: &mut String, function: u8) -> fmt::Result {
        if let Some(name) = self.functions.get(function as usize) {
            print_name(out, name)?;
        }
        Ok(())
    }
}

fn print_text(out: &mut String, text: &str) -> fmt::Result {
    out.write_str(text)?;
    Ok(())
}

fn print_number(out: &mut String, number: u32) -> fmt::Result {
    write!(out, "{number}")?;
    Ok(())
}

// Before each part but the first.
fn print_comma(out: &mut String, index: usize) -> fmt::Result {
    if index > 0 {
        out.write_str(", ")?;
    }
    Ok(())
}
