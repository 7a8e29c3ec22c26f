// The programs of all roles as text.
ghost use Rattle.std.specs.Prelude.{◌≡◌, ◌++◌, map, string_bytes, IfOk, OnOk};
ghost use Rattle.program.specs.Printed.{written};
ghost use Rattle.roles.specs.Listing.{function_names, role_text, listing};

use crate::role::Role;
use crate::translation::Translation;
use program::print::{print_name, print_row};
use std::alloc::{AllocError, Global};
use std::fmt;
use std::fmt::Write;
use terms::declarations::Function;

impl Translation {
    /// The programs in print: a line with the role's name, then its rows, for each role. Names are parts of the text. There is an error only
    /// for want of memory.
    pub fn listing(&self, heap: Global, text: &[u8]) -> Result<String, fmt::Error>
        ensures { IfOk result (λ s. string_bytes s ≡ listing text.now self.now) }
    {
        let Ok(names) = function_names(heap, text, self.declarations.functions()) else {
            return Err(fmt::Error);
        };
        let mut out = String::new(heap);
        for role in &self.roles {
            print_role(&mut out, text, role, names.as_slice())?;
        }
        Ok(out)
    }
}

// The names of functions, as parts of the text.
fn function_names<'a>(
    heap: Global,
    text: &'a [u8],
    functions: &[Function],
) -> Result<Vec<&'a [u8]>, AllocError>
    ensures { IfOk result (λ names. map (λ x. written x.now) names.items ≡ function_names text.now functions.now) }
{
    functions
        .iter()
        .map(|function| function.name.of(text))
        .collect(heap)
}

fn print_role(out: &mut String, text: &[u8], role: &Role, functions: &[&[u8]]) -> fmt::Result
    ensures { OnOk result (string_bytes out.new ≡ string_bytes out.old ++ role_text text.now (map (λ x. written x.now) functions.now) role.now) }
{
    out.write_str("role ")?;
    print_name(out, role.part.of(text))?;
    out.write_str("\n")?;
    for row in &role.rows {
        print_row(out, *row, functions)?;
    }
    Ok(())
}
