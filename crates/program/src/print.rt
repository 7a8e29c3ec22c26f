// The text of a program: a row to a line, with the line's number, the action and its registers. A function goes by its name, which
// is a part of a text: so a row is printed by a function that has the names, and no `Display` of its own.
ghost use Rattle.std.specs.Prelude.{◌≡◌, [], ◌++◌, map, string_bytes, IsAscii, OnOk};
ghost use Rattle.program.specs.Printed.{numbers, name, written, action_text, row_text, Narrow};

use crate::action::{Action, Row};
use std::fmt;
use std::fmt::Write;

// One row. There is an error only for want of memory.
pub fn print_row(out: &mut String, row: Row, functions: &[&[u8]]) -> fmt::Result
    ensures text { OnOk result (string_bytes out.new ≡ string_bytes out.old ++ row_text (map (λ x. written x.now) functions.now) row) }
    ensures narrow { Narrow (map (λ x. x.now) functions.now) → OnOk result (string_bytes out.new ≡ string_bytes out.old ++ row_text (map (λ x. x.now) functions.now) row) }
{
    write!(out, "{}", row.line)?;
    print_action(out, row.action, functions)
}

fn print_action(out: &mut String, action: Action, functions: &[&[u8]]) -> fmt::Result
    ensures { OnOk result (string_bytes out.new ≡ string_bytes out.old ++ action_text (map (λ x. written x.now) functions.now) action) }
{
    match action {
        Action::Give { target } => print_words(out, " give", &[target]),
        Action::New { target } => print_words(out, " new", &[target]),
        Action::Hear { target } => print_words(out, " hear", &[target]),
        Action::Say { source } => print_words(out, " say", &[source]),
        Action::Same { left, right } => print_words(out, " same", &[left, right]),
        Action::Crypt { target, text, key } => print_words(out, " crypt", &[target, text, key]),
        Action::Tuple { target, parts } => {
            write!(out, " tuple {target}")?;
            print_numbers(out, parts.as_slice())
        }
        Action::Apply {
            target,
            function,
            parts,
        } => {
            write!(out, " apply {target} ")?;
            print_call(out, functions, function, parts.as_slice())
        }
        Action::OpenCrypt {
            target,
            source,
            key,
        } => print_words(out, " open-crypt", &[target, source, key]),
        Action::OpenTuple {
            first,
            count,
            source,
        } => print_words(out, " open-tuple", &[first, count as u16, source]),
        Action::OpenApply {
            first,
            count,
            source,
            function,
        } => {
            write!(out, " open-apply {first} {count} {source} ")?;
            print_call(out, functions, function, &[])
        }
    }
}

// A word, and numbers to the end of the line.
fn print_words(out: &mut String, word: &str, list: &[u16]) -> fmt::Result
    ensures { OnOk result (string_bytes out.new ≡ string_bytes out.old ++ (word.now ++ numbers list.now)) }
{
    out.write_str(word)?;
    print_numbers(out, list)
}

// The name of a function, and numbers to the end of the line.
fn print_call(out: &mut String, functions: &[&[u8]], function: u8, list: &[u16]) -> fmt::Result
    ensures { OnOk result (string_bytes out.new ≡ string_bytes out.old ++ (name (map (λ x. written x.now) functions.now) function ++ numbers list.now)) }
{
    print_name(out, name_of(functions, function))?;
    print_numbers(out, list)
}

// Numbers to the end of the line.
fn print_numbers(out: &mut String, list: &[u16]) -> fmt::Result
    ensures { OnOk result (string_bytes out.new ≡ string_bytes out.old ++ numbers list.now) }
{
    for number in list {
        write!(out, " {number}")?;
    }
    out.write_str("\n")
}

// Each byte is written as the character of its number. A name that was read is ASCII, so that its characters are its bytes.
pub fn print_name(out: &mut String, name: &[u8]) -> fmt::Result
    ensures text { OnOk result (string_bytes out.new ≡ string_bytes out.old ++ written name.now) }
    ensures narrow { IsAscii name.now → OnOk result (string_bytes out.new ≡ string_bytes out.old ++ name.now) }
{
    for byte in name {
        out.write_char(char::from(*byte))?;
    }
    Ok(())
}

// The name of a function by its number, or an empty one: it answers no `Option`, since rows name functions that are listed.
fn name_of<'a>(functions: &[&'a [u8]], function: u8) -> &'a [u8]
    ensures { result.now ≡ name (map (λ x. x.now) functions.now) function }
{
    functions.get(function as usize).copied().unwrap_or(b"")
}
