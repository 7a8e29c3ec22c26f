// The rows of a line, as a program is listed, each with the values that it takes, makes, builds, opens, compares or says.
use crate::value::View;
use program::action::{Action, Row};
use program::print::print_row;
use std::fmt;
use std::fmt::Write;
use store::store::Store;

pub(crate) fn print_rows<S: Store>(
    out: &mut String,
    view: &View<'_, '_, S>,
    rows: &[Row],
) -> fmt::Result {
    for row in rows {
        print_row(out, *row, view.functions)?;
        // the line goes on
        out.pop();
        out.write_str(":")?;
        print_values(out, view, row.action)?;
        out.write_str("\n")?;
    }
    Ok(())
}

fn print_values<S: Store>(out: &mut String, view: &View<'_, '_, S>, action: Action) -> fmt::Result {
    match action {
        Action::OpenTuple { first, count, .. } | Action::OpenApply { first, count, .. } => {
            for i in 0..count as u16 {
                out.write_str(" ")?;
                view.print_register(out, first.saturating_add(i))?;
            }
            Ok(())
        }
        Action::Give { target: register }
        | Action::New { target: register }
        | Action::Hear { target: register }
        | Action::Say { source: register }
        | Action::Same { left: register, .. }
        | Action::Crypt {
            target: register,
            ..
        }
        | Action::Tuple {
            target: register,
            ..
        }
        | Action::Apply {
            target: register,
            ..
        }
        | Action::OpenCrypt {
            target: register,
            ..
        } => {
            out.write_str(" ")?;
            view.print_register(out, register)
        }
    }
}
