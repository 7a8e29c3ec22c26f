// Labels are used once. They are compared by value: numbers as numbers, names by their bytes.
ghost use Rattle.std.specs.Prelude.{◌≡◌};
ghost use Rattle.roles.specs.Labels.{equal_labels, new_label};

use crate::line_fault::LineFault;
use syntax::spec::{Label, Line};

pub(crate) fn fresh_label(text: &[u8], earlier: &[Line], label: Label) -> Result<(), LineFault>
    ensures { result ≡ new_label text.now earlier.now label }
{
    if earlier
        .iter()
        .any(|line| same_label(text, line.label, label))
    {
        return Err(LineFault::Repeated { at: label.place() });
    }
    Ok(())
}

// A label's name is a part of the text, so no derive compares it.
fn same_label(text: &[u8], a: Label, b: Label) -> bool
    ensures { result ≡ equal_labels text.now a b }
{
    match (a, b) {
        (Label::Number { value: m, .. }, Label::Number { value: n, .. }) => m == n,
        (Label::Name(m), Label::Name(n)) => m.part.of(text) == n.part.of(text),
        _ => false,
    }
}
