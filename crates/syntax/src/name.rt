// Names by their bytes.
ghost use Rattle.std.specs.Prelude.{◌≡◌};
ghost use Rattle.syntax.specs.Names.{inner, is_name};

// A letter, then letters, digits or underscores.
pub(crate) fn is_name(bytes: &[u8]) -> bool
    ensures { result ≡ is_name bytes.now }
{
    let [first, rest @ ..] = bytes else {
        return false;
    };
    first.is_ascii_alphabetic() && rest.iter().all(|byte| is_inner(*byte))
}

fn is_inner(byte: u8) -> bool
    ensures { result ≡ inner byte }
{
    byte.is_ascii_alphanumeric() || byte == b'_'
}
