// The kinds of bytes that the grammar tells apart.
ghost use Rattle.std.specs.Prelude.{◌≡◌, ◌+◌, drop};
ghost use Rattle.text.specs.Bytes.{class, begins, takes, span};

#[derive(Clone, Copy, PartialEq, Eq, Debug)]
pub enum ByteClass {
    // space, tab, carriage return, line feed
    Blank,
    Quote,
    Open,
    Close,
    Digit,
    Backslash,
    Other,
}

pub fn class_of(b: u8) -> ByteClass
    ensures { result ≡ class b }
{
    match b {
        b' ' | b'\t' | b'\r' | b'\n' => ByteClass::Blank,
        b'"' => ByteClass::Quote,
        b'(' => ByteClass::Open,
        b')' => ByteClass::Close,
        b'0'..=b'9' => ByteClass::Digit,
        b'\\' => ByteClass::Backslash,
        _ => ByteClass::Other,
    }
}

impl ByteClass {
    // Does a node begin with such a byte?
    pub fn begins_node(self) -> bool
        ensures { result ≡ begins self }
    {
        matches!(self, ByteClass::Quote | ByteClass::Open | ByteClass::Digit)
    }
}

// The runs of bytes in a text: blanks, the inside of a quoted text, a symbol. They are the grammar's, so an enum names them and no
// test is passed in.
#[derive(Clone, Copy, PartialEq, Eq, Debug)]
pub enum Run {
    Blanks,
    Quoted,
    Symbol,
}

impl Run {
    // May the byte stand in this run?
    pub fn has(self, b: u8) -> bool
        ensures { result ≡ takes self (class b) }
    {
        match self {
            Run::Blanks => class_of(b) == ByteClass::Blank,
            Run::Quoted => !matches!(class_of(b), ByteClass::Quote | ByteClass::Backslash),
            // every byte above `)` may stand in a symbol, and most bytes of one are such: one test tells
            Run::Symbol => {
                b > b')'
                    || matches!(
                        class_of(b),
                        ByteClass::Digit | ByteClass::Backslash | ByteClass::Other
                    )
            }
        }
    }

    // Where the run ends that begins at `from`.
    pub fn end(self, text: &[u8], from: usize) -> usize
        ensures { result ≡ from + span (takes self) (drop from text.now) }
    {
        let rest = &text[from.min(text.len())..];
        from + rest.iter().take_while(|b| self.has(**b)).count()
    }
}
