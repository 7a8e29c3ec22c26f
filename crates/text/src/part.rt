// A part of a text, by its place and length. It borrows no text: a name is kept with its place, in tables that outlive the reading of the text.
ghost use Rattle.std.specs.Prelude.{◌≡◌, take, drop};

#[derive(Clone, Copy, PartialEq, Eq, Debug)]
pub struct Part {
    pub at: usize,
    pub len: usize,
}

impl Part {
    // The bytes of this part: fewer, or none, where it reaches past the text's end.
    pub fn of<'a>(self, text: &'a [u8]) -> &'a [u8]
        ensures { result.now ≡ take self.len (drop self.at text.now) }
    {
        let at = self.at.min(text.len());
        let len = self.len.min(text.len() - at);
        &text[at..at + len]
    }
}
