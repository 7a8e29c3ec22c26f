// A reader over borrowed text, token by token.
ghost use Rattle.std.specs.Prelude.{◌≡◌, ◌+◌, ◌<◌, length, drop};
ghost use Rattle.text.specs.Bytes.{class, takes, span};
ghost use Rattle.text.specs.declared.class.Run.TheVariants.{Blanks};
ghost use Rattle.text.specs.Tokens.{lex, token, quoted, number, longer, opening, Read};

use crate::class::{ByteClass, Run, class_of};
use crate::fault::TextFault;
use crate::part::Part;
use crate::token::Token;

#[derive(Clone, Copy)]
pub struct Reader<'a> {
    pub text: &'a [u8],
    pub at: usize,
}

impl<'a> Reader<'a> {
    pub fn new(text: &'a [u8]) -> Reader<'a>
        ensures { (result.text.now ≡ text.now) × (result.at ≡ 0) }
    {
        Reader { text, at: 0 }
    }

    // Reads the next token; a fault leaves the place as it was. Where `full`, a limit is passed by any node.
    pub fn next(&mut self, full: bool) -> Result<Token, TextFault>
        ensures same { self.new.text ≡ self.old.text }
        ensures read { Read self.old.at (lex full self.old.at (drop self.old.at self.old.text.now)) result self.new.at }
    {
        let (token, end) = token_after(self.text, self.at, full)?;
        self.at = end;
        Ok(token)
    }

    // The place of the next byte that is no blank, or the text's length.
    pub fn after_blanks(&self) -> usize
        ensures { result ≡ self.now.at + span (takes Blanks) (drop self.now.at self.now.text.now) }
    {
        Run::Blanks.end(self.text, self.at)
    }
}

// The token at `from` after some blanks, and where it ends.
fn token_after(text: &[u8], from: usize, full: bool) -> Result<(Token, usize), TextFault>
    ensures { result ≡ lex full from (drop from text.now) }
{
    let at = Run::Blanks.end(text, from);
    let Some(first) = text.get(at) else {
        return Err(TextFault::Broken { at });
    };
    let class = class_of(*first);
    if full && class.begins_node() {
        return Err(TextFault::Limit { at });
    }
    token_at(text, at, class)
}

// The token whose first byte, of this class, stands at `at`. It and the next ones need that there is such a byte, which was just
// looked at: a slice from there would need the place beside it.
#[tactic(auto, using(crate::proofs::Lexing::next_drop))]
fn token_at(text: &[u8], at: usize, class: ByteClass) -> Result<(Token, usize), TextFault>
    requires { at < length text.now }
    ensures { result ≡ token at (drop at text.now) class }
{
    match class {
        ByteClass::Quote => quoted_text(text, at),
        ByteClass::Open => opening_bracket(text, at),
        ByteClass::Digit => integer(text, at),
        ByteClass::Close => Ok((Token::Close { at }, at + 1)),
        _ => Err(TextFault::Broken { at }),
    }
}

// The quoted text whose first quote stands at `at`.
fn quoted_text(text: &[u8], at: usize) -> Result<(Token, usize), TextFault>
    requires { at < length text.now }
    ensures { result ≡ quoted at (drop (at + 1) text.now) }
{
    let end = Run::Quoted.end(text, at + 1);
    match text.get(end) {
        Some(last) if class_of(*last) == ByteClass::Quote => {
            let inside = Part {
                at: at + 1,
                len: end - (at + 1),
            };
            Ok((Token::Quoted { at, inside }, end + 1))
        }
        _ => Err(TextFault::Broken { at: end }),
    }
}

// The bracket that opens at `at`, with its symbol.
fn opening_bracket(text: &[u8], at: usize) -> Result<(Token, usize), TextFault>
    requires { at < length text.now }
    ensures { result ≡ opening at (drop (at + 1) text.now) }
{
    let from = Run::Blanks.end(text, at + 1);
    let end = Run::Symbol.end(text, from);
    if end == from {
        return Err(TextFault::Broken { at: from });
    }
    let symbol = Part {
        at: from,
        len: end - from,
    };
    Ok((Token::Open { at, symbol }, end))
}

// The integer whose first digit stands at `at`.
#[tactic(auto, using(crate::proofs::Lexing::number_step), unfolding(crate::specs::Tokens::number))]
fn integer(text: &[u8], at: usize) -> Result<(Token, usize), TextFault>
    requires { at < length text.now }
    ensures { result ≡ number at at 0 (drop at text.now) }
{
    let mut value = 0;
    for (place, byte) in text[at..].iter().enumerate() {
        match class_of(*byte) {
            ByteClass::Digit => {
                value = with_digit(value, *byte).ok_or(TextFault::Broken { at: at + place })?;
            }
            ByteClass::Backslash | ByteClass::Other => {
                return Err(TextFault::Broken { at: at + place });
            }
            _ => return Ok((Token::Integer { at, value }, at + place)),
        }
    }
    Ok((Token::Integer { at, value }, text.len()))
}

// The value with one digit more, if an integer may have it.
fn with_digit(value: u32, digit: u8) -> Option<u32>
    ensures { result ≡ longer value digit }
{
    let units = u32::from(digit.saturating_sub(b'0'));
    value.checked_mul(10)?.checked_add(units)
}
