//! The pieces of texts. A text of some length is a number, whose digits are its pieces.
ghost use Rattle.std.specs.Prelude.{◌<◌};

use std::alloc::AllocError;

/// One token of each kind: a name, the constants, the symbols and the reserved words.
const TOKENS: [&str; 33] = [
    "a", "0", "1", ";", ",", "(", ")", ":", ":=", "|", "&", "^", "=", "!=", "=>", "!", "?", "decl",
    "begin", "end", "skip", "goto", "return", "if", "then", "else", "fi", "while", "do", "od",
    "assert", "print", "assume",
];

/// The kinds of pieces of texts.
#[derive(Clone, Copy)]
pub enum Pieces {
    Bytes,
    /// Tokens with a space between.
    Tokens,
}

impl Pieces {
    /// Returns the number of pieces.
    fn count(&self) -> u32
        ensures { 0 < result }
    {
        match self {
            Pieces::Bytes => 256,
            Pieces::Tokens => 33,
        }
    }

    /// Returns the number of texts of `length` pieces.
    pub fn texts(&self, length: u32) -> u32 {
        self.count().saturating_pow(length)
    }
}

/// Appends the piece that has this number.
fn put_piece(text: &mut Vec<u8>, pieces: Pieces, number: u32) -> Result<(), AllocError> {
    if let Pieces::Bytes = pieces {
        text.push(u8::try_from(number).unwrap_or(0))?;
        return Ok(());
    }
    if !text.is_empty() {
        text.push(b' ')?;
    }
    text.extend_from_slice(TOKENS.get(number as usize).unwrap_or(&"").as_bytes())
}

/// Makes this the text of `length` pieces that has this number. Its first piece counts slowest.
pub fn put_text(
    text: &mut Vec<u8>,
    pieces: Pieces,
    length: u32,
    number: u32,
) -> Result<(), AllocError> {
    text.clear();
    for left in (0..length).rev() {
        let piece = number / pieces.texts(left).max(1) % pieces.count();
        put_piece(text, pieces, piece)?;
    }
    Ok(())
}
