//! The results of `read` for each text, as two bytes.

use crate::pieces::{Pieces, put_text};
use bp_syntax::read;
use std::alloc::Global;
use std::io;
use std::io::{BufWriter, Write};

/// Returns the byte that is `number` after `0`.
fn digit(number: u32) -> u8 {
    b'0'.wrapping_add(u8::try_from(number).unwrap_or(0))
}

/// Returns the number of the error of a text as a digit, 0 if it is read, and the place as a byte
/// from `0`, or `-`.
fn answer(alloc: Global, text: &[u8]) -> [u8; 2] {
    match read(alloc, text) {
        Ok(_) => [b'0', b'-'],
        Err(error) => match error.place() {
            Some(at) => [digit(error.number()), digit(at)],
            None => [digit(error.number()), b'-'],
        },
    }
}

/// Prints the results for all texts of `length` pieces, on a line.
fn print_length<W: Write>(
    alloc: Global,
    pieces: Pieces,
    length: u32,
    out: &mut W,
) -> io::Result<()> {
    let mut text = Vec::new(alloc);
    for number in 0..pieces.texts(length) {
        put_text(&mut text, pieces, length, number)?;
        out.write_all(&answer(alloc, &text))?;
    }
    out.write_all(b"\n")
}

/// Prints the results for the texts of up to `most` pieces, each length from one on a line.
fn print_lengths<W: Write>(
    alloc: Global,
    pieces: Pieces,
    most: u32,
    out: &mut W,
) -> io::Result<()> {
    for length in 1..=most {
        print_length(alloc, pieces, length, out)?;
    }
    Ok(())
}

/// Prints the results for the texts of up to `bytes` bytes, and then of up to `tokens` tokens.
pub fn print<W: Write + Drop>(output: W, alloc: Global, bytes: u32, tokens: u32) -> io::Result<()> {
    let mut out = BufWriter::new(alloc, output)?;
    print_lengths(alloc, Pieces::Bytes, bytes, &mut out)?;
    print_lengths(alloc, Pieces::Tokens, tokens, &mut out)?;
    out.flush()
}
