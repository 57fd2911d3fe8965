//! A writer to which texts are given one after the other. Its errors stick.
//! Writing a text to any writer, piece by piece.
ghost use Rattle.std.specs.Prelude.{◌≡◌, [], flat_map};
ghost use Rattle.bp_text.specs.Pieces.{bit_text, piece_text};
ghost use Rattle.bp_text.specs.Writing.{Given, IsFresh, result_of, Writes};

use crate::pieces::Piece::Bit;
use crate::pieces::{Piece, put_piece};
use std::io::Write;
use thiserror::Error;

/// A writer, and whether it has refused a write. After that it is given nothing more.
#[derive(Drop)]
pub struct Sink<'a, W> {
    out: &'a mut W,
    refused: bool,
}

impl<'a, W: Write> Sink<'a, W> {
    /// Makes a sink that has refused nothing.
    pub fn new(out: &'a mut W) -> Sink<'a, W>
        ensures { IsFresh result out.entry }
    {
        Sink {
            out,
            refused: false,
        }
    }

    /// Gives the writer these bytes.
    pub fn put(&mut self, bytes: &[u8])
        ensures { Given W.contents self.old self.new bytes.now }
    {
        if self.refused {
            return;
        }
        self.refused = put(self.out, bytes).is_err();
    }

    /// Gives the writer the pieces one after the other, without memory.
    pub fn put_pieces(&mut self, pieces: &[Piece<'_>])
        ensures { Given W.contents self.old self.new (flat_map piece_text pieces.now) }
    {
        for piece in pieces {
            put_piece(*piece, self);
        }
    }

    /// Gives the writer a digit for each bit.
    pub fn put_bits(&mut self, bits: &[bool])
        ensures { Given W.contents self.old self.new (flat_map bit_text bits.now) }
    {
        for bit in bits {
            self.put_pieces(&[Bit(*bit)]);
        }
    }

    /// Returns whether the writer has refused a write.
    pub fn has_refused(&self) -> bool
        ensures { result ≡ self.now.refused }
    {
        self.refused
    }

    /// Flushes the writer, unless it has refused a write, and returns whether the flush failed.
    pub fn flush(&mut self) -> bool
        ensures { Given W.contents self.old self.new [] }
    {
        if self.refused {
            return false;
        }
        self.out.flush().is_err()
    }

    /// Returns whether the writer took all that it was given.
    pub fn finish(&self) -> Result<(), WriteError>
        ensures { result ≡ result_of self.now.refused }
    {
        if self.refused {
            Err(WriteError::Write)
        } else {
            Ok(())
        }
    }
}

/// Why a text was not written whole.
#[derive(Clone, Copy, Debug, PartialEq, Eq, Error)]
pub enum WriteError {
    /// A write returned an error, or `Ok(0)`.
    #[error("the output could not be written")]
    Write,
}

/// Writes all the bytes. Stops at the first write that returns an error or `Ok(0)`: the writer then
/// has the bytes that the earlier writes took, which are not all of them.
pub fn put<W: Write>(out: &mut W, bytes: &[u8]) -> Result<(), WriteError>
    ensures { Writes (W.contents out.old) (W.contents out.new) bytes.now result }
{
    let mut done = 0;
    while done < bytes.len() {
        match out.write(&bytes[done..]) {
            Ok(0) | Err(_) => return Err(WriteError::Write),
            Ok(n) => done += n,
        }
    }
    Ok(())
}
