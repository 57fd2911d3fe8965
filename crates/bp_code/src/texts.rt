//! The well-formed program of a text, and its code.
ghost use Rattle.std.specs.Prelude.{MatchResult};
ghost use Rattle.bp_code.specs.WellFormedTexts.{IsCodeRefusal, IsWellFormedText, IsProgramRefusal};

use crate::checks::check;
use crate::programs::compile;
use bp_flat::code::Code;
use bp_syntax::{CheckError, Checked, ReadError, read};
use std::alloc::{AllocError, Global};
use std::error::Error;
use std::fmt;

/// Why a text is not that of a well-formed program: the first reason that applies, `Memory` aside.
#[derive(Debug, Drop, PartialEq, Eq)]
pub enum ProgramError {
    /// It is refused as a text.
    Read(ReadError),
    /// Its program is refused, at this byte of the text. For refused memory the byte is 0.
    Check(CheckError, u32),
}

impl fmt::Display for ProgramError {
    fn fmt<W: fmt::Write>(&self, f: &mut fmt::Formatter<W>) -> fmt::Result {
        match self {
            ProgramError::Read(error) => write!(f, "{error}"),
            ProgramError::Check(CheckError::Memory, _) => write!(f, "{}", CheckError::Memory),
            ProgramError::Check(error, at) => write!(f, "{error} at {at}"),
        }
    }
}

impl Error for ProgramError {}

/// Reads and checks a text.
pub fn well_formed_program(alloc: Global, text: &[u8]) -> Result<Checked, ProgramError>
    ensures { MatchResult result (λ c. IsWellFormedText text.now c) (IsProgramRefusal text.now) }
{
    let tree = read(alloc, text).map_err(ProgramError::Read)?;
    match check(alloc, tree) {
        Ok(checked) => Ok(checked),
        Err(refusal) => Err(ProgramError::Check(refusal.error, refusal.at)),
    }
}

/// Why a text has no code.
#[derive(Drop)]
pub enum CodeError {
    /// It is not that of a well-formed program.
    Program(ProgramError),
    /// There was not enough memory for the code.
    Memory,
}

impl From<ProgramError> for CodeError {
    ghost use Rattle.bp_code.specs.declared.texts.CodeError.{CodeError};
    ghost use Rattle.std.specs.Prelude.{◌≡◌};

    ghost from_gives = { λ f e. e ≡ CodeError.Program f };

    fn from(error: ProgramError) -> CodeError {
        CodeError::Program(error)
    }
}

impl From<AllocError> for CodeError {
    ghost use Rattle.bp_code.specs.declared.texts.CodeError.{CodeError};
    ghost use Rattle.std.specs.Prelude.{◌≡◌};

    ghost from_gives = { λ _ e. e ≡ CodeError.Memory };

    fn from(_: AllocError) -> CodeError {
        CodeError::Memory
    }
}

/// Returns the code of the well-formed program of a text.
pub fn code_of(alloc: Global, text: &[u8]) -> Result<Code, CodeError>
    ensures { MatchResult result (λ c. IsWellFormedText text.now c.tree) (IsCodeRefusal text.now) }
{
    let checked = well_formed_program(alloc, text)?;
    Ok(compile(alloc, &checked)?)
}
