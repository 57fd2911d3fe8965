//! Why a text is refused, and why a program is.
ghost use Rattle.std.specs.Prelude.{◌≡◌};
ghost use Rattle.bp_syntax.specs.Errors.{check_error_number};
ghost use Rattle.bp_syntax.specs.Refusals.{read_error_number, read_error_place};
ghost use Rattle.bp_syntax.specs.declared.errors.ReadError.TheVariants.{Memory};

use std::alloc::{AllocError, AllocFailed};
use thiserror::Error;

/// Why `read` refuses a text. Each place is the offset of a byte of the text, from 0.
#[derive(Debug, Drop, PartialEq, Eq, Error)]
pub enum ReadError {
    /// The text has more bytes than `TEXT_LIMIT`.
    #[error("the text is too long")]
    TooLong,
    /// The first byte, other than `{`, that begins no lexeme.
    #[error("bad byte at {0}")]
    BadByte(u32),
    /// The first `{` that begins no braced name.
    #[error("open name at {0}")]
    OpenName(u32),
    /// The first `if` or `while` that makes the depth greater than `NESTING_LIMIT`.
    #[error("too nested at {0}")]
    TooNested(u32),
    /// The first token past `SUCCESSION_LIMIT` in succession without a separator.
    #[error("too many tokens at {0}")]
    TooManyTokens(u32),
    /// The first token after which no program can continue; the text's length if it ends too early.
    #[error("syntax at {0}")]
    Syntax(u32),
    /// An allocation failed.
    #[error("out of memory")]
    Memory,
}

impl ReadError {
    /// Returns the number of the error, 1 to 7.
    pub fn number(&self) -> u32
        ensures { result ≡ read_error_number self.now }
    {
        match self {
            ReadError::TooLong => 1,
            ReadError::BadByte(_) => 2,
            ReadError::OpenName(_) => 3,
            ReadError::TooNested(_) => 4,
            ReadError::TooManyTokens(_) => 5,
            ReadError::Syntax(_) => 6,
            ReadError::Memory => 7,
        }
    }

    /// Returns the offset of the byte that the error names, if any.
    pub fn place(&self) -> Option<u32>
        ensures { result ≡ read_error_place self.now }
    {
        match self {
            ReadError::BadByte(at) => Some(*at),
            ReadError::OpenName(at) => Some(*at),
            ReadError::TooNested(at) => Some(*at),
            ReadError::TooManyTokens(at) => Some(*at),
            ReadError::Syntax(at) => Some(*at),
            ReadError::TooLong => None,
            ReadError::Memory => None,
        }
    }
}

impl From<AllocError> for ReadError {
    ghost from_gives = { λ _ e. e ≡ Memory };

    fn from(_e: AllocError) -> ReadError {
        ReadError::Memory
    }
}

impl<T: Drop> From<AllocFailed<T>> for ReadError {
    ghost from_gives = { λ _ e. e ≡ Memory };

    fn from(_e: AllocFailed<T>) -> ReadError {
        ReadError::Memory
    }
}

/// Why a program is refused, at a place of the text.
#[derive(Clone, Copy, Debug, PartialEq, Eq, Error)]
pub enum CheckError {
    /// At a global's name that an earlier global has.
    #[error("a global is declared twice")]
    TwiceGlobal,
    /// At a procedure's name that an earlier one has.
    #[error("two procedures have one name")]
    TwiceProcedure,
    /// At a formal or declared local whose name an earlier one of the procedure has.
    #[error("a formal or local is declared twice")]
    TwiceLocal,
    /// At a label that appears earlier in the procedure.
    #[error("a label appears twice in a procedure")]
    TwiceLabel,
    /// At a name, used or assigned to, of no local, formal or global.
    #[error("a variable is not declared")]
    UnknownVariable,
    /// At the called name.
    #[error("there is no procedure of this name")]
    UnknownProcedure,
    /// At the name after `goto`.
    #[error("there is no such label in the procedure")]
    UnknownLabel,
    /// At the called name, if arguments and formals differ in number.
    #[error("arguments and formals differ in number")]
    Arity,
    /// At the first target, if targets and right sides differ in number.
    #[error("right sides and targets differ in number")]
    Lengths,
    /// At a target that appears earlier on the same left side.
    #[error("a target appears twice on one left side")]
    TwiceTarget,
    /// At the first name past a limit of procedures, globals, or formals and locals.
    #[error("there are more names than the limit")]
    Limit,
    /// An allocation failed.
    #[error("out of memory")]
    Memory,
}

impl CheckError {
    /// Returns the number by which users know the error.
    pub fn number(&self) -> u32
        ensures { result ≡ check_error_number self.now }
    {
        match self {
            CheckError::TwiceGlobal => 11,
            CheckError::TwiceProcedure => 12,
            CheckError::TwiceLocal => 13,
            CheckError::TwiceLabel => 14,
            CheckError::UnknownVariable => 15,
            CheckError::UnknownProcedure => 16,
            CheckError::UnknownLabel => 17,
            CheckError::Arity => 18,
            CheckError::Lengths => 19,
            CheckError::TwiceTarget => 20,
            CheckError::Limit => 21,
            CheckError::Memory => 7,
        }
    }
}
