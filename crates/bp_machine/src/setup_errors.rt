//! Why a setup is refused.
ghost use Rattle.std.specs.Prelude.{◌≡◌, ◌≤◌, [], None, map, length, string_bytes};
ghost use Rattle.bp_flat.specs.Moves.{procedure_named};
ghost use Rattle.bp_machine.specs.declared.limits.TheConstants.{MAX_THREADS};
ghost use Rattle.bp_machine.specs.Setups.{setup_of, entries_error, entry_error, first_of, number_errors, setup_error};

use crate::limits::{MAX_CALLS, MAX_CONTEXTS, MAX_THREADS};
use bp_flat::Code;
use std::alloc::AllocError;
use thiserror::Error;

/// Why a setup is refused: the first reason that applies.
#[derive(Clone, Copy, Debug, PartialEq, Eq, Error)]
pub enum SetupError {
    /// There are no threads, or more than 64.
    #[error("there must be 1 to 64 guest threads")]
    Threads,
    /// The entry of this thread is not a procedure of the program.
    #[error("thread {0} begins with a procedure that is not there")]
    UnknownEntry(u32),
    /// The entry of this thread has formals.
    #[error("thread {0} begins with a procedure that has formals")]
    EntryHasFormals(u32),
    /// There is not one initial bit for each global.
    #[error("there must be one initial bit for each global")]
    InitLength,
    /// More than 1,000 contexts, no attempt, or more than 100,000 attempts.
    #[error("a number is out of its range")]
    OutOfRange,
    /// There was not enough memory.
    #[error("out of memory")]
    Memory,
}

/// Returns the error of the entry of a thread.
pub(crate) fn error_of_entry(code: &Code, thread: u32, name: &[u8]) -> Option<SetupError>
    ensures { let t = code.now.tree in
        result ≡ entry_error thread (procedure_named t.procedures name.now) }
{
    match code.heading_of(name) {
        None => Some(SetupError::UnknownEntry(thread)),
        Some(heading) if heading.formals() == 0 => None,
        Some(_) => Some(SetupError::EntryHasFormals(thread)),
    }
}

/// Returns the first error of the entries.
pub(crate) fn error_of_entries(code: &Code, entries: &[String]) -> Option<SetupError>
    requires { length entries.now ≤ MAX_THREADS }
    ensures { result ≡ entries_error code.now.tree 0 (map string_bytes entries.now) }
{
    for (thread, name) in entries.iter().enumerate() {
        let error = error_of_entry(code, thread as u32, name.as_bytes());
        if error.is_some() {
            return error;
        }
    }
    None
}

/// Returns the first error of the initial bits and the numbers.
pub(crate) fn error_of_numbers(
    code: &Code,
    init: &[bool],
    contexts: u64,
    calls: u64,
) -> Option<SetupError>
    ensures { let given = setup_of [] init.now contexts calls None in
        result ≡ first_of (number_errors code.now.tree given) }
{
    if init.len() != code.globals() as usize {
        return Some(SetupError::InitLength);
    }
    if contexts > u64::from(MAX_CONTEXTS) || calls == 0 || calls > u64::from(MAX_CALLS) {
        return Some(SetupError::OutOfRange);
    }
    None
}

/// Returns the first error of a setup with these parts, apart from memory.
pub(crate) fn error_of_setup(
    code: &Code,
    entries: &[String],
    init: &[bool],
    contexts: u32,
    calls: u32,
) -> Option<SetupError>
    ensures { let given = setup_of (map string_bytes entries.now) init.now contexts calls None in
        result ≡ setup_error code.now.tree given }
{
    if entries.is_empty() || entries.len() > MAX_THREADS {
        return Some(SetupError::Threads);
    }
    if let Some(error) = error_of_entries(code, entries) {
        return Some(error);
    }
    error_of_numbers(code, init, u64::from(contexts), u64::from(calls))
}

impl From<AllocError> for SetupError {
    ghost use Rattle.std.specs.Prelude.{◌≡◌};
    ghost use Rattle.bp_machine.specs.declared.setup_errors.SetupError.{SetupError};

    ghost from_gives = { λ _ e. e ≡ SetupError.Memory };

    fn from(_: AllocError) -> SetupError {
        SetupError::Memory
    }
}
