//! The result of a run: its report, and the counts of its workers. Why a run gives no report. The
//! setup of a program under the options of a run.
ghost use Rattle.std.specs.Prelude.{◌≡◌, ◌≤◌, map, vec_len, vec_capacity, ◌<◌, Some, IfOk, MatchResult};
ghost use Rattle.bp_syntax.specs.Ast.{Program};
ghost use Rattle.bp_run.specs.Runs.{seat_of_worker};
ghost use Rattle.bp_run.specs.Options.{setup_under, IsOptionsRefusal, IsSetupUnder, FitsOptions, has_bad_turn_or_ring};

use crate::boards::Calls;
use crate::limits::{MAX_RING, MAX_TURN};
use crate::seats::Seat;
use bp_code::{CodeError, ProgramError};
use bp_flat::Code;
use bp_machine::{Report, Setup, SetupError};
use bp_source::RunOptions;
use std::alloc::{AllocError, Global};
use std::sync::ledger::Ledger;
use thiserror::Error;

/// The number of attempts that the worker of a thread made, by its own count, and whether the
/// thread is still live.
#[derive(Clone, Copy, Debug, PartialEq, Eq)]
pub struct WorkerCount {
    pub thread: u32,
    pub calls: u64,
    pub is_open: bool,
}

/// The result of a run: the report of its history, the counts of its workers, one for each thread,
/// and whether each count agrees with the history. Their sum always does. No worker should ever
/// differ, but only the sum is proved.
#[derive(Debug, Drop)]
pub struct RunReport {
    pub report: Report,
    pub workers: Vec<WorkerCount>,
    pub counts_agree: bool,
}

/// Returns the count of a seat.
fn count_of<C: Calls, O: Ledger>(seat: &Seat<C, O>) -> WorkerCount
    ensures { seat_of_worker result ≡ seat.now }
{
    WorkerCount {
        thread: seat.thread(),
        calls: seat.calls(),
        is_open: seat.is_open(),
    }
}

/// Returns the counts of these seats, in order, in the memory of `room`.
pub(crate) fn counts_of<C: Calls, O: Ledger>(
    seats: Vec<Seat<C, O>>,
    room: Vec<WorkerCount>,
) -> Vec<WorkerCount>
    requires empty { vec_len room ≡ 0 }
    requires many { vec_len seats ≤ vec_capacity room }
    ensures { map seat_of_worker result.items ≡ seats.items }
{
    let mut counts = room;
    for seat in seats {
        let count = count_of(&seat);
        counts.push_reserved(count);
    }
    counts
}

/// Why a run gives no report: the first reason that applies, `Memory` aside.
#[derive(Debug, Drop, PartialEq, Eq, Error)]
pub enum RunError {
    /// The program text is refused. Nothing is written.
    #[error("{0}")]
    Program(ProgramError),
    /// The options are refused for the program. Nothing is written.
    #[error("{0}")]
    Setup(SetupError),
    /// A worker could not be started; those that were started have ended. Nothing is written.
    #[error("a worker could not be started")]
    Start,
    /// The worker of this thread ended although the thread is live and the next step needs no
    /// memory. The trace is written.
    #[error("the worker of thread {0} stopped before the thread was finished")]
    Early(u32),
    /// A write or a flush failed, and the workers stopped. A proper prefix of the trace of a
    /// history is written.
    #[error("the output could not be written")]
    Write,
    /// There was not enough memory outside the workers. Nothing is written.
    #[error("out of memory")]
    Memory,
}

impl From<AllocError> for RunError {
    ghost use Rattle.std.specs.Prelude.{◌≡◌};
    ghost use Rattle.bp_run.specs.declared.answers.RunError.{RunError};

    ghost from_gives = { λ _ e. e ≡ RunError.Memory };

    fn from(_: AllocError) -> RunError {
        RunError::Memory
    }
}

impl From<SetupError> for RunError {
    ghost use Rattle.std.specs.Prelude.{◌≡◌};
    ghost use Rattle.bp_run.specs.declared.answers.RunError.{RunError};

    ghost from_gives = { λ f e. e ≡ RunError.Setup f };

    fn from(error: SetupError) -> RunError {
        RunError::Setup(error)
    }
}

impl From<CodeError> for RunError {
    ghost use Rattle.std.specs.Prelude.{◌≡◌};
    ghost use Rattle.bp_run.specs.Errors.{run_error_of_code};

    ghost from_gives = { λ f e. e ≡ run_error_of_code f };

    fn from(error: CodeError) -> RunError {
        match error {
            CodeError::Program(error) => RunError::Program(error),
            CodeError::Memory => RunError::Memory,
        }
    }
}

/// Returns whether a turn has no attempt or more than 64, or the ring none or more than 65,536.
pub fn has_bad_turn_or_ring(options: &RunOptions) -> bool
    ensures { result ≡ has_bad_turn_or_ring options.now }
{
    let (turn, ring) = (options.turn, options.ring);
    turn == 0 || turn > MAX_TURN || ring == 0 || ring > MAX_RING
}

/// Returns the setup of a program under these options, with their seed. The errors of the setup
/// come before those of the turn and the ring.
pub(crate) fn setup_under(
    alloc: Global,
    options: &RunOptions,
    code: &Code,
) -> Result<Setup, SetupError>
    ensures answer { let t = code.now.tree in
        MatchResult result (IsSetupUnder options.now t) (IsOptionsRefusal options.now t) }
    ensures taken { IfOk result (FitsOptions options.now code.now) }
{
    let made = options.start.setup(alloc, code, Some(options.seed));
    if !has_bad_turn_or_ring(options) {
        return made;
    }
    // A setup that is refused for memory has no other error.
    match made {
        Ok(_) | Err(SetupError::Memory) => Err(SetupError::OutOfRange),
        Err(error) => Err(error),
    }
}
