//! Why a command is refused.
ghost use Rattle.std.specs.Prelude.{◌≡◌};
ghost use Rattle.bp_messages.specs.ErrorTable.{error_of_code, error_of_input, error_of_migration, error_of_program, error_of_run, error_of_schedule, error_of_setup, error_of_steps, error_of_test, error_of_trace, error_of_view};
ghost use Rattle.bp_messages.specs.declared.errors.Error.TheVariants.{Memory, Write};

use crate::error_lines::InputError;
use bp_code::{CodeError, ProgramError};
use bp_confirm::ConfirmError;
use bp_machine::SetupError;
use bp_run::RunError;
use bp_syntax::{CheckError, ReadError};
use bp_test::TestError;
use bp_text::WriteError;
use bp_trace::{DriveError, MigrateError, ReplayError};
use bp_view::ViewError;
use std::alloc::AllocError;
use thiserror::Error;

/// Why a command is refused: the first reason that applies, `Memory` aside. Refused memory is one
/// value, whichever library reports it. So are a failed write and an input that is too long.
#[derive(Debug, Drop, Error)]
pub enum Error {
    /// An input could not be read.
    #[error("the file could not be read")]
    Device,
    /// A second input, or a bundle, is longer than its limit.
    #[error("the input is too long")]
    TooLong,
    /// The program text is refused.
    #[error("{0}")]
    Program(ProgramError),
    /// The setup does not fit the program.
    #[error("{0}")]
    Setup(SetupError),
    /// The schedule is refused.
    #[error("{0}")]
    Schedule(DriveError),
    /// The text is not a trace of the program.
    #[error("{0}")]
    Trace(ReplayError),
    /// The reported steps are refused.
    #[error("{0}")]
    Steps(ConfirmError),
    /// Only the attempts of this thread were asked for, and the trace does not have it.
    #[error("the trace has no thread {0}")]
    NoThread(u32),
    /// No variable of the program has this one of the watched names, from 1.
    #[error("the program has no variable that is name {0} of --watch")]
    NoVariable(u64),
    /// The trace ends neither in a failed assertion nor in a deadlock.
    #[error("the trace ends neither in a failed assertion nor in a deadlock")]
    NoFailure,
    /// A worker could not be started.
    #[error("a worker could not be started")]
    Start,
    /// The worker of this thread stopped although the thread is live and the next step needs no
    /// memory. The trace is written.
    #[error("the worker of thread {0} stopped before the thread was finished")]
    Early(u32),
    /// The output could not be written.
    #[error("the output could not be written")]
    Write,
    /// There was not enough memory.
    #[error("out of memory")]
    Memory,
}

impl From<AllocError> for Error {
    ghost from_gives = { λ _ e. e ≡ Memory };

    fn from(_: AllocError) -> Error {
        Error::Memory
    }
}

impl From<WriteError> for Error {
    ghost from_gives = { λ _ e. e ≡ Write };

    fn from(_: WriteError) -> Error {
        Error::Write
    }
}

impl From<InputError> for Error {
    ghost from_gives = { λ f e. e ≡ error_of_input f };

    fn from(error: InputError) -> Error {
        match error {
            InputError::Device => Error::Device,
            InputError::TooLong => Error::TooLong,
            InputError::Memory => Error::Memory,
        }
    }
}

impl From<ProgramError> for Error {
    ghost from_gives = { λ f e. e ≡ error_of_program f };

    fn from(error: ProgramError) -> Error {
        match error {
            ProgramError::Read(ReadError::Memory) => Error::Memory,
            ProgramError::Check(CheckError::Memory, _) => Error::Memory,
            error => Error::Program(error),
        }
    }
}

impl From<CodeError> for Error {
    ghost from_gives = { λ f e. e ≡ error_of_code f };

    fn from(error: CodeError) -> Error {
        match error {
            CodeError::Program(error) => Error::from(error),
            CodeError::Memory => Error::Memory,
        }
    }
}

impl From<SetupError> for Error {
    ghost from_gives = { λ f e. e ≡ error_of_setup f };

    fn from(error: SetupError) -> Error {
        match error {
            SetupError::Memory => Error::Memory,
            error => Error::Setup(error),
        }
    }
}

impl From<DriveError> for Error {
    ghost from_gives = { λ f e. e ≡ error_of_schedule f };

    fn from(error: DriveError) -> Error {
        match error {
            DriveError::TooLong => Error::TooLong,
            DriveError::Memory => Error::Memory,
            DriveError::Write => Error::Write,
            error => Error::Schedule(error),
        }
    }
}

impl From<ReplayError> for Error {
    ghost from_gives = { λ f e. e ≡ error_of_trace f };

    fn from(error: ReplayError) -> Error {
        match error {
            ReplayError::TooLong => Error::TooLong,
            ReplayError::Setup(error) => Error::from(error),
            ReplayError::Memory => Error::Memory,
            error => Error::Trace(error),
        }
    }
}

impl From<ConfirmError> for Error {
    ghost from_gives = { λ f e. e ≡ error_of_steps f };

    fn from(error: ConfirmError) -> Error {
        match error {
            ConfirmError::TooLong => Error::TooLong,
            ConfirmError::Memory => Error::Memory,
            error => Error::Steps(error),
        }
    }
}

impl From<MigrateError> for Error {
    ghost from_gives = { λ f e. e ≡ error_of_migration f };

    fn from(error: MigrateError) -> Error {
        match error {
            MigrateError::Replay(error) => Error::from(error),
            MigrateError::Write => Error::Write,
        }
    }
}

impl From<ViewError> for Error {
    ghost from_gives = { λ f e. e ≡ error_of_view f };

    fn from(error: ViewError) -> Error {
        match error {
            ViewError::Replay(error) => Error::from(error),
            ViewError::NoThread(thread) => Error::NoThread(thread),
            ViewError::NoVariable(n) => Error::NoVariable(n),
            ViewError::Memory => Error::Memory,
            ViewError::Write => Error::Write,
        }
    }
}

impl From<RunError> for Error {
    ghost from_gives = { λ f e. e ≡ error_of_run f };

    fn from(error: RunError) -> Error {
        match error {
            RunError::Program(error) => Error::from(error),
            RunError::Setup(error) => Error::from(error),
            RunError::Start => Error::Start,
            RunError::Early(thread) => Error::Early(thread),
            RunError::Write => Error::Write,
            RunError::Memory => Error::Memory,
        }
    }
}

impl From<TestError> for Error {
    ghost from_gives = { λ f e. e ≡ error_of_test f };

    fn from(error: TestError) -> Error {
        match error {
            TestError::Memory => Error::Memory,
            TestError::Write => Error::Write,
        }
    }
}
