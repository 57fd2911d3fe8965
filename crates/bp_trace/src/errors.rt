//! Why a schedule is not played, why a text is not a trace, and why a trace is not migrated.
use bp_machine::{Call, SetupError};
use bp_text::WriteError;
use std::alloc::AllocError;
use thiserror::Error;

/// Why a schedule is not played: the first reason that applies. Lines are counted from 1.
#[derive(Clone, Copy, Debug, PartialEq, Eq, Error)]
pub enum DriveError {
    /// The schedule has more than 67,108,864 bytes.
    #[error("the schedule is too long")]
    TooLong,
    /// This line is not a thread of the setup, a space, a bit and a line feed.
    #[error("line {0} of the schedule is not a thread and a choice bit")]
    Line(u32),
    /// The thread of this line has made its last attempt.
    #[error("line {0} of the schedule is of a thread that has made its last call")]
    AfterFinish(u32),
    /// There was not enough memory.
    #[error("out of memory")]
    Memory,
    /// The trace could not be written whole.
    #[error("the output could not be written")]
    Write,
}

impl From<AllocError> for DriveError {
    ghost use Rattle.std.specs.Prelude.{◌≡◌};
    ghost use Rattle.bp_trace.specs.declared.errors.DriveError.{DriveError};

    ghost from_gives = { λ _ e. e ≡ DriveError.Memory };

    fn from(_: AllocError) -> DriveError {
        DriveError::Memory
    }
}

impl From<WriteError> for DriveError {
    ghost use Rattle.std.specs.Prelude.{◌≡◌};
    ghost use Rattle.bp_trace.specs.declared.errors.DriveError.{DriveError};

    ghost from_gives = { λ _ e. e ≡ DriveError.Write };

    fn from(_: WriteError) -> DriveError {
        DriveError::Write
    }
}

/// The machine's own attempt, expected in place of a trace's.
#[derive(Clone, Copy, Debug, PartialEq, Eq)]
pub struct Due {
    /// The number of attempts of the trace before it.
    pub calls: u64,
    pub call: Call,
}

/// The counts that the end line of a trace must have.
#[derive(Clone, Copy, Debug, PartialEq, Eq)]
pub struct EndCounts {
    pub calls: u64,
    /// The number of threads that may make another attempt.
    pub left_live: u32,
}

/// Why a text is not a trace of a program: the first reason that applies. Lines are counted from 1.
#[derive(Clone, Copy, Debug, PartialEq, Eq, Error)]
pub enum ReplayError {
    /// The text has more than 67,108,864 bytes.
    #[error("the trace is too long")]
    TooLong,
    /// This line of the head is malformed or missing.
    #[error("line {0} of the trace is not the one that the head has there")]
    Head(u32),
    /// The program does not accept the setup of the head.
    #[error("{0}")]
    Setup(SetupError),
    /// This line is neither one of attempts of a thread of the setup nor an end, or it is after the
    /// end.
    #[error("line {0} of the trace is not a line of calls or the end")]
    Line(u32),
    /// The thread of an attempt on this line has made its last one. The number counts those before.
    #[error("line {0} of the trace is of a thread that has made its last call")]
    AfterFinish(u32, u64),
    /// The choice bit of an attempt on this line is not that of the seed, which the machine's own
    /// attempt has.
    #[error("line {0} of the trace has another choice bit than the seed")]
    Bit(u32, Due),
    /// The machine's own attempt has another reply than an attempt on this line.
    #[error("line {0} of the trace has another reply than the machine")]
    Reply(u32, Due),
    /// There is no end line. It must have these counts.
    #[error("the trace has no end")]
    NoEnd(EndCounts),
    /// This line is an end, but does not have these counts.
    #[error("the end of the trace counts other calls or open lines")]
    EndCount(u32, EndCounts),
    /// There was not enough memory.
    #[error("out of memory")]
    Memory,
}

impl From<AllocError> for ReplayError {
    ghost use Rattle.std.specs.Prelude.{◌≡◌};
    ghost use Rattle.bp_trace.specs.declared.errors.ReplayError.{ReplayError};

    ghost from_gives = { λ _ e. e ≡ ReplayError.Memory };

    fn from(_: AllocError) -> ReplayError {
        ReplayError::Memory
    }
}

/// Why a trace is not migrated: the first reason that applies.
#[derive(Clone, Copy, Debug, PartialEq, Eq, Error)]
pub enum MigrateError {
    /// The text is not a trace of the program.
    #[error("{0}")]
    Replay(ReplayError),
    /// The new text could not be written whole.
    #[error("the output could not be written")]
    Write,
}

impl From<ReplayError> for MigrateError {
    ghost use Rattle.std.specs.Prelude.{◌≡◌};
    ghost use Rattle.bp_trace.specs.declared.errors.MigrateError.{MigrateError};

    ghost from_gives = { λ f e. e ≡ MigrateError.Replay f };

    fn from(error: ReplayError) -> MigrateError {
        MigrateError::Replay(error)
    }
}

impl From<WriteError> for MigrateError {
    ghost use Rattle.std.specs.Prelude.{◌≡◌};
    ghost use Rattle.bp_trace.specs.declared.errors.MigrateError.{MigrateError};

    ghost from_gives = { λ _ e. e ≡ MigrateError.Write };

    fn from(_: WriteError) -> MigrateError {
        MigrateError::Write
    }
}
