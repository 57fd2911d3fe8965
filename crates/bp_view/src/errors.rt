//! Why a view is not written whole.

use bp_text::WriteError;
use bp_trace::ReplayError;
use std::alloc::AllocError;
use thiserror::Error;

/// Why a view is not written whole: the first reason that applies, `Memory` aside.
#[derive(Clone, Copy, Debug, Error)]
pub enum ViewError {
    /// The text is not a trace of the program, or memory was refused before anything was written.
    #[error("{0}")]
    Replay(ReplayError),
    /// Only the attempts of this thread were asked for, and the trace does not have it.
    #[error("the trace has no thread {0}")]
    NoThread(u32),
    /// Only the attempts that change a variable of some names were asked for, and no variable of
    /// the program has this one of the names, from 1.
    #[error("the program has no variable that is name {0} of --watch")]
    NoVariable(u64),
    /// Memory was refused after the trace was replayed. A beginning of the view is written.
    #[error("out of memory")]
    Memory,
    /// The output refused a part of the view.
    #[error("the output could not be written")]
    Write,
}

impl From<ReplayError> for ViewError {
    ghost use Rattle.std.specs.Prelude.{◌≡◌};
    ghost use Rattle.bp_view.specs.declared.errors.ViewError.{ViewError};

    ghost from_gives = { λ f e. e ≡ ViewError.Replay f };

    fn from(error: ReplayError) -> ViewError {
        ViewError::Replay(error)
    }
}

impl From<AllocError> for ViewError {
    ghost use Rattle.std.specs.Prelude.{◌≡◌};
    ghost use Rattle.bp_view.specs.declared.errors.ViewError.{ViewError};

    ghost from_gives = { λ _ e. e ≡ ViewError.Memory };

    fn from(_: AllocError) -> ViewError {
        ViewError::Memory
    }
}

impl From<WriteError> for ViewError {
    ghost use Rattle.std.specs.Prelude.{◌≡◌};
    ghost use Rattle.bp_view.specs.declared.errors.ViewError.{ViewError};

    ghost from_gives = { λ _ e. e ≡ ViewError.Write };

    fn from(_: WriteError) -> ViewError {
        ViewError::Write
    }
}
