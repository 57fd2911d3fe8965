//! Attempts of guest threads, their replies and refusals. Threads that a history finishes or leaves
//! open. Reports of histories.
ghost use Rattle.std.specs.Prelude.{◌≡◌};
ghost use Rattle.bp_machine.specs.Histories.{is_terminated, live_threads};

use crate::setups::Setup;
use std::alloc::AllocError;
use thiserror::Error;

/// Why an attempt is refused: the first reason that applies. The session is unchanged, and no
/// choice bit is used.
#[derive(Clone, Copy, Debug, PartialEq, Eq, Error)]
pub enum AskError {
    /// There is no such thread.
    #[error("there is no such thread")]
    NoThread,
    /// The thread makes no more attempts.
    #[error("the thread has made its last call")]
    Terminated,
    /// A choice bit was given, although the setup has a seed.
    #[error("the choice bits are those of the seed")]
    Seeded,
    /// No choice bit was given, and the setup has no seed.
    #[error("there is no seed for the choice bits")]
    Unseeded,
    /// There was not enough memory for a frame.
    #[error("out of memory")]
    Memory,
    /// The ring to which attempts are sent is full. Only a desk returns this, never a session.
    #[error("the ring is full")]
    Busy,
}

impl From<AllocError> for AskError {
    ghost use Rattle.std.specs.Prelude.{◌≡◌};
    ghost use Rattle.bp_machine.specs.declared.calls.AskError.{AskError};

    ghost from_gives = { λ _ e. e ≡ AskError.Memory };

    fn from(_: AllocError) -> AskError {
        AskError::Memory
    }
}

/// The reply to an attempt: the first that applies.
#[derive(Clone, Copy, Debug, PartialEq, Eq)]
pub enum Reply {
    /// An assertion failed earlier.
    Stopped,
    /// The thread has no frame.
    Ended,
    /// One more step of the thread is not within the allowed contexts.
    NoContexts,
    /// The next step is a call, and the stack has no room for a frame.
    Full,
    /// The next step is an assumption of 0.
    Blocked,
    /// The step is an assertion of 0.
    Failed,
    /// Any other step.
    Stepped,
}

impl Reply {
    ghost use Rattle.std.specs.Prelude.{◌≡◌};
    ghost use Rattle.bp_machine.specs.Histories.{letter_of, is_last};

    /// Returns the letter that stands for the reply in a trace.
    pub fn letter(&self) -> u8
        ensures { result ≡ letter_of self.now }
    {
        match self {
            Reply::Stopped => b'x',
            Reply::Ended => b'e',
            Reply::NoContexts => b'n',
            Reply::Full => b'u',
            Reply::Blocked => b'b',
            Reply::Failed => b'f',
            Reply::Stepped => b's',
        }
    }

    /// Returns whether the thread makes no more attempts after this reply.
    pub fn is_last(&self) -> bool
        ensures { result ≡ is_last self.now }
    {
        !matches!(self, Reply::Stepped | Reply::Blocked)
    }
}

/// A request of a guest thread to make one step, and the machine's reply.
#[derive(Clone, Copy, Debug, PartialEq, Eq)]
pub struct Call {
    /// The thread, from 0.
    pub thread: u32,
    /// The attempt's choice bit, whether its step reads it or not.
    pub bit: bool,
    pub reply: Reply,
}

/// Returns whether the thread makes no more attempts after the history.
fn is_terminated(setup: &Setup, history: &[Call], thread: u32) -> bool
    ensures { result ≡ is_terminated setup.now history.now thread }
{
    let mut count: usize = 0;
    let mut ended = false;
    for call in history {
        if call.thread == thread {
            count += 1;
            ended = call.reply.is_last();
        }
    }
    ended || setup.calls() as usize <= count
}

/// Returns the number of threads that may continue after the history.
pub fn live_threads(setup: &Setup, history: &[Call]) -> u32
    ensures { result ≡ live_threads setup.now history.now }
{
    let mut count = 0;
    for thread in 0..setup.threads() {
        if !is_terminated(setup, history, thread) {
            count += 1;
        }
    }
    count
}

/// Whether an assertion failed.
#[derive(Clone, Copy, Debug, PartialEq, Eq)]
pub enum Outcome {
    Clean,
    /// In a step of this thread.
    Failed { thread: u32 },
}

/// The outcome of a history, and its size.
#[derive(Clone, Copy, Debug, PartialEq, Eq)]
pub struct Report {
    pub outcome: Outcome,
    /// The number of attempts, also of those that made no step.
    pub calls: u64,
    /// The number of threads that may continue.
    pub left_live: u32,
    /// The least number of contexts within which the steps are.
    pub contexts: u32,
}
