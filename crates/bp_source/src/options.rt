//! The start of a run by real threads. The options of a test, of an exploration and of a view.
use crate::tasks::ContextBound;
use bp_machine::Start;
use std::marker::Model;

/// The start of a run by real threads, apart from the program.
#[derive(Drop)]
pub struct RunOptions {
    /// The start of each run.
    pub start: Start,
    /// The most attempts of a worker while it holds the lock of the board: 1 to 64.
    pub turn: u32,
    /// The seed of the choice bits.
    pub seed: u64,
    /// The number of attempts of the ring through which the history leaves the board: 1 to 65,536.
    pub ring: u32,
}

impl Model for RunOptions {
    ghost use Rattle.bp_source.specs.RunOptions.{OptionsOf, options_of};

    ghost Value = { OptionsOf };

    ghost view = { λ o. options_of o.start o.turn o.seed o.ring };
}

/// The ends for which a test searches, and the number of its runs.
#[derive(Clone, Copy)]
pub struct TestOptions {
    /// The seed of the first run. Each other run has the seed after that of the run before it.
    pub seed: u64,
    /// The most runs.
    pub runs: u64,
    /// The seconds after which no run begins. If `None`, all runs are made.
    pub seconds: Option<u64>,
    /// The number of blocks of runs that are made side by side, each in a thread of its own. The
    /// finding does not depend on it. It counts as 1 if it is 0, and as `MAX_JOBS` if it is over
    /// that.
    pub jobs: u32,
    /// Whether the test also searches for a run that ends in a deadlock.
    pub with_deadlock: bool,
}

/// The ends for which an exploration searches, and its limits.
#[derive(Clone, Copy)]
pub struct ExploreOptions {
    /// The contexts within which runs are explored: as many as the setup allows, or any number.
    pub bound: ContextBound,
    /// The most states that are kept.
    pub states: u64,
    /// The seconds after which the exploration ends. If `None`, nothing limits its time.
    pub seconds: Option<u64>,
    /// Whether it also searches for deadlocks.
    pub with_deadlock: bool,
}

/// The format of a view.
#[derive(Clone, Copy)]
pub enum ViewFormat {
    /// For people, in columns.
    Columns,
    /// For programs: one JSON object a line.
    Json,
}

/// The attempts that a view shows, and their form.
#[derive(Clone, Copy)]
pub struct ViewOptions<'a> {
    /// Only those of this thread.
    pub thread: Option<u32>,
    /// The number of the last attempts of the history that are shown.
    pub last: Option<u64>,
    /// The number of the first attempt that is shown.
    pub from: Option<u64>,
    /// The number of the last attempt that is shown.
    pub to: Option<u64>,
    /// Only those that change a variable of one of these names, as `watched_names` of `bp_view`
    /// reads them. It is a global, or a formal or a local of any procedure. A step that enters a
    /// procedure changes its formals.
    pub watch: Option<&'a str>,
    /// Whether more than three equal waits of a thread in succession have one line. Objects are
    /// never folded.
    pub fold: bool,
    /// Whether the state after the last attempt follows the footer.
    pub has_state: bool,
    /// Whether the setup is left out.
    pub is_brief: bool,
    /// With the colours of a terminal.
    pub has_colour: bool,
    /// The most columns of a line of an attempt; None if it has as many as it needs.
    pub columns: Option<usize>,
    pub format: ViewFormat,
}
