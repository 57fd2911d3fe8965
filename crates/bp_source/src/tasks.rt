//! The request of a user: a task, its files and its options. The form of a listing. The bound on
//! contexts. The end of a run of confirmed steps. The form of a refusal on standard error. When an
//! error is explained.
ghost use Rattle.std.specs.Prelude.{◌≡◌};
ghost use Rattle.bp_source.specs.ErrorFormats.{error_format, json_and_explaining, is_explained, explains};

use crate::initial_bits::NamedBits;
use crate::options::{ExploreOptions, RunOptions, TestOptions, ViewFormat, ViewOptions};
use bp_machine::Start;

/// A program that is checked.
#[derive(Drop)]
pub struct CheckTask<'a> {
    /// The path of the program's text.
    pub program: &'a str,
    /// Whether the output is a JSON object, and an error too.
    pub json: bool,
    pub explain: Explaining,
}

/// A program whose code is listed.
#[derive(Drop)]
pub struct CodeTask<'a> {
    /// The path of the program's text.
    pub program: &'a str,
    /// In JSON an error is an object too.
    pub form: ListingForm,
    pub explain: Explaining,
}

/// A program and a schedule, and the start of driving it.
#[derive(Drop)]
pub struct DriveTask<'a> {
    /// The path of the program's text.
    pub program: &'a str,
    /// The path of the schedule.
    pub schedule: &'a str,
    pub start: Start,
    /// The globals whose initial bits are given by name.
    pub named: NamedBits<'a>,
    pub explain: Explaining,
}

/// A program and reported steps, and their start.
#[derive(Drop)]
pub struct ConfirmTask<'a> {
    /// The path of the program's text.
    pub program: &'a str,
    /// The path of the steps.
    pub steps: &'a str,
    pub start: Start,
    /// The globals whose initial bits are given by name.
    pub named: NamedBits<'a>,
    pub bound: ContextBound,
    /// The expected end of the run, if the exit status has to tell whether it is met.
    pub expected: Option<Verdict>,
    /// Whether the verdict is a JSON object, and an error too.
    pub json: bool,
    pub explain: Explaining,
}

/// A program, and the start of its run.
#[derive(Drop)]
pub struct RunTask<'a> {
    /// The path of the program's text.
    pub program: &'a str,
    pub options: RunOptions,
    /// The globals whose initial bits are given by name.
    pub named: NamedBits<'a>,
    /// Whether the workers start together and take turns as they are drawn.
    pub spread: bool,
    pub explain: Explaining,
}

/// A program, and the runs by which it is tested.
#[derive(Drop)]
pub struct TestTask<'a> {
    /// The path of the program's text.
    pub program: &'a str,
    /// The start of each run.
    pub start: Start,
    /// The globals whose initial bits are given by name.
    pub named: NamedBits<'a>,
    pub options: TestOptions,
    /// Whether the statements that no run reached are listed.
    pub unreached: bool,
    /// Whether the summary is JSON objects, and an error too.
    pub json: bool,
    pub explain: Explaining,
}

/// A program, and the bounds within which all its runs are explored.
#[derive(Drop)]
pub struct ExploreTask<'a> {
    /// The path of the program's text.
    pub program: &'a str,
    /// The start of each run, and the bound on contexts if there is one.
    pub start: Start,
    /// The globals whose initial bits are given by name.
    pub named: NamedBits<'a>,
    /// The path of the steps that a run has to make in their order, if any.
    pub through: Option<&'a str>,
    pub options: ExploreOptions,
    /// Whether the summary is a JSON object, and an error too.
    pub json: bool,
    pub explain: Explaining,
}

/// A program and a trace of it.
#[derive(Drop)]
pub struct TraceTask<'a> {
    /// The path of the program's text.
    pub program: &'a str,
    /// The path of the trace.
    pub trace: &'a str,
    pub explain: Explaining,
}

/// A program, a trace of it, and its view: the state after a number of attempts, the contexts, the
/// steps, or the attempts, by the first of these that is asked for.
#[derive(Drop)]
pub struct ShowTask<'a> {
    /// The path of the program's text.
    pub program: &'a str,
    /// The path of the trace.
    pub trace: &'a str,
    /// The number of attempts after which the state is shown.
    pub at: Option<u64>,
    /// Whether a line for each context is shown.
    pub contexts: bool,
    /// Whether the steps are shown as `confirm` takes them.
    pub steps: bool,
    /// Whether the accepted attempts are shown of a trace that is refused.
    pub valid: bool,
    /// The attempts that are shown, and their form. In JSON an error is an object too.
    pub options: ViewOptions<'a>,
    pub explain: Explaining,
}

/// The task that the user wants done.
#[derive(Drop)]
pub enum Task<'a> {
    /// The bundle on standard input.
    Bundle,
    /// `check FILE`
    Check(CheckTask<'a>),
    /// `code FILE`
    Code(CodeTask<'a>),
    /// `drive FILE SCHEDULE [ENTRY]..`
    Drive(DriveTask<'a>),
    /// `confirm FILE STEPS [ENTRY]..`
    Confirm(ConfirmTask<'a>),
    /// `run FILE [ENTRY]..`
    Run(RunTask<'a>),
    /// `test FILE [ENTRY]..`
    Test(TestTask<'a>),
    /// `explore FILE [ENTRY]..`
    Explore(ExploreTask<'a>),
    /// `replay FILE TRACE`
    Replay(TraceTask<'a>),
    /// `show FILE TRACE`
    Show(ShowTask<'a>),
    /// `migrate FILE TRACE`
    Migrate(TraceTask<'a>),
    /// `shrink FILE TRACE`
    Shrink(TraceTask<'a>),
}

/// Explanations only on terminals.
const ON_TERMINALS: Explaining = Explaining {
    always: false,
    never: false,
};

impl Task<'_> {
    /// Returns whether the task reports its errors as JSON, and when it explains them.
    fn json_and_explaining(&self) -> (bool, Explaining)
        ensures { result ≡ json_and_explaining self.now }
    {
        match self {
            Task::Bundle => (false, ON_TERMINALS),
            Task::Check(task) => (task.json, task.explain),
            Task::Code(task) => (matches!(task.form, ListingForm::Json), task.explain),
            Task::Drive(task) => (false, task.explain),
            Task::Confirm(task) => (task.json, task.explain),
            Task::Run(task) => (false, task.explain),
            Task::Test(task) => (task.json, task.explain),
            Task::Explore(task) => (task.json, task.explain),
            Task::Show(task) => (
                matches!(task.options.format, ViewFormat::Json),
                task.explain,
            ),
            Task::Replay(task) | Task::Migrate(task) | Task::Shrink(task) => (false, task.explain),
        }
    }

    /// Returns the form in which the task reports errors on a standard error that may be a
    /// terminal.
    pub fn error_format(&self, on_terminal: bool) -> ErrorFormat
        ensures { result ≡ error_format self.now on_terminal }
    {
        let (json, explain) = self.json_and_explaining();
        if json {
            ErrorFormat::Json
        } else if explain.explains(on_terminal) {
            ErrorFormat::Explained
        } else {
            ErrorFormat::Line
        }
    }
}

/// The form of a listing.
#[derive(Clone, Copy)]
pub enum ListingForm {
    /// A line for each procedure and each instruction.
    Lines,
    /// The same lines, and on the line of an instruction its place and its statement.
    Sourced,
    /// A JSON object on each line, with the place and the statement of each instruction.
    Json,
}

/// The bound on the contexts of reported steps, or of the runs of an exploration.
#[derive(Clone, Copy)]
pub enum ContextBound {
    /// As many as the setup allows.
    Kept,
    /// As many as they use, and at most 1,000 in a trace, which gives this number as its own.
    AsUsed,
}

/// The end of the run of confirmed steps.
#[derive(Clone, Copy)]
pub enum Verdict {
    /// An assertion fails at the last step.
    Failure,
    /// No assertion fails, and the threads are deadlocked.
    Deadlock,
    /// Neither.
    Run,
}

/// The form in which a refusal is reported on standard error.
#[derive(Clone, Copy)]
pub enum ErrorFormat {
    /// The line of the error.
    Line,
    /// The line of the error, and lines that explain it.
    Explained,
    /// One JSON object on a line.
    Json,
}

impl ErrorFormat {
    /// Returns whether lines that explain the error follow.
    pub fn is_explained(self) -> bool
        ensures { result ≡ is_explained self }
    {
        matches!(self, ErrorFormat::Explained)
    }
}

/// When lines that explain an error follow its line. If neither is asked for, they do on a standard
/// error that is a terminal.
#[derive(Clone, Copy)]
pub struct Explaining {
    /// Whether each error is to be explained.
    pub always: bool,
    /// Whether none is. It is not asked for with the other.
    pub never: bool,
}

impl Explaining {
    /// Returns whether an error is explained on a standard error that is a terminal or not.
    pub fn explains(self, on_terminal: bool) -> bool
        ensures { result ≡ explains self on_terminal }
    {
        !self.never && (self.always || on_terminal)
    }
}
