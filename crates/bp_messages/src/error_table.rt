//! The table of the errors: the number, the name, and the detail of each.
ghost use Rattle.std.specs.Prelude.{◌≡◌};
ghost use Rattle.bp_messages.specs.ErrorTable.{check_row, exit_status, error_row, long_row, memory_row, read_row, row_of, schedule_row, setup_row, status_of, step_row, steps_row, trace_row, write_row};
ghost use Rattle.bp_messages.specs.declared.error_table.Detail.TheVariants.{Step};

use crate::errors::Error;
use bp_code::ProgramError;
use bp_confirm::{ConfirmError, StepReason, StepRefusal};
use bp_machine::{Reply, SetupError};
use bp_syntax::{CheckError, ReadError};
use bp_trace::{DriveError, ReplayError};

/// Returns the exit status of a run. An error that ended it gives 3 if its number is that of
/// memory, devices, the output or workers that do not start or stop early. It gives 4 for a step
/// that is not taken, and 2 for any other. Without an error it is 1 if an assertion failed, else 0.
pub fn exit_status(has_failed: bool, error: Option<u32>) -> u8
    ensures { result ≡ exit_status has_failed error }
{
    match error {
        Some(7 | 51 | 53..=55) => 3,
        Some(58..=62) => 4,
        Some(_) => 2,
        None => u8::from(has_failed),
    }
}

/// The detail of an error.
#[derive(Clone, Copy)]
pub enum Detail {
    Nothing,
    /// A byte of the program text.
    Byte(u32),
    /// A guest thread.
    Thread(u32),
    /// A line of the schedule, the steps or the trace.
    Line(u32),
    /// A line of the steps, and the thread that it names.
    ThreadOn(u32, u32),
    /// A line of the steps, and why its step is not taken.
    Step(StepRefusal),
    /// A line of the trace, and the reply that it should have.
    Wanted(u32, Reply),
}

/// The number, the name and the detail of an error: a row of the table.
#[derive(Clone, Copy)]
pub struct Row {
    pub number: u32,
    pub name: &'static [u8],
    pub detail: Detail,
}

fn new_row(number: u32, name: &'static [u8], detail: Detail) -> Row
    ensures { row_of result ≡ record { number = number; name = name.now; detail = detail } }
{
    Row {
        number,
        name,
        detail,
    }
}

fn memory_row() -> Row
    ensures { row_of result ≡ memory_row }
{
    new_row(7, b"Memory", Detail::Nothing)
}

fn long_row() -> Row
    ensures { row_of result ≡ long_row }
{
    new_row(48, b"TooLong", Detail::Nothing)
}

fn write_row() -> Row
    ensures { row_of result ≡ write_row }
{
    new_row(51, b"Write", Detail::Nothing)
}

fn read_row(error: &ReadError) -> Row
    ensures { row_of result ≡ read_row error.now }
{
    match error {
        ReadError::TooLong => new_row(1, b"TooLong", Detail::Nothing),
        ReadError::BadByte(at) => new_row(2, b"BadByte", Detail::Byte(*at)),
        ReadError::OpenName(at) => new_row(3, b"OpenName", Detail::Byte(*at)),
        ReadError::TooNested(at) => new_row(4, b"TooNested", Detail::Byte(*at)),
        ReadError::TooManyTokens(at) => new_row(5, b"TooManyTokens", Detail::Byte(*at)),
        ReadError::Syntax(at) => new_row(6, b"Syntax", Detail::Byte(*at)),
        ReadError::Memory => memory_row(),
    }
}

fn check_row(error: &CheckError, at: u32) -> Row
    ensures { row_of result ≡ check_row error.now at }
{
    let place = Detail::Byte(at);
    match error {
        CheckError::TwiceGlobal => new_row(11, b"TwiceGlobal", place),
        CheckError::TwiceProcedure => new_row(12, b"TwiceProcedure", place),
        CheckError::TwiceLocal => new_row(13, b"TwiceLocal", place),
        CheckError::TwiceLabel => new_row(14, b"TwiceLabel", place),
        CheckError::UnknownVariable => new_row(15, b"UnknownVariable", place),
        CheckError::UnknownProcedure => new_row(16, b"UnknownProcedure", place),
        CheckError::UnknownLabel => new_row(17, b"UnknownLabel", place),
        CheckError::Arity => new_row(18, b"Arity", place),
        CheckError::Lengths => new_row(19, b"Lengths", place),
        CheckError::TwiceTarget => new_row(20, b"TwiceTarget", place),
        CheckError::Limit => new_row(21, b"Limit", place),
        CheckError::Memory => memory_row(),
    }
}

fn setup_row(error: &SetupError) -> Row
    ensures { row_of result ≡ setup_row error.now }
{
    match error {
        SetupError::Threads => new_row(31, b"Threads", Detail::Nothing),
        SetupError::UnknownEntry(thread) => new_row(32, b"UnknownEntry", Detail::Thread(*thread)),
        SetupError::EntryHasFormals(thread) => new_row(
            33,
            b"EntryHasFormals",
            Detail::Thread(*thread),
        ),
        SetupError::InitLength => new_row(34, b"InitLength", Detail::Nothing),
        SetupError::OutOfRange => new_row(35, b"OutOfRange", Detail::Nothing),
        SetupError::Memory => memory_row(),
    }
}

fn schedule_row(error: &DriveError) -> Row
    ensures { row_of result ≡ schedule_row error.now }
{
    match error {
        DriveError::TooLong => long_row(),
        DriveError::Line(line) => new_row(42, b"Line", Detail::Line(*line)),
        DriveError::AfterFinish(line) => new_row(47, b"AfterFinish", Detail::Line(*line)),
        DriveError::Memory => memory_row(),
        DriveError::Write => write_row(),
    }
}

fn trace_row(error: &ReplayError) -> Row
    ensures { row_of result ≡ trace_row error.now }
{
    match error {
        ReplayError::TooLong => long_row(),
        ReplayError::Head(line) => new_row(41, b"Head", Detail::Line(*line)),
        ReplayError::Setup(error) => setup_row(error),
        ReplayError::Line(line) => new_row(42, b"Line", Detail::Line(*line)),
        ReplayError::AfterFinish(line, _) => new_row(47, b"AfterFinish", Detail::Line(*line)),
        ReplayError::Bit(line, _) => new_row(43, b"Bit", Detail::Line(*line)),
        ReplayError::Reply(line, due) => new_row(
            44,
            b"Reply",
            Detail::Wanted(*line, due.call.reply),
        ),
        ReplayError::NoEnd(_) => new_row(45, b"NoEnd", Detail::Nothing),
        ReplayError::EndCount(_, _) => new_row(46, b"EndCount", Detail::Nothing),
        ReplayError::Memory => memory_row(),
    }
}

fn step_row(refusal: StepRefusal) -> Row
    ensures { row_of result ≡ step_row refusal.reason (Step refusal) }
{
    let step = Detail::Step(refusal);
    match refusal.reason {
        StepReason::Elsewhere => new_row(58, b"Elsewhere", step),
        StepReason::Ambiguous => new_row(59, b"Ambiguous", step),
        StepReason::Finished => new_row(60, b"Finished", step),
        StepReason::Refused(_) => new_row(61, b"Refused", step),
        StepReason::Differs(_) => new_row(62, b"Differs", step),
    }
}

fn steps_row(error: &ConfirmError) -> Row
    ensures { row_of result ≡ steps_row error.now }
{
    match error {
        ConfirmError::TooLong => long_row(),
        ConfirmError::NoSteps => new_row(63, b"NoSteps", Detail::Nothing),
        ConfirmError::Line(line) => new_row(42, b"Line", Detail::Line(*line)),
        ConfirmError::NoThread(line, thread) => new_row(
            36,
            b"NoThread",
            Detail::ThreadOn(*line, *thread),
        ),
        ConfirmError::NoVariable(line, _) => new_row(57, b"NoVariable", Detail::Line(*line)),
        ConfirmError::Step(refusal) => step_row(*refusal),
        ConfirmError::Memory => memory_row(),
    }
}

impl Error {
    /// Returns the error's row of the table.
    pub fn row(&self) -> Row
        ensures { row_of result ≡ error_row self.now }
    {
        match self {
            Error::Device => new_row(54, b"Device", Detail::Nothing),
            Error::TooLong => long_row(),
            Error::Program(ProgramError::Read(error)) => read_row(error),
            Error::Program(ProgramError::Check(error, at)) => check_row(error, *at),
            Error::Setup(error) => setup_row(error),
            Error::Schedule(error) => schedule_row(error),
            Error::Trace(error) => trace_row(error),
            Error::Steps(error) => steps_row(error),
            Error::NoThread(thread) => new_row(36, b"NoThread", Detail::Thread(*thread)),
            Error::NoVariable(_) => new_row(57, b"NoVariable", Detail::Nothing),
            Error::NoFailure => new_row(56, b"NoFailure", Detail::Nothing),
            Error::Start => new_row(53, b"Start", Detail::Nothing),
            Error::Early(thread) => new_row(55, b"Early", Detail::Thread(*thread)),
            Error::Write => write_row(),
            Error::Memory => memory_row(),
        }
    }

    /// Returns the exit status of a run that the error ended.
    pub fn status(&self) -> u8
        ensures { result ≡ status_of self.now }
    {
        exit_status(false, Some(self.row().number))
    }
}
