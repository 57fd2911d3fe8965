//! Playing a board: one worker for each seat, and a writer thread.
ghost use Rattle.std.specs.Prelude.{◌≡◌, ◌≤◌, ◌<◌, false, true, is_some, map, MatchResult};
ghost use Rattle.bp_machine.specs.Laws.{StepsAreARun, StepsAreWithin, FailuresAreReal};
ghost use Rattle.bp_machine.specs.Setups.{threads, Fits};
ghost use Rattle.bp_run.specs.declared.limits.TheConstants.{MAX_TURN};
ghost use Rattle.bp_run.specs.Desks.{IsNamed};
ghost use Rattle.bp_run.specs.Runs.{IsPlayedFrom, IsPlayRefusal, seat_of_worker};

use crate::answers::{RunError, WorkerCount, counts_of};
use crate::boards::{Board, BoardParts, Calls};
use crate::gates::{Gate, Turns};
use crate::gatherings::{Gathered, gather};
use crate::stages::{Staged, Workers, stage};
use crate::trace_writers::{TraceWriter, write_rest};
use bp_flat::Code;
use bp_machine::{Report, Setup, failures_are_real, steps_are_a_run, steps_are_within};
use std::alloc::Global;
use std::io::Write;
use std::sync::Wait;
use std::sync::ledger::Ledger;
use std::thread::Threads;
use std::time::Clock;

/// The result of playing a board, whether the seats agree with the history, and the writer. It owns
/// no memory, so that a caller sees what the writer has written.
#[derive(Drop)]
pub(crate) struct Played<'a, W> {
    pub answer: Result<Report, RunError>,
    pub agree: bool,
    pub writer: TraceWriter<'a, W>,
}

/// Returns the answer if playing is refused, with the writer as it was.
fn refused<'a, W>(writer: TraceWriter<'a, W>, error: RunError) -> Played<'a, W>
    ensures answer { result.answer ≡ Err error }
    ensures same { result.writer.sink ≡ writer.entry.sink }
{
    Played {
        answer: Err(error),
        agree: false,
        writer,
    }
}

/// Proves the laws of legal histories.
fn histories_keep_their_laws()
    ensures run { StepsAreARun }
    ensures within { StepsAreWithin }
    ensures real { FailuresAreReal }
{
    steps_are_a_run();
    steps_are_within();
    failures_are_real();
}

/// Opens a board of these parts for a code and a setup, and plays it: one worker for each seat
/// makes the attempts of its thread, and the calling thread writes the trace while the workers run.
/// If a worker stopped too early, playing is refused once the trace is written. The counts of the
/// workers replace those in `counts`.
pub(crate) fn play<
    'a,
    C: Calls + Send + Sync,
    O: Ledger + Send + Sync,
    G: Gate,
    W: Write,
    R: Threads + Wait + Clock + Sync,
>(
    rt: &R,
    alloc: Global,
    board_parts: BoardParts,
    code: &Code,
    setup: &Setup,
    turns: Turns<'_, G>,
    counts: &mut Vec<WorkerCount>,
    writer: TraceWriter<'a, W>,
) -> Played<'a, W>
    requires named { IsNamed board_parts C.name C.parts O.name O.parts C.ring }
    requires code { code.now ≡ C.code }
    requires setup { setup.now ≡ C.setup }
    requires threads { board_parts.threads ≡ threads setup.now }
    requires fits { Fits code.now.tree setup.now }
    requires seeded { is_some setup.now.seed ≡ true }
    requires turn { (0 < turns.calls) × (turns.calls ≤ MAX_TURN) }
    requires fresh { writer.sink.refused ≡ false }
    ensures same_reference { result.writer.sink.out.ghost_name ≡ writer.entry.sink.out.ghost_name }
    ensures answer { let old = W.contents writer.entry.sink.out.now in
        let new = W.contents result.writer.sink.out.now in
        let t = code.now.tree in MatchResult result.answer
        (IsPlayedFrom t setup.now old new (map seat_of_worker counts.new.items) result.agree)
        (IsPlayRefusal t setup.now old new) }
{
    histories_keep_their_laws();
    setup.is_in_range();
    let Ok((board, seats, tap)) = Board::<C, O>::open(alloc, board_parts, code, setup) else {
        return refused(writer, RunError::Memory);
    };
    let (Ok(back), Ok(handles), Ok(room)) = (
        Vec::with_capacity(alloc, seats.len()),
        Vec::with_capacity(alloc, seats.len()),
        Vec::with_capacity(alloc, seats.len()),
    ) else {
        return refused(writer, RunError::Memory);
    };
    let workers = Workers {
        seats,
        back,
        handles,
    };
    let Staged {
        mut writer,
        tap,
        seats,
        all_started,
    } = stage(rt, setup, &board, workers, tap, writer, turns);
    if !all_started {
        return refused(writer, RunError::Start);
    }
    let Gathered {
        seats,
        mut tap,
        report,
        early,
        agree,
    } = gather(board, seats, tap);
    if writer.has_failed() {
        return refused(writer, RunError::Write);
    }
    write_rest(&mut writer, &mut tap);
    writer.end(report.calls, report.left_live);
    if writer.sink.has_refused() {
        return refused(writer, RunError::Write);
    }
    if let Some(thread) = early {
        return refused(writer, RunError::Early(thread));
    }
    *counts = counts_of(seats, room);
    Played {
        answer: Ok(report),
        agree,
        writer,
    }
}
