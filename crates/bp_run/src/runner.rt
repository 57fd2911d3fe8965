//! Running a program by real threads, one for each guest thread.
ghost use Rattle.std.specs.Prelude.{◌≡◌, ◌≤◌, ◌<◌, true, is_some, MatchResult};
ghost use Rattle.bp_machine.specs.Setups.{Fits};
ghost use Rattle.bp_run.specs.declared.limits.TheConstants.{MAX_TURN, MAX_RING};
ghost use Rattle.bp_run.specs.Runs.{IsPlayedBy, IsPlayRefusal, IsTracedRun, IsRunRefusal};

use crate::answers::{RunError, RunReport, setup_under};
use crate::boards::BoardParts;
use crate::gates::{Gate, Turns};
use crate::plays::{Played, play};
use crate::trace_writers::TraceWriter;
use bp_code::code_of;
use bp_flat::Code;
use bp_machine::Setup;
use bp_source::RunOptions;
use bp_text::Sink;
use std::alloc::Global;
use std::io::Write;
use std::marker::Brand;
use std::sync::Wait;
use std::thread::Threads;
use std::time::Clock;

/// Runs the program of a code on this setup, and writes the trace: one worker for each guest thread
/// makes its attempts, and the calling thread writes them while the workers run. Returns the report
/// of the history that was written, and the number of attempts of each worker, by its own count.
/// The contract does not say which legal history that is; its bits are those of the seed.
///
/// Nothing is written before all workers were started. If a write or a flush fails the workers
/// stop, and a proper prefix of the trace of a history is written. A worker that is refused memory
/// ends, and its thread stays live: that is not a refusal of the run.
pub fn run_code<G: Gate, W: Write, R: Threads + Wait + Clock + Sync>(
    rt: &R,
    alloc: Global,
    code: &Code,
    setup: &Setup,
    turns: Turns<'_, G>,
    ring: u32,
    out: &mut W,
) -> Result<RunReport, RunError>
    requires fits { Fits code.now.tree setup.now }
    requires seeded { is_some setup.now.seed ≡ true }
    requires turn { (0 < turns.calls) × (turns.calls ≤ MAX_TURN) }
    requires ring { (0 < ring) × (ring ≤ MAX_RING) }
    ensures { let old = W.contents out.old in
        let new = W.contents out.new in
        let t = code.now.tree in MatchResult result
        (IsPlayedBy t setup.now old new)
        (IsPlayRefusal t setup.now old new) }
{
    setup.is_in_range();
    let board_parts = BoardParts::new(alloc, setup.threads(), ring)?;
    let writer = TraceWriter::new(Sink::new(out));
    let mut workers = Vec::new(alloc);
    let Played {
        answer,
        agree,
        writer: _,
    } = play::<Brand, Brand, G, W, R>(
        rt,
        alloc,
        board_parts,
        code,
        setup,
        turns,
        &mut workers,
        writer,
    );
    Ok(RunReport {
        report: answer?,
        workers,
        counts_agree: agree,
    })
}

/// Runs the program of a text under these options, as `run_code` does. The refusals come in the
/// order of `RunError`.
pub fn run<G: Gate, W: Write, R: Threads + Wait + Clock + Sync>(
    rt: &R,
    alloc: Global,
    text: &[u8],
    options: &RunOptions,
    gate: &G,
    out: &mut W,
) -> Result<RunReport, RunError>
    ensures { let old = W.contents out.old in
        let new = W.contents out.new in
        MatchResult result
        (IsTracedRun options.now text.now old new)
        (IsRunRefusal options.now text.now old new) }
{
    let code = code_of(alloc, text)?;
    let setup = setup_under(alloc, options, &code)?;
    let calls = options.turn;
    let turns = Turns { calls, gate };
    run_code(rt, alloc, &code, &setup, turns, options.ring, out)
}
