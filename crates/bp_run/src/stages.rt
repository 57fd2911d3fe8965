//! The stage of a run: a worker for each seat, and the writer thread, at one board.
ghost use Rattle.std.specs.Prelude.{◌≡◌, ◌≤◌, ◌<◌, ◌+◌, ◌∷◌, [], false, true, map, vec_len, vec_capacity};
ghost use Rattle.std.specs.Thread.{IsSync};
ghost use Rattle.bp_run.specs.declared.limits.TheConstants.{MAX_TURN};
ghost use Rattle.bp_machine.specs.declared.limits.TheConstants.{MAX_THREADS};
ghost use Rattle.bp_run.specs.Works.{IsStaged};

use crate::boards::{Board, Calls};
use crate::gates::{Gate, Turns};
use crate::seats::{Seat, Tap};
use crate::signals::Signals;
use crate::trace_writers::{TraceWriter, write_running};
use crate::workers::worker;
use bp_machine::Setup;
use std::io::Write;
use std::sync::Wait;
use std::sync::ledger::Ledger;
use std::thread;
use std::thread::{Promise, PromisedHandle, Scope, Threads};
use std::time::Clock;

/// The promise of a worker: it leaves a seat of this thread.
#[derive(Drop)]
pub(crate) struct OfThread {
    pub thread: u32,
}

impl<C: Calls, O: Ledger> Promise<Seat<C, O>> for OfThread {
    ghost use Rattle.std.specs.Prelude.{◌≡◌};

    ghost kept_by = { λ p seat. seat.thread ≡ p.thread };
}

/// A worker that is to be joined.
pub(crate) type Handle<C, O> = PromisedHandle<Seat<C, O>, OfThread>;

/// The results of the writer thread and the workers, and whether all workers were started.
#[derive(Drop)]
pub(crate) struct Staged<'a, W, C: Calls, O: Ledger> {
    pub writer: TraceWriter<'a, W>,
    pub tap: Tap<C>,
    pub seats: Vec<Seat<C, O>>,
    pub all_started: bool,
}

/// Starts a worker for each seat, in order, until one cannot be started. Returns whether all were
/// started. The gate is told of the seats without a worker, which are dropped.
fn start_workers<
    's,
    E,
    C: Calls + Send + Sync + 's,
    O: Ledger + Send + Sync + 's,
    G: Gate + 's,
    R: Threads + Wait + Clock + Sync + 's,
>(
    scope: &Scope<'s, E>,
    rt: &'s R,
    board: &'s Board<C, O>,
    signals: &'s Signals,
    seats: Vec<Seat<C, O>>,
    handles: &mut Vec<Handle<C, O>>,
    turns: Turns<'s, G>,
) -> bool
    requires shared { IsSync R.row × IsSync G.row }
    requires some { 0 < turns.calls }
    requires few { turns.calls ≤ MAX_TURN }
    requires no_handle { vec_len handles.old ≡ 0 }
    requires room { vec_len seats ≤ vec_capacity handles.old }
    ensures count { vec_len handles.new ≤ vec_len seats }
    ensures threads { result ≡ true
        → map (λ handle. handle.promise.thread) handles.new.items
        ≡ map (λ seat. seat.thread) seats.items }
{
    let Turns { calls, gate } = turns;
    let mut all_started = true;
    for seat in seats {
        let thread = seat.thread();
        if !all_started {
            gate.finished(thread);
            continue;
        }
        match scope.spawn_with(
            OfThread { thread },
            move || -> Seat<C, O>
                requires some { 0 < calls }
                requires few { calls ≤ MAX_TURN }
                ensures { result.thread ≡ seat.thread }
            { worker(rt, board, signals, seat, calls, gate) },
        ) {
            Ok(handle) => handles.push_reserved(handle),
            Err(_) => {
                all_started = false;
                gate.finished(thread);
            }
        }
    }
    all_started
}

/// Waits until the workers have ended, and returns their seats in order.
fn join_workers<C: Calls + Send, O: Ledger + Send, R: Threads>(
    rt: &R,
    handles: Vec<Handle<C, O>>,
    mut back: Vec<Seat<C, O>>,
) -> Vec<Seat<C, O>>
    requires no_seat { vec_len back ≡ 0 }
    requires room { vec_len handles ≤ vec_capacity back }
    ensures { map (λ seat. seat.thread) result.items
        ≡ map (λ handle. handle.promise.thread) handles.items }
{
    for handle in handles {
        back.push_reserved(handle.join(rt));
    }
    back
}

/// The seats of the workers that are to be started, and room for their handles and for the seats
/// that they return.
#[derive(Drop)]
pub(crate) struct Workers<C: Calls, O: Ledger> {
    pub seats: Vec<Seat<C, O>>,
    pub back: Vec<Seat<C, O>>,
    pub handles: Vec<Handle<C, O>>,
}

/// Starts a worker for each seat, takes and writes attempts while they run, and joins them.
pub(crate) fn stage<
    'a,
    C: Calls + Send + Sync,
    O: Ledger + Send + Sync,
    G: Gate,
    W: Write,
    R: Threads + Wait + Clock + Sync,
>(
    rt: &R,
    setup: &Setup,
    board: &Board<C, O>,
    workers: Workers<C, O>,
    tap: Tap<C>,
    writer: TraceWriter<'a, W>,
    turns: Turns<'_, G>,
) -> Staged<'a, W, C, O>
    requires some { 0 < turns.calls }
    requires few { turns.calls ≤ MAX_TURN }
    requires threads { vec_len workers.seats ≤ MAX_THREADS }
    requires no_seat { vec_len workers.back ≡ 0 }
    requires no_handle { vec_len workers.handles ≡ 0 }
    requires room_back { vec_len workers.seats ≤ vec_capacity workers.back }
    requires room_handles { vec_len workers.seats ≤ vec_capacity workers.handles }
    requires untaken { tap.taken ≡ [] }
    ensures written { IsStaged W.contents setup.now writer.entry.sink result.writer.sink
        result.tap.taken result.all_started }
    ensures seats { result.all_started ≡ true
        → map (λ s. s.thread) result.seats.items ≡ map (λ s. s.thread) workers.seats.items }
{
    let Workers {
        seats,
        back,
        handles,
    } = workers;
    let signals = Signals::new();
    let signals = &signals;
    thread::scope(
        thread::scope_env(),
        rt,
        move |scope| -> Staged<'_, W, C, O>
            requires shared { IsSync R.row × IsSync G.row }
            requires some { 0 < turns.calls }
            requires few { turns.calls ≤ MAX_TURN }
            requires threads { vec_len seats ≤ MAX_THREADS }
            requires no_seat { vec_len back ≡ 0 }
            requires no_handle { vec_len handles ≡ 0 }
            requires room_back { vec_len seats ≤ vec_capacity back }
            requires room_handles { vec_len seats ≤ vec_capacity handles }
            requires untaken { tap.taken ≡ [] }
            ensures written { IsStaged W.contents setup.entry.now writer.entry.sink
                result.writer.sink result.tap.taken result.all_started }
            ensures seats { result.all_started ≡ true
                → map (λ s. s.thread) result.seats.items
                ≡ map (λ s. s.thread) seats.items }
        {
            let mut handles = handles;
            let mut writer = writer;
            let mut tap = tap;
            let all_started = start_workers(scope, rt, board, signals, seats, &mut handles, turns);
            let started = handles.len() as u32;
            write_running(
                rt,
                setup,
                &mut writer,
                &mut tap,
                signals,
                started,
                all_started,
            );
            let seats = join_workers(rt, handles, back);
            Staged {
                writer,
                tap,
                seats,
                all_started,
            }
        },
    )
}
