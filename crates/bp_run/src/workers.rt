//! Workers: each makes the attempts of one guest thread.
ghost use Rattle.std.specs.Prelude.{◌≡◌, ◌≤◌, ◌<◌, false, true, IfErr, OnOk, OnErr};
ghost use Rattle.bp_run.specs.declared.limits.TheConstants.{MAX_TURN};
ghost use Rattle.bp_run.specs.Works.{TellsOfStop};

use crate::boards::{Board, Calls};
use crate::gates::Gate;
use crate::seats::Seat;
use crate::signals::{Idle, Signals};
use bp_machine::AskError;
use std::sync::Wait;
use std::sync::ledger::Ledger;
use std::time::Clock;

/// Why a worker stopped early, though its seat is open. The attempts made are kept.
#[derive(Clone, Copy, Debug, PartialEq, Eq)]
pub enum Unfinished {
    /// Memory was refused, before a call of a procedure.
    Memory,
    /// Its thread had terminated already.
    Terminated,
    /// It was told to stop.
    Halted,
}

/// Takes turns of at most `turn` attempts from this seat, until its thread has terminated, and
/// tells the gate. If the ring is full it waits for room, and takes a turn again. Stops if memory
/// is refused, if the thread had terminated already though the seat is open, or if the signals tell
/// it to.
pub fn work<C: Calls, O: Ledger, G: Gate, R: Wait + Clock>(
    rt: &R,
    board: &Board<C, O>,
    seat: &mut Seat<C, O>,
    turn: u32,
    gate: &G,
    signals: &Signals,
) -> Result<(), Unfinished>
    requires some { 0 < turn }
    requires few { turn ≤ MAX_TURN }
    ensures ok { OnOk result (seat.new.is_open ≡ false) }
    ensures refused { OnErr result (seat.new.is_open ≡ true) }
    ensures stopped { IfErr result (TellsOfStop C.code.tree C.setup seat.old.thread) }
    ensures thread { seat.new.thread ≡ seat.old.thread }
    ensures calls { seat.old.calls ≤ seat.new.calls }
{
    let mut idle = Idle::new(&signals.room, 0);
    let mut done = Ok(());
    for _ in rt.forever() {
        if !seat.is_open() {
            break;
        }
        if signals.is_halted() {
            done = Err(Unfinished::Halted);
            break;
        }
        gate.before(rt, seat.thread(), seat.calls());
        match board.turn(rt, seat, turn) {
            Ok(reply) => {
                signals.calls.ring(1);
                idle = Idle::new(&signals.room, 0);
                gate.after(seat.thread(), reply);
            }
            Err(AskError::Busy) => {
                signals.calls.ring_loudly();
                idle.rest(rt);
            }
            Err(AskError::Memory) => {
                done = Err(Unfinished::Memory);
                break;
            }
            Err(_) => {
                done = Err(Unfinished::Terminated);
                break;
            }
        }
    }
    gate.finished(seat.thread());
    done
}

/// Does all the work of a worker's seat, and then counts the worker as ended. Whether it stopped
/// too early is seen from the gathered board.
pub(crate) fn worker<C: Calls, O: Ledger, G: Gate, R: Wait + Clock>(
    rt: &R,
    board: &Board<C, O>,
    signals: &Signals,
    mut seat: Seat<C, O>,
    turn: u32,
    gate: &G,
) -> Seat<C, O>
    requires some { 0 < turn }
    requires few { turn ≤ MAX_TURN }
    ensures { result.thread ≡ seat.thread }
{
    let _done = work(rt, board, &mut seat, turn, gate, signals);
    signals.note_end();
    seat
}
