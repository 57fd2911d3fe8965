//! Rounds: a new session, desk or board of one guest thread, and its asks.
ghost use Rattle.std.specs.Prelude.{◌≡◌, true, is_some, IfOk};
ghost use Rattle.bp_machine.specs.Setups.{threads, Fits};
ghost use Rattle.bp_run.specs.Desks.{IsNamed};

use crate::cases::{Case, RING, unexpected};
use bp_code::{Code, code_of};
use bp_machine::{Reply, Session, Setup};
use bp_run::limits::MAX_TURN;
use bp_run::{Board, BoardParts, Calls, Desk, Seat, Tap};
use std::alloc::Global;
use std::io;
use std::marker::Brand;
use std::sync::Wait;
use std::sync::ledger::Ledger;
use std::time::{Clock, Instant};

/// A thread that steps as often as it is asked.
const PROGRAM: &[u8] = b"main() begin while (1) do skip; od end";

/// The number of attempts that a thread may make.
const CALLS: u32 = 100_000;

/// The number of times that a round fills the ring.
const FILLS: u32 = CALLS / RING;

/// Returns the setup of the thread.
fn setup(alloc: Global, code: &Code) -> io::Result<Setup>
    ensures { IfOk result (λ s. Fits code.now.tree s × (is_some s.seed ≡ true)) }
{
    let entries = vec![in alloc; String::from_str(alloc, "main")?]?;
    match Setup::new(alloc, code, &entries, &[], 1_000, CALLS, Some(42)) {
        Ok(setup) => Ok(setup),
        Err(_) => Err(unexpected()),
    }
}

/// Makes the asks without a ring, and returns whether each ask of a session was a step.
fn fills_session(session: &mut Session) -> bool {
    for _ in 0..RING {
        match session.ask(0) {
            Ok(call) if call.reply == Reply::Stepped => {}
            _ => return false,
        }
    }
    true
}

/// Fills the ring by single attempts, and returns whether each was a step.
fn fills_desk<C: Calls, O: Ledger>(desk: &mut Desk<C, O>, seat: &mut Seat<C, O>) -> bool {
    for _ in 0..RING {
        if desk.ask(seat) != Ok(Reply::Stepped) {
            return false;
        }
    }
    true
}

/// Fills the ring by turns of the most attempts, and returns whether the last of each was a step.
fn fills_board<C: Calls, O: Ledger, R: Wait>(
    rt: &R,
    board: &Board<C, O>,
    seat: &mut Seat<C, O>,
) -> bool {
    for _ in 0..RING / MAX_TURN {
        if board.turn(rt, seat, MAX_TURN) != Ok(Reply::Stepped) {
            return false;
        }
    }
    true
}

fn ask_session<R: Clock>(rt: &R, session: &mut Session, case: &mut Case) -> io::Result<()> {
    for _ in 0..FILLS {
        let start = Instant::now(rt)?;
        let are_steps = fills_session(session);
        case.asked(rt, start, are_steps)?;
    }
    Ok(())
}

fn ask_desk<C: Calls, O: Ledger, R: Clock>(
    rt: &R,
    desk: &mut Desk<C, O>,
    seat: &mut Seat<C, O>,
    tap: &mut Tap<C>,
    case: &mut Case,
) -> io::Result<()> {
    for _ in 0..FILLS {
        let start = Instant::now(rt)?;
        let are_steps = fills_desk(desk, seat);
        let full = case.asked(rt, start, are_steps)?;
        case.took(rt, full, tap)?;
    }
    Ok(())
}

fn ask_board<C: Calls, O: Ledger, R: Wait + Clock>(
    rt: &R,
    board: &Board<C, O>,
    seat: &mut Seat<C, O>,
    tap: &mut Tap<C>,
    case: &mut Case,
) -> io::Result<()> {
    for _ in 0..FILLS {
        let start = Instant::now(rt)?;
        let are_steps = fills_board(rt, board, seat);
        let full = case.asked(rt, start, are_steps)?;
        case.took(rt, full, tap)?;
    }
    Ok(())
}

/// Makes a round at a desk of these parts, or at a board.
fn round_at<C: Calls, O: Ledger, R: Wait + Clock>(
    rt: &R,
    alloc: Global,
    board_parts: BoardParts,
    code: &Code,
    setup: &Setup,
    is_board: bool,
    case: &mut Case,
) -> io::Result<()>
    requires named { IsNamed board_parts C.name C.parts O.name O.parts C.ring }
    requires code { code.now ≡ C.code }
    requires setup { setup.now ≡ C.setup }
    requires threads { board_parts.threads ≡ threads setup.now }
    requires fits { Fits code.now.tree setup.now }
    requires seeded { is_some setup.now.seed ≡ true }
{
    if is_board {
        let (board, mut seats, mut tap) = Board::<C, O>::open(alloc, board_parts, code, setup)?;
        return match seats.get_mut(0) {
            Some(seat) => ask_board(rt, &board, seat, &mut tap, case),
            None => Err(unexpected()),
        };
    }
    let (mut desk, mut seats, mut tap) = Desk::<C, O>::open(alloc, board_parts, code, setup)?;
    match seats.get_mut(0) {
        Some(seat) => ask_desk(rt, &mut desk, seat, &mut tap, case),
        None => Err(unexpected()),
    }
}

/// Makes a round at a desk or a board.
fn round<R: Wait + Clock>(
    rt: &R,
    alloc: Global,
    code: &Code,
    setup: &Setup,
    is_board: bool,
    case: &mut Case,
) -> io::Result<()>
    requires fits { Fits code.now.tree setup.now }
    requires seeded { is_some setup.now.seed ≡ true }
{
    setup.is_in_range();
    let board_parts = BoardParts::new(alloc, setup.threads(), RING)?;
    round_at::<Brand, Brand, R>(rt, alloc, board_parts, code, setup, is_board, case)
}

/// Makes `rounds` rounds of all cases. Each round has all cases, so that a busy moment of the
/// machine spoils a round of each, and not all rounds of one.
pub fn measure<R: Wait + Clock>(
    rt: &R,
    alloc: Global,
    rounds: u32,
    session: &mut Case,
    desk: &mut Case,
    board: &mut Case,
) -> io::Result<()> {
    let Ok(code) = code_of(alloc, PROGRAM) else {
        return Err(unexpected());
    };
    let setup = setup(alloc, &code)?;
    for _ in 0..rounds {
        ask_session(rt, &mut Session::new(alloc, &code, &setup)?, session)?;
        round(rt, alloc, &code, &setup, false, desk)?;
        round(rt, alloc, &code, &setup, true, board)?;
    }
    Ok(())
}
