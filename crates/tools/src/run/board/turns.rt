//! Turns at a board, and its attempts and report once it is gathered.

ghost use Rattle.std.specs.Prelude.{◌≡◌, true, is_some};
ghost use Rattle.bp_machine.specs.Setups.{threads, Fits};
ghost use Rattle.bp_run.specs.Desks.{IsNamed};
ghost use Rattle.bp_run.specs.Gatherings.{AreOnePerThread};

use super::{LOOP, WAIT, board_parts_of, setup_of};
use crate::common::code_of;
use bp_code::Code;
use bp_machine::{AskError, Call, Outcome, Reply, Report, Setup};
use bp_run::limits::MAX_TURN;
use bp_run::{Board, BoardParts, Calls, Seat, Tap, gather};
use std::alloc::Global;
use std::marker::Brand;
use std::rt::Runtime;
use std::sync::Wait;
use std::sync::ledger::Ledger;
use std::test::Fail;

/// The attempts that a turn may make, and its result.
type Turn = (u32, Result<Reply, AskError>);

/// Turns of the only thread of a program, and the result of gathering the board after them.
#[derive(Clone, Copy)]
struct Play {
    text: &'static [u8],
    /// The numbers of contexts and attempts allowed.
    bounds: (u32, u32),
    ring: u32,
    turns: &'static [Turn],
    /// The number of attempts taken before the board is gathered.
    taken: usize,
    /// The bit and the letter of each attempt.
    history: &'static [u8],
    /// The contexts that are used, and the outcome.
    used: (u32, Outcome),
}

/// The loop by the seed 42, in turns of three attempts, of the most, and of one.
const LOOP_BY_TURNS: Play = Play {
    text: LOOP,
    bounds: (1, 10),
    ring: 1024,
    turns: &[
        (3, Ok(Reply::Stepped)),
        (64, Ok(Reply::Ended)),
        (1, Err(AskError::Terminated)),
    ],
    taken: 0,
    history: b"1s1s1s0s1s1s0s1s0e",
    used: (1, Outcome::Clean),
};

/// The loop in one turn.
const WHOLE_LOOP: Play = Play {
    ring: 16,
    turns: &[(64, Ok(Reply::Ended))],
    ..LOOP_BY_TURNS
};

/// Turns at an assumption of 0, up to the last allowed attempt.
const WAITS: Play = Play {
    text: WAIT,
    bounds: (1, 3),
    ring: 8,
    turns: &[
        (64, Ok(Reply::Blocked)),
        (64, Ok(Reply::Blocked)),
        (64, Ok(Reply::Blocked)),
        (64, Err(AskError::Terminated)),
    ],
    taken: 3,
    history: b"1b1b1b",
    used: (0, Outcome::Clean),
};

/// A turn without a context.
const NO_CONTEXT: Play = Play {
    bounds: (0, 10),
    turns: &[(64, Ok(Reply::NoContexts))],
    history: b"1n",
    used: (0, Outcome::Clean),
    ..LOOP_BY_TURNS
};

/// A turn up to an assertion of 0.
const FAILURE: Play = Play {
    text: b"main() begin skip; assert (0); end",
    turns: &[(64, Ok(Reply::Failed))],
    history: b"1s1f",
    used: (1, Outcome::Failed { thread: 0 }),
    ..LOOP_BY_TURNS
};

/// Of the whole loop two attempts or all are taken while the board is open.
const PLAYS: [Play; 6] = [
    LOOP_BY_TURNS,
    Play {
        taken: 2,
        ..WHOLE_LOOP
    },
    Play {
        taken: 9,
        ..WHOLE_LOOP
    },
    WAITS,
    NO_CONTEXT,
    FAILURE,
];

/// Returns whether an attempt of thread 0 has the bit and the letter.
fn is_call(call: Option<Call>, symbol: &[u8]) -> bool {
    match call {
        Some(call) => {
            let made = [b'0' + u8::from(call.bit), call.reply.letter()];
            call.thread == 0 && made.as_slice() == symbol
        }
        None => false,
    }
}

/// Returns whether the tap gives these attempts of thread 0.
fn gives<C: Calls>(tap: &mut Tap<C>, history: &[u8]) -> bool {
    for symbol in history.chunks(2) {
        if !is_call(tap.next(), symbol) {
            return false;
        }
    }
    true
}

/// Returns whether the turns of a seat have these results.
fn turns_are_answered<C: Calls, O: Ledger, R: Wait + Runtime>(
    rt: &R,
    board: &Board<C, O>,
    seat: &mut Seat<C, O>,
    turns: &[Turn],
) -> bool {
    for (most, answer) in turns {
        if *most == 0 || *most > MAX_TURN || board.turn(rt, seat, *most) != *answer {
            return false;
        }
    }
    true
}

/// Returns whether a board is gathered with the report of a whole play, after this number of its
/// attempts were taken; the tap then gives the others.
fn is_gathered<C: Calls, O: Ledger>(
    board: Board<C, O>,
    seats: Vec<Seat<C, O>>,
    mut tap: Tap<C>,
    play: Play,
) -> bool
    requires { AreOnePerThread (threads C.setup) seats.items }
{
    let (taken, left) = play
        .history
        .split_at(play.taken.saturating_mul(2).min(play.history.len()));
    if !gives(&mut tap, taken) {
        return false;
    }
    let mut gathered = gather(board, seats, tap);
    let report = Report {
        outcome: play.used.1,
        calls: (play.history.len() / 2) as u64,
        left_live: 0,
        contexts: play.used.0,
    };
    gathered.report == report && gives(&mut gathered.tap, left) && gathered.tap.next().is_none()
}

/// Returns whether a play comes out at a board of these parts.
fn is_played_at<C: Calls, O: Ledger, R: Wait + Runtime>(
    rt: &R,
    alloc: Global,
    board_parts: BoardParts,
    code: &Code,
    setup: &Setup,
    play: Play,
) -> Result<bool, Fail>
    requires named { IsNamed board_parts C.name C.parts O.name O.parts C.ring }
    requires code { code.now ≡ C.code }
    requires setup { setup.now ≡ C.setup }
    requires threads { board_parts.threads ≡ threads setup.now }
    requires fits { Fits code.now.tree setup.now }
    requires seeded { is_some setup.now.seed ≡ true }
{
    let (board, mut seats, tap) = Board::<C, O>::open(alloc, board_parts, code, setup)?;
    let Some(mut seat) = seats.pop() else {
        return Ok(false);
    };
    let thread = seat.thread();
    let is_answered = turns_are_answered(rt, &board, &mut seat, play.turns) && !seat.is_open();
    if seat.thread() != thread {
        return Ok(false);
    }
    seats.push(seat)?;
    Ok(is_answered && is_gathered(board, seats, tap, play))
}

/// Returns whether a play comes out at a board.
fn is_played<R: Wait + Runtime>(rt: &R, alloc: Global, play: Play) -> Result<bool, Fail> {
    let code = code_of(alloc, play.text)?;
    let setup = setup_of(alloc, &code, 1, play.bounds.0, play.bounds.1)?;
    let board_parts = board_parts_of(alloc, &setup, play.ring)?;
    is_played_at::<Brand, Brand, R>(rt, alloc, board_parts, &code, &setup, play)
}

#[test]
fn boards_are_gathered_whole(rt: HostRuntime) -> Result<(), Fail> {
    for play in PLAYS {
        assert!(rt; is_played(&rt, rt.alloc(), play)?, "{} taken", play.taken);
    }
    Ok(())
}
