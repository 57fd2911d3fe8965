//! Desks by hand: turns and single attempts. A board's turn is a desk's, under its lock.

ghost use Rattle.std.specs.Prelude.{◌≡◌, true, is_some};
ghost use Rattle.bp_machine.specs.Setups.{threads, Fits};
ghost use Rattle.bp_run.specs.Desks.{IsNamed};

use super::{LOOP, WAIT, board_parts_of, setup_of};
use crate::common::code_of;
use bp_code::Code;
use bp_machine::{AskError, Call, Reply, Setup};
use bp_run::limits::MAX_TURN;
use bp_run::{BoardParts, Calls, Desk, Seat, Tap};
use std::alloc::Global;
use std::marker::Brand;
use std::sync::ledger::Ledger;
use std::test::Fail;

/// The request of a seat.
#[derive(Clone, Copy)]
enum Ask {
    /// For one attempt.
    Call,
    /// For a turn of three attempts.
    Three,
    /// For the longest turn.
    Most,
}

/// An action, and its expected result.
#[derive(Clone, Copy)]
enum Act {
    /// The seat asks: the result, and its number of attempts.
    Ask(Ask, Result<Reply, AskError>, u64),
    /// A look at the tap: the attempt that it gives.
    Take(Option<Call>),
}

/// Each of the first three attempts of the loop.
const FIRST: Option<Call> = Some(Call {
    thread: 0,
    bit: true,
    reply: Reply::Stepped,
});

/// Turns up to the end of the loop.
const TURNS: [Act; 3] = [
    Act::Ask(Ask::Three, Ok(Reply::Stepped), 3),
    Act::Ask(Ask::Most, Ok(Reply::Ended), 9),
    Act::Ask(Ask::Three, Err(AskError::Terminated), 9),
];

/// Single attempts, if four are allowed.
const CALLS: [Act; 6] = [
    Act::Ask(Ask::Call, Ok(Reply::Stepped), 1),
    Act::Ask(Ask::Call, Ok(Reply::Stepped), 2),
    Act::Ask(Ask::Call, Ok(Reply::Stepped), 3),
    Act::Ask(Ask::Call, Ok(Reply::Stepped), 4),
    Act::Ask(Ask::Call, Err(AskError::Terminated), 4),
    Act::Take(FIRST),
];

/// Turns and attempts, if the ring has four places.
const BUSY: [Act; 7] = [
    Act::Ask(Ask::Most, Err(AskError::Busy), 4),
    Act::Ask(Ask::Call, Err(AskError::Busy), 4),
    Act::Take(FIRST),
    Act::Ask(Ask::Call, Ok(Reply::Stepped), 5),
    Act::Take(FIRST),
    Act::Ask(Ask::Three, Err(AskError::Busy), 6),
    Act::Take(FIRST),
];

/// A turn if two attempts are allowed, and looks at the tap until it is empty.
const FEW: [Act; 5] = [
    Act::Ask(Ask::Most, Ok(Reply::Stepped), 2),
    Act::Ask(Ask::Three, Err(AskError::Terminated), 2),
    Act::Take(FIRST),
    Act::Take(FIRST),
    Act::Take(None),
];

/// Turns at an assumption of 0, if three attempts are allowed.
const WAITS: [Act; 4] = [
    Act::Ask(Ask::Most, Ok(Reply::Blocked), 1),
    Act::Ask(Ask::Most, Ok(Reply::Blocked), 2),
    Act::Ask(Ask::Most, Ok(Reply::Blocked), 3),
    Act::Ask(Ask::Most, Err(AskError::Terminated), 3),
];

/// Returns the result of the desk.
fn turn<C: Calls, O: Ledger>(
    desk: &mut Desk<C, O>,
    seat: &mut Seat<C, O>,
    ask: Ask,
) -> Result<Reply, AskError> {
    match ask {
        Ask::Call => desk.ask(seat),
        Ask::Three => desk.turn(seat, 3),
        Ask::Most => desk.turn(seat, MAX_TURN),
    }
}

/// Returns whether the acts have their expected results.
fn is_seen<C: Calls, O: Ledger>(
    desk: &mut Desk<C, O>,
    seat: &mut Seat<C, O>,
    tap: &mut Tap<C>,
    acts: &[Act],
) -> bool {
    for act in acts {
        let is_so = match *act {
            Act::Ask(ask, answer, calls) => turn(desk, seat, ask) == answer
                && seat.calls() == calls,
            Act::Take(call) => tap.next() == call,
        };
        if !is_so {
            return false;
        }
    }
    true
}

/// Returns whether they do at a desk of these parts.
fn is_seen_at<C: Calls, O: Ledger>(
    alloc: Global,
    board_parts: BoardParts,
    code: &Code,
    setup: &Setup,
    acts: &[Act],
) -> Result<bool, Fail>
    requires named { IsNamed board_parts C.name C.parts O.name O.parts C.ring }
    requires code { code.now ≡ C.code }
    requires setup { setup.now ≡ C.setup }
    requires threads { board_parts.threads ≡ threads setup.now }
    requires fits { Fits code.now.tree setup.now }
    requires seeded { is_some setup.now.seed ≡ true }
{
    let (mut desk, mut seats, mut tap) = Desk::<C, O>::open(alloc, board_parts, code, setup)?;
    match seats.get_mut(0) {
        Some(seat) => Ok(is_seen(&mut desk, seat, &mut tap, acts)),
        None => Ok(false),
    }
}

/// Returns whether they do at a desk of one thread of a program, within this number of attempts.
fn plays(alloc: Global, text: &[u8], calls: u32, ring: u32, acts: &[Act]) -> Result<bool, Fail> {
    let code = code_of(alloc, text)?;
    let setup = setup_of(alloc, &code, 1, 1, calls)?;
    let board_parts = board_parts_of(alloc, &setup, ring)?;
    is_seen_at::<Brand, Brand>(alloc, board_parts, &code, &setup, acts)
}

#[test]
fn answers_turns_and_calls(rt: HostRuntime) -> Result<(), Fail> {
    assert!(rt; plays(rt.alloc(), LOOP, 10, 1024, &TURNS)?);
    assert!(rt; plays(rt.alloc(), LOOP, 4, 1024, &CALLS)?);
    Ok(())
}

#[test]
fn blocked_calls_end_turns(rt: HostRuntime) -> Result<(), Fail> {
    assert!(rt; plays(rt.alloc(), WAIT, 3, 8, &WAITS)?);
    Ok(())
}

#[test]
fn is_busy_where_the_ring_is_full(rt: HostRuntime) -> Result<(), Fail> {
    assert!(rt; plays(rt.alloc(), LOOP, 10, 4, &BUSY)?);
    Ok(())
}

#[test]
fn stops_where_no_call_is_left(rt: HostRuntime) -> Result<(), Fail> {
    assert!(rt; plays(rt.alloc(), LOOP, 2, 1024, &FEW)?);
    Ok(())
}
