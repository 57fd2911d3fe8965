//! Desks and boards: the attempts before a refusal are kept, and the thread continues after it.
ghost use Rattle.std.specs.Prelude.{◌≡◌, true, is_some, IfOk};
ghost use Rattle.bp_machine.specs.Setups.{threads, Fits};
ghost use Rattle.bp_run.specs.Desks.{IsNamed};
ghost use Rattle.bp_run.specs.Gatherings.{AreOnePerThread};

use crate::common::code_of;
use crate::ready::{begin, calls, setup, tell, wants};
use bp_code::Code;
use bp_machine::{AskError, Session, Setup};
use bp_run::{Board, BoardParts, Calls, Desk, Open, Seat, Signals, Tap, Unfinished, gather, work};
use std::alloc::{AllocError, Global};
use std::marker::Brand;
use std::rt::Runtime;
use std::sync::Wait;
use std::sync::ledger::Ledger;
use std::test::Fail;

/// The kind of the attempts of a thread.
#[derive(Clone, Copy, PartialEq, Eq)]
pub(crate) enum Way {
    /// Single attempts at a desk.
    Asks,
    /// Turns of three attempts at a desk.
    DeskTurns,
    /// Turns of three attempts at a board.
    BoardTurns,
    /// The work of a worker at a board.
    Work,
    /// The work of a worker with no memory left.
    Starved,
    /// None: a board is gathered after a turn.
    Gathered,
}

#[test]
fn make_board_parts(rt: HostRuntime) -> Result<(), Fail> {
    begin(&rt)?;
    let is_refused = BoardParts::new(rt.alloc(), 3, 64).is_err();
    tell(&rt, is_refused)?;
    wants(!is_refused || BoardParts::new(rt.alloc(), 3, 64).is_ok())
}

/// Returns whether a tap gives the first attempts of thread 0 of a session, and nothing more.
fn gives_calls_of<C: Calls>(tap: &mut Tap<C>, session: &mut Session) -> bool {
    for _ in 0..20 {
        let call = session.ask(0).ok();
        if call.is_none() || tap.next() != call {
            return false;
        }
    }
    tap.next().is_none()
}

/// Makes the attempts of a seat at a desk, and returns whether one was refused.
fn play_at_desk<C: Calls, O: Ledger>(
    desk: &mut Desk<C, O>,
    seat: &mut Seat<C, O>,
    way: Way,
) -> bool {
    let mut was_refused = false;
    for _ in 0..22 {
        let answer = match way {
            Way::Asks => desk.ask(seat),
            _ => desk.turn(seat, 3),
        };
        was_refused = was_refused || answer == Err(AskError::Memory);
    }
    was_refused
}

/// Makes a turn or does the work of a seat at a board, and returns whether it was refused memory.
fn is_refused<C: Calls, O: Ledger, R: Wait + Runtime>(
    rt: &R,
    board: &Board<C, O>,
    seat: &mut Seat<C, O>,
    way: Way,
) -> bool {
    match way {
        Way::BoardTurns => board.turn(rt, seat, 3) == Err(AskError::Memory),
        _ => work(rt, board, seat, 3, &Open, &Signals::new()) == Err(Unfinished::Memory),
    }
}

/// Makes the attempts of a seat at a board, once more if that is refused. The tap gives all of
/// them; with no memory left the seat is open.
fn plays<C: Calls, O: Ledger, R: Wait + Runtime>(
    rt: &R,
    board: &Board<C, O>,
    seat: &mut Seat<C, O>,
    tap: &mut Tap<C>,
    way: Way,
    session: &mut Session,
) -> Result<(), Fail> {
    begin(rt)?;
    let mut was_refused = false;
    for _ in 0..22 {
        was_refused = is_refused(rt, board, seat, way) || was_refused;
    }
    tell(rt, was_refused)?;
    if way == Way::Starved {
        return wants(seat.is_open() == was_refused);
    }
    wants(gives_calls_of(tap, session))
}

/// Makes a turn of two attempts of thread 1 of two, takes one of them, gathers the board, and takes
/// the other one.
fn gathers<C: Calls, O: Ledger, R: Wait + Runtime>(
    rt: &R,
    board: Board<C, O>,
    mut seats: Vec<Seat<C, O>>,
    mut tap: Tap<C>,
) -> Result<(), Fail>
    requires { AreOnePerThread (threads C.setup) seats.items }
{
    let Some(mut seat) = seats.pop() else {
        return Err(Fail::from("no seat"));
    };
    board.turn(rt, &mut seat, 2)?;
    let was_turned = seat.thread() == 1 && seat.calls() == 2 && seat.is_open();
    seats.push(seat)?;
    begin(rt)?;
    let first = tap.next();
    let mut gathered = gather(board, seats, tap);
    wants(was_turned && gathered.agree)?;
    let taken = (first, gathered.tap.next(), gathered.tap.next());
    wants(gathered.report.calls == 2 && gathered.report.left_live == 2)?;
    wants(matches!(taken, (Some(first), Some(_), None) if first.thread == 1))
}

/// Makes the attempts of thread 0 at a board of these parts, which have to be those of the session,
/// or gathers the board.
fn at_a_board<C: Calls, O: Ledger, R: Wait + Runtime>(
    rt: &R,
    alloc: Global,
    board_parts: BoardParts,
    code: &Code,
    setup: &Setup,
    way: Way,
    session: &mut Session,
) -> Result<(), Fail>
    requires named { IsNamed board_parts C.name C.parts O.name O.parts C.ring }
    requires code { code.now ≡ C.code }
    requires setup { setup.now ≡ C.setup }
    requires threads { board_parts.threads ≡ threads setup.now }
    requires fits { Fits code.now.tree setup.now }
    requires seeded { is_some setup.now.seed ≡ true }
{
    let (board, mut seats, mut tap) = Board::<C, O>::open(alloc, board_parts, code, setup)?;
    if way == Way::Gathered {
        return gathers(rt, board, seats, tap);
    }
    match seats.get_mut(0) {
        Some(seat) => plays(rt, &board, seat, &mut tap, way, session),
        None => Err(Fail::from("no seat")),
    }
}

/// Makes the attempts of thread 0 at a desk of these parts, which have to be those of the session.
/// The desk itself may be refused.
fn at_a_desk<C: Calls, O: Ledger, R: Runtime>(
    rt: &R,
    alloc: Global,
    board_parts: BoardParts,
    code: &Code,
    setup: &Setup,
    way: Way,
    session: &mut Session,
) -> Result<(), Fail>
    requires named { IsNamed board_parts C.name C.parts O.name O.parts C.ring }
    requires code { code.now ≡ C.code }
    requires setup { setup.now ≡ C.setup }
    requires threads { board_parts.threads ≡ threads setup.now }
    requires fits { Fits code.now.tree setup.now }
    requires seeded { is_some setup.now.seed ≡ true }
{
    begin(rt)?;
    let Ok((mut desk, mut seats, mut tap)) = Desk::<C, O>::open(alloc, board_parts, code, setup)
    else {
        return Ok(tell(rt, true)?);
    };
    let Some(seat) = seats.get_mut(0) else {
        return Err(Fail::from("no seat"));
    };
    let was_refused = play_at_desk(&mut desk, seat, way);
    tell(rt, was_refused)?;
    wants(gives_calls_of(&mut tap, session))
}

/// Returns whether a board of these parts is opened.
fn is_opened<C: Calls, O: Ledger>(
    alloc: Global,
    board_parts: BoardParts,
    code: &Code,
    setup: &Setup,
) -> bool
    requires named { IsNamed board_parts C.name C.parts O.name O.parts C.ring }
    requires code { code.now ≡ C.code }
    requires setup { setup.now ≡ C.setup }
    requires threads { board_parts.threads ≡ threads setup.now }
    requires fits { Fits code.now.tree setup.now }
    requires seeded { is_some setup.now.seed ≡ true }
{
    Board::<C, O>::open(alloc, board_parts, code, setup).is_ok()
}

/// Returns whether one is opened under names of its own.
fn opens(alloc: Global, board_parts: BoardParts, code: &Code, setup: &Setup) -> bool
    requires threads { board_parts.threads ≡ threads setup.now }
    requires fits { Fits code.now.tree setup.now }
    requires seeded { is_some setup.now.seed ≡ true }
{
    is_opened::<Brand, Brand>(alloc, board_parts, code, setup)
}

/// Returns parts for the threads of the setup.
fn board_parts(alloc: Global, setup: &Setup) -> Result<BoardParts, AllocError>
    ensures { IfOk result (λ k. k.threads ≡ threads setup.now) }
{
    setup.is_in_range();
    BoardParts::new(alloc, setup.threads(), 64)
}

/// Makes the attempts at a desk or a board of the program that calls itself.
pub(crate) fn makes_calls<R: Wait + Runtime>(rt: &R, alloc: Global, way: Way) -> Result<(), Fail> {
    let code = code_of(alloc, calls())?;
    let threads = if way == Way::Gathered { 2 } else { 1 };
    let setup = setup(alloc, &code, threads, Some(42))?;
    let mut session = Session::new(alloc, &code, &setup)?;
    let board_parts = board_parts(alloc, &setup)?;
    match way {
        Way::Asks | Way::DeskTurns => {
            at_a_desk::<Brand, Brand, R>(rt, alloc, board_parts, &code, &setup, way, &mut session)
        }
        _ => at_a_board::<Brand, Brand, R>(
            rt,
            alloc,
            board_parts,
            &code,
            &setup,
            way,
            &mut session,
        ),
    }
}

#[test]
fn open_a_board(rt: HostRuntime) -> Result<(), Fail> {
    let alloc = rt.alloc();
    let code = code_of(alloc, calls())?;
    let setup = setup(alloc, &code, 2, Some(42))?;
    let (first, second) = (board_parts(alloc, &setup)?, board_parts(alloc, &setup)?);
    begin(&rt)?;
    let is_refused = !opens(alloc, first, &code, &setup);
    tell(&rt, is_refused)?;
    wants(!is_refused || opens(alloc, second, &code, &setup))
}

#[test]
fn ask_at_a_desk(rt: HostRuntime) -> Result<(), Fail> {
    makes_calls(&rt, rt.alloc(), Way::Asks)
}

#[test]
fn turn_at_a_desk(rt: HostRuntime) -> Result<(), Fail> {
    makes_calls(&rt, rt.alloc(), Way::DeskTurns)
}

#[test]
fn turn_at_a_board(rt: HostRuntime) -> Result<(), Fail> {
    makes_calls(&rt, rt.alloc(), Way::BoardTurns)
}

#[test]
fn work_at_a_board(rt: HostRuntime) -> Result<(), Fail> {
    makes_calls(&rt, rt.alloc(), Way::Work)
}
