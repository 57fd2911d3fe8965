//! Gathering a board: the desk, the seats and the tap are joined once all work is done.
//! Whether the seats of a board agree with its machine.
ghost use Rattle.std.specs.Prelude.{◌≡◌, ◌+◌, ◌↔◌, IsTrue, vec_len, vec_capacity, List};
ghost use Rattle.bp_syntax.specs.Ast.{Program};
ghost use Rattle.bp_machine.specs.declared.calls.Call.{Call as Answered};
ghost use Rattle.bp_machine.specs.Sessions.{Stands};
ghost use Rattle.bp_machine.specs.Setups.{threads};
ghost use Rattle.bp_run.specs.Gatherings.{AreOnePerThread, IsGathered, calls_of_seats, open_seats, IsSeatOf, AreSeatsOf};

use crate::boards::{Board, Calls};
use crate::desks::{Desk, stopped_early};
use crate::seats::{Seat, Tap};
use bp_machine::{Report, Session};
use std::sync::ledger::{Book, Ledger, Share};

/// A gathered board: the seats; the tap, which gives the attempts not taken yet; the report of the
/// history; the first thread that is live although its next step is not a call; and whether each
/// seat agrees with the machine on its thread's attempts and on whether it has terminated.
#[derive(Drop)]
pub struct Gathered<C: Calls, O: Ledger> {
    pub seats: Vec<Seat<C, O>>,
    pub tap: Tap<C>,
    pub report: Report,
    pub early: Option<u32>,
    pub agree: bool,
}

/// Some seats, and the shares of others.
#[derive(Drop)]
struct Sums<C: Calls, O: Ledger> {
    seats: Vec<Seat<C, O>>,
    made: Share<C>,
    live: Share<O>,
}

/// Adds the shares of the seats to those of the others, audits the ledgers, and returns to each
/// seat its own share.
fn audited<C: Calls, O: Ledger>(
    sums: Sums<C, O>,
    made: &mut Book<C>,
    live: &mut Book<O>,
) -> Sums<C, O>
    requires made { sums.made.parts ≡ 0 → sums.made.amount ≡ 0 }
    requires live { sums.live.parts ≡ 0 → sums.live.amount ≡ 0 }
    ensures seats { result.seats.items ≡ sums.seats.items }
    ensures room { vec_capacity result.seats ≡ vec_capacity sums.seats }
    ensures made { (result.made.parts ≡ sums.made.parts)
        × (result.made.amount ≡ sums.made.amount) }
    ensures live { (result.live.parts ≡ sums.live.parts)
        × (result.live.amount ≡ sums.live.amount) }
    ensures books { (made.new.total ≡ made.old.total) × (live.new.total ≡ live.old.total) }
    ensures calls { sums.made.parts + vec_len sums.seats ≡ C.parts
        → sums.made.amount + calls_of_seats sums.seats.items ≡ made.old.total }
    ensures left { sums.live.parts + vec_len sums.seats ≡ O.parts
        → sums.live.amount + open_seats sums.seats.items ≡ live.old.total }
{
    let Sums {
        mut seats,
        made: mut all_made,
        live: mut all_live,
    } = sums;
    let Some(seat) = seats.pop() else {
        made.audit(&mut all_made);
        live.audit(&mut all_live);
        return Sums {
            seats,
            made: all_made,
            live: all_live,
        };
    };
    let Seat {
        thread,
        calls,
        is_open,
        made: own_made,
        own_live,
    } = seat;
    all_made.merge(own_made);
    all_live.merge(own_live);
    let others = Sums {
        seats,
        made: all_made,
        live: all_live,
    };
    let Sums {
        mut seats,
        made: mut all_made,
        live: mut all_live,
    } = audited(others, made, live);
    seats.push_reserved(Seat {
        thread,
        calls,
        is_open,
        made: all_made.split_off(1, calls),
        own_live: all_live.split_off(1, u64::from(is_open)),
    });
    Sums {
        seats,
        made: all_made,
        live: all_live,
    }
}

/// Joins a desk, the seats and the tap.
fn joined<C: Calls, O: Ledger>(
    desk: Desk<C, O>,
    mut seats: Vec<Seat<C, O>>,
    tap: Tap<C>,
) -> Gathered<C, O>
    requires { AreOnePerThread (threads C.setup) seats.items }
    ensures seats { result.seats.items ≡ seats.items }
    ensures gathered { let r = result in
        let t = C.code.tree in
        IsGathered t C.setup tap.taken seats.items r.tap r.report r.early r.agree }
{
    let Desk {
        session,
        mut to,
        unsent: _,
        mut made,
        mut live,
    } = desk;
    session.setup().is_in_range();
    let Some(seat) = seats.pop() else {
        unreachable!()
    };
    let Seat {
        thread,
        calls,
        is_open,
        made: own_made,
        own_live,
    } = seat;
    let others = Sums {
        seats,
        made: own_made,
        live: own_live,
    };
    let Sums {
        mut seats,
        made: own_made,
        live: own_live,
    } = audited(others, &mut made, &mut live);
    seats.push_reserved(Seat {
        thread,
        calls,
        is_open,
        made: own_made,
        own_live,
    });
    let agree = agree(&session, seats.as_slice());
    let early = stopped_early(&session);
    let report = session.report();
    let Tap {
        mut from,
        left: _,
        of,
    } = tap;
    let left = Some(from.slots_beside(&mut to));
    let tap = Tap { from, left, of };
    Gathered {
        seats,
        tap,
        report,
        early,
        agree,
    }
}

/// Gathers a board once its workers are done: the attempts taken from the tap are a prefix of the
/// history, and the returned tap has the rest. The seats come back as they were. It allocates
/// nothing and waits for nobody.
pub fn gather<C: Calls, O: Ledger>(
    board: Board<C, O>,
    seats: Vec<Seat<C, O>>,
    tap: Tap<C>,
) -> Gathered<C, O>
    requires { AreOnePerThread (threads C.setup) seats.items }
    ensures seats { result.seats.items ≡ seats.items }
    ensures gathered { let r = result in
        let t = C.code.tree in
        IsGathered t C.setup tap.taken seats.items r.tap r.report r.early r.agree }
{
    let Board { desk } = board;
    let desk = desk.into_inner();
    joined(desk, seats, tap)
}

/// Returns whether a seat has counted its thread's attempts, and is open unless its thread has
/// terminated.
fn agrees<C: Calls, O: Ledger>(session: &Session, seat: &Seat<C, O>) -> bool
    requires { threads session.now.setup ≡ C.parts }
    ensures { (t : Program) (h : List Answered)
        → Stands t session.now h
        → (IsTrue result ↔ IsSeatOf session.now.setup h seat.now) }
{
    seat.calls == u64::from(session.calls_of(seat.thread))
        && seat.is_open != session.is_terminated(seat.thread)
}

/// Returns whether each of the seats does so. The ledgers tie only the sums over all seats to the
/// machine, so this is checked at run time for each seat. No seat whose attempts were all made at
/// the board of the session should differ.
pub(crate) fn agree<C: Calls, O: Ledger>(session: &Session, seats: &[Seat<C, O>]) -> bool
    requires { threads session.now.setup ≡ C.parts }
    ensures { (t : Program) (h : List Answered)
        → Stands t session.now h
        → (IsTrue result ↔ AreSeatsOf session.now.setup h seats.now) }
{
    for seat in seats {
        if !agrees(session, seat) {
            return false;
        }
    }
    true
}
