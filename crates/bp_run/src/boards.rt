//! The board: a desk under one lock. The parts of a board. The names of the ledgers and the ring of
//! a board.
ghost use Rattle.std.specs.Prelude.{◌≡◌, ◌≤◌, ◌<◌, [], true, false, None, is_some, IfOk, IfErr, MatchResult};
ghost use Rattle.bp_machine.specs.Setups.{threads, Fits};
ghost use Rattle.bp_machine.specs.declared.limits.TheConstants.{MAX_THREADS};
ghost use Rattle.bp_run.specs.declared.limits.TheConstants.{MAX_TURN, MAX_RING};
ghost use Rattle.bp_run.specs.Desks.{IsNamed, AreNewSeats};
ghost use Rattle.bp_run.specs.Turns.{IsSeatTurn, IsCutSeatTurn};
ghost use Rattle.bp_run.specs.Gatherings.{TellsOfRefusal};

use crate::desks::Desk;
use crate::seats::{Seat, Tap};
use bp_flat::Code;
use bp_machine::{AskError, Call, Reply, Setup};
use rtrb::{Consumer, Producer, RingBuffer};
use std::alloc::{AllocError, Global};
use std::marker::{Brand, Model};
use std::sync::ledger::{Blank, Ledger};
use std::sync::{Mutex, Wait};

/// A monitor: a desk under one mutex, which the workers share.
#[derive(Drop)]
pub struct Board<C: Calls, O: Ledger> {
    pub(crate) desk: Mutex<Desk<C, O>>,
}

impl<C: Calls, O: Ledger> Board<C, O> {
    /// Returns a board whose desk has sent nothing, an open seat for each thread of the setup, in
    /// order, and the tap.
    pub fn open(
        alloc: Global,
        board_parts: BoardParts,
        code: &Code,
        setup: &Setup,
    ) -> Result<(Board<C, O>, Vec<Seat<C, O>>, Tap<C>), AllocError>
        requires named { IsNamed board_parts C.name C.parts O.name O.parts C.ring }
        requires code { code.now ≡ C.code }
        requires setup { setup.now ≡ C.setup }
        requires threads { board_parts.threads ≡ threads setup.now }
        requires fits { Fits code.now.tree setup.now }
        requires seeded { is_some setup.now.seed ≡ true }
        ensures seats { IfOk result (λ r. AreNewSeats (threads setup.now) r.1.items) }
        ensures tap { IfOk result (λ r. (r.2.taken ≡ []) × (r.2.rest ≡ None)) }
    {
        let (desk, seats, tap) = Desk::open(alloc, board_parts, code, setup)?;
        let desk = Mutex::new(desk);
        Ok((Board { desk }, seats, tap))
    }

    /// Takes the lock once, for one turn of the seat's thread at the desk, and may wait for it. A
    /// refusal has a reason in a legal history of the setup.
    pub fn turn<R: Wait>(&self, rt: &R, seat: &mut Seat<C, O>, n: u32) -> Result<Reply, AskError>
        requires some { 0 < n }
        requires few { n ≤ MAX_TURN }
        ensures shut { seat.old.is_open ≡ false
            → (result ≡ Err AskError.Terminated) × (seat.new ≡ seat.old) }
        ensures answer { MatchResult result
            (IsSeatTurn seat.old seat.new n)
            (IsCutSeatTurn seat.old seat.new n) }
        ensures refused { let t = C.code.tree in seat.old.is_open ≡ true
            → IfErr result (TellsOfRefusal t C.setup seat.old.thread) }
    {
        let mut desk = self.desk.lock(rt);
        let answer = desk.turn(seat, n);
        desk.is_legal();
        answer
    }
}

/// The parts from which a board is opened: the two ends of a new ring, and the blanks of two
/// ledgers, one of the attempts that are made and one of the live threads.
#[derive(Drop)]
pub struct BoardParts {
    pub(crate) threads: u32,
    pub(crate) calls: Blank,
    pub(crate) live: Blank,
    pub(crate) to: Producer<Call>,
    pub(crate) from: Consumer<Call>,
}

impl Model for BoardParts {
    ghost use Rattle.bp_run.specs.Desks.{BoardPartsOf, board_parts_of, AreNewBoardParts};

    ghost Value = { BoardPartsOf };

    ghost view = { λ k. board_parts_of k.threads k.calls.name k.live.name k.to };

    ghost invariant = { λ k. AreNewBoardParts k.threads k.calls.parts k.live.parts k.to k.from };
}

impl BoardParts {
    /// Makes parts for `threads` guest threads, with a ring that holds `ring` attempts.
    pub fn new(alloc: Global, threads: u32, ring: u32) -> Result<BoardParts, AllocError>
        requires some { 0 < threads }
        requires few { threads ≤ MAX_THREADS }
        requires room { 0 < ring }
        requires within { ring ≤ MAX_RING }
        ensures threads { IfOk result (λ k. k.threads ≡ threads) }
        ensures free { IfOk result (λ k. k.free ≡ ring) }
    {
        let (to, from) = RingBuffer::new(alloc, ring as usize)?;
        Ok(BoardParts {
            threads,
            calls: Blank::new(u64::from(threads)),
            live: Blank::new(u64::from(threads)),
            to,
            from,
        })
    }
}

/// The ledger of the attempts that were made, with the ring through which they leave, and the code
/// and the setup of the board.
pub trait Calls: Ledger {
    ghost use Rattle.bp_run.specs.Desks.{RingOf};
    ghost use Rattle.bp_flat.specs.Flat.{Flat};
    ghost use Rattle.bp_machine.specs.Setups.{SetupOf};

    ghost ring: { RingOf };

    ghost code: { Flat };

    ghost setup: { SetupOf };
}

impl Calls for Brand {
    ghost use Rattle.bp_run.specs.Desks.{no_ring, no_code, no_setup};

    ghost ring = { no_ring };

    ghost code = { no_code };

    ghost setup = { no_setup };
}
