//! The desk: the machine, and the end of the ring to which its history is sent. An attempt is made
//! and sent, or neither. Whether a session has stopped: its live threads are before calls.
ghost use Rattle.std.specs.Prelude.{◌≡◌, ◌≤◌, ◌<◌, ◌↔◌, [], true, None, is_some, IfOk, OnErr, MatchResult, ◌+◌, ◌∷◌, ◌++◌, ℕ, List, false, vec_len, vec_capacity};
ghost use Rattle.rtrb.specs.Ring.{sent, known_free, SameProducer};
ghost use Rattle.bp_machine.specs.Setups.{threads, Fits};
ghost use Rattle.bp_machine.specs.Histories.{is_terminated};
ghost use Rattle.bp_machine.specs.declared.calls.Call.{Call as Answered};
ghost use Rattle.bp_machine.specs.Sessions.{Stands, IsNextCall, AfterEach};
ghost use Rattle.bp_run.specs.declared.limits.TheConstants.{MAX_TURN};
ghost use Rattle.bp_run.specs.Turns.{AreMade, AreCut, IsAsked, IsShut, IsDeskRefusal, IsUnchanged, IsTurn, IsCutTurn, IsSendRefusal};
ghost use Rattle.bp_run.specs.Desks.{IsInBooks, IsLegalDesk, IsNewDesk, IsNamed, AreNewSeats};
ghost use Rattle.bp_run.specs.Gatherings.{is_at_call, TellsEarly};

use crate::boards::{BoardParts, Calls};
use crate::limits::MAX_TURN;
use crate::seats::{Seat, Tap, new_seats};
use bp_flat::{Code, Kind};
use bp_machine::{AskError, Call, Reply, Session, Setup};
use rtrb::Producer;
use std::alloc::{AllocError, Global};
use std::marker::Model;
use std::sync::ledger::{Book, Ledger};

/// The state that the lock of a board protects: a session, and the sending end of the ring, to
/// which each attempt goes in the order in which the attempts are made. While nobody is at work on
/// it, the attempts sent are a legal history of its program and setup, with the bits of the setup's
/// seed, and its session stands after it.
#[derive(Drop)]
pub struct Desk<C: Calls, O: Ledger> {
    pub(crate) session: Session,
    pub(crate) to: Producer<Call>,
    /// Room for the attempts of a turn, which are sent together. It is empty between turns.
    pub(crate) unsent: Vec<Call>,
    pub(crate) made: Book<C>,
    pub(crate) live: Book<O>,
}

impl<C: Calls, O: Ledger> Model for Desk<C, O> {
    ghost use Rattle.std.specs.Prelude.{◌≡◌, ◌≤◌, [], vec_capacity};
    ghost use Rattle.rtrb.specs.Ring.{sent, known_free};
    ghost use Rattle.bp_machine.specs.Setups.{threads};
    ghost use Rattle.bp_run.specs.declared.limits.TheConstants.{MAX_TURN};
    ghost use Rattle.bp_run.specs.Desks.{DeskOf, desk_of, IsInBooks, producer_ring, coded_desk};

    ghost Value = { DeskOf };

    ghost coded = { coded_desk };

    ghost view = { λ d. desk_of d.session (sent d.to) (known_free d.to) };

    ghost invariant = { λ d.
        IsInBooks d.session (sent d.to) d.made.total d.live.total
        × (producer_ring d.to ≡ C.ring)
        × (threads d.session.setup ≡ C.parts)
        × (threads d.session.setup ≡ O.parts)
        × (d.session.code ≡ C.code)
        × (d.session.setup ≡ C.setup)
        × (d.unsent.items ≡ [])
        × (MAX_TURN ≤ vec_capacity d.unsent) };
}

impl<C: Calls, O: Ledger> Desk<C, O> {
    /// Returns a desk that has sent nothing, an open seat for each thread of the setup, in order,
    /// and the tap.
    pub fn open(
        alloc: Global,
        board_parts: BoardParts,
        code: &Code,
        setup: &Setup,
    ) -> Result<(Desk<C, O>, Vec<Seat<C, O>>, Tap<C>), AllocError>
        requires named { IsNamed board_parts C.name C.parts O.name O.parts C.ring }
        requires code { code.now ≡ C.code }
        requires setup { setup.now ≡ C.setup }
        requires threads { board_parts.threads ≡ threads setup.now }
        requires fits { Fits code.now.tree setup.now }
        requires seeded { is_some setup.now.seed ≡ true }
        ensures desk { IfOk result (λ r. IsNewDesk code.now setup.now board_parts.free r.0) }
        ensures seats { IfOk result (λ r. AreNewSeats (threads setup.now) r.1.items) }
        ensures tap { IfOk result (λ r. (r.2.taken ≡ []) × (r.2.rest ≡ None)) }
    {
        setup.is_in_range();
        let session = Session::new(alloc, code, setup)?;
        let BoardParts {
            threads,
            calls,
            live,
            to,
            from,
        } = board_parts;
        let (made, all_made) = calls.open::<C>();
        let (mut live, mut all_live) = live.open::<O>();
        live.add(&mut all_live, u64::from(threads));
        let seats = new_seats(alloc, threads, all_made, all_live)?;
        let unsent = Vec::with_capacity(alloc, MAX_TURN as usize)?;
        let desk = Desk {
            session,
            to,
            unsent,
            made,
            live,
        };
        Ok((desk, seats, Tap::new(from)))
    }

    /// Proves that the desk's history is at each moment a legal one of its board's code and setup,
    /// with the seed's bits.
    pub fn is_legal(&self)
        ensures legal { IsLegalDesk self.now }
        ensures own { (self.now.code ≡ C.code) × (self.now.setup ≡ C.setup) }
    {
        let _ = &self.session;
    }

    /// Makes one attempt of the seat's thread, and sends it. At a refusal nothing is changed, and
    /// no choice bit is used. It is refused if the thread has terminated, if the ring is full,
    /// which it is not while a place is known to be free, or if memory is refused.
    pub fn ask(&mut self, seat: &mut Seat<C, O>) -> Result<Reply, AskError>
        ensures answer { MatchResult result
            (IsAsked self.old self.new seat.old seat.new)
            (IsDeskRefusal self.new seat.new) }
        ensures terminated { (result ≡ Err AskError.Terminated) ↔ IsShut self.old seat.old }
        ensures same { OnErr result (IsUnchanged self.old self.new × (seat.new ≡ seat.old)) }
        ensures kept { (self.new.code ≡ self.old.code) × (self.new.setup ≡ self.old.setup) }
    {
        self.session.setup().is_in_range();
        if !seat.is_open {
            return Err(AskError::Terminated);
        }
        let call = send(&mut self.session, &mut self.to, seat.thread)?;
        self.made.add(&mut seat.made, 1);
        self.made.audit(&mut seat.made);
        seat.calls += 1;
        if self.session.is_terminated(seat.thread) {
            self.live.sub(&mut seat.own_live, 1);
            seat.is_open = false;
        }
        Ok(call.reply)
    }

    /// Begins a turn: makes as many of its attempts as there are places known to be free, and sends
    /// them together. Returns the last reply, and how many attempts were made.
    fn begin(&mut self, seat: &mut Seat<C, O>, n: u32) -> Result<(Reply, u32), AskError>
        requires some { 0 < n }
        requires few { n ≤ MAX_TURN }
        ensures answer { MatchResult result
            (λ r. IsTurn self.old self.new seat.old seat.new r.1 r.0)
            (IsCutTurn self.old self.new seat.old seat.new n) }
        ensures count { IfOk result (λ r.
            (r.1 ≤ n) × (seat.new.calls ≡ seat.old.calls + r.1)) }
        ensures terminated { (result ≡ Err AskError.Terminated) ↔ IsShut self.old seat.old }
        ensures kept { (self.new.code ≡ self.old.code) × (self.new.setup ≡ self.old.setup) }
    {
        if n == 1 {
            return Ok((self.ask(seat)?, 1));
        }
        self.session.setup().is_in_range();
        if !seat.is_open || self.session.is_terminated(seat.thread) {
            return Err(AskError::Terminated);
        }
        let free = self.to.slots();
        if free == 0 {
            return Err(AskError::Busy);
        }
        let most = free.min(n as usize);
        let answer = make(&mut self.session, &mut self.unsent, seat.thread, most);
        let _sent = self.to.push_entire_slice(self.unsent.as_slice());
        let made = self.unsent.len() as u32;
        self.unsent.clear();
        self.made.add(&mut seat.made, u64::from(made));
        self.made.audit(&mut seat.made);
        seat.calls += u64::from(made);
        let reply = answer?;
        if self.session.is_terminated(seat.thread) {
            self.live.sub(&mut seat.own_live, 1);
            seat.is_open = false;
        }
        Ok((reply, made))
    }

    /// Makes attempts of the seat's thread until there were `n`, one had another reply than
    /// Stepped, its thread has terminated, or one is refused. Returns the last reply, or the
    /// refusal; the attempts before a refusal are kept.
    pub fn turn(&mut self, seat: &mut Seat<C, O>, n: u32) -> Result<Reply, AskError>
        requires some { 0 < n }
        requires few { n ≤ MAX_TURN }
        ensures answer { MatchResult result
            (IsTurn self.old self.new seat.old seat.new n)
            (IsCutTurn self.old self.new seat.old seat.new n) }
        ensures terminated { (result ≡ Err AskError.Terminated) ↔ IsShut self.old seat.old }
        ensures kept { (self.new.code ≡ self.old.code) × (self.new.setup ≡ self.old.setup) }
    {
        let (mut last, made) = self.begin(seat, n)?;
        for _made in made..n {
            if last != Reply::Stepped || !seat.is_open() {
                return Ok(last);
            }
            last = self.ask(seat)?;
        }
        Ok(last)
    }
}

/// Makes attempts of a thread until there were `n`, one had another reply than Stepped, the thread
/// has terminated, or one is refused. Returns the last reply, or the refusal.
fn make(
    session: &mut Session,
    calls: &mut Vec<Call>,
    thread: u32,
    n: usize,
) -> Result<Reply, AskError>
    requires thread { thread < threads session.old.setup }
    requires some { 0 < n }
    requires empty { calls.old.items ≡ [] }
    requires room { n ≤ vec_capacity calls.old }
    ensures answer { let cs = calls.new.items in
        (h : List Answered) (made live : ℕ)
        → IsInBooks session.old h made live
        → is_terminated session.old.setup h thread ≡ false
        → MatchResult result
        (AreMade session.new h made live thread n cs)
        (AreCut session.new h made live thread n cs) }
    ensures kept { (session.new.code ≡ session.old.code) × (session.new.setup ≡ session.old.setup) }
    ensures room { vec_capacity calls.new ≡ vec_capacity calls.old }
    ensures few { vec_len calls.new ≤ n }
{
    for _made in 0..n {
        let call = session.ask(thread)?;
        calls.push_reserved(call);
        if call.reply != Reply::Stepped || session.is_terminated(thread) {
            return Ok(call.reply);
        }
    }
    Ok(Reply::Stepped)
}

/// Makes the next attempt of a thread with the seed's bit, and sends it. At a refusal neither is
/// done: the machine refuses the attempt, or the ring is full, which it is not while a place is
/// known to be free.
pub(crate) fn send(
    session: &mut Session,
    to: &mut Producer<Call>,
    thread: u32,
) -> Result<Call, AskError>
    requires { thread < threads session.old.setup }
    ensures answer { let t = session.old.code.tree in Stands t session.old (sent to.old)
        → MatchResult result
        (IsNextCall t session.old.setup (sent to.old) thread None)
        (IsSendRefusal t session.old.setup (sent to.old) thread) }
    ensures asked { IfOk result (λ c. c.thread ≡ thread) }
    ensures stands { let t = session.old.code.tree in Stands t session.old (sent to.old)
        → IfOk result (λ c. Stands t session.new (sent to.old ++ c ∷ [])) }
    ensures kept { (session.new.code ≡ session.old.code) × (session.new.setup ≡ session.old.setup) }
    ensures same { OnErr result (session.new ≡ session.old) }
    ensures ring { SameProducer to.old to.new }
    ensures sent { IfOk result (λ c.
        (sent to.new ≡ sent to.old ++ c ∷ []) × (known_free to.old ≤ known_free to.new + 1)) }
    ensures unsent { OnErr result
        ((sent to.new ≡ sent to.old) × (known_free to.old ≤ known_free to.new)) }
    ensures full { let t = session.old.code.tree in Stands t session.old (sent to.old)
        → result ≡ Err AskError.Busy
        → known_free to.new ≡ 0 }
{
    if to.is_full() {
        return Err(if session.is_terminated(thread) {
            AskError::Terminated
        } else {
            AskError::Busy
        });
    }
    let call = session.ask(thread)?;
    to.push_reserved(call);
    Ok(call)
}

/// Returns whether the next step of a thread is a call.
fn is_at_call(session: &Session, thread: u32) -> bool
    ensures { AfterEach session.now (λ t h. result ≡ is_at_call t session.now.setup h thread) }
{
    let Some(top) = session.top(thread) else {
        return false;
    };
    let code = session.code();
    code.is_of_a_program();
    let Some(instr) = code.get(top.number) else {
        return false;
    };
    match instr.kind() {
        Kind::Call => true,
        _ => false,
    }
}

/// Returns the first thread that is live although its next step is not a call, if any.
pub(crate) fn stopped_early(session: &Session) -> Option<u32>
    ensures { AfterEach session.now (λ t h. TellsEarly t session.now.setup h result) }
{
    for thread in 0..session.setup().threads() {
        if !session.is_terminated(thread) && !is_at_call(session, thread) {
            return Some(thread);
        }
    }
    None
}
