//! The seats of guest threads at a board.
//! The tap: the end of the ring from which the history is taken.
ghost use Rattle.std.specs.Prelude.{◌≡◌, ◌≤◌, IfOk, ◌++◌, ◌∷◌, [], None, IfSome, IfNone, length, take};
ghost use Rattle.rtrb.specs.Ring.{received};
ghost use Rattle.bp_run.specs.Desks.{AreNewSeats, consumer_ring, IsTakenOf};

use crate::boards::Calls;
use bp_machine::Call;
use rtrb::Consumer;
use std::alloc::{AllocError, Global};
use std::marker::{Model, PhantomData};
use std::sync::ledger::{Ledger, Share};

/// The right to make one guest thread's attempts, which belongs to the holder of the seat. It has
/// shares of the two ledgers of its board.
#[derive(Drop)]
pub struct Seat<C: Calls, O: Ledger> {
    pub(crate) thread: u32,
    pub(crate) calls: u64,
    pub(crate) is_open: bool,
    pub(crate) made: Share<C>,
    pub(crate) own_live: Share<O>,
}

impl<C: Calls, O: Ledger> Model for Seat<C, O> {
    ghost use Rattle.std.specs.Prelude.{◌≡◌, ◌<◌};
    ghost use Rattle.bp_run.specs.Desks.{SeatOf, seat_of, HasShares};

    ghost Value = { SeatOf };

    ghost view = { λ s. seat_of s.thread s.calls s.is_open };

    ghost invariant = { λ s.
        let seat = seat_of s.thread s.calls s.is_open in
        (s.thread < C.parts)
        × HasShares s.made.parts s.made.amount s.own_live.parts s.own_live.amount seat };
}

/// Makes an open seat for each thread, in order, with a part of the attempts and a line of its own.
pub(crate) fn new_seats<C: Calls, O: Ledger>(
    alloc: Global,
    threads: u32,
    mut made: Share<C>,
    mut live: Share<O>,
) -> Result<Vec<Seat<C, O>>, AllocError>
    requires threads { threads ≡ C.parts }
    requires made { (made.parts ≡ threads) × (made.amount ≡ 0) }
    requires live { (live.parts ≡ threads) × (live.amount ≡ threads) }
    ensures { IfOk result (λ v. AreNewSeats threads v.items) }
{
    let mut seats = Vec::new(alloc);
    for thread in 0..threads {
        seats.push(Seat {
            thread,
            calls: 0,
            is_open: true,
            made: made.split_off(1, 0),
            own_live: live.split_off(1, 1),
        })?;
    }
    Ok(seats)
}

impl<C: Calls, O: Ledger> Seat<C, O> {
    /// Returns the number of the thread, from 0.
    pub fn thread(&self) -> u32
        ensures { result ≡ self.now.thread }
    {
        self.thread
    }

    /// Returns the number of attempts made from this seat.
    pub fn calls(&self) -> u64
        ensures { result ≡ self.now.calls }
    {
        self.calls
    }

    /// Returns whether the thread may continue, as far as the seat knows.
    pub fn is_open(&self) -> bool
        ensures { result ≡ self.now.is_open }
    {
        self.is_open
    }
}

/// The receiving end of a board's ring, which gives the history attempt by attempt. It takes no
/// lock, and never waits.
#[derive(Drop)]
pub struct Tap<C: Calls> {
    pub(crate) from: Consumer<Call>,
    /// The number of attempts left, once the board is gathered.
    pub(crate) left: Option<usize>,
    pub(crate) of: PhantomData<C>,
}

impl<C: Calls> Model for Tap<C> {
    ghost use Rattle.std.specs.Prelude.{◌≡◌, IfSome, length};
    ghost use Rattle.rtrb.specs.Ring.{received, known_items};
    ghost use Rattle.bp_run.specs.Desks.{consumer_ring, TapOf, tap_of};

    ghost Value = { TapOf };

    ghost view = { λ t. tap_of (received t.from) (known_items t.from) t.left };

    ghost invariant = { λ t.
        (consumer_ring t.from ≡ C.ring)
        × IfSome t.left (λ n. n ≡ length (known_items t.from)) };
}

impl<C: Calls> Tap<C> {
    /// Makes the tap of a ring from which nothing was taken.
    pub(crate) fn new(from: Consumer<Call>) -> Tap<C>
        requires { consumer_ring from ≡ C.ring }
        ensures { (result.taken ≡ received from) × (result.rest ≡ None) }
    {
        Tap {
            from,
            left: None,
            of: PhantomData,
        }
    }

    /// Takes attempts of the history from the ring to the start of the slice, as many as there are
    /// and as it holds, and returns how many. Once the board is gathered, it takes none.
    pub(crate) fn take(&mut self, calls: &mut [Call]) -> usize
        ensures few { result ≤ length calls.old }
        ensures taken { self.new.taken ≡ self.old.taken ++ take result calls.new }
    {
        if self.left.is_some() {
            return 0;
        }
        self.from.pop_partial_slice(calls)
    }

    /// Returns the next attempt of the history, if there is one in the ring. Once the board is
    /// gathered, the tap gives the attempts that were left, in order, and then nothing.
    pub fn next(&mut self) -> Option<Call>
        ensures some { IfSome result (λ c. self.new.taken ≡ self.old.taken ++ c ∷ []) }
        ensures none { IfNone result (self.new ≡ self.old) }
        ensures rest { IsTakenOf self.old.rest result self.new.rest }
    {
        match self.left {
            None => self.from.pop().ok(),
            Some(0) => None,
            Some(n) => {
                self.left = Some(n - 1);
                Some(self.from.pop_known())
            }
        }
    }
}
