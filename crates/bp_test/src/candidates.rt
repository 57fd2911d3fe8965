//! The changes of a history that are tried, and their order.
use crate::changes::{Change, Part};
use crate::limits::{WORK, WORK_OF_CALL};
use bp_machine::Call;

/// The most parts of the history that are left out before its contexts are looked at.
const HALVES: usize = 16;

/// The kinds of changes, in the order in which a round tries them.
#[derive(Clone, Copy, PartialEq, Eq)]
enum Kind {
    /// Attempts without a step.
    Idle,
    /// Loops.
    Loops,
    /// Large parts, by halves.
    Halves,
    /// Whole contexts.
    Contexts,
    /// A context and the one after it.
    Pairs,
    /// A context is joined to the one before it of its thread.
    Earlier,
    /// A context is joined to the one after it of its thread.
    Later,
    /// A context is divided between both sides.
    Splits,
    /// The last attempts of each context, by halves.
    Tails,
    /// Parts, by halves down to single attempts.
    Parts,
    /// Choices are 0.
    Zeros,
}

impl Kind {
    /// Returns the kind after this one in a round.
    fn next(self) -> Option<Kind> {
        match self {
            Kind::Idle => Some(Kind::Loops),
            Kind::Loops => Some(Kind::Halves),
            Kind::Halves => Some(Kind::Contexts),
            Kind::Contexts => Some(Kind::Pairs),
            Kind::Pairs => Some(Kind::Earlier),
            Kind::Earlier => Some(Kind::Later),
            Kind::Later => Some(Kind::Splits),
            Kind::Splits => Some(Kind::Tails),
            Kind::Tails => Some(Kind::Parts),
            Kind::Parts => Some(Kind::Zeros),
            Kind::Zeros => None,
        }
    }

    /// Returns the size of the parts that it changes first, of a history of this length.
    fn first_size(self, length: usize) -> usize {
        match self {
            Kind::Halves | Kind::Tails | Kind::Parts => length / 2,
            Kind::Zeros => length,
            _ => 1,
        }
    }

    /// Returns the size below which it changes no part.
    fn last_size(self, length: usize) -> usize {
        match self {
            Kind::Halves => length / HALVES,
            _ => 1,
        }
    }
}

/// The next candidate.
#[derive(Clone, Copy, PartialEq, Eq)]
pub(crate) enum Next {
    /// This change.
    Try(Change),
    /// Nothing at this place.
    Skip,
    /// Nothing more.
    Done,
}

/// The state of the search for a smaller history.
#[derive(Clone, Copy)]
pub(crate) struct Candidates {
    kind: Kind,
    /// The size of the parts that are changed.
    size: usize,
    /// The place at which the next change begins.
    place: usize,
    /// The distance from there to the change after it.
    step: usize,
    /// Whether a change of this round was taken.
    is_useful: bool,
    /// The number of attempts that may still be driven.
    work: u64,
}

/// Returns the place of the first attempt from a place on that this thread makes, or another one.
fn first_from(history: &[Call], from: usize, thread: u32, is_own: bool) -> Option<usize> {
    for place in from..history.len() {
        if (history[place].thread == thread) == is_own {
            return Some(place);
        }
    }
    None
}

/// Returns the place after the last attempt before a place that this thread makes, or another one.
fn end_before(history: &[Call], before: usize, thread: u32, is_own: bool) -> Option<usize> {
    for distance in 0..before {
        let place = before - 1 - distance;
        if (history.get(place).map(|call| call.thread) == Some(thread)) == is_own {
            return Some(place + 1);
        }
    }
    None
}

/// Returns the place after the attempts of one thread that begin here.
fn end_of_context(history: &[Call], from: usize, thread: u32) -> usize {
    first_from(history, from, thread, false).unwrap_or(history.len())
}

/// Returns the place of the first of the attempts of one thread that end before this place.
fn start_of_context(history: &[Call], to: usize, thread: u32) -> usize {
    end_before(history, to, thread, false).unwrap_or(0)
}

/// Returns whether an attempt of the part has the bit 1.
fn has_one(history: &[Call], part: Part) -> bool {
    match history.get(part.from..part.to) {
        None => false,
        Some(calls) => calls.iter().any(|call| call.bit),
    }
}

/// Moves a context to the end of the one before it of its thread.
fn earlier(history: &[Call], part: Part, thread: u32) -> Option<Change> {
    Some(Change::Split {
        part,
        middle: part.to,
        earlier: end_before(history, part.from, thread, true)?,
        later: part.to,
    })
}

/// Moves a context to the start of the one after it of its thread.
fn later(history: &[Call], part: Part, thread: u32) -> Option<Change> {
    Some(Change::Split {
        part,
        middle: part.from,
        earlier: part.from,
        later: first_from(history, part.to, thread, true)?,
    })
}

/// Returns the end of the context before this place of the thread. If there is none, it is the
/// start of the context before this place, whose thread is another one.
fn place_before(history: &[Call], from: usize, thread: u32) -> usize {
    if let Some(place) = end_before(history, from, thread, true) {
        return place;
    }
    let Some(last) = from.checked_sub(1) else {
        return from;
    };
    match history.get(last) {
        Some(call) => start_of_context(history, from, call.thread),
        None => from,
    }
}

/// Returns the start of the context of the thread from this place on. If there is none, it is the
/// end of the context that begins here, whose thread is another one.
fn place_after(history: &[Call], to: usize, thread: u32) -> usize {
    if let Some(place) = first_from(history, to, thread, true) {
        return place;
    }
    match history.get(to) {
        Some(call) => end_of_context(history, to, call.thread),
        None => to,
    }
}

/// Divides the context of this place: the attempts before the place move to an earlier one, and the
/// rest to a later one.
fn split(history: &[Call], place: usize, thread: u32) -> Option<Change> {
    let from = start_of_context(history, place, thread);
    let to = end_of_context(history, place, thread);
    if from == place {
        return None;
    }
    let earlier = place_before(history, from, thread);
    let later = place_after(history, to, thread);
    if earlier == from && later == to {
        return None;
    }
    Some(Change::Split {
        part: Part { from, to },
        middle: place,
        earlier,
        later,
    })
}

/// Leaves out a context and the one after it.
fn pair(history: &[Call], part: Part) -> Option<Change> {
    let next = history.get(part.to)?;
    let end = end_of_context(history, part.to, next.thread);
    Some(Change::LeftOut(Part { to: end, ..part }))
}

impl Candidates {
    /// Begins the search, for a history of this length.
    pub(crate) fn new(length: usize) -> Candidates {
        let work = (length as u64).saturating_mul(WORK_OF_CALL);
        Candidates {
            kind: Kind::Idle,
            size: 1,
            place: 0,
            step: 1,
            is_useful: false,
            work: work.saturating_add(WORK),
        }
    }

    /// Begins with a kind of changes.
    fn turn_to(&mut self, kind: Kind, length: usize) {
        self.kind = kind;
        self.size = kind.first_size(length).max(1);
        self.place = 0;
        self.step = 1;
    }

    /// Advances to the next candidate: with smaller parts, the next kind, or another round.
    fn turn(&mut self, length: usize) -> Next {
        if self.size > self.kind.last_size(length).max(1) {
            self.size /= 2;
            self.place = 0;
            return Next::Skip;
        }
        if let Some(kind) = self.kind.next() {
            self.turn_to(kind, length);
            return Next::Skip;
        }
        if !self.is_useful {
            return Next::Done;
        }
        self.is_useful = false;
        self.turn_to(Kind::Idle, length);
        Next::Skip
    }

    /// Leaves out the last attempts of a context, if it has more.
    fn tail(&self, part: Part) -> Option<Change> {
        if part.to.saturating_sub(part.from) <= self.size {
            return None;
        }
        let from = part.to.saturating_sub(self.size);
        Some(Change::LeftOut(Part { from, to: part.to }))
    }

    /// Returns the change at the place, of an attempt of this thread.
    fn change(&mut self, history: &[Call], thread: u32) -> Option<Change> {
        let from = self.place;
        let to = from.saturating_add(self.size).min(history.len());
        let end = end_of_context(history, from, thread);
        let part = Part { from, to: end };
        self.step = match self.kind {
            Kind::Contexts | Kind::Pairs | Kind::Earlier | Kind::Later | Kind::Tails => {
                end.saturating_sub(from)
            }
            _ => self.size,
        };
        match self.kind {
            Kind::Idle | Kind::Loops => None,
            Kind::Halves | Kind::Parts => Some(Change::LeftOut(Part { from, to })),
            Kind::Contexts => Some(Change::LeftOut(part)),
            Kind::Pairs => pair(history, part),
            Kind::Earlier => earlier(history, part, thread),
            Kind::Later => later(history, part, thread),
            Kind::Tails => self.tail(part),
            Kind::Splits => split(history, from, thread),
            Kind::Zeros if has_one(history, Part { from, to }) => {
                Some(Change::Zeros(Part { from, to }))
            }
            Kind::Zeros => None,
        }
    }

    /// Returns the change of all attempts, which some kinds are.
    fn whole(&self) -> Option<Change> {
        match self.kind {
            Kind::Idle if self.place == 0 => Some(Change::Idle),
            Kind::Loops if self.place == 0 => Some(Change::Loops),
            _ => None,
        }
    }

    /// Returns the next candidate.
    pub(crate) fn next(&mut self, history: &[Call]) -> Next {
        let cost = (history.len() as u64).saturating_add(1);
        let Some(left) = self.work.checked_sub(cost) else {
            return Next::Done;
        };
        if let Some(change) = self.whole() {
            self.step = history.len().max(1);
            self.work = left;
            return Next::Try(change);
        }
        let Some(call) = history.get(self.place) else {
            return self.turn(history.len());
        };
        match self.change(history, call.thread) {
            Some(change) => {
                self.work = left;
                Next::Try(change)
            }
            None => {
                self.tell(false);
                Next::Skip
            }
        }
    }

    /// Advances after a change that was taken or not.
    pub(crate) fn tell(&mut self, is_taken: bool) {
        if is_taken {
            self.is_useful = true;
        } else {
            self.place = self.place.saturating_add(self.step.max(1));
        }
    }
}
