//! Gates: callbacks around the turns of workers.
use bp_machine::Reply;
use std::sync::Wait;
use std::time::Clock;

/// Callbacks around each turn of a worker, made while it holds no lock. The caller of a run can use
/// them to hold a worker back, or to watch it.
pub trait Gate: Sync {
    /// Called before each turn, with the number of attempts that the thread has made.
    fn before<R: Wait + Clock>(&self, rt: &R, thread: u32, call: u64);

    /// Called after each turn that was answered, with its reply. A refused turn has none.
    fn after(&self, thread: u32, reply: Reply);

    /// Called once the thread takes no more turns: it has terminated, its worker was
    /// refused memory or was told to stop, or no worker could be started for it.
    fn finished(&self, _thread: u32) {}
}

/// The turns of workers: the most attempts of each, and the gate around it.
#[derive(Clone, Copy)]
pub struct Turns<'a, G> {
    pub calls: u32,
    pub gate: &'a G,
}

/// A gate that does nothing.
#[derive(Clone, Copy, Debug)]
pub struct Open;

impl Gate for Open {
    fn before<R: Wait + Clock>(&self, _rt: &R, _thread: u32, _call: u64) {}

    fn after(&self, _thread: u32, _reply: Reply) {}
}

/// Without a gate it does nothing.
impl<G: Gate> Gate for Option<G> {
    fn before<R: Wait + Clock>(&self, rt: &R, thread: u32, call: u64) {
        if let Some(gate) = self {
            gate.before(rt, thread, call);
        }
    }

    fn after(&self, thread: u32, reply: Reply) {
        if let Some(gate) = self {
            gate.after(thread, reply);
        }
    }

    fn finished(&self, thread: u32) {
        if let Some(gate) = self {
            gate.finished(thread);
        }
    }
}
