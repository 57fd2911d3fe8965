//! The writer thread: takes the attempts from the ring while the workers run, and writes their
//! lines. The writer of a trace: a sink, and the state of its flushes.
ghost use Rattle.std.specs.Prelude.{◌≡◌, [], true, Some, is_some, ◌||◌, false};
ghost use Rattle.bp_text.specs.Writing.{Given};
ghost use Rattle.bp_trace.specs.TraceText.{head_text, call_line, end_line};
ghost use Rattle.bp_trace.specs.declared.traces.Version.TheVariants.{One};
ghost use Rattle.bp_run.specs.Works.{AreCallsWritten, IsStaged, IsRestWritten, lines_of};

use crate::boards::Calls;
use crate::seats::Tap;
use crate::signals::{Idle, Signals};
use bp_machine::{Call, Reply, Setup};
use bp_text::Sink;
use bp_trace::{put_call, put_end, put_head};
use std::io::Write;
use std::sync::Wait;
use std::time::Clock;

/// The number of times that the writer thread dozes before it sleeps. While attempts come in quick
/// succession it is not worth a wake-up for each.
const DOZES: u32 = 8;

/// The most attempts that the writer thread takes at once.
const TAKEN: usize = 64;

/// What stands in the place of an attempt that is still to be taken.
const NO_CALL: Call = Call {
    thread: 0,
    bit: false,
    reply: Reply::Stepped,
};

/// Takes attempts and writes their lines, until the workers have ended and no attempt is seen. Each
/// time the ring is empty, wakes as many workers that wait for room as there were attempts. If the
/// writer fails, tells all to stop.
fn write_calls<W: Write, C: Calls, R: Wait + Clock>(
    rt: &R,
    writer: &mut TraceWriter<'_, W>,
    tap: &mut Tap<C>,
    signals: &Signals,
    started: u32,
)
    ensures { AreCallsWritten W.contents writer.old.sink writer.new.sink tap.old.taken
        tap.new.taken }
{
    let mut idle = Idle::new(&signals.calls, DOZES);
    let mut calls = [NO_CALL; TAKEN];
    let mut room = 0u64;
    for _ in rt.forever() {
        if writer.has_failed() {
            signals.halt();
            return;
        }
        let count = tap.take(&mut calls);
        if count > 0 {
            idle = Idle::new(&signals.calls, DOZES);
            room = room.saturating_add(count as u64);
            writer.lines(&calls[..count]);
            continue;
        }
        signals.room.ring(room);
        room = 0;
        writer.flush();
        if signals.have_ended(started) {
            return;
        }
        idle.rest(rt);
    }
    unreachable!()
}

/// Writes the head of the trace, and then the attempts while they run, if all workers were started;
/// otherwise writes nothing, and tells those that were started to stop.
pub(crate) fn write_running<W: Write, C: Calls, R: Wait + Clock>(
    rt: &R,
    setup: &Setup,
    writer: &mut TraceWriter<'_, W>,
    tap: &mut Tap<C>,
    signals: &Signals,
    started: u32,
    all_started: bool,
)
    requires { tap.old.taken ≡ [] }
    ensures { let taken = tap.new.taken in
        IsStaged W.contents setup.now writer.old.sink writer.new.sink taken all_started }
{
    if all_started {
        writer.head(setup);
        write_calls(rt, writer, tap, signals, started);
    } else {
        signals.halt();
    }
}

/// Writes the attempts that are left in the ring of a gathered board.
pub(crate) fn write_rest<W: Write, C: Calls>(writer: &mut TraceWriter<'_, W>, tap: &mut Tap<C>)
    requires { is_some tap.old.rest ≡ true }
    ensures written { IsRestWritten W.contents writer.old.sink writer.new.sink tap.old.rest
        tap.new.rest }
    ensures all { tap.new.rest ≡ Some [] }
{
    while let Some(call) = tap.next() {
        writer.line(&call);
    }
}

/// A writer of a trace, line by line. After a write has failed it writes nothing more.
#[derive(Drop)]
pub(crate) struct TraceWriter<'a, W> {
    pub sink: Sink<'a, W>,
    /// Whether something was written since the writer was last flushed.
    pub is_wet: bool,
    /// Whether a flush has failed: the owner of the writer must stop.
    pub is_stuck: bool,
}

impl<'a, W: Write> TraceWriter<'a, W> {
    /// Makes a writer that has written nothing.
    pub fn new(sink: Sink<'a, W>) -> TraceWriter<'a, W>
        ensures { result.sink ≡ sink.entry }
    {
        TraceWriter {
            sink,
            is_wet: false,
            is_stuck: false,
        }
    }

    /// Returns whether the writer has failed.
    pub fn has_failed(&self) -> bool
        ensures { result ≡ self.now.sink.refused || self.now.is_stuck }
    {
        self.sink.has_refused() || self.is_stuck
    }

    pub fn head(&mut self, setup: &Setup)
        ensures given { Given W.contents self.old.sink self.new.sink (head_text One setup.now) }
        ensures wet { self.new.is_wet ≡ true }
    {
        put_head(setup, &mut self.sink);
        self.is_wet = true;
    }

    pub fn line(&mut self, call: &Call)
        ensures given { Given W.contents self.old.sink self.new.sink (call_line call.now) }
        ensures wet { self.new.is_wet ≡ true }
    {
        put_call(call, &mut self.sink);
        self.is_wet = true;
    }

    /// Writes the lines of attempts.
    pub fn lines(&mut self, calls: &[Call])
        ensures given { Given W.contents self.old.sink self.new.sink (lines_of calls.now) }
        ensures wet { self.new.is_wet ≡ true }
    {
        self.is_wet = true;
        for call in calls {
            put_call(call, &mut self.sink);
        }
    }

    /// Writes the line that ends a trace.
    pub fn end(&mut self, calls: u64, left_live: u32)
        ensures given { Given W.contents self.old.sink self.new.sink (end_line calls left_live) }
        ensures wet { self.new.is_wet ≡ true }
    {
        put_end(calls, left_live, &mut self.sink);
        self.is_wet = true;
    }

    /// Flushes the writer, if something was written since the last flush.
    pub fn flush(&mut self)
        ensures given { Given W.contents self.old.sink self.new.sink [] }
        ensures dry { self.new.is_wet ≡ false }
    {
        if !self.is_wet {
            return;
        }
        // A flush that fails takes no byte back, but the bytes written may be lost.
        self.is_stuck = self.sink.flush();
        self.is_wet = false;
    }
}
