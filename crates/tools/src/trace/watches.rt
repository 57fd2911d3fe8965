//! Tests of watchers of a replay.

use crate::common::code_of;
use bp_machine::{AskError, Call, Session, Setup};
use bp_trace::{Watched, Watcher, replay_watched};
use std::alloc::AllocError;
use std::test::Fail;

/// A watcher that counts the attempts that it makes.
#[derive(Drop)]
struct Counter {
    begun: bool,
    calls: u64,
}

impl Watcher for Counter {
    ghost sees = { λ _ _ _ _ _. Unit {0} };

    fn begin(&mut self, _setup: &Setup) -> Result<(), AllocError> {
        self.begun = true;
        self.calls = 0;
        Ok(())
    }

    fn make(&mut self, session: &mut Session, recorded: &Call) -> Result<Call, AskError> {
        let call = session.ask_as_recorded(recorded.thread, recorded.bit)?;
        self.calls = self.calls.saturating_add(1);
        Ok(call)
    }
}

const PROGRAM: &[u8] = b"main() begin skip; end";

const TRACE: &[u8] =
    b"btrace 1\nentry main\ninit -\ncontexts 1\ncalls 9\nseed none\n0 0 s\n0 0 s\n0 0 e\nend 3 0\n";

/// Returns whether each of the three attempts was made by the watcher.
fn is_watched(watched: &Watched<Counter>) -> bool {
    watched.watcher.begun
        && watched.watcher.calls == 3
        && watched.replayed.history.len() == 3
        && watched.session.live_threads() == 0
}

#[test]
fn watchers_make_each_call(rt: HostRuntime) -> Result<(), Fail> {
    let code = code_of(rt.alloc(), PROGRAM)?;
    let counter = Counter {
        begun: false,
        calls: 5,
    };
    let Ok(watched) = replay_watched(rt.alloc(), &code, TRACE, counter) else {
        return Err(Fail::from("no trace"));
    };
    assert!(rt; is_watched(&watched));
    Ok(())
}
