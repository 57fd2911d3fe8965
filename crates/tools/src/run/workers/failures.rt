//! Runs whose writer fails after some bytes, which are a prefix of the trace.
use super::{Numbers, ONE, runs};
use bp_run::{Open, RunError};
use std::alloc::Global;
use std::io;
use std::io::Write;
use std::sync::Wait;
use std::thread::Threads;
use std::time::Clock;

/// A branch by a choice.
const BRANCH: &[u8] = b"main() begin if (?) then skip; else skip; fi end";

/// The trace of that program by the seed 42.
const TRACE: &[u8] = b"btrace 1\nentry main\ninit -\ncontexts 1\ncalls 10\nseed 42\n\
    0 1 s\n0 1 s\n0 1 s\n0 0 e\nend 4 0\n";

/// A writer that takes `left` more bytes, and then fails.
#[derive(Drop)]
struct Filling {
    taken: Vec<u8>,
    left: usize,
}

impl Write for Filling {
    ghost use Rattle.std.specs.Prelude.{Some};

    ghost contents = { λ w. Some w.taken.items };

    fn write(&mut self, buf: &[u8]) -> io::Result<usize> {
        let size = buf.len().min(self.left);
        if size == 0 {
            return Err(io::Error::from(io::ErrorKind::StorageFull));
        }
        let size = self.taken.write(&buf[..size])?;
        self.left = self.left.saturating_sub(size);
        Ok(size)
    }

    fn flush(&mut self) -> io::Result<()> {
        Ok(())
    }
}

/// Returns whether a run with this ring is refused after `left` bytes, which are the first of the
/// trace; or if these are all, is done.
fn writes<R: Threads + Wait + Clock + Sync>(rt: &R, alloc: Global, ring: u32, left: usize) -> bool {
    let numbers = Numbers {
        contexts: 1,
        ring,
        ..ONE
    };
    let taken = Vec::new(alloc);
    let mut out = Filling { taken, left };
    let is_done = match runs(rt, alloc, BRANCH, numbers, &Open, &mut out) {
        Ok(_) => left == TRACE.len(),
        Err(error) => error == RunError::Write && left < TRACE.len(),
    };
    is_done && TRACE.get(..left) == Some(out.taken.as_slice())
}

#[test]
fn failed_writes_leave_a_beginning(rt: HostRuntime) {
    for ring in [1, 1024] {
        for left in 0..TRACE.len() + 1 {
            assert!(&rt; writes(&rt, rt.alloc(), ring, left), "{left} bytes");
        }
    }
}
