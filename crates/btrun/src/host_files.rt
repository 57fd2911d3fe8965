//! The files of the machine.

use bp_commands::Files;
use std::fs::File;
use std::io::{self, Error, ErrorKind, Read, Stdin};
use std::sync::atomic::{AtomicBool, Ordering};

/// The path for standard input.
const STANDARD_INPUT: &str = "-";

/// A file that is read, or standard input.
#[derive(Drop)]
pub enum HostInput {
    File(File),
    Standard(Stdin),
}

impl Read for HostInput {
    fn read(&mut self, buf: &mut [u8]) -> io::Result<usize> {
        match self {
            HostInput::File(file) => file.read(buf),
            HostInput::Standard(input) => input.read(buf),
        }
    }
}

/// The files of the machine that the program runs on. The path `-` is standard input, for one file.
#[derive(Drop)]
pub struct HostFiles<'a> {
    rt: &'a HostRuntime,
    /// Whether a path was standard input already.
    is_taken: AtomicBool,
    /// Why standard input cannot be read, if so.
    unreadable: Option<Error>,
}

/// Returns why standard input cannot be read, if so. A read of no byte takes nothing from it.
fn why_unreadable(rt: &HostRuntime) -> Option<Error> {
    rt.stdin().read(&mut []).err()
}

impl<'a> HostFiles<'a> {
    /// Makes the files, before any is opened. A word `-` may be a path.
    ///
    /// If standard input is closed, the first file that is opened takes its number, and would be
    /// read in its place. So it is tried before. Without such a word it is not, since a process in
    /// the background is stopped when it reads from its terminal.
    pub fn new(rt: &'a HostRuntime, arguments: &[String]) -> HostFiles<'a> {
        let is_asked_for = arguments.iter().any(|word| word.as_str() == STANDARD_INPUT);
        HostFiles {
            rt,
            is_taken: AtomicBool::new(false),
            unreadable: if is_asked_for {
                why_unreadable(rt)
            } else {
                None
            },
        }
    }

    /// Returns standard input, to the first caller.
    fn standard_input(&self) -> io::Result<HostInput> {
        if self.is_taken.swap(true, Ordering::SeqCst) {
            return Err(Error::from(ErrorKind::AlreadyExists));
        }
        if let Some(error) = self.unreadable {
            return Err(error);
        }
        Ok(HostInput::Standard(self.rt.stdin()))
    }
}

impl Files for HostFiles<'_> {
    ghost use Rattle.std.specs.Prelude.{None};

    type Input = HostInput;

    ghost bytes = { λ _ _. None };

    fn open(&self, path: &str) -> io::Result<HostInput> {
        if path == STANDARD_INPUT {
            return self.standard_input();
        }
        Ok(HostInput::File(File::open(self.rt, path)?))
    }
}
