//! `tools`: the scripts' entry to the libraries. Without arguments it makes a few asks and the
//! calls of docs/dev/calling.md, and reads the texts of one byte and of up to two tokens. With
//! `times` it measures the asks, for `bench/asking.py`. With `bytes` it reads the texts of up to
//! three bytes, with `tokens` those of up to five tokens, for `.ci/texts`. Its tests are those of
//! public calls that no command shows. They are here, and not in the crates that they test, since a
//! crate with tests is proved once more with them. A file of tests is named for that crate, without
//! `bp_`; `growths` has those of several.
#![tactic(auto)]

mod asks;
mod calls;
mod cases;
#[cfg(test)]
mod code;
#[cfg(test)]
mod common;
mod drives;
#[cfg(test)]
mod growths;
#[cfg(test)]
mod machine;
mod pieces;
#[cfg(test)]
mod ready;
mod rounds;
#[cfg(test)]
mod run;
mod runs;
mod sessions;
mod short_texts;
mod starts;
mod texts;
#[cfg(test)]
mod trace;
#[cfg(test)]
mod without_memory;

use std::sync::Wait;
use std::thread::Threads;
use std::time::Clock;
use std::{env, io};

/// Runs each tool, so that one run takes a second.
fn run_each<R: Threads + Wait + Clock + Sync>(rt: &HostRuntime, threads: &R) -> io::Result<()> {
    asks::ask(rt, threads, 1, false)?;
    calls::call(rt, threads)?;
    short_texts::print(rt.stdout(), rt.alloc(), 1, 2)
}

fn main(rt: HostRuntime) -> io::Result<()> {
    let words: Vec<String> = env::args(&rt)?.collect(rt.alloc())?;
    match words.get(1) {
        None => run_each(&rt, &rt),
        Some(word) if word.as_str() == "times" => asks::ask(&rt, &rt, 100, true),
        Some(word) if word.as_str() == "bytes" => short_texts::print(rt.stdout(), rt.alloc(), 3, 0),
        Some(word) if word.as_str() == "tokens" => {
            short_texts::print(rt.stdout(), rt.alloc(), 0, 5)
        }
        Some(_) => Ok(()),
    }
}
