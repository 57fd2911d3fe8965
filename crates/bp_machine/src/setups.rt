//! The start of a session.
ghost use Rattle.std.specs.Prelude.{◌≡◌, ◌↔◌, IsTrue, None, map, slice_get, string_bytes, MatchResult, IfOk, option_map};
ghost use Rattle.bp_machine.specs.Setups.{setup_of, threads, setup_error, IsSetupRefusal, Fits, IsInRange};

use crate::setup_errors::{SetupError, error_of_entries, error_of_setup};
use bp_flat::Code;
use std::alloc::{AllocError, Global};
use std::marker::Model;

/// An entry procedure for each guest thread, a bit for each global, the contexts and the attempts
/// of a thread that are allowed, and the seed of the choice bits, unless they are given.
#[derive(Drop)]
pub struct Setup {
    entries: Vec<String>,
    init: Vec<bool>,
    contexts: u32,
    calls: u32,
    seed: Option<u64>,
}

impl Model for Setup {
    ghost use Rattle.std.specs.Prelude.{map, string_bytes};
    ghost use Rattle.bp_machine.specs.Setups.{SetupOf, setup_of, IsInRange};

    ghost Value = { SetupOf };

    ghost view = { λ s.
        let names = map string_bytes s.entries.items in
        setup_of names s.init.items s.contexts s.calls s.seed };

    ghost invariant = { λ s. IsInRange
        (setup_of (map string_bytes s.entries.items) s.init.items s.contexts s.calls s.seed) };
}

fn copies(alloc: Global, names: &[String]) -> Result<Vec<String>, AllocError>
    ensures { IfOk result (λ v. map string_bytes v.items ≡ map string_bytes names.now) }
{
    let mut items = Vec::new(alloc);
    for name in names {
        items.push(name.clone()?)?;
    }
    Ok(items)
}

/// Makes a setup of copies of these parts.
fn kept(
    alloc: Global,
    entries: &[String],
    init: &[bool],
    contexts: u32,
    calls: u32,
    seed: Option<u64>,
) -> Result<Setup, AllocError>
    requires { IsInRange (setup_of (map string_bytes entries.now) init.now contexts calls seed) }
    ensures { let given = setup_of (map string_bytes entries.now) init.now contexts calls seed in
        IfOk result (λ s. s ≡ given) }
{
    let entries = copies(alloc, entries)?;
    let init = Vec::from_slice(alloc, init)?;
    Ok(Setup::of_parts(entries, init, contexts, calls, seed))
}

impl Setup {
    ghost use Rattle.std.specs.Prelude.{◌<◌, ◌≤◌};
    ghost use Rattle.bp_machine.specs.declared.limits.TheConstants.{MAX_CONTEXTS, MAX_CALLS};

    pub(crate) fn of_parts(
        entries: Vec<String>,
        init: Vec<bool>,
        contexts: u32,
        calls: u32,
        seed: Option<u64>,
    ) -> Setup
        requires { let names = map string_bytes entries.items in
            IsInRange (setup_of names init.items contexts calls seed) }
        ensures { let names = map string_bytes entries.items in
            result ≡ setup_of names init.items contexts calls seed }
    {
        Setup {
            entries,
            init,
            contexts,
            calls,
            seed,
        }
    }

    /// Makes the setup of guest threads that begin in the procedures `entries`. `init` has the
    /// initial bits of the globals in order of declaration. At most `contexts` contexts are
    /// allowed, and at most `calls` attempts of each thread. With a seed each attempt has its
    /// choice bit, else the one given.
    pub fn new(
        alloc: Global,
        code: &Code,
        entries: &[String],
        init: &[bool],
        contexts: u32,
        calls: u32,
        seed: Option<u64>,
    ) -> Result<Setup, SetupError>
        ensures answer { let names = map string_bytes entries.now in
            let given = setup_of names init.now contexts calls seed in
            let t = code.now.tree in MatchResult result
            (λ s. (s ≡ given) × (setup_error t given ≡ None))
            (IsSetupRefusal t given) }
        ensures taken { IfOk result (λ s. Fits code.now.tree s × IsInRange s × (s.seed ≡ seed)) }
    {
        code.is_of_a_program();
        match error_of_setup(code, entries, init, contexts, calls) {
            Some(error) => Err(error),
            None => Ok(kept(alloc, entries, init, contexts, calls, seed)?),
        }
    }

    /// Proves that the numbers of every setup are within their limits, and that it has no more
    /// initial bits than a program may have globals.
    pub fn is_in_range(&self)
        ensures { IsInRange self.now }
    {
        let _ = &self.contexts;
    }

    /// Returns the names of the entry procedures, thread 0 first.
    pub fn entries(&self) -> &[String]
        ensures { map string_bytes result.now ≡ self.now.entries }
    {
        self.entries.as_slice()
    }

    /// Returns the initial bits of the globals.
    pub fn bits(&self) -> &[bool]
        ensures { result.now ≡ self.now.init }
    {
        self.init.as_slice()
    }

    /// Returns the number of guest threads: 1 to 64.
    pub fn threads(&self) -> u32
        ensures { result ≡ threads self.now }
    {
        self.entries.len() as u32
    }

    /// Returns the name of a thread's entry procedure.
    pub fn entry(&self, thread: u32) -> Option<&str>
        ensures { option_map (λ n. n.now) result ≡ slice_get self.now.entries thread }
    {
        match self.entries.get(thread as usize) {
            Some(name) => Some(name.as_str()),
            None => None,
        }
    }

    /// Returns the initial bit of a global, by its index in the declarations from 0.
    pub fn init(&self, n: u32) -> Option<bool>
        ensures { result ≡ slice_get self.now.init n }
    {
        self.init.get(n as usize).copied()
    }

    /// Returns the allowed number of contexts: at most 1,000.
    pub fn contexts(&self) -> u32
        ensures { result ≡ self.now.contexts }
    {
        self.contexts
    }

    /// Returns the allowed number of attempts of each thread: 1 to 100,000.
    pub fn calls(&self) -> u32
        ensures { result ≡ self.now.calls }
    {
        self.calls
    }

    /// Returns the seed of the choice bits, unless they are given.
    pub fn seed(&self) -> Option<u64>
        ensures { result ≡ self.now.seed }
    {
        self.seed
    }

    /// Returns the setup with this seed, or none.
    pub fn with_seed(self, seed: Option<u64>) -> Setup
        ensures { result ≡ record self { seed = seed } }
    {
        Setup { seed, ..self }
    }

    /// Returns the setup with these bounds on the contexts and on the attempts of a thread.
    pub fn with_bounds(self, contexts: u32, calls: u32) -> Setup
        requires contexts { contexts ≤ MAX_CONTEXTS }
        requires one { 0 < calls }
        requires calls { calls ≤ MAX_CALLS }
        ensures { result ≡ record self { contexts = contexts; calls = calls } }
    {
        Setup {
            contexts,
            calls,
            ..self
        }
    }

    /// Gives the setup this seed, or none.
    pub(crate) fn set_seed(&mut self, seed: Option<u64>)
        ensures { self.new ≡ record self.old { seed = seed } }
    {
        self.seed = seed;
    }

    /// Returns whether each entry is a procedure of this code without formals, and there is one bit
    /// for each of its globals.
    pub fn fits(&self, code: &Code) -> bool
        ensures { IsTrue result ↔ Fits code.now.tree self.now }
    {
        error_of_entries(code, self.entries.as_slice()).is_none()
            && self.init.len() == code.globals() as usize
    }

    /// Copies the setup. Each session keeps a copy of its own.
    pub fn try_copy(&self) -> Result<Setup, AllocError>
        ensures { IfOk result (λ s. s ≡ self.now) }
    {
        kept(
            *self.entries.allocator(),
            self.entries.as_slice(),
            self.init.as_slice(),
            self.contexts,
            self.calls,
            self.seed,
        )
    }
}
