//! The start of a run of a program. Setups from a text: names may be any bytes, and numbers may be
//! too large.
ghost use Rattle.std.specs.Prelude.{◌≡◌, ◌≤◌, None, MatchResult, IfOk, ℕ, true, List, Some, map, length, slice_get, is_some, string_bytes};
ghost use Rattle.bp_syntax.specs.declared.limits.TheConstants.{MAX_GLOBALS};
ghost use Rattle.bp_flat.specs.Flat.{heading_named};
ghost use Rattle.bp_machine.specs.Setups.{setup_error, IsSetupRefusal, Fits, IsInRange, default_start, setup_from, setup_of, entries_error};
ghost use Rattle.bp_machine.specs.declared.limits.TheConstants.{MAX_THREADS};

use crate::limits::{DEFAULT_CALLS, DEFAULT_CONTEXTS, DEFAULT_ENTRY, MAX_THREADS};
use crate::setup_errors::{SetupError, error_of_entry, error_of_numbers};
use crate::setups::Setup;
use bp_flat::Code;
use bp_syntax::limits::MAX_GLOBALS;
use std::alloc::{AllocError, Global};
use std::marker::Model;

/// The start of a run, apart from the program and the seed.
#[derive(Drop)]
pub struct Start {
    /// The entry procedure of each guest thread, thread 0 first: 1 to 64 names.
    pub entries: Vec<String>,
    /// The initial bit of each global in order of declaration. If `None`, all are 0.
    pub init: Option<Vec<bool>>,
    /// The allowed number of contexts: at most 1,000.
    pub contexts: u32,
    /// The allowed number of attempts of each guest thread: 1 to 100,000.
    pub calls: u32,
}

impl Model for Start {
    ghost use Rattle.std.specs.Prelude.{map, string_bytes, option_map};
    ghost use Rattle.bp_machine.specs.Setups.{StartOf, start_with};

    ghost Value = { StartOf };

    ghost view = { λ s.
        let bits = option_map (λ v. v.items) s.init in
        start_with (map string_bytes s.entries.items) bits s.contexts s.calls };
}

/// Proves that a code has at most 128 globals.
fn has_few_globals(code: &Code)
    ensures { code.now.globals ≤ MAX_GLOBALS }
{
    code.is_of_a_program();
}

impl Start {
    /// Returns one thread that begins with `main`, globals 0, 2 contexts, and 1,000 attempts.
    pub fn defaults(alloc: Global) -> Result<Start, AllocError>
        ensures { IfOk result (λ s. s ≡ default_start) }
    {
        let mut entries = Vec::new(alloc);
        entries.push(String::from_str(alloc, DEFAULT_ENTRY)?)?;
        Ok(Start {
            entries,
            init: None,
            contexts: DEFAULT_CONTEXTS,
            calls: DEFAULT_CALLS,
        })
    }

    /// Makes the setup of the program of this code, with this seed or none.
    pub fn setup(&self, alloc: Global, code: &Code, seed: Option<u64>) -> Result<Setup, SetupError>
        ensures answer { let t = code.now.tree in let given = setup_from self.now seed t in
            MatchResult result
            (λ s. (s ≡ given) × (setup_error t given ≡ None))
            (IsSetupRefusal t given) }
        ensures taken { IfOk result (λ s. Fits code.now.tree s × IsInRange s × (s.seed ≡ seed)) }
    {
        has_few_globals(code);
        let zeros = [false; MAX_GLOBALS];
        let init = match &self.init {
            Some(bits) => bits.as_slice(),
            None => &zeros[..code.globals() as usize],
        };
        let (contexts, calls) = (self.contexts, self.calls);
        Setup::new(alloc, code, &self.entries, init, contexts, calls, seed)
    }
}

/// Returns the first error of the entries.
fn error_of_names(code: &Code, entries: &[&[u8]]) -> Option<SetupError>
    requires { length entries.now ≤ MAX_THREADS }
    ensures { result ≡ entries_error code.now.tree 0 (map (λ n. n.now) entries.now) }
{
    for (thread, name) in entries.iter().enumerate() {
        let error = error_of_entry(code, thread as u32, name);
        if error.is_some() {
            return error;
        }
    }
    None
}

/// Returns the first error of a setup with these names, apart from memory.
fn error_of_named(
    code: &Code,
    entries: &[&[u8]],
    init: &[bool],
    contexts: u64,
    calls: u64,
) -> Option<SetupError>
    ensures { let given = setup_of (map (λ n. n.now) entries.now) init.now contexts calls None in
        result ≡ setup_error code.now.tree given }
{
    if entries.is_empty() || entries.len() > MAX_THREADS {
        return Some(SetupError::Threads);
    }
    if let Some(error) = error_of_names(code, entries) {
        return Some(error);
    }
    error_of_numbers(code, init, contexts, calls)
}

/// Returns the names of the procedures that these bytes name.
fn own_names(alloc: Global, code: &Code, entries: &[&[u8]]) -> Result<Vec<String>, AllocError>
    requires { (i : ℕ) (name : List ℕ)
        → slice_get (map (λ n. n.now) entries.now) i ≡ Some name
        → is_some (heading_named code.now.headings name) ≡ true }
    ensures { IfOk result (λ v. map string_bytes v.items ≡ map (λ n. n.now) entries.now) }
{
    let mut names = Vec::new(alloc);
    for name in entries {
        let Some(heading) = code.heading_of(name) else {
            unreachable!()
        };
        names.push(String::from_str(alloc, heading.name())?)?;
    }
    Ok(names)
}

impl Setup {
    /// As `new`, but from a text: a name of no procedure may be any bytes, and a number may be too
    /// large for its type, and then is out of its range.
    pub fn from_names(
        alloc: Global,
        code: &Code,
        entries: &[&[u8]],
        init: &[bool],
        contexts: u64,
        calls: u64,
        seed: Option<u64>,
    ) -> Result<Setup, SetupError>
        ensures answer { let names = map (λ n. n.now) entries.now in
            let given = setup_of names init.now contexts calls seed in
            let t = code.now.tree in MatchResult result
            (λ s. (s ≡ given) × (setup_error t given ≡ None))
            (IsSetupRefusal t given) }
        ensures taken { IfOk result (λ s. Fits code.now.tree s × IsInRange s × (s.seed ≡ seed)) }
    {
        code.is_of_a_program();
        if let Some(error) = error_of_named(code, entries, init, contexts, calls) {
            return Err(error);
        }
        let names = own_names(alloc, code, entries)?;
        let bits = Vec::from_slice(alloc, init)?;
        Ok(Setup::of_parts(names, bits, contexts as u32, calls as u32, seed))
    }
}
