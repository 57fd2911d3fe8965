//! The least error of a program. The least error: by place, and at one place by number. An error
//! that was found, with its place.
ghost use Rattle.std.specs.Prelude.{◌≡◌, MatchResult, IfOk};
ghost use Rattle.bp_syntax.specs.Errors.{IsWellFormed, check_error_number, check_error_place, IsError};
ghost use Rattle.bp_code.specs.Refusals.{IsRefusal};
ghost use Rattle.bp_code.specs.Sets.{IsErrorOfProcedures, Finds, least_of};

use crate::procedures::procedure_error;
use crate::tables::{NameTable, error_of_names};
use crate::uses::Callees;
use bp_syntax::limits::{MAX_GLOBALS, MAX_PROCEDURES};
use bp_syntax::{CheckError, Checked, Name, Proc, Tree};
use std::alloc::{AllocError, Global};

/// Why a tree is refused, with the tree.
#[derive(Drop)]
pub struct CheckRefusal {
    /// The error with the least place, and at one place with the least number.
    pub error: CheckError,
    /// The offset in the text at which its name begins; 0 for `Memory`.
    pub at: u32,
    /// The tree, returned so that the caller can still use it.
    pub tree: Tree,
}

impl CheckRefusal {
    /// Returns the number by which users know the error.
    pub fn number(&self) -> u32
        ensures { result ≡ check_error_number self.now.error }
    {
        self.error.number()
    }

    /// Returns the offset in the text at which the error's name begins; None for `Memory`.
    pub fn place(&self) -> Option<u32>
        ensures { result ≡ check_error_place self.now.error self.now.at }
    {
        match self.error {
            CheckError::Memory => None,
            _ => Some(self.at),
        }
    }
}

/// Accepts the trees without errors, and no others. Without enough memory returns `Memory`.
pub fn check(alloc: Global, tree: Tree) -> Result<Checked, CheckRefusal>
    ensures well_formed { MatchResult result
        (λ c. (c ≡ tree) × IsWellFormed tree)
        (λ r. (r.tree ≡ tree) × IsRefusal tree r.error r.at) }
{
    match program_error(alloc, tree.globals(), tree.procs()) {
        Ok(None) => Ok(Checked::new(tree)),
        Ok(Some(Found { error, at })) => Err(CheckRefusal { error, at, tree }),
        Err(_) => Err(CheckRefusal {
            error: CheckError::Memory,
            at: 0,
            tree,
        }),
    }
}

/// Returns the least error inside procedures.
fn error_of_procedures<'a>(
    alloc: Global,
    globals: &NameTable<'a>,
    callees: &Callees<'_>,
    procs: &'a [Proc],
) -> Result<Option<Found>, AllocError>
    ensures { IfOk result (Finds (IsErrorOfProcedures globals.now callees.now procs.now)) }
{
    let mut best = None;
    for proc in procs {
        let found = procedure_error(alloc, globals, callees, proc)?;
        best = least(best, found);
    }
    Ok(best)
}

/// Returns the least error of the program with these globals and procedures.
pub(crate) fn program_error<'a>(
    alloc: Global,
    globals: &'a [Name],
    procs: &'a [Proc],
) -> Result<Option<Found>, AllocError>
    ensures { IfOk result
        (Finds (IsError (record { globals = globals.now; procedures = procs.now }))) }
{
    let known = NameTable::of(alloc, globals)?;
    let callees = Callees::new(alloc, procs)?;
    let first = error_of_names(&known, CheckError::TwiceGlobal, MAX_GLOBALS);
    let second = error_of_names(callees.names(), CheckError::TwiceProcedure, MAX_PROCEDURES);
    let third = error_of_procedures(alloc, &known, &callees, procs)?;
    Ok(least(first, least(second, third)))
}

/// Returns the least of two errors, if there are two.
pub(crate) fn least(a: Option<Found>, b: Option<Found>) -> Option<Found>
    ensures { result ≡ least_of a b }
{
    match (a, b) {
        (Some(f), Some(g)) => {
            let before = f.at < g.at || (f.at == g.at && f.error.number() <= g.error.number());
            if before { Some(f) } else { Some(g) }
        }
        (None, b) => b,
        (a, None) => a,
    }
}

/// An error at a place of the text.
#[derive(Clone, Copy)]
pub struct Found {
    pub error: CheckError,
    /// The offset of the byte at which the name begins.
    pub at: u32,
}
