//! Names that are found by their texts.
//! Names that appear twice in a list, or past its limit.
ghost use Rattle.std.specs.Prelude.{◌≡◌, ◌++◌, OnOk, IfOk, map, take};
ghost use Rattle.bp_syntax.specs.Ast.{variables};
ghost use Rattle.bp_syntax.specs.Errors.{has, first_index, IsTwice, IsPast};
ghost use Rattle.bp_code.specs.Sets.{names_of, HasFirstIndices, Only, IsErrorOfNames, Finds};

use crate::checks::{Found, least};
use bp_syntax::{CheckError, Name, Proc};
use std::alloc::{AllocError, Global};
use std::collections::BTreeMap;
use std::marker::Model;

/// Names in order, each of which is found by its text without a walk over the others.
pub struct NameTable<'a> {
    names: Vec<&'a Name>,
    /// For each text the index of the first name with it.
    first: BTreeMap<&'a str, usize>,
}

// Written out, so that elsewhere a way out has one call, and not the drop of each part.
impl Drop for NameTable<'_> {
    fn drop(self) {
        let NameTable { names: _, first: _ } = self;
    }
}

impl<'a> Model for NameTable<'a> {
    ghost use Rattle.std.specs.Prelude.{List};
    ghost use Rattle.std.specs.Coded.{coded_list};
    ghost use Rattle.bp_syntax.specs.Ast as ast;
    ghost use Rattle.bp_syntax.specs.Codes.{coded_name};
    ghost use Rattle.bp_code.specs.Sets.{names_of, HasFirstIndices};

    ghost Value = { List ast.Name };

    ghost coded = { coded_list coded_name };

    ghost view = { λ t. names_of t.names.items };

    ghost invariant = { λ t. HasFirstIndices t.first (names_of t.names.items) };
}

impl<'a> NameTable<'a> {
    pub(crate) fn new(alloc: Global, names: Vec<&'a Name>) -> Result<NameTable<'a>, AllocError>
        ensures { IfOk result (λ t. t ≡ names_of names.entry.items) }
    {
        let first = first_indices(alloc, &names)?;
        Ok(NameTable { names, first })
    }

    /// Makes the table of a list of names. Fails only on allocation.
    pub fn of(alloc: Global, names: &'a [Name]) -> Result<NameTable<'a>, AllocError>
        ensures { IfOk result (λ t. t ≡ names.now) }
    {
        let mut all = Vec::new(alloc);
        gather(&mut all, names)?;
        NameTable::new(alloc, all)
    }

    /// Makes the table of a procedure's formals and then its declared locals. Fails only on
    /// allocation.
    pub fn of_variables(alloc: Global, proc: &'a Proc) -> Result<NameTable<'a>, AllocError>
        ensures { IfOk result (λ t. t ≡ variables proc.now) }
    {
        let mut all = Vec::new(alloc);
        gather(&mut all, proc.formals())?;
        gather(&mut all, proc.locals())?;
        NameTable::new(alloc, all)
    }

    /// Makes the table of the names of procedures. Fails only on allocation.
    pub fn of_procedures(alloc: Global, procs: &'a [Proc]) -> Result<NameTable<'a>, AllocError>
        ensures { IfOk result (λ t. t ≡ map (λ q. q.name) procs.now) }
    {
        let mut all = Vec::new(alloc);
        gather_procedures(&mut all, procs)?;
        NameTable::new(alloc, all)
    }

    pub(crate) fn names(&self) -> &[&'a Name]
        ensures { names_of result.now ≡ self.now }
    {
        &self.names
    }

    /// Returns the index of the first name with this text.
    pub fn first(&self, text: &str) -> Option<usize>
        ensures { result ≡ first_index self.now text.now }
    {
        self.first.get(text).copied()
    }

    /// Returns whether a name has this text.
    pub(crate) fn has(&self, text: &str) -> bool
        ensures { result ≡ has self.now text.now }
    {
        self.first(text).is_some()
    }

    /// Returns whether one of the first `count` names has this text.
    pub(crate) fn has_before(&self, count: usize, text: &str) -> bool
        ensures { result ≡ has (take count self.now) text.now }
    {
        match self.first(text) {
            Some(first) => first < count,
            None => false,
        }
    }
}

fn gather<'a>(out: &mut Vec<&'a Name>, names: &'a [Name]) -> Result<(), AllocError>
    ensures { OnOk result (names_of out.new.items ≡ names_of out.old.items ++ names.now) }
{
    for name in names {
        out.push(name)?;
    }
    Ok(())
}

fn gather_procedures<'a>(out: &mut Vec<&'a Name>, procs: &'a [Proc]) -> Result<(), AllocError>
    ensures { OnOk result (names_of out.new.items
        ≡ names_of out.old.items ++ map (λ q. q.name) procs.now) }
{
    for proc in procs {
        out.push(proc.name())?;
    }
    Ok(())
}

/// Returns the index of the first name of each text. Names are inserted from the last on, so that
/// the earlier of two replaces the later.
fn first_indices<'a>(
    alloc: Global,
    names: &[&'a Name],
) -> Result<BTreeMap<&'a str, usize>, AllocError>
    ensures { IfOk result (λ m. HasFirstIndices m (names_of names.now)) }
{
    let mut first = BTreeMap::new(alloc);
    for i in (0..names.len()).rev() {
        let name: &'a Name = names[i];
        first.insert(name.text(), i)?;
    }
    Ok(first)
}

/// Returns the least place of a name with the text of an earlier one, as this error.
pub(crate) fn least_repeat(names: &NameTable<'_>, error: CheckError) -> Option<Found>
    ensures { Finds (Only error (IsTwice names.now)) result }
{
    let mut best = None;
    for (i, name) in names.names().iter().enumerate() {
        if names.has_before(i, name.text()) {
            best = least(
                best,
                Some(Found {
                    error,
                    at: name.at(),
                }),
            );
        }
    }
    best
}

fn first_past(names: &NameTable<'_>, limit: usize) -> Option<Found>
    ensures { Finds (Only CheckError.Limit (IsPast limit names.now)) result }
{
    let names = names.names();
    if limit >= names.len() {
        return None;
    }
    let name = names[limit];
    Some(Found {
        error: CheckError::Limit,
        at: name.at(),
    })
}

/// Returns the least error of names of one kind: one appears twice, or is the first past the limit.
pub(crate) fn error_of_names(
    names: &NameTable<'_>,
    error: CheckError,
    limit: usize,
) -> Option<Found>
    ensures { Finds (IsErrorOfNames error limit names.now) result }
{
    let found = least_repeat(names, error);
    least(found, first_past(names, limit))
}
