//! Headings of procedures.
ghost use Rattle.std.specs.Prelude.{◌≡◌, string_bytes};
ghost use Rattle.std.specs.Option.{option_copied};
ghost use Rattle.bp_flat.specs.Flat.{heading, heading_named};

use std::alloc::AllocError;
use std::marker::Model;

/// A procedure: its name, its numbers of formals and of declared locals, and the number of its
/// first instruction.
#[derive(Drop)]
pub struct Heading {
    name: String,
    formals: u32,
    locals: u32,
    entry: u32,
}

impl Model for Heading {
    ghost use Rattle.std.specs.Prelude.{string_bytes};
    ghost use Rattle.bp_flat.specs.Flat as flat;
    ghost use Rattle.bp_flat.specs.Codes.{coded_heading};

    ghost Value = { flat.Heading };

    ghost coded = { coded_heading };

    ghost view = { λ h. flat.heading (string_bytes h.name) h.formals h.locals h.entry };
}

impl Heading {
    /// Makes the heading with this name and these numbers.
    pub fn new(name: String, formals: u32, locals: u32, entry: u32) -> Heading
        ensures { result ≡ heading (string_bytes name) formals locals entry }
    {
        Heading {
            name,
            formals,
            locals,
            entry,
        }
    }

    /// Returns the procedure's name.
    pub fn name(&self) -> &str
        ensures { result.now ≡ self.now.name }
    {
        self.name.as_str()
    }

    /// Returns the number of formals.
    pub fn formals(&self) -> u32
        ensures { result ≡ self.now.formals }
    {
        self.formals
    }

    /// Returns the number of declared locals.
    pub fn locals(&self) -> u32
        ensures { result ≡ self.now.locals }
    {
        self.locals
    }

    /// Returns the number of the procedure's first instruction.
    pub fn entry(&self) -> u32
        ensures { result ≡ self.now.entry }
    {
        self.entry
    }
}

/// Returns the first heading with a name.
pub(crate) fn find_heading<'a>(headings: &'a [Heading], name: &[u8]) -> Option<&'a Heading>
    ensures { option_copied result ≡ heading_named headings.now name.now }
{
    headings.iter().find(|h| h.name().as_bytes() == name)
}
