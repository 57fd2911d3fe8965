//! The setup of a command whose globals may have their initial bits by name.
ghost use Rattle.std.specs.Prelude.{MatchResult, IfOk, ◌≡◌, None};
ghost use Rattle.bp_machine.specs.Setups.{Fits, IsInRange};
ghost use Rattle.bp_commands.specs.Programs.{IsNotOpened, IsOpened};

use bp_code::{code_of, well_formed_program};
use bp_flat::Code;
use bp_machine::{Setup, Start};
use bp_messages::Error;
use bp_source::{NamedBits, NamedStart};
use std::alloc::{AllocError, Global};

/// The code of a program, with a setup that the program accepts.
#[derive(Drop)]
pub(crate) struct Opened {
    pub(crate) code: Code,
    pub(crate) setup: Setup,
}

/// Makes the code of a text and the setup of a start, in which the named globals have their bits.
pub(crate) fn open(
    alloc: Global,
    text: &[u8],
    start: &Start,
    named: &NamedBits<'_>,
) -> Result<Opened, Error>
    ensures answer { MatchResult result
        (λ x. IsOpened start.now named.now text.now x.code.tree x.setup)
        (IsNotOpened start.now named.now text.now) }
    ensures taken { IfOk result (λ x.
        Fits x.code.tree x.setup × IsInRange x.setup × (x.setup.seed ≡ None)) }
{
    let code = code_of(alloc, text)?;
    if named.is_empty() {
        let setup = start.setup(alloc, &code, None)?;
        return Ok(Opened { code, setup });
    }
    let checked = code.checked();
    if let Some(number) = named.unknown(checked) {
        return Err(Error::NoVariable(number));
    }
    let start = named.start_by_names(alloc, checked, start)?;
    let setup = start.setup(alloc, &code, None)?;
    Ok(Opened { code, setup })
}

/// Returns the start with the bits of the globals that are named in it, for the explanation of a
/// later error; None if none are named, or if the program lacks one. Fails only on allocation.
pub(crate) fn start_of_run(
    alloc: Global,
    text: &[u8],
    asked: NamedStart<'_>,
) -> Result<Option<Start>, AllocError> {
    let NamedStart { start, named } = asked;
    if named.is_empty() {
        return Ok(None);
    }
    let checked = match well_formed_program(alloc, text).map_err(Error::from) {
        Ok(checked) => checked,
        Err(Error::Memory) => return Err(AllocError),
        Err(_) => return Ok(None),
    };
    if named.unknown(&checked).is_some() {
        return Ok(None);
    }
    Ok(Some(named.start_by_names(alloc, &checked, start)?))
}
