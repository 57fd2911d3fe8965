//! The command `check`.
//! The command `code`.
ghost use Rattle.std.specs.Prelude.{◌≡◌, IfOk};
ghost use Rattle.bp_text.specs.Writing.{Writes};
ghost use Rattle.bp_code.specs.CompiledCode.{flat_of};
ghost use Rattle.bp_code.specs.Listing.{listing_text};
ghost use Rattle.bp_commands.specs.Programs.{check_line, IsListingText};

use crate::commands::ProgramCommand;
use bp_code::{Checked, compile, list, well_formed_program};
use bp_flat::Code;
use bp_messages::Error;
use bp_source::{CheckTask, CodeTask, ListingForm, code_objects, program_object, sourced_listing};
use bp_text::Piece::{Bytes, Number};
use bp_text::{WriteError, put, put_pieces};
use std::alloc::{AllocError, Global};
use std::io::Write;

/// Writes `ok P G` and a line feed: the numbers of procedures and of globals that a well-formed
/// program has.
pub fn show_check<W: Write>(checked: &Checked, out: &mut W) -> Result<(), WriteError>
    ensures { Writes (W.contents out.old) (W.contents out.new) (check_line checked.now) result }
{
    let tree = checked.tree();
    put_pieces(
        out,
        &[
            Bytes(b"ok "),
            Number(tree.procs().len() as u64),
            Bytes(b" "),
            Number(tree.globals().len() as u64),
            Bytes(b"\n"),
        ],
    )
}

/// `check`: writes `ok P G` with the numbers of a program's procedures and globals, or an object
/// with their names.
impl ProgramCommand for CheckTask<'_> {
    ghost use Rattle.bp_commands.specs.Programs.{checks};

    type Answer = ();

    ghost command = { λ x. checks x.json };

    ghost allowed = { λ _. Unit {0} };

    fn apply<W: Write>(&self, alloc: Global, text: &[u8], out: &mut W) -> Result<(), Error> {
        let checked = well_formed_program(alloc, text)?;
        if self.json {
            put(out, &program_object(alloc, &checked)?)?;
        } else {
            show_check(&checked, out)?;
        }
        Ok(())
    }
}

/// Returns the listing of a program's code.
fn plain(alloc: Global, code: &Code) -> Result<Vec<u8>, AllocError>
    ensures { IfOk result (λ v. v.items ≡ listing_text code.now) }
{
    let mut listing = Vec::new(alloc);
    // A vector takes all bytes, unless memory is refused.
    match list(code, &mut listing) {
        Ok(()) => Ok(listing),
        Err(_) => Err(AllocError),
    }
}

/// Returns the listing of a program's code in this form.
fn listing_in(
    alloc: Global,
    form: ListingForm,
    text: &[u8],
    code: &Code,
) -> Result<Vec<u8>, AllocError>
    requires { code.now ≡ flat_of code.now.tree }
    ensures { IfOk result (λ v. IsListingText form text.now code.now.tree v.items) }
{
    match form {
        ListingForm::Lines => plain(alloc, code),
        ListingForm::Sourced => {
            let listing = plain(alloc, code)?;
            sourced_listing(alloc, text, code.checked(), &listing)
        }
        ListingForm::Json => code_objects(alloc, text, code),
    }
}

/// `code`: writes the listing of a program's code, with the source of each instruction or without.
impl ProgramCommand for CodeTask<'_> {
    ghost use Rattle.bp_commands.specs.Programs.{lists};

    type Answer = ();

    ghost command = { λ x. lists x.form };

    ghost allowed = { λ _. Unit {0} };

    fn apply<W: Write>(&self, alloc: Global, text: &[u8], out: &mut W) -> Result<(), Error> {
        let checked = well_formed_program(alloc, text)?;
        let code = compile(alloc, &checked)?;
        let listing = listing_in(alloc, self.form, text, &code)?;
        put(out, &listing)?;
        Ok(())
    }
}
