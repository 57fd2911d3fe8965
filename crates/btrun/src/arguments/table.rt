//! The table of commands: the arguments and the help of each. The commands by their names.
ghost use Rattle.std.specs.Prelude.{◌≡◌, MatchOption, false, map, IfOk};
ghost use Rattle.clap.specs.Words.{app_of};
ghost use Rattle.clap.specs.Simple.{new_app};
ghost use Rattle.clap.specs.declared.builder.command.Command.TheViews.{out-Command};
ghost use Rattle.btrun.specs.Values.{command_name};
ghost use Rattle.btrun.specs.declared.arguments.table.Named.{Named as Either};
ghost use Rattle.btrun.specs.Commands.{advanced_rules, command_app, command_rules, file_rules, row_rule, with_rules};

use crate::arguments::files::FILE_ROWS;
use crate::arguments::rows::{Subcommand, with_rows};
use crate::arguments::{check, code, confirm, drive, explore, run, show, test, trace};
use clap::Command;
use std::alloc::{AllocError, Global};

/// A command that has a name.
#[derive(Clone, Copy)]
pub enum Named {
    Check,
    Code,
    Drive,
    Confirm,
    Run,
    Test,
    Explore,
    Replay,
    Show,
    Migrate,
    Shrink,
}

/// The commands that have a name, in the order of the help.
pub const NAMED: [Named; 11] = [
    Named::Check,
    Named::Code,
    Named::Drive,
    Named::Confirm,
    Named::Run,
    Named::Test,
    Named::Explore,
    Named::Replay,
    Named::Show,
    Named::Migrate,
    Named::Shrink,
];

/// Returns the name, the help and the arguments of a command.
fn subcommand_of<'a>(command: Named) -> &'a Subcommand<'a>
    ensures name { result.now.name.now ≡ command_name command }
    ensures rules { map row_rule result.now.rows.now ≡ command_rules command }
    ensures advanced { map row_rule result.now.advanced.now ≡ advanced_rules command }
{
    match command {
        Named::Check => &check::CHECK,
        Named::Code => &code::CODE,
        Named::Drive => &drive::DRIVE,
        Named::Confirm => &confirm::CONFIRM,
        Named::Run => &run::RUN,
        Named::Test => &test::TEST,
        Named::Explore => &explore::EXPLORE,
        Named::Replay => &trace::REPLAY,
        Named::Show => &show::SHOW,
        Named::Migrate => &trace::MIGRATE,
        Named::Shrink => &trace::SHRINK,
    }
}

/// Returns the command of this name, if there is one.
pub fn command_named(name: &str) -> Option<Named>
    ensures { MatchOption result
        ((other : Either) → name.now ≡ command_name other → ⊥)
        (λ command. name.now ≡ command_name command) }
{
    let all = NAMED;
    for command in &all {
        if name == subcommand_of(*command).name {
            return Some(*command);
        }
    }
    None
}

/// Makes a command with this name and this help, and with the first arguments of each command.
fn file_command<'a>(alloc: Global, row: &Subcommand<'a>) -> Result<Command<'a>, AllocError>
    ensures { let app = with_rules (new_app row.now.name.now) file_rules in
        IfOk result (λ c. (app_of c ≡ app) × ((out-Command c).has_globals ≡ false)) }
{
    let command = Command::new(alloc, row.name)
        .about(row.about)
        .after_help(row.notes);
    with_rows(alloc, command, &FILE_ROWS)
}

/// Makes a command with all its arguments, its options and its help.
pub fn with_help<'a>(alloc: Global, command: Named) -> Result<Command<'a>, AllocError>
    ensures { let app = command_app command in
        IfOk result (λ c. (app_of c ≡ app) × ((out-Command c).has_globals ≡ false)) }
{
    let row = subcommand_of(command);
    let file = file_command(alloc, row)?;
    let usual = with_rows(alloc, file, row.rows)?;
    with_rows(alloc, usual.next_help_heading("Advanced"), row.advanced)
}
