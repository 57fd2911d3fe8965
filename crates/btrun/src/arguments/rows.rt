//! The arguments of commands, by rows of a table.
ghost use Rattle.std.specs.Prelude.{◌≡◌, false, map, IfOk};
ghost use Rattle.clap.specs.Words.{app_of, rule_of};
ghost use Rattle.clap.specs.declared.builder.command.Command.TheViews.{out-Command};
ghost use Rattle.btrun.specs.Commands.{option_rule, row_rule, with_rules};

use clap::{Arg, ArgAction, Command, value_parser};
use std::alloc::{AllocError, Global};

/// An argument of a command: its name and its help.
#[derive(Clone, Copy)]
pub enum Row<'a> {
    /// One required value.
    Required(&'a str, &'a str),
    /// Any number of values.
    Values(&'a str, &'a str),
    /// An option without a value.
    Flag(&'a str, &'a str),
    /// An option whose value is a number of 32 bits.
    Number(&'a str, &'a str),
    /// An option whose value is a number of 64 bits.
    LongNumber(&'a str, &'a str),
    /// An option with a text as its value, which help calls by the name in the middle.
    Text(&'a str, &'a str, &'a str),
}

/// A command that has a name.
#[derive(Clone, Copy)]
pub struct Subcommand<'a> {
    pub name: &'a str,
    /// The first line of its help, also shown in the help of the program next to its name.
    pub about: &'a str,
    /// The text of its help after the arguments.
    pub notes: &'a str,
    /// Its arguments after the file and the flags on explanations.
    pub rows: &'a [Row<'a>],
    /// Its options under the heading 'Advanced'.
    pub advanced: &'a [Row<'a>],
}

/// Makes an option that has a value.
fn option<'a>(alloc: Global, name: &'a str, value: &'a str, help: &'a str) -> Arg<'a>
    ensures { (rule_of result ≡ option_rule name.now) × (result.global ≡ false) }
{
    Arg::new(alloc, name)
        .long(name)
        .value_name(value)
        .help(help)
}

/// Makes the argument of a row.
fn argument<'a>(alloc: Global, row: Row<'a>) -> Arg<'a>
    ensures { (rule_of result ≡ row_rule row.entry) × (result.global ≡ false) }
{
    match row {
        Row::Required(name, help) => Arg::new(alloc, name).required(true).help(help),
        Row::Values(name, help) => Arg::new(alloc, name).num_args(0..).help(help),
        Row::Flag(name, help) => Arg::new(alloc, name)
            .long(name)
            .action(ArgAction::SetTrue)
            .help(help),
        Row::Number(name, help) => option(alloc, name, "N", help).value_parser(value_parser!(u32)),
        Row::LongNumber(name, help) => {
            option(alloc, name, "N", help).value_parser(value_parser!(u64))
        }
        Row::Text(name, value, help) => option(alloc, name, value, help),
    }
}

/// Adds the arguments of these rows to a command, in order.
pub fn with_rows<'a>(
    alloc: Global,
    command: Command<'a>,
    rows: &[Row<'a>],
) -> Result<Command<'a>, AllocError>
    requires { (out-Command command).has_globals ≡ false }
    ensures { let app = with_rules (app_of command.entry) (map row_rule rows.now) in
        IfOk result (λ c. (app_of c ≡ app) × ((out-Command c).has_globals ≡ false)) }
{
    let mut command = command;
    for row in rows {
        command = command.arg(argument(alloc, *row))?;
    }
    Ok(command)
}
