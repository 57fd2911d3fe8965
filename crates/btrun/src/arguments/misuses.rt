//! Errors in options that `clap` accepts one by one.
ghost use Rattle.std.specs.Prelude.{◌≡◌, find, option_copied};
ghost use Rattle.clap.specs.Words.{found_of, rows_of, subcommand_rows_of};
ghost use Rattle.btrun.specs.Misuses.{are_on_line, backwards_in, is_from_line, is_on_line, misuse_in, misuse_kind, misuse_of, option_name};

use crate::arguments::values::{given_long_number, has_bad_init, has_bad_verdict};
use clap::ArgMatches;
use clap::error::ErrorKind;
use clap::parser::ValueSource;
use std::alloc::{AllocError, Global};

/// An option that clashes with another one.
#[derive(Clone, Copy)]
pub enum OptionName {
    At,
    Contexts,
    Steps,
    Valid,
    Through,
    Deadlock,
    Thread,
    Last,
    From,
    To,
    Watch,
    Fold,
    State,
    Brief,
    Json,
    Explain,
    NoExplain,
}

/// An error in options that are valid one by one.
#[derive(Clone, Copy)]
pub enum Misuse {
    /// The initial bits are neither bits nor different names with bits.
    BadInit,
    /// The expected verdict is not a verdict.
    BadVerdict,
    /// With the first of these options, the second has no effect.
    Together(OptionName, OptionName),
    /// The first attempt to show, this one, comes after the last, that one.
    Backwards(u64, u64),
}

/// The options that clash: with the first of a pair, the second has no effect. Earlier pairs are
/// reported first.
pub const CLASHES: [(OptionName, OptionName); 31] = [
    (OptionName::At, OptionName::Contexts),
    (OptionName::At, OptionName::Steps),
    (OptionName::At, OptionName::Thread),
    (OptionName::At, OptionName::Last),
    (OptionName::At, OptionName::From),
    (OptionName::At, OptionName::To),
    (OptionName::At, OptionName::Watch),
    (OptionName::At, OptionName::Fold),
    (OptionName::At, OptionName::State),
    (OptionName::At, OptionName::Brief),
    (OptionName::Contexts, OptionName::Steps),
    (OptionName::Contexts, OptionName::Thread),
    (OptionName::Contexts, OptionName::Last),
    (OptionName::Contexts, OptionName::From),
    (OptionName::Contexts, OptionName::To),
    (OptionName::Contexts, OptionName::Watch),
    (OptionName::Contexts, OptionName::Fold),
    (OptionName::Contexts, OptionName::State),
    (OptionName::Contexts, OptionName::Brief),
    (OptionName::Steps, OptionName::Thread),
    (OptionName::Steps, OptionName::Last),
    (OptionName::Steps, OptionName::From),
    (OptionName::Steps, OptionName::To),
    (OptionName::Steps, OptionName::Watch),
    (OptionName::Steps, OptionName::Fold),
    (OptionName::Steps, OptionName::State),
    (OptionName::Steps, OptionName::Brief),
    (OptionName::Steps, OptionName::Valid),
    (OptionName::Through, OptionName::Deadlock),
    (OptionName::Json, OptionName::Fold),
    (OptionName::Explain, OptionName::NoExplain),
];

/// Returns the name of an option, without the dashes before it.
fn option_name(option: OptionName) -> &'static str
    ensures { result.now ≡ option_name option }
{
    match option {
        OptionName::At => "at",
        OptionName::Contexts => "contexts",
        OptionName::Steps => "steps",
        OptionName::Valid => "valid",
        OptionName::Through => "through",
        OptionName::Deadlock => "deadlock",
        OptionName::Thread => "thread",
        OptionName::Last => "last",
        OptionName::From => "from",
        OptionName::To => "to",
        OptionName::Watch => "watch",
        OptionName::Fold => "fold",
        OptionName::State => "state",
        OptionName::Brief => "brief",
        OptionName::Json => "json",
        OptionName::Explain => "explain",
        OptionName::NoExplain => "no-explain",
    }
}

fn is_from_line(source: Option<ValueSource>) -> bool
    ensures { result ≡ is_from_line source }
{
    matches!(source, Some(ValueSource::CommandLine))
}

/// Returns whether the arguments gave an option. A default does not count.
fn is_on_line(arguments: &ArgMatches<'_>, option: OptionName) -> bool
    ensures { result ≡ is_on_line (rows_of (found_of arguments.now)) option }
{
    is_from_line(arguments.value_source(option_name(option)))
}

/// Returns whether the arguments gave both options.
fn are_on_line(arguments: &ArgMatches<'_>, pair: (OptionName, OptionName)) -> bool
    ensures { result ≡ are_on_line (rows_of (found_of arguments.now)) pair }
{
    is_on_line(arguments, pair.0) && is_on_line(arguments, pair.1)
}

/// Returns the first of these pairs whose options were both given, or None.
fn first_given<'p>(
    arguments: &ArgMatches<'_>,
    pairs: &'p [(OptionName, OptionName)],
) -> Option<&'p (OptionName, OptionName)>
    ensures { let rows = rows_of (found_of arguments.now) in
        option_copied result ≡ find (are_on_line rows) pairs.now }
{
    pairs.iter().find(|pair| are_on_line(arguments, **pair))
}

/// Returns the first and the last attempt to show, if the first comes after the last.
fn backwards_in(arguments: &ArgMatches<'_>) -> Option<(u64, u64)>
    ensures { result ≡ backwards_in (rows_of (found_of arguments.now)) }
{
    let from = given_long_number(arguments, "from")?;
    let to = given_long_number(arguments, "to")?;
    if to < from { Some((from, to)) } else { None }
}

/// Returns the error in the options of a command: the first that applies.
fn misuse_in(arguments: &ArgMatches<'_>) -> Option<Misuse>
    ensures { result ≡ misuse_in (rows_of (found_of arguments.now)) }
{
    if has_bad_init(arguments) {
        return Some(Misuse::BadInit);
    }
    if has_bad_verdict(arguments) {
        return Some(Misuse::BadVerdict);
    }
    if let Some((first, second)) = first_given(arguments, &CLASHES) {
        return Some(Misuse::Together(*first, *second));
    }
    let (from, to) = backwards_in(arguments)?;
    Some(Misuse::Backwards(from, to))
}

/// Returns the error in the options of the command that the arguments name.
pub fn misuse_of(matches: &ArgMatches<'_>) -> Option<Misuse>
    ensures { result ≡ misuse_of (subcommand_rows_of matches.now) }
{
    match matches.subcommand() {
        Some((_, arguments)) => misuse_in(arguments),
        None => None,
    }
}

/// Returns the kind of error of a misuse.
pub fn misuse_kind(misuse: Misuse) -> ErrorKind
    ensures { result ≡ misuse_kind misuse }
{
    match misuse {
        Misuse::Together(_, _) => ErrorKind::ArgumentConflict,
        _ => ErrorKind::InvalidValue,
    }
}

/// Returns the message on a misuse.
pub fn misuse_text(alloc: Global, misuse: Misuse) -> Result<String, AllocError> {
    match misuse {
        Misuse::BadInit => {
            format!(in alloc;
                "the value of '--init' is neither bits, as 10, nor \
                different globals with bits, as valid=1,freed=0"
            )
        }
        Misuse::BadVerdict => format!(in alloc; "--expect takes failure, deadlock or run"),
        Misuse::Together(first, second) => {
            let (first, second) = (option_name(first), option_name(second));
            format!(in alloc; "--{first} and --{second} cannot be used together")
        }
        Misuse::Backwards(from, to) => format!(in alloc; "--from {from} is after --to {to}"),
    }
}
