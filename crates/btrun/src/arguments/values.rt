//! The values of arguments.
ghost use Rattle.std.specs.Prelude.{◌≡◌, map, string_bytes, option_map, IfOk};
ghost use Rattle.clap.specs.Words.{first_of, found_of, one_of, rows_of};
ghost use Rattle.bp_machine.specs.declared.limits.TheConstants.{DEFAULT_CONTEXTS};
ghost use Rattle.btrun.specs.Values.{bits_given, bits_in, entries_in, expected_in, has_bad_init, has_bad_verdict, given_number, init_in, is_bits, is_init, named_in, names_given, number_or, start_in, value_of, verdict_named, IsFlagOf};

use bp_machine::Start;
use bp_machine::limits::{DEFAULT_CALLS, DEFAULT_CONTEXTS, DEFAULT_ENTRY};
use bp_source::{NamedBits, Verdict, are_named_bits, gives_names, named_bits};
use clap::ArgMatches;
use std::alloc::{AllocError, Global};

/// Returns the text of an argument, if one is given.
pub fn given_text<'a>(arguments: &ArgMatches<'a>, name: &str) -> Option<&'a str>
    ensures { let given = first_of name.now (rows_of (found_of arguments.now)) in
        option_map (λ s. s.now) result ≡ given }
{
    arguments.get_str(name)
}

/// Returns the text of a required argument, or an empty text without it.
pub fn text<'a>(arguments: &ArgMatches<'a>, name: &str) -> &'a str
    ensures { result.now ≡ value_of name.now (rows_of (found_of arguments.now)) }
{
    given_text(arguments, name).unwrap_or("")
}

fn copies(alloc: Global, names: &[&str]) -> Result<Vec<String>, AllocError>
    ensures { IfOk result (λ v. map string_bytes v.items ≡ map (λ n. n.now) names.now) }
{
    let mut items = Vec::new(alloc);
    for name in names {
        items.push(String::from_str(alloc, name)?)?;
    }
    Ok(items)
}

/// Returns the entries of the threads.
pub fn entries(alloc: Global, arguments: &ArgMatches<'_>) -> Result<Vec<String>, AllocError>
    ensures { IfOk result
        (λ v. map string_bytes v.items ≡ entries_in (rows_of (found_of arguments.now))) }
{
    match arguments.get_strs("ENTRY") {
        Some(names) => copies(alloc, names),
        None => copies(alloc, &[DEFAULT_ENTRY]),
    }
}

fn is_bits(text: &str) -> bool
    ensures { result ≡ is_bits text.now }
{
    text.as_bytes()
        .iter()
        .all(|byte| matches!(byte, b'0' | b'1'))
}

fn bits(alloc: Global, text: &str) -> Result<Vec<bool>, AllocError>
    ensures { IfOk result (λ v. v.items ≡ bits_in text.now) }
{
    let mut bits = Vec::new(alloc);
    for byte in text.as_bytes() {
        bits.push(*byte == b'1')?;
    }
    Ok(bits)
}

/// Returns the bits that a text gives in order of declaration, unless it gives them by name.
fn bits_given(alloc: Global, text: &str) -> Result<Option<Vec<bool>>, AllocError>
    ensures { IfOk result (λ o. option_map (λ v. v.items) o ≡ bits_given text.now) }
{
    if gives_names(text) {
        return Ok(None);
    }
    Ok(Some(bits(alloc, text)?))
}

/// Returns the initial bits, if they are given in order of declaration.
pub fn init(alloc: Global, arguments: &ArgMatches<'_>) -> Result<Option<Vec<bool>>, AllocError>
    ensures { IfOk result
        (λ o. option_map (λ v. v.items) o ≡ init_in (rows_of (found_of arguments.now))) }
{
    match given_text(arguments, "init") {
        Some(text) => bits_given(alloc, text),
        None => Ok(None),
    }
}

/// Returns the globals to which a text gives bits by name.
fn names_given(alloc: Global, text: &str) -> Result<NamedBits<'_>, AllocError>
    ensures { IfOk result (λ n. n ≡ names_given text.now) }
{
    if gives_names(text) {
        return named_bits(alloc, text);
    }
    Ok(NamedBits::none(alloc))
}

/// Returns the globals whose initial bits are given by name.
pub fn named<'a>(alloc: Global, arguments: &ArgMatches<'a>) -> Result<NamedBits<'a>, AllocError>
    ensures { IfOk result (λ n. n ≡ named_in (rows_of (found_of arguments.now))) }
{
    match given_text(arguments, "init") {
        Some(text) => names_given(alloc, text),
        None => Ok(NamedBits::none(alloc)),
    }
}

/// Returns the verdict that a text names.
fn verdict_named(text: &str) -> Option<Verdict>
    ensures { result ≡ verdict_named text.now }
{
    match text {
        "failure" => Some(Verdict::Failure),
        "deadlock" => Some(Verdict::Deadlock),
        "run" => Some(Verdict::Run),
        _ => None,
    }
}

/// Returns the verdict that is expected, if one is given.
pub fn expected_verdict(arguments: &ArgMatches<'_>) -> Option<Verdict>
    ensures { result ≡ expected_in (rows_of (found_of arguments.now)) }
{
    match given_text(arguments, "expect") {
        Some(text) => verdict_named(text),
        None => None,
    }
}

/// Returns whether the expected verdict is not a verdict.
pub fn has_bad_verdict(arguments: &ArgMatches<'_>) -> bool
    ensures { result ≡ has_bad_verdict (rows_of (found_of arguments.now)) }
{
    match given_text(arguments, "expect") {
        Some(text) => verdict_named(text).is_none(),
        None => false,
    }
}

/// Reads the number of an option, of 32 bits. Returns the default if none is given.
pub fn number(arguments: &ArgMatches<'_>, name: &str, default: u32) -> u32
    ensures { result ≡ number_or default 32 name.now (rows_of (found_of arguments.now)) }
{
    given_number(arguments, name).unwrap_or(default)
}

/// Reads the number of an option, of 64 bits. Returns the default if none is given.
pub fn long_number(arguments: &ArgMatches<'_>, name: &str, default: u64) -> u64
    ensures { result ≡ number_or default 64 name.now (rows_of (found_of arguments.now)) }
{
    given_long_number(arguments, name).unwrap_or(default)
}

/// Reads the number of an option, of 32 bits, if one is given.
pub fn given_number(arguments: &ArgMatches<'_>, name: &str) -> Option<u32>
    ensures { result ≡ given_number 32 name.now (rows_of (found_of arguments.now)) }
{
    arguments.get_one(name)
}

/// Reads the number of an option, of 64 bits, if one is given.
pub fn given_long_number(arguments: &ArgMatches<'_>, name: &str) -> Option<u64>
    ensures { result ≡ given_number 64 name.now (rows_of (found_of arguments.now)) }
{
    arguments.get_one(name)
}

/// Reads the start of a run.
pub fn start(alloc: Global, arguments: &ArgMatches<'_>) -> Result<Start, AllocError>
    ensures { let start = start_in DEFAULT_CONTEXTS (rows_of (found_of arguments.now)) in
        IfOk result (λ s. s ≡ start) }
{
    Ok(Start {
        entries: entries(alloc, arguments)?,
        init: init(alloc, arguments)?,
        contexts: number(arguments, "contexts", DEFAULT_CONTEXTS),
        calls: number(arguments, "calls", DEFAULT_CALLS),
    })
}

pub fn is_given(arguments: &ArgMatches<'_>, name: &str) -> bool
    ensures { IsFlagOf (one_of name.now (rows_of (found_of arguments.now))) result }
{
    arguments.get_flag(name)
}

/// Returns whether a text is bits, or gives names bits.
fn is_init(text: &str) -> bool
    ensures { result ≡ is_init text.now }
{
    if gives_names(text) {
        return are_named_bits(text);
    }
    is_bits(text)
}

/// Returns whether the initial bits are neither bits nor names with bits.
pub fn has_bad_init(arguments: &ArgMatches<'_>) -> bool
    ensures { result ≡ has_bad_init (rows_of (found_of arguments.now)) }
{
    match given_text(arguments, "init") {
        Some(text) => !is_init(text),
        None => false,
    }
}
