//! Heads of traces, read line by line.
ghost use Rattle.std.specs.Prelude.{◌≤◌, ◌^◌, IfOk, MatchOption, MatchResult, length, map};
ghost use Rattle.bp_text.specs.Formats.{bit, Finds, FindsPart, HasNone, IsAt};
ghost use Rattle.bp_text.specs.Formats.Format.{After, Line, Many, Number};
ghost use Rattle.bp_trace.specs.declared.limits.TheConstants.{MAX_TRACE};
ghost use Rattle.bp_trace.specs.HeadFormat.{after_byte, bits, entry, init, may_end, seed, seed_value, version_word};
ghost use Rattle.bp_trace.specs.Readings.{IsHeadOf, IsHeadRefusal};

use crate::errors::ReplayError;
use crate::traces::Version;
use bp_text::{Machine, after, after_word, bit_at, long_number_at, span_at};
use std::alloc::{AllocError, Global};

/// The head of a trace.
#[derive(Drop)]
pub struct Head<'a> {
    pub version: Version,
    /// The names of the procedures that the threads enter, which need not be UTF-8.
    pub entries: Vec<&'a [u8]>,
    pub init: Vec<bool>,
    pub contexts: u64,
    pub calls: u64,
    pub seed: Option<u64>,
    /// The number of bytes of the head.
    pub size: usize,
    /// The number of its lines.
    pub lines: u32,
}

/// Whether the name of an entry has a byte.
#[derive(Clone, Copy)]
pub enum EntryState {
    Start,
    Within,
}

impl Machine for EntryState {
    ghost takes = { after_byte };

    ghost may_end = { may_end };

    fn after(self, byte: u8) -> Option<EntryState> {
        if byte == b'\n' {
            None
        } else {
            Some(EntryState::Within)
        }
    }

    fn is_end(self) -> bool {
        match self {
            EntryState::Start => false,
            EntryState::Within => true,
        }
    }
}

/// Parses the words of a version, and returns it with the rest of the text.
fn version_word_at(text: &[u8]) -> Option<(Version, &[u8])>
    ensures { Finds version_word text.now result }
{
    if let Some(rest) = after_word(text, b"btrace 1") {
        return Some((Version::One, rest));
    }
    match after_word(text, b"btrace 2") {
        None => None,
        Some(rest) => Some((Version::Two, rest)),
    }
}

/// Parses the line of a version, and returns it with the rest of the text.
fn version_at(text: &[u8]) -> Option<(Version, &[u8])>
    ensures { Finds (Line version_word) text.now result }
{
    let Some((version, rest)) = version_word_at(text) else {
        return None;
    };
    match after(rest, b'\n') {
        None => None,
        Some(rest) => Some((version, rest)),
    }
}

/// Parses an entry line, and returns its name with the rest of the text.
fn entry_at(text: &[u8]) -> Option<(&[u8], &[u8])>
    ensures { FindsPart entry text.now result }
{
    let Some(field) = after_word(text, b"entry ") else {
        return None;
    };
    let Some((name, rest)) = span_at(EntryState::Start, field) else {
        return None;
    };
    match after(rest, b'\n') {
        None => None,
        Some(rest) => Some((name, rest)),
    }
}

/// Parses entry lines, and returns their names with the rest of the text.
fn entries_at(alloc: Global, text: &[u8]) -> Result<(Vec<&[u8]>, &[u8]), AllocError>
    ensures { IfOk result (λ p.
        IsAt (Many entry) text.now (map (λ n. n.now) p.0.items) p.1.now) }
{
    let mut names = Vec::new(alloc);
    let mut rest = text;
    while let Some((name, more)) = entry_at(rest) {
        names.push(name)?;
        rest = more;
    }
    Ok((names, rest))
}

/// Parses bits as digits, and returns them with the rest of the text.
fn bits_at(alloc: Global, text: &[u8]) -> Result<(Vec<bool>, &[u8]), AllocError>
    ensures { IfOk result (λ p. IsAt (Many bit) text.now p.0.items p.1.now) }
{
    let mut bits = Vec::new(alloc);
    let mut rest = text;
    while let Some((bit, more)) = bit_at(rest) {
        bits.push(bit)?;
        rest = more;
    }
    Ok((bits, rest))
}

/// Parses bits, or a dash if there are none, and returns them with the rest of the text.
fn init_value_at(alloc: Global, text: &[u8]) -> Result<Option<(Vec<bool>, &[u8])>, AllocError>
    ensures { IfOk result (λ found. MatchOption found
        (HasNone bits text.now)
        (λ p. IsAt bits text.now p.0.items p.1.now)) }
{
    if let Some(rest) = after(text, b'-') {
        return Ok(Some((Vec::new(alloc), rest)));
    }
    let (bits, rest) = bits_at(alloc, text)?;
    if bits.is_empty() {
        return Ok(None);
    }
    Ok(Some((bits, rest)))
}

/// Parses an init line, and returns its bits with the rest of the text.
fn init_at(alloc: Global, text: &[u8]) -> Result<Option<(Vec<bool>, &[u8])>, AllocError>
    ensures { IfOk result (λ found. MatchOption found
        (HasNone init text.now)
        (λ p. IsAt init text.now p.0.items p.1.now)) }
{
    let Some(field) = after_word(text, b"init ") else {
        return Ok(None);
    };
    let Some((bits, rest)) = init_value_at(alloc, field)? else {
        return Ok(None);
    };
    let Some(rest) = after(rest, b'\n') else {
        return Ok(None);
    };
    Ok(Some((bits, rest)))
}

/// Parses the line of this word and a number, and returns the number with the rest of the text.
fn number_line_at<'a>(text: &'a [u8], word: &[u8]) -> Option<(u64, &'a [u8])>
    ensures { Finds (Line (After word.now (Number (2 ^ 64)))) text.now result }
{
    let Some(field) = after_word(text, word) else {
        return None;
    };
    let Some((number, rest)) = long_number_at(field) else {
        return None;
    };
    match after(rest, b'\n') {
        None => None,
        Some(rest) => Some((number, rest)),
    }
}

/// Parses a seed, if there is one, and returns it with the rest of the text.
fn seed_word_at(text: &[u8]) -> Option<(Option<u64>, &[u8])>
    ensures { Finds seed_value text.now result }
{
    if let Some(rest) = after_word(text, b"none") {
        return Some((None, rest));
    }
    match long_number_at(text) {
        None => None,
        Some((seed, rest)) => Some((Some(seed), rest)),
    }
}

/// Parses a seed line, and returns its seed, if there is one, with the rest of the text.
fn seed_at(text: &[u8]) -> Option<(Option<u64>, &[u8])>
    ensures { Finds seed text.now result }
{
    let Some(field) = after_word(text, b"seed ") else {
        return None;
    };
    let Some((seed, rest)) = seed_word_at(field) else {
        return None;
    };
    match after(rest, b'\n') {
        None => None,
        Some(rest) => Some((seed, rest)),
    }
}

/// Parses the head that begins the text, which need not be a trace.
pub fn read_head<'a>(alloc: Global, text: &'a [u8]) -> Result<Head<'a>, ReplayError>
    requires { length text.now ≤ MAX_TRACE }
    ensures { MatchResult result (IsHeadOf text.now) (IsHeadRefusal text.now) }
{
    let Some((version, first)) = version_at(text) else {
        return Err(ReplayError::Head(1));
    };
    let (entries, settings) = entries_at(alloc, first)?;
    let line = entries.len() as u32 + 2;
    let Some((init, limits)) = init_at(alloc, settings)? else {
        return Err(ReplayError::Head(line));
    };
    let Some((contexts, last_two)) = number_line_at(limits, b"contexts ") else {
        return Err(ReplayError::Head(line + 1));
    };
    let Some((calls, last)) = number_line_at(last_two, b"calls ") else {
        return Err(ReplayError::Head(line + 2));
    };
    let Some((seed, rest)) = seed_at(last) else {
        return Err(ReplayError::Head(line + 3));
    };
    Ok(Head {
        version,
        entries,
        init,
        contexts,
        calls,
        seed,
        size: text.len() - rest.len(),
        lines: line + 3,
    })
}
