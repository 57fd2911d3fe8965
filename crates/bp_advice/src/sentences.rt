//! The parts of sentences: numbers with a noun, and names, also in quotes. Numbers at the front of
//! lines of traces and schedules.
use crate::explanations::shown;
use bp_text::{number_of, part_before, part_from};
use std::alloc::{AllocError, Global};
use std::fmt;
use std::fmt::Write;

/// The most bytes of a name that are shown.
const MAX_NAME: usize = 60;

/// Bytes as a terminal shows them, a column each.
#[derive(Clone, Copy)]
pub struct Plain<'a>(pub &'a [u8]);

impl fmt::Display for Plain<'_> {
    fn fmt<W: fmt::Write>(&self, f: &mut fmt::Formatter<W>) -> fmt::Result {
        for byte in self.0 {
            f.write_char(char::from(shown(*byte)))?;
        }
        Ok(())
    }
}

/// Returns a name as shown: whole, or its front and dots if it is long.
pub fn cut_name(name: &[u8]) -> (&[u8], &'static str) {
    let dots = if name.len() > MAX_NAME { ".." } else { "" };
    (part_before(name, MAX_NAME), dots)
}

/// A name, or its front and dots if it is long.
#[derive(Clone, Copy)]
pub struct Named<'a>(pub &'a [u8]);

impl fmt::Display for Named<'_> {
    fn fmt<W: fmt::Write>(&self, f: &mut fmt::Formatter<W>) -> fmt::Result {
        let (front, dots) = cut_name(self.0);
        write!(f, "{}{dots}", Plain(front))
    }
}

/// A name in quotes.
#[derive(Clone, Copy)]
pub struct Quoted<'a>(pub &'a [u8]);

impl fmt::Display for Quoted<'_> {
    fn fmt<W: fmt::Write>(&self, f: &mut fmt::Formatter<W>) -> fmt::Result {
        write!(f, "'{}'", Named(self.0))
    }
}

/// A number and a noun, which has an `s` unless the number is 1.
#[derive(Clone, Copy)]
pub struct Count(pub usize, pub &'static str);

impl fmt::Display for Count {
    fn fmt<W: fmt::Write>(&self, f: &mut fmt::Formatter<W>) -> fmt::Result {
        let ending = if self.0 == 1 { "" } else { "s" };
        write!(f, "{} {}{ending}", self.0, self.1)
    }
}

/// Returns the separator before an item of a list with `count` items: nothing before the first,
/// `last` before the last one, and a comma before each other.
pub fn between(place: usize, count: usize, last: &'static str) -> &'static str {
    match place {
        0 => "",
        _ if place.saturating_add(1) == count => last,
        _ => ", ",
    }
}

/// The most items that are listed before dots.
const MAX_LISTED: usize = 6;

/// Lists the first of these items, with commas between them, and dots for the others.
pub fn listed<T: fmt::Display>(alloc: Global, items: &[T]) -> Result<String, AllocError> {
    let mut list = String::new(alloc);
    for (place, item) in items.iter().take(MAX_LISTED).enumerate() {
        let before = between(place, items.len(), ", ");
        write!(list, "{before}{item}")?;
    }
    if items.len() > MAX_LISTED {
        list.push_str(", ..")?;
    }
    Ok(list)
}

/// A greater number is not a thread's, and too large for each limit.
const MAX_NUMBER: u64 = 999_999_999;

/// Parses the number before the first space of a line, and returns it with the text after it.
pub fn number_at_front(line: &[u8]) -> Option<(u32, &[u8])> {
    let end = line.iter().position(|byte| *byte == b' ')?;
    let number = number_of(part_before(line, end))?;
    if number > MAX_NUMBER {
        return None;
    }
    Some((number as u32, part_from(line, end.saturating_add(1))))
}
