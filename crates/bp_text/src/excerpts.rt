//! Excerpts of a text, for people: a line of it, and a caret below a place.

use crate::lines::{first_line, last_line, part_before, part_from, text_from_line};
use crate::pieces::push_spaces;
use std::alloc::{AllocError, Global};

/// The number of spaces that indent each line of an excerpt.
const INDENT: usize = 4;

/// The number of bytes of a line that are shown before a place.
const MAX_BEFORE: usize = 60;

/// The number of bytes of a line that are shown from a place on.
const MAX_AFTER: usize = 40;

/// The text for the bytes of a line that are not shown.
const CUT: &[u8] = b"..";

/// Returns dots if the bytes are more than are shown.
fn dots(bytes: &[u8], shown: usize) -> &'static [u8] {
    if shown < bytes.len() { CUT } else { b"" }
}

/// Returns the end of the bytes, after dots if they are more than are shown.
fn end_of(alloc: Global, bytes: &[u8], shown: usize) -> Result<Vec<u8>, AllocError> {
    let mut end = Vec::new(alloc);
    end.extend_from_slice(dots(bytes, shown))?;
    end.extend_from_slice(part_from(bytes, bytes.len().saturating_sub(shown)))?;
    Ok(end)
}

/// Adds a line of an excerpt: `front`, and then no more of the bytes than are shown.
fn push_indented(
    out: &mut Vec<u8>,
    front: &[u8],
    bytes: &[u8],
    shown: usize,
) -> Result<(), AllocError> {
    push_spaces(out, INDENT)?;
    out.extend_from_slice(front)?;
    out.extend_from_slice(part_before(bytes, shown))?;
    out.extend_from_slice(dots(bytes, shown))?;
    out.push(b'\n')?;
    Ok(())
}

/// Adds a line with a caret after `column` bytes.
fn push_caret(out: &mut Vec<u8>, column: usize) -> Result<(), AllocError> {
    push_spaces(out, INDENT)?;
    push_spaces(out, column)?;
    out.push(b'^')?;
    out.push(b'\n')?;
    Ok(())
}

/// Adds a line of these parts, and a line with a caret below the second.
fn push_with_caret(out: &mut Vec<u8>, front: &[u8], after: &[u8]) -> Result<(), AllocError> {
    push_indented(out, front, after, MAX_AFTER)?;
    push_caret(out, front.len())
}

/// Adds the line of the text at this place, and a line with a caret below the place. Adds nothing
/// if that line is empty.
pub fn push_place(out: &mut Vec<u8>, text: &[u8], at: usize) -> Result<(), AllocError> {
    let before = last_line(part_before(text, at));
    let after = first_line(part_from(text, at));
    if before.is_empty() && after.is_empty() {
        return Ok(());
    }
    let front = end_of(*out.allocator(), before, MAX_BEFORE)?;
    push_with_caret(out, front.as_slice(), after)
}

/// Returns the excerpt for an error that names this byte of the text, or none.
pub fn excerpt_of(alloc: Global, text: &[u8], place: Option<u32>) -> Result<Vec<u8>, AllocError> {
    let mut excerpt = Vec::new(alloc);
    let Some(at) = place else {
        return Ok(excerpt);
    };
    push_place(&mut excerpt, text, at as usize)?;
    Ok(excerpt)
}

/// Adds the front of the line of a text that has this number. Adds nothing if there is no such
/// line, or an empty one.
pub fn push_line(out: &mut Vec<u8>, text: &[u8], number: usize) -> Result<(), AllocError> {
    let line = first_line(text_from_line(text, number));
    if line.is_empty() {
        return Ok(());
    }
    push_indented(out, b"", line, MAX_BEFORE + MAX_AFTER)
}
