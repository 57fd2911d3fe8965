//! Explanations of the errors of reported steps. Sentences on a line that is not a step.
ghost use Rattle.std.specs.Prelude.{IfOk};
ghost use Rattle.bp_advice.specs.Explanations.{IsExplanationOf};
ghost use Rattle.bp_explain.specs.ExplainedErrors.{ExplainsSteps};

use crate::schedules::no_entry;
use crate::sources::source_of;
use crate::tried_steps::RefusedStep;
use bp_advice::{ENDS_IN_CR_LF, Explanation, Quoted, about_line, ends_in_cr_lf};
use bp_confirm::{ConfirmError, StepRefusal, value_on_line};
use bp_machine::Start;
use bp_source::is_braced_after;
use bp_text::{Line, line_of, part_before, part_from};
use std::alloc::{AllocError, Global};

/// Returns the text before the first space; the whole text if it has none.
fn word_at(text: &[u8]) -> &[u8] {
    let end = text.iter().position(|byte| *byte == b' ');
    part_before(text, end.unwrap_or(text.len()))
}

/// Returns the text after the name that begins a text, and the equals sign after it.
fn after_name(text: &[u8]) -> Option<&[u8]> {
    let mut braced = false;
    for (i, byte) in text.iter().enumerate() {
        if !braced && matches!(byte, b'=' | b' ') {
            let is_named = i > 0 && *byte == b'=';
            return is_named.then_some(part_from(text, i.saturating_add(1)));
        }
        braced = is_braced_after(braced, *byte);
    }
    None
}

/// Returns the text after the space, the name and the equals sign that begin a text.
fn at_value(text: &[u8]) -> Option<&[u8]> {
    after_name(text.strip_prefix(b" ")?)
}

/// Returns the text after the well-formed values that begin a text.
fn after_values(text: &[u8]) -> &[u8] {
    let mut rest = text;
    for _value in 0..text.len() {
        match at_value(rest) {
            Some([b'0' | b'1', more @ ..]) => rest = more,
            _ => return rest,
        }
    }
    rest
}

/// Splits a malformed line into its thread, its place, and the text after its well-formed values.
fn fields_of(line: &[u8]) -> (&[u8], &[u8], &[u8]) {
    let thread = word_at(line);
    let others = part_from(line, thread.len().saturating_add(1));
    let place = word_at(others);
    (thread, place, after_values(part_from(others, place.len())))
}

fn is_comment(text: &[u8]) -> bool {
    text.starts_with(b"#") || text.starts_with(b"//")
}

/// Returns the mistake in a line, if it is in no single value.
fn known_mistake(line: &[u8]) -> Option<&'static str> {
    let (thread, place, rest) = fields_of(line);
    if is_comment(line) || is_comment(place) || is_comment(rest.trim_ascii_start()) {
        Some("a list of steps has no comments")
    } else if thread == b"end".as_slice() || place == b"end".as_slice() {
        Some("the end of a procedure is written '-'")
    } else if thread.contains(&b'\t') || place.contains(&b'\t') || rest.first() == Some(&b'\t') {
        Some("there is a tab in the line; one space stands between two fields")
    } else if !rest.is_empty() && rest.trim_ascii().is_empty() {
        Some("the line ends in a space")
    } else {
        None
    }
}

/// Explains why this line is not a step.
fn malformed(alloc: Global, line: Line<'_>) -> Result<String, AllocError> {
    if !line.is_ended {
        return format!(in alloc; "there is no line feed after this line");
    }
    if ends_in_cr_lf(line) {
        return String::from_str(alloc, ENDS_IN_CR_LF);
    }
    let (_, _, rest) = fields_of(line.text);
    if let Some(mistake) = known_mistake(line.text) {
        return String::from_str(alloc, mistake);
    }
    match at_value(rest).map(word_at) {
        Some(word) if !word.is_empty() => {
            format!(in alloc; "values are 0 and 1, not {}", Quoted(word))
        }
        _ => format!(in alloc;
            "expected a line as '0 8:3 x=1', a thread, a place and any number of values"
        ),
    }
}

/// Says that the value of this index on a line is of no variable.
fn no_variable(
    alloc: Global,
    steps: &[u8],
    number: u32,
    place: usize,
) -> Result<String, AllocError> {
    match value_on_line(steps, number, place) {
        Some(value) => format!(in alloc; "the program has no variable {}", Quoted(value.name)),
        None => format!(in alloc; "the program has no variable"),
    }
}

/// Explains why this step of the program of a file, which runs from a start, is not taken.
fn refusal_sentence(
    alloc: Global,
    program_file: &str,
    program: &[u8],
    start: &Start,
    file: &str,
    steps: &[u8],
    refusal: StepRefusal,
) -> Result<String, AllocError> {
    let Some(source) = &source_of(alloc, program)? else {
        return Ok(String::new(alloc));
    };
    let step = RefusedStep {
        alloc,
        program_file,
        source,
        start,
        file,
        steps,
        refusal,
    };
    step.sentence()
}

/// Explains this error of the reported steps of the program of a text, which run from this start,
/// at its line, and a list without a step at its first. The files are those of the program and of
/// the steps. Nothing explains steps that are too long, or refused memory. Fails only on
/// allocation.
pub fn explain_steps<'a>(
    alloc: Global,
    program_file: &str,
    program: &[u8],
    start: &Start,
    file: &'a str,
    steps: &[u8],
    error: &ConfirmError,
) -> Result<Option<Explanation<'a>>, AllocError>
    ensures { let Explains = ExplainsSteps file.now error.now in
        IfOk result (IsExplanationOf Explains) }
{
    let explanation = match *error {
        ConfirmError::NoSteps => {
            let sentence = "the list has no step, so there is nothing to confirm";
            about_line(alloc, file, steps, 1, sentence)?
        }
        ConfirmError::Line(line) => {
            let sentence = match line_of(steps, line as usize) {
                Some(line) => malformed(alloc, line)?,
                None => String::new(alloc),
            };
            about_line(alloc, file, steps, line as usize, sentence.as_str())?
        }
        ConfirmError::NoThread(line, thread) => {
            let sentence = no_entry(alloc, thread)?;
            about_line(alloc, file, steps, line as usize, sentence.as_str())?
        }
        ConfirmError::NoVariable(line, place) => {
            let sentence = no_variable(alloc, steps, line, place)?;
            about_line(alloc, file, steps, line as usize, sentence.as_str())?
        }
        ConfirmError::Step(refusal) => {
            let sentence = refusal_sentence(
                alloc,
                program_file,
                program,
                start,
                file,
                steps,
                refusal,
            )?;
            about_line(alloc, file, steps, refusal.line as usize, sentence.as_str())?
        }
        ConfirmError::TooLong | ConfirmError::Memory => return Ok(None),
    };
    Ok(Some(explanation))
}
