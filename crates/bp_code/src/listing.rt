//! The listing of a code.
ghost use Rattle.std.specs.Prelude.{◌≡◌, ◌≤◌, drop, flat_map, take};
ghost use Rattle.bp_text.specs.Pieces.{piece_text};
ghost use Rattle.bp_text.specs.Writing.{Given, Writes};
ghost use Rattle.bp_flat.specs.Instructions.{instruction_of};
ghost use Rattle.bp_code.specs.Listing as listing;
ghost use Rattle.bp_code.specs.Listing.{number_field, line, heading_line, instruction_line, instruction_word, lines_between, end_before, listing_text};

use bp_flat::actions::Action;
use bp_flat::code::Code;
use bp_flat::headings::Heading;
use bp_flat::instrs::Instr;
use bp_text::Piece::{Bytes, Number};
use bp_text::{Piece, Sink, WriteError};
use std::io::Write;

/// Writes each number after a space.
fn put_numbers<W: Write>(numbers: &[u32], sink: &mut Sink<'_, W>)
    ensures { Given W.contents sink.old sink.new (flat_map number_field numbers.now) }
{
    for number in numbers {
        sink.put_pieces(&[Bytes(b" "), Number(u64::from(*number))]);
    }
}

/// Writes a line with numbers after its front.
fn put_line<W: Write>(front: &[Piece<'_>], numbers: &[u32], sink: &mut Sink<'_, W>)
    ensures { let text = flat_map piece_text front.now in
        Given W.contents sink.old sink.new (line text numbers.now) }
{
    sink.put_pieces(front);
    put_numbers(numbers, sink);
    sink.put(b"\n")
}

/// Writes the line of a procedure.
fn put_heading<W: Write>(heading: &Heading, sink: &mut Sink<'_, W>)
    ensures { Given W.contents sink.old sink.new (heading_line heading.now) }
{
    let front = [Bytes(b"proc "), Bytes(heading.name().as_bytes())];
    put_line(&front, &[heading.formals(), heading.locals()], sink)
}

/// Returns the word for the operation of an instruction.
fn word_of(action: &Action) -> &'static [u8]
    ensures { result.now ≡ instruction_word (instruction_of action.now) }
{
    match action {
        Action::Skip { .. } => b"skip",
        Action::Goto { .. } => b"goto",
        Action::Return => b"return",
        Action::Assign(_) => b"assign",
        Action::If(_) => b"if",
        Action::While(_) => b"while",
        Action::Assert { .. } => b"assert",
        Action::Assume { .. } => b"assume",
        Action::Print { .. } => b"print",
        Action::Call(_) => b"call",
    }
}

/// Returns the numbers at the end of an instruction's line: its callee and its successors; and the
/// number of those.
fn successors(action: &Action) -> ([u32; 2], usize)
    ensures numbers { let numbers = listing.successors (instruction_of action.now) in
        take result.1 result.0 ≡ numbers }
    ensures few { result.1 ≤ 2 }
{
    match action {
        Action::Return => ([0, 0], 0),
        Action::Skip { next }
        | Action::Goto { next }
        | Action::Assert { next, .. }
        | Action::Assume { next, .. }
        | Action::Print { next, .. } => ([*next, 0], 1),
        Action::Assign(assignment) => ([assignment.next, 0], 1),
        Action::If(branch) | Action::While(branch) => ([branch.next, branch.other], 2),
        Action::Call(call) => ([call.callee, call.next], 2),
    }
}

/// Writes the line of the instruction that has this number.
fn put_instruction<W: Write>(number: usize, instr: &Instr, sink: &mut Sink<'_, W>)
    ensures { Given W.contents sink.old sink.new (instruction_line number instr.now) }
{
    let word = Bytes(word_of(instr.action()));
    let (numbers, count) = successors(instr.action());
    let front = [Number(number as u64), Bytes(b" "), word];
    put_line(&front, &numbers[..count], sink)
}

/// Writes the lines of the instructions from one number to before another.
fn put_instructions<W: Write>(instrs: &[Instr], from: usize, end: usize, sink: &mut Sink<'_, W>)
    ensures { Given W.contents sink.old sink.new (lines_between instrs.now from end) }
{
    for number in from..end {
        if let Some(instr) = instrs.get(number) {
            put_instruction(number, instr, sink);
        }
    }
}

/// Returns the end of the instructions of the procedure before the heading of this number.
fn end_of(code: &Code, next: usize) -> usize
    ensures { result ≡ end_before code.now.instructions (drop next code.now.headings) }
{
    match code.headings().get(next) {
        Some(heading) => heading.entry() as usize,
        None => code.len(),
    }
}

/// Writes a line for each procedure, and one for each of its instructions.
fn put_procedures<W: Write>(code: &Code, sink: &mut Sink<'_, W>)
    ensures { Given W.contents sink.old sink.new (listing_text code.now) }
{
    for (n, heading) in code.headings().iter().enumerate() {
        put_heading(heading, sink);
        let entry = heading.entry() as usize;
        put_instructions(code.instrs(), entry, end_of(code, n + 1), sink);
    }
}

/// Writes the listing: for each procedure a line with its name and its numbers of formals and of
/// declared locals, and a line for each of its instructions.
pub fn list<W: Write>(code: &Code, out: &mut W) -> Result<(), WriteError>
    ensures { Writes (W.contents out.old) (W.contents out.new) (listing_text code.now) result }
{
    let mut sink = Sink::new(out);
    put_procedures(code, &mut sink);
    sink.finish()
}
