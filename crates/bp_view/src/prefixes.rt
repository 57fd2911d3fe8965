//! The fields of a line before its place. Most lines have those of the line before, except for the
//! sign of a switch and the last digit of the number. The colours of a view's lines. The headings
//! over the columns of a view.
ghost use Rattle.std.specs.Prelude.{◌≡◌, Some, length, suc, OnOk};
ghost use Rattle.bp_text.specs.Pieces.{at_right, piece_text};
ghost use Rattle.bp_view.specs.declared.prefixes.PrefixKey.{PrefixKey};
ghost use Rattle.bp_view.specs.Buffers.{Grown};
ghost use Rattle.bp_view.specs.Lines.{prefix_text, tens_digits, tens_text, context_text, colour_of, opening};
ghost use Rattle.bp_view.specs.SetupLines.{headings_in, headings_line, under_headings};

use crate::buffers::Buffer;
use crate::view_contexts::Widths;
use bp_machine::Reply;
use bp_source::{ViewFormat, push_four, push_two};
use bp_text::Piece;
use bp_text::Piece::{Bytes, Left, NumberRight, Right};
use std::alloc::{AllocError, Global};

/// The values from which these fields are made, except for the sign and the last digit.
#[derive(Clone, Copy, PartialEq, Eq)]
pub(crate) struct PrefixKey {
    /// The number of the attempt without its last digit.
    pub(crate) tens: u64,
    pub(crate) thread: u32,
    /// None for an attempt that made no step.
    pub(crate) context: Option<u32>,
    pub(crate) number_width: usize,
    pub(crate) thread_width: usize,
    pub(crate) context_width: usize,
}

/// The text of these fields, kept for the next line.
#[derive(Drop)]
pub(crate) struct Prefix {
    /// The key of the text; None while it is incomplete.
    key: Option<PrefixKey>,
    mark: u8,
    digit: u8,
    /// The place of the digit in the text.
    last: usize,
    pub(crate) text: Vec<u8>,
    ghost is: { (k : PrefixKey) → key ≡ Some k → text.items ≡ prefix_text k mark digit },
    ghost digit_is: { (k : PrefixKey) → key ≡ Some k → last ≡ suc (length (tens_text k)) },
}

/// Returns the digits of a number before its last, at the right of a field.
fn tens_piece(width: usize, tens: u64) -> Piece<'static>
    ensures { piece_text result ≡ at_right width (tens_digits tens) }
{
    match tens {
        0 => Right(width, b""),
        _ => NumberRight(width, tens),
    }
}

/// Returns the number of a context at the right of a field, or a sign if there is none.
fn context_piece(width: usize, context: Option<u32>) -> Piece<'static>
    ensures { piece_text result ≡ at_right width (context_text context) }
{
    match context {
        Some(number) => NumberRight(width, u64::from(number)),
        None => Right(width, b"-"),
    }
}

impl Prefix {
    /// Makes one without a text.
    pub(crate) fn new(alloc: Global) -> Prefix {
        Prefix {
            key: None,
            mark: b' ',
            digit: b'0',
            last: 0,
            text: Vec::new(alloc),
        }
    }

    /// Rebuilds the text.
    fn remake(&mut self, key: PrefixKey, mark: u8, digit: u8) -> Result<(), AllocError>
        ensures { OnOk result (self.new.text.items ≡ prefix_text key mark digit) }
    {
        self.key = None;
        self.text.clear();
        let tens = tens_piece(key.number_width.saturating_sub(1), key.tens);
        push_two(&mut self.text, Bytes(&[mark]), tens)?;
        self.last = self.text.len();
        push_four(
            &mut self.text,
            Bytes(&[digit]),
            Bytes(b" "),
            NumberRight(key.thread_width, u64::from(key.thread)),
            Bytes(b" "),
        )?;
        let context = context_piece(key.context_width, key.context);
        push_two(&mut self.text, context, Bytes(b" "))?;
        self.mark = mark;
        self.digit = digit;
        self.key = Some(key);
        Ok(())
    }

    /// Makes the text that of this key, with this sign and this last digit.
    pub(crate) fn set(&mut self, key: PrefixKey, mark: u8, digit: u8) -> Result<(), AllocError>
        ensures { OnOk result (self.new.text.items ≡ prefix_text key mark digit) }
    {
        if self.key != Some(key) {
            return self.remake(key, mark, digit);
        }
        self.text[0] = mark;
        self.text[self.last] = digit;
        self.mark = mark;
        self.digit = digit;
        Ok(())
    }
}

/// The colour of a line.
#[derive(Clone, Copy)]
pub(crate) enum Colour {
    Red,
    Yellow,
    Plain,
}

impl Colour {
    /// Returns the colour of a line: red for a failure, yellow for another step after one of
    /// another thread. All lines are plain if no colours are wanted.
    pub(crate) fn of(has_colour: bool, reply: Reply, is_switch: bool) -> Colour
        ensures { result ≡ colour_of has_colour reply is_switch }
    {
        if !has_colour {
            return Colour::Plain;
        }
        match reply {
            Reply::Failed => Colour::Red,
            _ if is_switch => Colour::Yellow,
            _ => Colour::Plain,
        }
    }

    /// Returns the escape sequence that begins the colour.
    pub(crate) fn opening(self) -> &'static [u8]
        ensures { result.now ≡ opening self }
    {
        match self {
            Colour::Red => b"\x1b[31m",
            Colour::Yellow => b"\x1b[33m",
            Colour::Plain => b"",
        }
    }
}

const CALL: &[u8] = b"call";

const THREAD: &[u8] = b"thread";

const CONTEXT: &[u8] = b"context";

const PLACE: &[u8] = b"place";

impl Widths {
    /// Returns the widths, but each column is at least as wide as its heading.
    pub(crate) fn under_headings(self) -> Widths
        ensures { result ≡ under_headings self }
    {
        Widths {
            number: self.number.max(CALL.len()),
            thread: self.thread.max(THREAD.len()),
            context: self.context.max(CONTEXT.len()),
            place: self.place.max(PLACE.len()),
            notes: self.notes,
            statement: self.statement,
            line: self.line,
        }
    }
}

/// Adds the headings of columns of these widths.
fn push_line(head: &mut Buffer, widths: Widths)
    ensures { Grown head.old head.new (headings_line widths) }
{
    head.put_pieces(&[
        Bytes(b" "),
        Right(widths.number, CALL),
        Bytes(b" "),
        Right(widths.thread, THREAD),
        Bytes(b" "),
        Right(widths.context, CONTEXT),
        Bytes(b" "),
        Left(widths.place, PLACE),
        Bytes(b"  statement\n"),
    ])
}

/// Adds the headings of a view, in its format.
pub(crate) fn push_headings(head: &mut Buffer, format: ViewFormat, widths: Widths)
    ensures { Grown head.old head.new (headings_in format widths) }
{
    if let ViewFormat::Columns = format {
        push_line(head, widths);
    }
}
