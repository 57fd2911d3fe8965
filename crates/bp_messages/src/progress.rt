//! The line of progress of a test, and of an exploration.
ghost use Rattle.std.specs.Prelude.{◌≡◌};
ghost use Rattle.bp_text.specs.Writing.{Writes};
ghost use Rattle.bp_messages.specs.ProgressTexts.{cleared, exploration_progress_text, progress_text, rate_of, seconds_left, within_time};

use crate::summaries::{limit_piece, of_word};
use bp_text::Piece::{Bytes, Number};
use bp_text::{WriteError, put, put_pieces};
use std::io::Write;

/// Returns the text that moves the cursor of a terminal to the beginning of the line and clears it.
fn cleared() -> &'static [u8]
    ensures { result.now ≡ cleared }
{
    b"\r\x1b[K"
}

/// Returns the number of runs made in a second, at the rate of those made in this time.
fn rate_of(done: u64, millis: u64) -> u64
    ensures { result ≡ rate_of done millis }
{
    done.saturating_mul(1000) / millis.max(1)
}

/// Returns the number of seconds that the other runs take at this rate, rounded down.
fn seconds_left(done: u64, runs: u64, rate: u64) -> u64
    ensures { result ≡ seconds_left done runs rate }
{
    runs.saturating_sub(done) / rate.max(1)
}

/// Returns these seconds, and no more than are left of the time of a test, if that is limited.
fn within_time(millis: u64, seconds: Option<u64>, left: u64) -> u64
    ensures { result ≡ within_time millis seconds left }
{
    match seconds {
        Some(seconds) => left.min(seconds.saturating_sub(millis / 1000)),
        None => left,
    }
}

/// Writes a line over the one before: the number of runs done, of all, and made in a second, and
/// the seconds that are left of a test with this time, if that is limited.
pub fn put_progress<W: Write>(
    done: u64,
    runs: u64,
    millis: u64,
    seconds: Option<u64>,
    out: &mut W,
) -> Result<(), WriteError>
    ensures { let text = progress_text done runs millis seconds in
        Writes (W.contents out.old) (W.contents out.new) text result }
{
    let rate = rate_of(done, millis);
    let left = within_time(millis, seconds, seconds_left(done, runs, rate));
    put_pieces(
        out,
        &[
            Bytes(cleared()),
            Number(done),
            of_word(runs),
            limit_piece(runs),
            Bytes(b" runs, "),
            Number(rate),
            Bytes(b" a second, "),
            Number(left),
            Bytes(b" s left"),
        ],
    )
}

/// Writes a line over the one before: the number of contexts that an exploration explores, of its
/// states, and of those found in a second.
pub fn put_exploration_progress<W: Write>(
    contexts: u64,
    states: u64,
    millis: u64,
    out: &mut W,
) -> Result<(), WriteError>
    ensures { let text = exploration_progress_text contexts states millis in
        Writes (W.contents out.old) (W.contents out.new) text result }
{
    let rate = rate_of(states, millis);
    put_pieces(
        out,
        &[
            Bytes(cleared()),
            Bytes(b"within "),
            Number(contexts),
            Bytes(b" contexts: "),
            Number(states),
            Bytes(b" states, "),
            Number(rate),
            Bytes(b" a second"),
        ],
    )
}

/// Removes the line of progress.
pub fn clear_progress<W: Write>(out: &mut W) -> Result<(), WriteError>
    ensures { Writes (W.contents out.old) (W.contents out.new) cleared result }
{
    put(out, cleared())
}
