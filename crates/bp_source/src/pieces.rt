//! Pieces that are added one after the other. A slice of them takes twice as long, so frequent
//! texts are made by these functions.
ghost use Rattle.std.specs.Prelude.{◌≡◌, ◌++◌, OnOk};
ghost use Rattle.bp_text.specs.Pieces.{piece_text};

use bp_text::{Piece, push_piece};
use std::alloc::AllocError;

/// Adds two pieces.
#[inline(always)]
pub fn push_two(line: &mut Vec<u8>, first: Piece<'_>, second: Piece<'_>) -> Result<(), AllocError>
    ensures { let old = line.old.items in
        OnOk result (line.new.items ≡ old ++ piece_text first.entry ++ piece_text second.entry) }
{
    push_piece(line, first)?;
    push_piece(line, second)
}

/// Adds three pieces.
#[inline(always)]
pub fn push_three(
    line: &mut Vec<u8>,
    first: Piece<'_>,
    second: Piece<'_>,
    third: Piece<'_>,
) -> Result<(), AllocError>
    ensures { let two = line.old.items ++ piece_text first.entry ++ piece_text second.entry in
        OnOk result (line.new.items ≡ two ++ piece_text third.entry) }
{
    push_two(line, first, second)?;
    push_piece(line, third)
}

/// Adds four pieces.
#[inline(always)]
pub fn push_four(
    line: &mut Vec<u8>,
    first: Piece<'_>,
    second: Piece<'_>,
    third: Piece<'_>,
    fourth: Piece<'_>,
) -> Result<(), AllocError>
    ensures { let two = line.old.items ++ piece_text first.entry ++ piece_text second.entry in
        OnOk result (line.new.items ≡ two ++ piece_text third.entry ++ piece_text fourth.entry) }
{
    push_two(line, first, second)?;
    push_two(line, third, fourth)
}
