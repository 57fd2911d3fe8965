//! Packing the stacks of a state into cells, and reading them again. Numbers in cells of 16 bits,
//! in which small numbers take little room.
ghost use Rattle.std.specs.Prelude.{◌≡◌, OnOk, drop, length, ◌≤◌};
ghost use Rattle.bp_explore.specs.States.{IsPacked, take_times, take_frame, take_stack, frames_of, take_number};

use bp_machine::{ActivationRecord, Stack};
use std::alloc::AllocError;

/// Adds a frame: the number of its instruction, and the word of its locals.
fn push_frame(cells: &mut Vec<u16>, frame: ActivationRecord) -> Result<(), AllocError>
    ensures { OnOk result (IsPacked take_frame cells.old.items cells.new.items frame) }
{
    push_number(cells, u128::from(frame.number))?;
    push_number(cells, frame.locals)?;
    Ok(())
}

/// Adds frames.
fn push_frames(cells: &mut Vec<u16>, frames: &[ActivationRecord]) -> Result<(), AllocError>
    ensures { let count = length frames.now in
        OnOk result
        (IsPacked (take_times take_frame count) cells.old.items cells.new.items frames.now) }
{
    for frame in frames {
        push_frame(cells, *frame)?;
    }
    Ok(())
}

/// Adds a stack: its number of frames, then the frames, the topmost last.
fn push_stack(cells: &mut Vec<u16>, stack: &Stack) -> Result<(), AllocError>
    ensures { OnOk result (IsPacked take_stack cells.old.items cells.new.items stack.now.frames) }
{
    push_number(cells, stack.len() as u128)?;
    push_frames(cells, stack.frames())?;
    Ok(())
}

/// Adds stacks.
pub(crate) fn push_stacks(cells: &mut Vec<u16>, stacks: &[Stack]) -> Result<(), AllocError>
    ensures { let count = length stacks.now in
        let frames = frames_of stacks.now in
        OnOk result
        (IsPacked (take_times take_stack count) cells.old.items cells.new.items frames) }
{
    for stack in stacks {
        push_stack(cells, stack)?;
    }
    Ok(())
}

/// Reads a frame, and advances past it.
fn read_frame(cells: &[u16], at: &mut usize) -> ActivationRecord
    ensures frame { result ≡ (take_frame (drop at.old cells.now)).0 }
    ensures rest { drop at.new cells.now ≡ (take_frame (drop at.old cells.now)).1 }
{
    let number = (read_number(cells, at) % (1 << 32)) as u32;
    let locals = read_number(cells, at);
    ActivationRecord { number, locals }
}

/// Reads a stack into this one, and advances past it.
fn read_stack(cells: &[u16], at: &mut usize, stack: &mut Stack) -> Result<(), AllocError>
    ensures stack { OnOk result (stack.new.frames ≡ (take_stack (drop at.old cells.now)).0) }
    ensures rest { OnOk result
        (drop at.new cells.now ≡ (take_stack (drop at.old cells.now)).1) }
{
    let count = (read_number(cells, at) % (1 << 64)) as usize;
    stack.clear();
    for _n in 0..count {
        let frame = read_frame(cells, at);
        stack.push(frame)?;
    }
    Ok(())
}

/// Reads as many stacks as there are into these, and advances past them.
pub(crate) fn read_stacks(
    cells: &[u16],
    at: &mut usize,
    stacks: &mut Vec<Stack>,
) -> Result<(), AllocError>
    ensures stacks { let count = length stacks.old.items in
        OnOk result
        (frames_of stacks.new.items ≡ (take_times take_stack count (drop at.old cells.now)).0) }
    ensures rest { let count = length stacks.old.items in
        OnOk result
        (drop at.new cells.now ≡ (take_times take_stack count (drop at.old cells.now)).1) }
    ensures count { length stacks.new.items ≡ length stacks.old.items }
{
    for i in 0..stacks.len() {
        read_stack(cells, at, &mut stacks[i])?;
    }
    Ok(())
}

/// The number of values of 15 bits. It is added to a cell that another one follows.
const BASE: u16 = 32_768;

/// Adds a number: 15 bits a cell, the lowest first.
pub(crate) fn push_number(cells: &mut Vec<u16>, number: u128) -> Result<(), AllocError>
    ensures { OnOk result (IsPacked take_number cells.old.items cells.new.items number) }
{
    if number < u128::from(BASE) {
        cells.push(number as u16)?;
        return Ok(());
    }
    let low = (number % u128::from(BASE)) as u16;
    cells.push(BASE + low)?;
    push_number(cells, number / u128::from(BASE))?;
    Ok(())
}

/// Reads a number, and advances past its cells.
pub(crate) fn read_number(cells: &[u16], at: &mut usize) -> u128
    ensures number { result ≡ (take_number (drop at.old cells.now)).0 }
    ensures rest { drop at.new cells.now ≡ (take_number (drop at.old cells.now)).1 }
{
    if *at >= cells.len() {
        return 0;
    }
    let cell = cells[*at];
    *at += 1;
    if cell < BASE {
        return u128::from(cell);
    }
    let high = read_number(cells, at);
    high.wrapping_mul(u128::from(BASE))
        .wrapping_add(u128::from(cell - BASE))
}
