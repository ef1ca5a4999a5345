// What is shown of a state.

use spinplay::{Ending, Move, World};
use std::alloc::AllocError;

// Appends a number in decimal.
pub fn add_decimal(number: u32, text: &mut Vec<u8>) -> Result<(), AllocError> {
    let digits = format!(in *text.allocator(); "{number}")?;
    text.extend_from_slice(digits.as_bytes())
}

// Appends the line that begins a step.
pub fn add_number(number: u32, text: &mut Vec<u8>) -> Result<(), AllocError> {
    text.extend_from_slice(b"step ")?;
    add_decimal(number, text)?;
    text.extend_from_slice(b"\n")
}

// Appends a line for each move that could be taken, the first of which is.
pub fn add_moves(
    world: &World<'_, '_>,
    moves: &[Move],
    text: &mut Vec<u8>,
) -> Result<(), AllocError> {
    for m in moves {
        text.extend_from_slice(b"  ")?;
        world.show(m, text)?;
        text.extend_from_slice(b"\n")?;
    }
    Ok(())
}

// Appends the value line of each place that the last step changed; those of local variables are set in.
pub fn add_changes(world: &World<'_, '_>, text: &mut Vec<u8>) -> Result<(), AllocError> {
    for change in world.changes()?.as_slice() {
        if change.process().is_some() {
            text.extend_from_slice(b"  ")?;
        }
        world.value_line(change, text)?;
    }
    Ok(())
}

// Appends a line for a process that is stuck.
fn add_stuck(world: &World<'_, '_>, process: usize, text: &mut Vec<u8>) -> Result<(), AllocError> {
    let Some((name, line)) = world.stuck(process) else {
        return Ok(());
    };
    text.extend_from_slice(b"stuck: ")?;
    text.extend_from_slice(name)?;
    text.extend_from_slice(b" line ")?;
    add_decimal(line, text)?;
    text.extend_from_slice(b"\n")
}

// Appends how a walk ends, and a line for each process that is stuck.
pub fn add_ending(world: &World<'_, '_>, text: &mut Vec<u8>) -> Result<(), AllocError> {
    match world.ending() {
        Ending::Valid => text.extend_from_slice(b"end: valid\n")?,
        Ending::Invalid => text.extend_from_slice(b"end: invalid\n")?,
    }
    for process in 0..255usize {
        add_stuck(world, process, text)?;
    }
    Ok(())
}
