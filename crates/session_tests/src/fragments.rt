//! Commands that leave every second object of blocks of lines, and fill the holes.

use crate::commands::create;
use ideal_heap::Command;
use std::alloc::{AllocError, Global};

// Register 0 has a table of 1,021 fields: 1,024 words, or 64 lines.
const TABLE: Command = Command::New {
    d: 0,
    refs: 1_021,
    nums: 0,
};

// Stores what register 1 holds into the field of the table.
fn put(field: u32) -> Command {
    Command::Put {
        s: 0,
        i: field,
        v: 1,
    }
}

// Objects of `lines` lines into every `step`th of these fields, through register 1.
fn add(
    commands: &mut Vec<Command>,
    first: u32,
    step: u32,
    count: u32,
    lines: u32,
) -> Result<(), AllocError> {
    let words = lines.min(128) * 16;
    for object in 0..count {
        let field = object.saturating_mul(step).saturating_add(first);
        let object = create(1, 0, words.saturating_sub(3));
        commands.extend_from_slice(&[object, put(field)])?;
    }
    Ok(())
}

/// Three of four blocks are filled: the table and 96 objects of two lines in the first, and 128 in
/// each of the other two. Every second object is dropped. After a collection the first block has
/// 160 marked lines and 48 holes, and the others have 128 and 64. Where `pins` is set the first
/// object of the second block is pinned. Then `count` objects of so many lines are added in place
/// of those that were dropped.
pub(crate) fn refilled(
    alloc: Global,
    pins: bool,
    lines: u32,
    count: u32,
) -> Result<Vec<Command>, AllocError> {
    let mut commands = Vec::new(alloc);
    commands.push(TABLE)?;
    add(&mut commands, 0, 1, 352, 2)?;
    commands.push(Command::DropReg { s: 1 })?;
    for field in 0..176 {
        commands.push(put(2 * field + 1))?;
    }
    commands.push(Command::Gc)?;
    if pins {
        let first = Command::Get { d: 2, s: 0, i: 96 };
        commands.extend_from_slice(&[first, Command::Pin { s: 2 }])?;
    }
    add(&mut commands, 1, 2, count, lines)?;
    Ok(commands)
}
