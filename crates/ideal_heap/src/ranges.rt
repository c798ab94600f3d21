//! The ranges of the numbers in a command.

ghost use Rattle.std.specs.Prelude.{◌↔◌, IsTrue};
ghost use Rattle.ideal_heap.specs.Commands.{IsValid};

use crate::command::{Command, MAX_GLOBAL, MAX_NUMS, MAX_REFS, MAX_REGISTER};

/// Whether each number of the command is in its range.
pub fn valid(command: &Command) -> bool
    ensures { IsTrue result ↔ IsValid command.now }
{
    // Each `u64` is bound, even if it is not compared, so that its range is known to the proof.
    match *command {
        Command::New { d, refs, nums } => d <= MAX_REGISTER && refs <= MAX_REFS && nums <= MAX_NUMS,
        Command::Get { d, s, i } => d <= MAX_REGISTER && s <= MAX_REGISTER && i < MAX_REFS,
        Command::Put { s, i, v } => s <= MAX_REGISTER && i < MAX_REFS && v <= MAX_REGISTER,
        Command::Read { s, j } => s <= MAX_REGISTER && j < MAX_NUMS,
        Command::Write { s, j, n: _n } => s <= MAX_REGISTER && j < MAX_NUMS,
        Command::Add { s, j, n: _n } => s <= MAX_REGISTER && j < MAX_NUMS,
        Command::Swap {
            s,
            j,
            was: _was,
            next: _next,
        } => s <= MAX_REGISTER && j < MAX_NUMS,
        Command::Move { d, s } => d <= MAX_REGISTER && s <= MAX_REGISTER,
        Command::DropReg { s } => s <= MAX_REGISTER,
        Command::Load { d, g } => d <= MAX_REGISTER && g <= MAX_GLOBAL,
        Command::Share { g, s } => g <= MAX_GLOBAL && s <= MAX_REGISTER,
        Command::Pin { s } => s <= MAX_REGISTER,
        Command::Unpin { s } => s <= MAX_REGISTER,
        Command::Gc => true,
        Command::Meet => true,
    }
}
