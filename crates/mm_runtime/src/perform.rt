//! One command of a mutator, by a call of its world.

ghost use Rattle.std.specs.Prelude.{◌≡◌, ◌<◌, length, true};
ghost use Rattle.mm_runtime.specs.Prelude.{IsValid, HasPlace, IsOpen, is_quiet, GetsReply};

use ideal_heap::Command;
use managed_heap::PlainWorld;
use plan_api::Plan;
use stored_replies::StoredReplies;

/// Carries out a command that allocates nothing and that no stop serves. The reply goes to the
/// replies from each call alone, so that none is copied.
pub(crate) fn perform<P: Plan>(
    world: &mut PlainWorld<P>,
    place: u32,
    command: Command,
    replies: &mut StoredReplies,
)
    requires open { IsOpen P.rules world.old }
    requires place { HasPlace world.old place }
    requires valid { IsValid command }
    requires quiet { is_quiet command ≡ true }
    requires room { length replies.old.items < replies.old.capacity }
    ensures { GetsReply P.rules world.old place command replies.old world.new replies.new }
{
    match command {
        Command::Get { d, s, i } => replies.push_reserved(world.get(place, d, s, i)),
        Command::Put { s, i, v } => replies.push_reserved(world.put(place, s, i, v)),
        Command::Read { s, j } => replies.push_reserved(world.read(place, s, j)),
        Command::Write { s, j, n } => replies.push_reserved(world.write(place, s, j, n)),
        Command::Add { s, j, n } => replies.push_reserved(world.add(place, s, j, n)),
        Command::Swap { s, j, was, next } => {
            replies.push_reserved(world.swap(place, s, j, was, next));
        }
        Command::Move { d, s } => replies.push_reserved(world.move_register(place, d, s)),
        Command::DropReg { s } => replies.push_reserved(world.drop_register(place, s)),
        Command::Load { d, g } => replies.push_reserved(world.load(place, d, g)),
        Command::Share { g, s } => replies.push_reserved(world.share(place, g, s)),
        Command::Pin { s } => replies.push_reserved(world.pin(place, s)),
        Command::Unpin { s } => replies.push_reserved(world.unpin(place, s)),
        Command::New { .. } | Command::Gc | Command::Meet => unreachable!(),
    }
}
