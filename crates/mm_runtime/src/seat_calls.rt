//! One command of a mutator, by a call at its seat.

ghost use Rattle.std.specs.Prelude.{◌≡◌, ◌<◌, length, true};
ghost use Rattle.mm_runtime.specs.Prelude.{IsValid, MayCall, is_quiet, SeatGetsReply};

use ideal_heap::Command;
use mutator_rule::MutatorSeat;
use plan_api::Plan;
use racing_world::World;
use stored_replies::StoredReplies;

/// Carries out a command that allocates nothing and that no stop serves, as `perform` does in a
/// plain world.
pub(crate) fn perform_at<P: Plan>(
    world: &World<P>,
    seat: &mut MutatorSeat,
    command: Command,
    replies: &mut StoredReplies,
)
    requires call { MayCall P.rules world.now.row seat.old }
    requires valid { IsValid command }
    requires quiet { is_quiet command ≡ true }
    requires room { length replies.old.items < replies.old.capacity }
    ensures { SeatGetsReply P.rules world.now seat.old command replies.old seat.new replies.new }
{
    match command {
        Command::Get { d, s, i } => replies.push_reserved(world.get(seat, d, s, i)),
        Command::Put { s, i, v } => replies.push_reserved(world.put(seat, s, i, v)),
        Command::Read { s, j } => replies.push_reserved(world.read(seat, s, j)),
        Command::Write { s, j, n } => replies.push_reserved(world.write(seat, s, j, n)),
        Command::Add { s, j, n } => replies.push_reserved(world.add(seat, s, j, n)),
        Command::Swap { s, j, was, next } => {
            replies.push_reserved(world.swap(seat, s, j, was, next));
        }
        Command::Move { d, s } => replies.push_reserved(world.move_register(seat, d, s)),
        Command::DropReg { s } => replies.push_reserved(world.drop_register(seat, s)),
        Command::Load { d, g } => replies.push_reserved(world.load(seat, d, g)),
        Command::Share { g, s } => replies.push_reserved(world.share(seat, g, s)),
        Command::Pin { s } => replies.push_reserved(world.pin(seat, s)),
        Command::Unpin { s } => replies.push_reserved(world.unpin(seat, s)),
        Command::New { .. } | Command::Gc | Command::Meet => unreachable!(),
    }
}
