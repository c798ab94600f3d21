//! The call that allocates an object.

ghost use Rattle.std.specs.Prelude.{◌+◌, ◌<◌, ◌≤◌, ◌^◌};
ghost use Rattle.racing_mutator.specs.RacingSeats.{MayCall};
ghost use Rattle.racing_world.specs.Answers.{AnswersNew, births_of};

use crate::world::World;
use ideal_heap::{MAX_NUMS, MAX_REFS, REGISTERS};
use mutator_calls::Allocated;
use mutator_rule::MutatorSeat;
use object_model::Shape;
use plan_api::Plan;
use racing_mutator::Racing;

impl<P: Plan> World<P> {
    /// Allocates an object with `refs` nil references and `nums` zeros: in a region of the mutator
    /// if one has room, else in a hole, of a block of its own or one that nobody owns, else in the
    /// lowest Free block, which it takes with a ticket. In overflow allocation a Free block comes
    /// before a hole. Register `d` holds the object. Its name is the mutator's next. Others see it
    /// when its start bit is set, after its words.
    ///
    /// The answer is `Stop` if the object is large, or if there is no room for it that the mutator
    /// may fill and no Free block may be taken.
    pub fn new_object(&self, seat: &mut MutatorSeat, d: u32, refs: u32, nums: u32) -> Allocated
        requires call { MayCall P.rules self.now.row seat.old }
        requires register { d < REGISTERS }
        requires refs { refs ≤ MAX_REFS }
        requires nums { nums ≤ MAX_NUMS }
        requires births { births_of seat.old + 1 < 2 ^ 32 }
        ensures { AnswersNew P.rules self.now seat.old d refs nums result seat.new }
    {
        let shape = Shape { refs, nums };
        let mut racing = Racing {
            row: &self.row,
            seat,
        };
        racing.new_object(d, &shape)
    }
}
