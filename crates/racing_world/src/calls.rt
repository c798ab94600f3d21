//! The calls of the mutators of a world. None waits, so no lock can be in one; none takes memory.

ghost use Rattle.std.specs.Prelude.{◌≡◌, ◌<◌, ℕ, true};
ghost use Rattle.std.specs.List.{Contains};
ghost use Rattle.ideal_heap.specs.declared.command.Command.TheVariants as command;
ghost use Rattle.object_model.specs.Graphs.{numbers_of};
ghost use Rattle.mutator_calls.specs.Stopping.{stop_of};
ghost use Rattle.mutator_rule.specs.Seats.{local_of};
ghost use Rattle.racing_mutator.specs.RacingSeats.{MayCall, holdings};
ghost use Rattle.racing_rooms.specs.NoRoom.{regions_at};
ghost use Rattle.racing_mutator.specs.Barriers.{LogsWhereNeeded};
ghost use Rattle.racing_world.specs.Calls.{EntersCommand, EntersNothing, LoadsStop, epoch_of_world, number_of, stop_seen, has_raised};

use crate::world::World;
use ideal_heap::{GLOBALS, REGISTERS, Reply};
use mutator_calls as calls;
use mutator_calls::Polled;
use mutator_rule::MutatorSeat;
use plan_api::Plan;
use racing_mutator::Racing;

impl<P: Plan> World<P> {
    /// Whether a stop is raised, and by which mutator: one of this world, and the caller only if it
    /// called `raise`. The call's one step is a load of the stop word.
    pub fn poll(&self, seat: &mut MutatorSeat) -> Polled
        requires { MayCall P.rules self.now.row seat.old }
        ensures nothing { EntersNothing P.rules self.now seat.old seat.new }
        ensures kept { has_raised seat.new ≡ has_raised seat.old }
        ensures holds { holdings (local_of seat.new) ≡ holdings (local_of seat.old) }
        ensures regions { regions_at seat.new ≡ regions_at seat.old }
        ensures loads { LoadsStop P.rules seat.old (stop_of result) seat.new }
        ensures stop { stop_seen seat.new ≡ stop_of result }
        ensures mutator { (m : ℕ) → result ≡ Polled.Raised m
            → Contains (numbers_of (epoch_of_world P.rules self.now).mutators) m }
        ensures caller { (m : ℕ) → result ≡ Polled.Raised m → m ≡ number_of seat.old
            → has_raised seat.old ≡ true }
    {
        let mut racing = Racing {
            row: &self.row,
            seat,
        };
        racing.poll()
    }

    /// Raises a stop, unless one is raised.
    pub fn raise(&self, seat: &mut MutatorSeat)
        requires { MayCall P.rules self.now.row seat.old }
        ensures nothing { EntersNothing P.rules self.now seat.old seat.new }
        ensures holds { holdings (local_of seat.new) ≡ holdings (local_of seat.old) }
        ensures regions { regions_at seat.new ≡ regions_at seat.old }
        ensures raised { has_raised seat.new ≡ true }
    {
        calls::raise(&mut Racing {
            row: &self.row,
            seat,
        });
    }

    /// Loads reference field `i` of the object in register `s` into register `d`.
    pub fn get(&self, seat: &mut MutatorSeat, d: u32, s: u32, i: u32) -> Reply
        requires call { MayCall P.rules self.now.row seat.old }
        requires target { d < REGISTERS }
        requires source { s < REGISTERS }
        ensures { EntersCommand P.rules self.now seat.old (command.Get d s i) result seat.new }
    {
        let mut racing = Racing {
            row: &self.row,
            seat,
        };
        calls::get(&mut racing, d, s, i)
    }

    /// Stores register `v` into reference field `i` of the object in register `s`. Under a
    /// generational plan an old object is logged first: MMTk's object-remembering barrier.
    pub fn put(&self, seat: &mut MutatorSeat, s: u32, i: u32, v: u32) -> Reply
        requires call { MayCall P.rules self.now.row seat.old }
        requires target { s < REGISTERS }
        requires source { v < REGISTERS }
        ensures enters { EntersCommand P.rules self.now seat.old (command.Put s i v) result
            seat.new }
        ensures logs { LogsWhereNeeded P.rules seat.old s result seat.new }
    {
        let mut racing = Racing {
            row: &self.row,
            seat,
        };
        calls::put(&mut racing, s, i, v)
    }

    /// Loads number `j` of the object in register `s`.
    pub fn read(&self, seat: &mut MutatorSeat, s: u32, j: u32) -> Reply
        requires call { MayCall P.rules self.now.row seat.old }
        requires register { s < REGISTERS }
        ensures { EntersCommand P.rules self.now seat.old (command.Read s j) result seat.new }
    {
        let mut racing = Racing {
            row: &self.row,
            seat,
        };
        calls::read(&mut racing, s, j)
    }

    /// Stores number `j` of the object in register `s`.
    pub fn write(&self, seat: &mut MutatorSeat, s: u32, j: u32, n: u64) -> Reply
        requires call { MayCall P.rules self.now.row seat.old }
        requires register { s < REGISTERS }
        ensures { EntersCommand P.rules self.now seat.old (command.Write s j n) result seat.new }
    {
        let mut racing = Racing {
            row: &self.row,
            seat,
        };
        calls::write(&mut racing, s, j, n)
    }

    /// Adds to number `j` of the object in register `s`, modulo 2^64. Replies the number before.
    pub fn add(&self, seat: &mut MutatorSeat, s: u32, j: u32, n: u64) -> Reply
        requires call { MayCall P.rules self.now.row seat.old }
        requires register { s < REGISTERS }
        ensures { EntersCommand P.rules self.now seat.old (command.Add s j n) result seat.new }
    {
        let mut racing = Racing {
            row: &self.row,
            seat,
        };
        calls::add(&mut racing, s, j, n)
    }

    /// Sets number `j` of the object in register `s` to `next` if it is `was`.
    pub fn swap(&self, seat: &mut MutatorSeat, s: u32, j: u32, was: u64, next: u64) -> Reply
        requires call { MayCall P.rules self.now.row seat.old }
        requires register { s < REGISTERS }
        ensures { EntersCommand P.rules self.now seat.old (command.Swap s j was next) result
            seat.new }
    {
        let mut racing = Racing {
            row: &self.row,
            seat,
        };
        calls::swap(&mut racing, s, j, was, next)
    }

    /// Copies register `s` to register `d`.
    pub fn move_register(&self, seat: &mut MutatorSeat, d: u32, s: u32) -> Reply
        requires call { MayCall P.rules self.now.row seat.old }
        requires target { d < REGISTERS }
        requires source { s < REGISTERS }
        ensures { EntersCommand P.rules self.now seat.old (command.Move d s) result seat.new }
    {
        let mut racing = Racing {
            row: &self.row,
            seat,
        };
        calls::move_register(&mut racing, d, s)
    }

    /// Clears register `s`.
    pub fn drop_register(&self, seat: &mut MutatorSeat, s: u32) -> Reply
        requires call { MayCall P.rules self.now.row seat.old }
        requires register { s < REGISTERS }
        ensures { EntersCommand P.rules self.now seat.old (command.DropReg s) result seat.new }
    {
        let mut racing = Racing {
            row: &self.row,
            seat,
        };
        calls::drop_register(&mut racing, s)
    }

    /// Loads global `g` into register `d`.
    pub fn load(&self, seat: &mut MutatorSeat, d: u32, g: u32) -> Reply
        requires call { MayCall P.rules self.now.row seat.old }
        requires register { d < REGISTERS }
        requires global { g < GLOBALS }
        ensures { EntersCommand P.rules self.now seat.old (command.Load d g) result seat.new }
    {
        let mut racing = Racing {
            row: &self.row,
            seat,
        };
        calls::load(&mut racing, d, g)
    }

    /// Stores register `s` into global `g`.
    pub fn share(&self, seat: &mut MutatorSeat, g: u32, s: u32) -> Reply
        requires call { MayCall P.rules self.now.row seat.old }
        requires register { s < REGISTERS }
        requires global { g < GLOBALS }
        ensures { EntersCommand P.rules self.now seat.old (command.Share g s) result seat.new }
    {
        let mut racing = Racing {
            row: &self.row,
            seat,
        };
        calls::share(&mut racing, g, s)
    }

    /// Pins the object in register `s`: no collection moves it.
    pub fn pin(&self, seat: &mut MutatorSeat, s: u32) -> Reply
        requires call { MayCall P.rules self.now.row seat.old }
        requires register { s < REGISTERS }
        ensures { EntersCommand P.rules self.now seat.old (command.Pin s) result seat.new }
    {
        let mut racing = Racing {
            row: &self.row,
            seat,
        };
        calls::pin(&mut racing, s)
    }

    /// Unpins the object in register `s`.
    pub fn unpin(&self, seat: &mut MutatorSeat, s: u32) -> Reply
        requires call { MayCall P.rules self.now.row seat.old }
        requires register { s < REGISTERS }
        ensures { EntersCommand P.rules self.now seat.old (command.Unpin s) result seat.new }
    {
        let mut racing = Racing {
            row: &self.row,
            seat,
        };
        calls::unpin(&mut racing, s)
    }
}
