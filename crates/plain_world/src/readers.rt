//! What can be asked of a world between two calls. Nothing here walks over objects or blocks.

ghost use Rattle.std.specs.Prelude.{◌≡◌, ◌<◌, IfNone, IfSome};
ghost use Rattle.plain_world.specs.Prelude.{REGISTERS, IsHeld, nums_at, refs_at, free_of, HasPlace, IsOpen, heap_of_world, register_in};

use crate::closing::unused_tickets;
use crate::plain_world::PlainWorld;
use object_model::Shape;
use plan_api::Plan;

impl<P: Plan> PlainWorld<P> {
    /// How many references and numbers the object in register `s` of the mutator at place `place`
    /// has, or `None` if the register is nil.
    pub fn shape(&self, place: u32, s: u32) -> Option<Shape>
        requires open { IsOpen P.rules self.now }
        requires place { HasPlace self.now place }
        requires register { s < REGISTERS }
        ensures nil { IfNone result (register_in self.now place s ≡ 0) }
        ensures held { IfSome result (λ x.
            IsHeld (heap_of_world self.now) (register_in self.now place s)) }
        ensures refs { IfSome result (λ x. x.refs
            ≡ refs_at (heap_of_world self.now) (register_in self.now place s)) }
        ensures nums { IfSome result (λ x. x.nums
            ≡ nums_at (heap_of_world self.now) (register_in self.now place s)) }
    {
        let mutator = &self.row.mutators[place as usize];
        let address = mutator.registers[s as usize];
        if address == 0 {
            return None;
        }
        Some(self.row.row.shape_at(address))
    }

    /// The number of Free blocks. It is counted by tickets: each block that was taken since the
    /// epoch began was taken with one.
    pub fn free_blocks(&self) -> u32
        requires { IsOpen P.rules self.now }
        ensures { result ≡ free_of (heap_of_world self.now) }
    {
        self.row.counts.free + unused_tickets(&self.row.seats) - self.row.row.words.get(1) as u32
    }
}
