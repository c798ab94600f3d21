//! The calls of the mutators of a world.
//!
//! Called by whoever runs an epoch. Each writes `turn`, and then makes the steps of that mutator to
//! the end of the call; so between calls no mutator has an unpublished object. All else is written
//! by the steps.

ghost use Rattle.std.specs.Prelude.{◌≡◌, ◌+◌, ◌<◌, ◌≤◌, ◌^◌, ◌⊎◌, ℕ, List, [], ◌∷◌, ⊤};
ghost use Rattle.std.specs.List.{Contains};
ghost use Rattle.plain_world.specs.Prelude.{numbers_of, size_of, raises, stop_of, IsCause, IsNeedOf, MatchAllocated, mutators_of_world, births_at, books_at, HasPlace, IsOpen, AddsEntries, StaysOpen, HasEffect, EntersCommand, EntersStore, Logs, IsUnchanged, Allocates, Refuses, HasNoRoom, stop_word};
ghost use Rattle.plain_world.specs.Prelude.commands;
ghost use Rattle.plain_world.specs.Prelude.replies;

use crate::plain_world::PlainWorld;
use ideal_heap::{GLOBALS, MAX_NUMS, MAX_REFS, REGISTERS, Reply};
use mutator_calls as calls;
use mutator_calls::{Allocated, Polled};
use object_model::MAX_MEDIUM_WORDS;
use plan_api::Plan;

impl<P: Plan> PlainWorld<P> {
    /// Whether a stop is raised, and by which mutator.
    pub fn poll(&mut self, place: u32) -> Polled
        requires open { IsOpen P.rules self.old }
        requires place { HasPlace self.old place }
        ensures stays { StaysOpen P.rules self.old self.new }
        ensures history { AddsEntries self.old [] self.new }
        ensures same { IsUnchanged self.old self.new }
        ensures stop { stop_word self.old ≡ stop_of result }
        ensures mutator { (n : ℕ) → result ≡ Polled.Raised n
            → Contains (numbers_of (mutators_of_world self.old)) n }
    {
        self.row.turn = place as usize;
        calls::poll(&mut self.row)
    }

    /// Raises a stop, unless one is raised.
    pub fn raise(&mut self, place: u32)
        requires open { IsOpen P.rules self.old }
        requires place { HasPlace self.old place }
        ensures { HasEffect P.rules self.old place raises self.new }
    {
        self.row.turn = place as usize;
        calls::raise(&mut self.row);
    }

    /// Allocates an object with `refs` nil references and `nums` zeros, and stores its address in
    /// register `d`: in a region that the mutator fills, else in the hole of an own block or of one
    /// without owner, else in a Free block that it may take. In overflow allocation (Immix: an
    /// object of more than a line for which the hole region has too few words left) a Free block
    /// comes before a hole.
    ///
    /// The answer is `Stop` if the object is large, or if there is no such room.
    #[inline(always)]
    pub fn new_object(&mut self, place: u32, d: u32, refs: u32, nums: u32) -> Allocated
        requires open { IsOpen P.rules self.old }
        requires place { HasPlace self.old place }
        requires register { d < REGISTERS }
        requires refs { refs ≤ MAX_REFS }
        requires nums { nums ≤ MAX_NUMS }
        requires births { births_at self.old place + 1 < 2 ^ 32 }
        ensures stays { StaysOpen P.rules self.old self.new }
        ensures made { MatchAllocated result
            (λ n. Allocates self.old place d refs nums n self.new)
            (λ need. Refuses self.old place (size_of refs nums) self.new) }
        ensures logged { Logs self.old [] self.new }
        ensures small { MatchAllocated result
            (λ n. size_of refs nums ≤ MAX_MEDIUM_WORDS) (λ need. ⊤) }
        ensures need { MatchAllocated result (λ n. ⊤) (IsNeedOf d refs nums) }
        ensures cause { MatchAllocated result (λ n. ⊤) (λ need. IsCause (books_at self.new place)
            (HasNoRoom self.new place (size_of refs nums)) (size_of refs nums) need.cause) }
    {
        self.row.turn = place as usize;
        calls::new_object(&mut self.row, d, refs, nums)
    }

    /// Loads reference field `i` of the object in register `s` into register `d`.
    pub fn get(&mut self, place: u32, d: u32, s: u32, i: u32) -> Reply
        requires open { IsOpen P.rules self.old }
        requires place { HasPlace self.old place }
        requires target { d < REGISTERS }
        requires source { s < REGISTERS }
        ensures { EntersCommand P.rules self.old place (commands.Get d s i) result self.new }
    {
        self.row.turn = place as usize;
        calls::get(&mut self.row, d, s, i)
    }

    /// Stores register `v` into reference field `i` of the object in register `s`. Under a
    /// generational plan an old object is logged first: MMTk's object-remembering barrier.
    pub fn put(&mut self, place: u32, s: u32, i: u32, v: u32) -> Reply
        requires open { IsOpen P.rules self.old }
        requires place { HasPlace self.old place }
        requires target { s < REGISTERS }
        requires source { v < REGISTERS }
        ensures { EntersStore P.rules self.old place s i v result self.new }
    {
        self.row.turn = place as usize;
        calls::put(&mut self.row, s, i, v)
    }

    /// Loads number `j` of the object in register `s`.
    pub fn read(&mut self, place: u32, s: u32, j: u32) -> Reply
        requires open { IsOpen P.rules self.old }
        requires place { HasPlace self.old place }
        requires register { s < REGISTERS }
        ensures { EntersCommand P.rules self.old place (commands.Read s j) result self.new }
    {
        self.row.turn = place as usize;
        calls::read(&mut self.row, s, j)
    }

    /// Stores number `j` of the object in register `s`.
    pub fn write(&mut self, place: u32, s: u32, j: u32, n: u64) -> Reply
        requires open { IsOpen P.rules self.old }
        requires place { HasPlace self.old place }
        requires register { s < REGISTERS }
        ensures { EntersCommand P.rules self.old place (commands.Write s j n) result self.new }
    {
        self.row.turn = place as usize;
        calls::write(&mut self.row, s, j, n)
    }

    /// Adds to number `j` of the object in register `s`, modulo 2^64. Replies the number before.
    pub fn add(&mut self, place: u32, s: u32, j: u32, n: u64) -> Reply
        requires open { IsOpen P.rules self.old }
        requires place { HasPlace self.old place }
        requires register { s < REGISTERS }
        ensures { EntersCommand P.rules self.old place (commands.Add s j n) result self.new }
    {
        self.row.turn = place as usize;
        calls::add(&mut self.row, s, j, n)
    }

    /// Sets number `j` of the object in register `s` to `next` if it is `was`.
    pub fn swap(&mut self, place: u32, s: u32, j: u32, was: u64, next: u64) -> Reply
        requires open { IsOpen P.rules self.old }
        requires place { HasPlace self.old place }
        requires register { s < REGISTERS }
        ensures { EntersCommand P.rules self.old place
            (commands.Swap s j was next) result self.new }
    {
        self.row.turn = place as usize;
        calls::swap(&mut self.row, s, j, was, next)
    }

    /// Copies register `s` to register `d`.
    pub fn move_register(&mut self, place: u32, d: u32, s: u32) -> Reply
        requires open { IsOpen P.rules self.old }
        requires place { HasPlace self.old place }
        requires target { d < REGISTERS }
        requires source { s < REGISTERS }
        ensures { EntersCommand P.rules self.old place (commands.Move d s) result self.new }
    {
        self.row.turn = place as usize;
        calls::move_register(&mut self.row, d, s)
    }

    /// Clears register `s`.
    pub fn drop_register(&mut self, place: u32, s: u32) -> Reply
        requires open { IsOpen P.rules self.old }
        requires place { HasPlace self.old place }
        requires register { s < REGISTERS }
        ensures { EntersCommand P.rules self.old place (commands.DropReg s) result self.new }
    {
        self.row.turn = place as usize;
        calls::drop_register(&mut self.row, s)
    }

    /// Loads global `g` into register `d`.
    pub fn load(&mut self, place: u32, d: u32, g: u32) -> Reply
        requires open { IsOpen P.rules self.old }
        requires place { HasPlace self.old place }
        requires register { d < REGISTERS }
        requires global { g < GLOBALS }
        ensures { EntersCommand P.rules self.old place (commands.Load d g) result self.new }
    {
        self.row.turn = place as usize;
        calls::load(&mut self.row, d, g)
    }

    /// Stores register `s` into global `g`.
    pub fn share(&mut self, place: u32, g: u32, s: u32) -> Reply
        requires open { IsOpen P.rules self.old }
        requires place { HasPlace self.old place }
        requires register { s < REGISTERS }
        requires global { g < GLOBALS }
        ensures { EntersCommand P.rules self.old place (commands.Share g s) result self.new }
    {
        self.row.turn = place as usize;
        calls::share(&mut self.row, g, s)
    }

    /// Pins the object in register `s`: no collection moves it.
    pub fn pin(&mut self, place: u32, s: u32) -> Reply
        requires open { IsOpen P.rules self.old }
        requires place { HasPlace self.old place }
        requires register { s < REGISTERS }
        ensures { EntersCommand P.rules self.old place (commands.Pin s) result self.new }
    {
        self.row.turn = place as usize;
        calls::pin(&mut self.row, s)
    }

    /// Unpins the object in register `s`.
    pub fn unpin(&mut self, place: u32, s: u32) -> Reply
        requires open { IsOpen P.rules self.old }
        requires place { HasPlace self.old place }
        requires register { s < REGISTERS }
        ensures { EntersCommand P.rules self.old place (commands.Unpin s) result self.new }
    {
        self.row.turn = place as usize;
        calls::unpin(&mut self.row, s)
    }
}
