//! The search for room, and allocation with it.

ghost use Rattle.std.specs.Prelude.{◌≡◌, ◌+◌, ◌<◌, ◌≤◌, ◌^◌, ℕ, Some, true, false, IfOk, IfErr, IfSome, IfNone};
ghost use Rattle.object_model.specs.Objects.{size_of};
ghost use Rattle.sessions.specs.Fitting.{class_for};
ghost use Rattle.mutator_calls.specs.declared.need.Allocated.{Allocated};
ghost use Rattle.mutator_calls.specs.declared.need.Allocated.TheVariants as allocated;
ghost use Rattle.local_allocators.specs.MutatorRegions.{Overflows, KeepsHole};
ghost use Rattle.mutator_calls.specs.declared.need.NeedCause.TheVariants as cause;
ghost use Rattle.mutator_calls.specs.Allocating.{MatchAllocated};
ghost use Rattle.mutator_core.specs.Guards.{HasTicket, allowance};
ghost use Rattle.mutator_core.specs.Seen.{HasSeenUsed};
ghost use Rattle.racing_mutator.specs.RacingSeats.{IsReady, local, holdings, epoch_of_racing};
ghost use Rattle.racing_rooms.specs.Rooms.{HasRooms, UsesItsBlocks, UsesOthers};
ghost use Rattle.racing_rooms.specs.NoRoom.{regions_at, LacksFreeBelow, LacksRegionRoom, HasNoRoom, IsCauseFor};
ghost use Rattle.racing_mutator.specs.Searches.{HasFound, Searches, TakesNothing, TakesFree, TakesOneHole, TakesRoom, KeepsHoleRegion, Allocates, Needs};
ghost use Rattle.racing_mutator.specs.Regions.{FindsRegion};

use crate::racing::Racing;
use heap_layout::{CLASS_UNIT, Kind};
use ideal_heap::{MAX_NUMS, MAX_REFS, REGISTERS};
use local_allocators::{first_region, overflows};
use mutator_calls::{Allocated, Need, NeedCause};
use object_model::{HEADER_WORDS, MAX_MEDIUM_WORDS, Shape, size_words};
use plan_api::Plan;

/// The answer to an allocation that is left to the stop.
fn stop(register: u32, shape: &Shape, cause: NeedCause) -> Allocated
    ensures { result ≡ allocated.Stop (record {
      register = register;
      refs = shape.now.refs;
      nums = shape.now.nums;
      cause = cause;
    }) }
{
    Allocated::Stop(Need {
        register,
        refs: shape.refs,
        nums: shape.nums,
        cause,
    })
}

impl<P: Plan> Racing<'_, '_, P> {
    /// The mutator's ticket, which is drawn if it has none.
    fn hold_ticket(&mut self) -> u32
        requires ready { IsReady P.rules self.old }
        requires rooms { HasRooms P.rules self.old.seat.now }
        ensures ready { IsReady P.rules self.new }
        ensures rooms { HasRooms P.rules self.new.seat.now }
        ensures takes { TakesNothing P.rules self.old self.new }
        ensures regions { regions_at self.new.seat.now ≡ regions_at self.old.seat.now }
        ensures ticket { (local self.new).ticket ≡ Some result }
    {
        let mut local = self.seat.notes().local;
        if let Some(ticket) = local.ticket {
            return ticket;
        }
        let ticket = self.draw_ticket() as u32;
        local.ticket = Some(ticket);
        self.seat.note_local(local);
        ticket
    }

    /// Whether an object of `size` words overflows the hole region, under a plan with lines.
    fn overflows(&self, size: u32) -> bool
        requires { HasRooms P.rules self.now.seat.now }
        ensures yes { result ≡ true
            → Overflows P.rules.fill (regions_at self.now.seat.now) size }
        ensures no { result ≡ false
            → Overflows P.rules.fill (regions_at self.now.seat.now) size → ⊥ }
    {
        let notes = self.seat.notes();
        overflows(&notes.blocks, &notes.local, P::alloc_kind(), size)
    }

    /// Takes a block with the ticket if it is Free. Its words are the region for the size then; in
    /// overflow allocation they are the overflow region, and the hole region stays.
    fn take_free_room(&mut self, block: u32, size: u32) -> bool
        requires ready { IsReady P.rules self.old }
        requires rooms { HasRooms P.rules self.old.seat.now }
        requires block { block < (epoch_of_racing P.rules self.old).before.blocks }
        requires least { HEADER_WORDS ≤ size }
        requires most { size ≤ MAX_MEDIUM_WORDS }
        requires ticket { HasTicket (epoch_of_racing P.rules self.old) (local self.old) }
        ensures ready { IsReady P.rules self.new }
        ensures rooms { HasRooms P.rules self.new.seat.now }
        ensures searches { Searches P.rules self.old self.new }
        ensures found { result ≡ true
            → HasFound P.rules self.new (class_for P.rules.fill size) block size }
        ensures uses { result ≡ true
            → UsesItsBlocks (epoch_of_racing P.rules self.old) (holdings (local self.old))
            → UsesOthers (epoch_of_racing P.rules self.old) (holdings (local self.new)) block }
        ensures takes { result ≡ true → TakesFree P.rules self.old self.new block
            (class_for P.rules.fill size) }
        ensures region { result ≡ true
            → FindsRegion P.rules self.old.seat.now size block self.new.seat.now }
        ensures hole { result ≡ true → Overflows P.rules.fill (regions_at self.old.seat.now) size
            → KeepsHole (regions_at self.old.seat.now) (regions_at self.new.seat.now) }
        ensures regions { result ≡ false
            → regions_at self.new.seat.now ≡ regions_at self.old.seat.now }
        ensures kept { result ≡ false
            → holdings (local self.new) ≡ holdings (local self.old) }
        ensures used { result ≡ false → HasSeenUsed (local self.new) block }
        ensures still { (k : ℕ) → HasSeenUsed (local self.old) k
            → HasSeenUsed (local self.new) k }
    {
        if self.look_block(block) % CLASS_UNIT != Kind::Free as u64 {
            return false;
        }
        if !self.take_free(block, size) {
            return false;
        }
        let notes = self.seat.notes();
        let over = overflows(&notes.blocks, &notes.local, P::alloc_kind(), size);
        let class = P::class_for(size);
        let region = first_region(P::alloc_kind(), size);
        self.note_own(over, block, class, region, None);
        true
    }

    /// Takes the lowest Free block with the mutator's ticket. There is one, since the ticket is
    /// below the allowance. Returns the block.
    fn take_some_free(&mut self, size: u32) -> u32
        requires ready { IsReady P.rules self.old }
        requires rooms { HasRooms P.rules self.old.seat.now }
        requires least { HEADER_WORDS ≤ size }
        requires most { size ≤ MAX_MEDIUM_WORDS }
        requires ticket { HasTicket (epoch_of_racing P.rules self.old) (local self.old) }
        ensures ready { IsReady P.rules self.new }
        ensures rooms { HasRooms P.rules self.new.seat.now }
        ensures searches { Searches P.rules self.old self.new }
        ensures found { HasFound P.rules self.new (class_for P.rules.fill size) result size }
        ensures takes { TakesFree P.rules self.old self.new result (class_for P.rules.fill size) }
        ensures region { FindsRegion P.rules self.old.seat.now size result self.new.seat.now }
        ensures lowest { LacksFreeBelow P.rules self.new.seat.now result }
        ensures hole { Overflows P.rules.fill (regions_at self.old.seat.now) size
            → KeepsHole (regions_at self.old.seat.now) (regions_at self.new.seat.now) }
        ensures uses { UsesItsBlocks (epoch_of_racing P.rules self.old) (holdings (local self.old))
            → UsesOthers (epoch_of_racing P.rules self.old) (holdings (local self.new)) result }
    {
        for block in 0..self.row.layout().blocks() {
            if self.take_free_room(block, size) {
                return block;
            }
        }
        unreachable!()
    }

    /// Takes the lowest Free block with the mutator's ticket, which is drawn if it has none.
    /// Returns the block. The error is a ticket that is not below the allowance.
    fn take_free_block(&mut self, size: u32) -> Result<u32, u32>
        requires ready { IsReady P.rules self.old }
        requires rooms { HasRooms P.rules self.old.seat.now }
        requires least { HEADER_WORDS ≤ size }
        requires most { size ≤ MAX_MEDIUM_WORDS }
        ensures ready { IsReady P.rules self.new }
        ensures rooms { HasRooms P.rules self.new.seat.now }
        ensures searches { Searches P.rules self.old self.new }
        ensures found { IfOk result (λ k.
            HasFound P.rules self.new (class_for P.rules.fill size) k size) }
        ensures uses { IfOk result (λ k.
            UsesItsBlocks (epoch_of_racing P.rules self.old) (holdings (local self.old))
            → UsesOthers (epoch_of_racing P.rules self.old) (holdings (local self.new)) k) }
        ensures takes { IfOk result (λ k. TakesFree P.rules self.old self.new k
            (class_for P.rules.fill size)) }
        ensures region { IfOk result (λ k.
            FindsRegion P.rules self.old.seat.now size k self.new.seat.now) }
        ensures lowest { IfOk result (λ k. LacksFreeBelow P.rules self.new.seat.now k) }
        ensures hole { IfOk result (λ k. Overflows P.rules.fill (regions_at self.old.seat.now) size
            → KeepsHole (regions_at self.old.seat.now) (regions_at self.new.seat.now)) }
        ensures good { IfOk result (λ k. (t : ℕ) → (local self.old).ticket ≡ Some t
            → t < allowance (epoch_of_racing P.rules self.old)) }
        ensures nothing { IfErr result (λ t. TakesNothing P.rules self.old self.new) }
        ensures regions { IfErr result (λ t.
            regions_at self.new.seat.now ≡ regions_at self.old.seat.now) }
        ensures ticket { IfErr result (λ t. (local self.new).ticket ≡ Some t) }
        ensures few { IfErr result (λ t. allowance (epoch_of_racing P.rules self.new) ≤ t) }
    {
        let ticket = self.hold_ticket();
        if ticket >= self.seat.notes().allowance {
            return Err(ticket);
        }
        Ok(self.take_some_free(size))
    }

    /// Finds a hole with room for `size` words: in a block of the mutator's own, else in one that
    /// nobody owns, which it takes. Returns the block.
    fn find_hole(&mut self, size: u32) -> Option<u32>
        requires ready { IsReady P.rules self.old }
        requires rooms { HasRooms P.rules self.old.seat.now }
        requires least { HEADER_WORDS ≤ size }
        requires most { size ≤ MAX_MEDIUM_WORDS }
        requires full { LacksRegionRoom P.rules self.old.seat.now size }
        ensures ready { IsReady P.rules self.new }
        ensures rooms { HasRooms P.rules self.new.seat.now }
        ensures searches { Searches P.rules self.old self.new }
        ensures found { IfSome result (λ k.
            HasFound P.rules self.new (class_for P.rules.fill size) k size) }
        ensures uses { IfSome result (λ k.
            UsesItsBlocks (epoch_of_racing P.rules self.old) (holdings (local self.old))
            → UsesOthers (epoch_of_racing P.rules self.old) (holdings (local self.new)) k) }
        ensures takes { IfSome result (λ k. TakesOneHole P.rules self.old self.new k size) }
        ensures region { IfSome result (λ k.
            FindsRegion P.rules self.old.seat.now size k self.new.seat.now) }
        ensures nothing { IfNone result (TakesNothing P.rules self.old self.new) }
        ensures regions { IfNone result (
            regions_at self.new.seat.now ≡ regions_at self.old.seat.now) }
        ensures ticket { IfNone result ((local self.new).ticket ≡ (local self.old).ticket) }
        ensures lacks { IfNone result (HasNoRoom P.rules self.new.seat.now size) }
    {
        if let Some(block) = self.take_own_hole(size) {
            return Some(block);
        }
        self.take_some_hole(size)
    }

    /// Finds room for `size` words that overflow the hole region: a Free block, else a hole.
    /// Returns the block. The error is a ticket that is not below the allowance.
    fn find_overflow(&mut self, size: u32) -> Result<u32, u32>
        requires ready { IsReady P.rules self.old }
        requires rooms { HasRooms P.rules self.old.seat.now }
        requires least { HEADER_WORDS ≤ size }
        requires most { size ≤ MAX_MEDIUM_WORDS }
        requires full { LacksRegionRoom P.rules self.old.seat.now size }
        requires over { Overflows P.rules.fill (regions_at self.old.seat.now) size }
        ensures ready { IsReady P.rules self.new }
        ensures rooms { HasRooms P.rules self.new.seat.now }
        ensures searches { Searches P.rules self.old self.new }
        ensures found { IfOk result (λ k.
            HasFound P.rules self.new (class_for P.rules.fill size) k size) }
        ensures uses { IfOk result (λ k.
            UsesItsBlocks (epoch_of_racing P.rules self.old) (holdings (local self.old))
            → UsesOthers (epoch_of_racing P.rules self.old) (holdings (local self.new)) k) }
        ensures takes { IfOk result (λ k.
            TakesRoom P.rules self.old.seat.now size k self.new.seat.now) }
        ensures region { IfOk result (λ k.
            FindsRegion P.rules self.old.seat.now size k self.new.seat.now) }
        ensures overflow { IfOk result (λ k.
            KeepsHoleRegion P.rules self.old.seat.now size self.new.seat.now) }
        ensures nothing { IfErr result (λ t. TakesNothing P.rules self.old self.new) }
        ensures regions { IfErr result (λ t.
            regions_at self.new.seat.now ≡ regions_at self.old.seat.now) }
        ensures cause { IfErr result (λ t.
            IsCauseFor P.rules self.new.seat.now size (cause.Budget t)) }
    {
        let ticket = match self.take_free_block(size) {
            Ok(block) => return Ok(block),
            Err(ticket) => ticket,
        };
        match self.find_hole(size) {
            Some(block) => Ok(block),
            None => Err(ticket),
        }
    }

    /// Finds room for `size` words, for which no region has room: a hole, else a Free block, which
    /// is taken with a ticket. In overflow allocation a Free block comes before a hole. Returns the
    /// block. The error is a ticket that is not below the allowance.
    pub fn find_room(&mut self, size: u32) -> Result<u32, u32>
        requires ready { IsReady P.rules self.old }
        requires rooms { HasRooms P.rules self.old.seat.now }
        requires least { HEADER_WORDS ≤ size }
        requires most { size ≤ MAX_MEDIUM_WORDS }
        requires full { LacksRegionRoom P.rules self.old.seat.now size }
        ensures ready { IsReady P.rules self.new }
        ensures rooms { HasRooms P.rules self.new.seat.now }
        ensures searches { Searches P.rules self.old self.new }
        ensures found { IfOk result (λ k.
            HasFound P.rules self.new (class_for P.rules.fill size) k size) }
        ensures uses { IfOk result (λ k.
            UsesItsBlocks (epoch_of_racing P.rules self.old) (holdings (local self.old))
            → UsesOthers (epoch_of_racing P.rules self.old) (holdings (local self.new)) k) }
        ensures takes { IfOk result (λ k.
            TakesRoom P.rules self.old.seat.now size k self.new.seat.now) }
        ensures region { IfOk result (λ k.
            FindsRegion P.rules self.old.seat.now size k self.new.seat.now) }
        ensures overflow { IfOk result (λ k.
            KeepsHoleRegion P.rules self.old.seat.now size self.new.seat.now) }
        ensures nothing { IfErr result (λ t. TakesNothing P.rules self.old self.new) }
        ensures regions { IfErr result (λ t.
            regions_at self.new.seat.now ≡ regions_at self.old.seat.now) }
        ensures cause { IfErr result (λ t.
            IsCauseFor P.rules self.new.seat.now size (cause.Budget t)) }
    {
        if self.overflows(size) {
            return self.find_overflow(size);
        }
        if let Some(block) = self.find_hole(size) {
            return Ok(block);
        }
        self.take_free_block(size)
    }

    /// Allocates an object for which no region has room, after a search for room.
    #[inline(never)]
    fn allocate_elsewhere(&mut self, d: u32, shape: &Shape) -> Allocated
        requires ready { IsReady P.rules self.old }
        requires rooms { HasRooms P.rules self.old.seat.now }
        requires register { d < REGISTERS }
        requires refs { shape.now.refs ≤ MAX_REFS }
        requires nums { shape.now.nums ≤ MAX_NUMS }
        requires small { size_of shape.now.refs shape.now.nums ≤ MAX_MEDIUM_WORDS }
        requires births { (local self.old).births + 1 < 2 ^ 32 }
        requires full { LacksRegionRoom P.rules self.old.seat.now
            (size_of shape.now.refs shape.now.nums) }
        ensures ready { IsReady P.rules self.new }
        ensures rooms { HasRooms P.rules self.new.seat.now }
        ensures uses { UsesItsBlocks (epoch_of_racing P.rules self.old) (holdings (local self.old))
            → UsesItsBlocks (epoch_of_racing P.rules self.old) (holdings (local self.new)) }
        ensures answer { MatchAllocated result
            (λ n. Allocates P.rules self.old d shape.now.refs shape.now.nums n self.new)
            (λ need. Needs P.rules self.old d shape.now.refs shape.now.nums need self.new) }
    {
        match self.find_room(size_words(shape)) {
            Ok(block) => Allocated::Made(self.allocate_found(block, d, shape)),
            Err(ticket) => stop(d, shape, NeedCause::Budget(ticket)),
        }
    }

    /// Allocates an object, as `World::new_object` does.
    #[inline(always)]
    pub fn new_object(&mut self, d: u32, shape: &Shape) -> Allocated
        requires ready { IsReady P.rules self.old }
        requires rooms { HasRooms P.rules self.old.seat.now }
        requires register { d < REGISTERS }
        requires refs { shape.now.refs ≤ MAX_REFS }
        requires nums { shape.now.nums ≤ MAX_NUMS }
        requires births { (local self.old).births + 1 < 2 ^ 32 }
        ensures ready { IsReady P.rules self.new }
        ensures rooms { HasRooms P.rules self.new.seat.now }
        ensures uses { UsesItsBlocks (epoch_of_racing P.rules self.old) (holdings (local self.old))
            → UsesItsBlocks (epoch_of_racing P.rules self.old) (holdings (local self.new)) }
        ensures answer { MatchAllocated result
            (λ n. Allocates P.rules self.old d shape.now.refs shape.now.nums n self.new)
            (λ need. Needs P.rules self.old d shape.now.refs shape.now.nums need self.new) }
    {
        if size_words(shape) > MAX_MEDIUM_WORDS {
            return stop(d, shape, NeedCause::Large);
        }
        if let Some(name) = self.allocate_here(d, shape) {
            return Allocated::Made(name);
        }
        self.allocate_elsewhere(d, shape)
    }
}
