//! A heap that mutators on threads share, from the beginning of an epoch to its end.

ghost use Rattle.std.specs.Prelude.{◌≡◌, ◌<◌, ◌≤◌, ℕ, Bool, List, Some, true, length, map, slice_get, All, IfOk};
ghost use Rattle.object_model.specs.Heaps.{heap_state};
ghost use Rattle.ideal_heap.specs.Ideal.{IdealHeap};
ghost use Rattle.object_model.specs.Graphs.{Represents, numbers_of};
ghost use Rattle.sessions.specs.Collecting.{Remembers};
ghost use Rattle.sessions.specs.Fitting.{allowance_of};
ghost use Rattle.mutator_core.specs.Guards.{allowance};
ghost use Rattle.block_regions.specs.Notes.{AreNotes, FlagsCover};
ghost use Rattle.heap_users.specs.Users.{mutator_state};
ghost use Rattle.heap_users.specs.Beginnings.{MayUse, epoch_of};
ghost use Rattle.racing_mutator.specs.RacingSeats.{MayCall};
ghost use Rattle.racing_world.specs.Calls.{epoch_of_world, number_of, IsFresh};
ghost use Rattle.racing_world.specs.Closing.{EndsEpoch, IsSeatAt, mutator_at};
ghost use Rattle.racing_world.specs.ClosingNotes.{JoinsNotes, LeavesRoom};

use crate::closing_notes::{drawn_below, join_notes, note_each, unused_tickets};
use crate::giving_back::give_back;
use block_regions::BlockNotes;
use heap_layout::{BUDGET_WORD, STOP_WORD};
use ideal_heap::MAX_MUTATORS;
use mutator_calls::Mutator;
use mutator_rule::{MutatorSeat, RacingRow};
use object_model::{Heap, Row};
use plan_api::Plan;
use racing_mutator::PlanRules;
use std::alloc::{AllocError, Global};

/// A heap that mutators share. Each has a seat, and calls through a `&` to the world.
#[derive(Drop)]
pub struct World<P: Plan> {
    pub(crate) row: RacingRow<PlanRules<P>>,
}

/// The mutators of the seats, as they stand.
fn mutators_of(alloc: Global, seats: &Vec<MutatorSeat>) -> Result<Vec<Mutator>, AllocError>
    ensures { IfOk result (λ v. map mutator_state v.items ≡ map mutator_at seats.now.items) }
{
    let mut mutators = Vec::with_capacity(alloc, seats.len())?;
    for i in 0..seats.len() {
        mutators.push(seats[i].mutator())?;
    }
    Ok(mutators)
}

/// Sets each flag that is set in the other list, which is as long.
fn add_flags(flags: &mut Vec<bool>, more: &Vec<bool>)
    requires { length flags.old.items ≡ length more.now.items }
    ensures len { length flags.new.items ≡ length flags.old.items }
    ensures kept { (k : ℕ) → slice_get flags.old.items k ≡ Some true
        → slice_get flags.new.items k ≡ Some true }
    ensures added { (k : ℕ) → slice_get more.now.items k ≡ Some true
        → slice_get flags.new.items k ≡ Some true }
{
    for k in 0..flags.len() {
        flags[k] = flags[k] | more[k];
    }
}

/// Sets each flag that a seat has set.
fn join_flags(flags: &mut Vec<bool>, seats: &Vec<MutatorSeat>)
    requires { All (λ seat. length flags.old.items ≡ length seat.notes.flags.items)
        seats.now.items }
    ensures len { length flags.new.items ≡ length flags.old.items }
    ensures kept { (k : ℕ) → slice_get flags.old.items k ≡ Some true
        → slice_get flags.new.items k ≡ Some true }
    ensures joined { (j k : ℕ) (seat : MutatorSeat) → IsSeatAt seats.now.items j seat
        → slice_get seat.notes.flags.items k ≡ Some true → slice_get flags.new.items k ≡ Some true }
{
    for j in 0..seats.len() {
        add_flags(flags, &seats[j].notes().flags);
    }
}

impl<P: Plan> World<P> {
    /// Begins an epoch: no stop is raised, no ticket is drawn, and no block has an owner. Each
    /// mutator gets a seat, in the order of the list. Copies no word of the heap, and reads the
    /// block words, to count them.
    ///
    /// Fails if memory runs out. The heap and the mutators are lost then.
    pub fn begin(
        alloc: Global,
        heap: Heap,
        mutators: Vec<Mutator>,
    ) -> Result<(World<P>, Vec<MutatorSeat>), AllocError>
        requires some { 0 < length mutators.items }
        requires few { length mutators.items ≤ MAX_MUTATORS }
        requires users { MayUse (heap_state heap) (map mutator_state mutators.items) }
        requires remembers { Remembers P.rules (heap_state heap) }
        ensures epoch { IfOk result (λ r. epoch_of_world P.rules r.0
            ≡ epoch_of P.rules (heap_state heap) (map mutator_state mutators.items)) }
        ensures allowance { IfOk result (λ r. allowance (epoch_of_world P.rules r.0)
            ≡ allowance_of P.rules.reserve (heap_state heap)) }
        ensures seats { IfOk result (λ r. All (MayCall P.rules r.0.row) r.1.items) }
        ensures numbers { IfOk result (λ r. map number_of r.1.items
            ≡ numbers_of (map mutator_state mutators.items)) }
        ensures mutators { IfOk result (λ r. map mutator_at r.1.items
            ≡ map mutator_state mutators.items) }
        ensures fresh { IfOk result (λ r. All (IsFresh P.rules) r.1.items) }
        ensures represents { IfOk result (λ r. (i : IdealHeap)
            → Represents (heap_state heap) (map mutator_state mutators.items) i
            → Represents (epoch_of_world P.rules r.0).before
            (epoch_of_world P.rules r.0).mutators i) }
        ensures covers { IfOk result (λ r. (flags : List Bool)
            → FlagsCover P.rules (heap_state heap) flags
            → FlagsCover P.rules (epoch_of_world P.rules r.0).before flags) }
    {
        let notes = BlockNotes::new(alloc, &heap)?;
        World::begin_with(alloc, heap, mutators, &notes)
    }

    /// Begins an epoch as `begin` does, with what is known of the blocks: each seat notes it. Reads
    /// no word of the heap.
    ///
    /// Fails if memory runs out. The heap and the mutators are lost then.
    pub fn begin_with(
        alloc: Global,
        heap: Heap,
        mutators: Vec<Mutator>,
        notes: &BlockNotes,
    ) -> Result<(World<P>, Vec<MutatorSeat>), AllocError>
        requires some { 0 < length mutators.items }
        requires few { length mutators.items ≤ MAX_MUTATORS }
        requires users { MayUse (heap_state heap) (map mutator_state mutators.items) }
        requires remembers { Remembers P.rules (heap_state heap) }
        requires notes { AreNotes P.rules.fill (heap_state heap) notes.now }
        ensures epoch { IfOk result (λ r. epoch_of_world P.rules r.0
            ≡ epoch_of P.rules (heap_state heap) (map mutator_state mutators.items)) }
        ensures allowance { IfOk result (λ r. allowance (epoch_of_world P.rules r.0)
            ≡ allowance_of P.rules.reserve (heap_state heap)) }
        ensures seats { IfOk result (λ r. All (MayCall P.rules r.0.row) r.1.items) }
        ensures numbers { IfOk result (λ r. map number_of r.1.items
            ≡ numbers_of (map mutator_state mutators.items)) }
        ensures mutators { IfOk result (λ r. map mutator_at r.1.items
            ≡ map mutator_state mutators.items) }
        ensures fresh { IfOk result (λ r. All (IsFresh P.rules) r.1.items) }
        ensures represents { IfOk result (λ r. (i : IdealHeap)
            → Represents (heap_state heap) (map mutator_state mutators.items) i
            → Represents (epoch_of_world P.rules r.0).before
            (epoch_of_world P.rules r.0).mutators i) }
        ensures covers { IfOk result (λ r. (flags : List Bool)
            → FlagsCover P.rules (heap_state heap) flags
            → FlagsCover P.rules (epoch_of_world P.rules r.0).before flags) }
        ensures noted { IfOk result (λ r.
            All (λ seat. seat.notes.blocks.items ≡ notes.now.notes.items) r.1.items) }
    {
        let allowance = notes.counts.allowance(P::reserve());
        let mut row = heap.into_row();
        row.words.set(STOP_WORD, 0);
        row.words.set(BUDGET_WORD, 0);
        let Row {
            words,
            layout,
            number,
            base,
        } = row;
        let (row, mut seats) = RacingRow::begin(
            alloc, words, layout, number, base, &mutators, allowance,
        )?;
        note_each(&mut seats, &notes.notes, notes.counts.blocks);
        Ok((World { row }, seats))
    }

    /// The row that the mutators share.
    pub fn row(&self) -> &RacingRow<PlanRules<P>>
        ensures { result.now ≡ self.now.row }
    {
        &self.row
    }

    /// Ends the epoch, given the seats of all mutators in the order of `begin`: each block loses
    /// its owner, and the line bits of an Immix block that had one are written anew. Copies no word
    /// of the heap.
    ///
    /// Fails if memory runs out. The heap is lost then.
    pub fn close(
        self,
        alloc: Global,
        seats: Vec<MutatorSeat>,
    ) -> Result<(Heap, Vec<Mutator>), AllocError>
        requires some { 0 < length seats.items }
        requires calls { All (MayCall P.rules self.row) seats.items }
        requires all { map number_of seats.items
            ≡ numbers_of (epoch_of_world P.rules self).mutators }
        ensures ends { IfOk result (λ r. EndsEpoch P.rules (epoch_of_world P.rules self)
            seats.items (heap_state r.0) (map mutator_state r.1.items)) }
        ensures room { IfOk result (λ r. LeavesRoom P.rules (epoch_of_world P.rules self)
            seats.items (heap_state r.0)) }
    {
        let mutators = mutators_of(alloc, &seats)?;
        let layout = self.row.layout();
        let number = self.row.number();
        let base = self.row.base();
        let World { row } = self;
        let words = row.close(seats);
        let mut row = Row {
            words,
            layout,
            number,
            base,
        };
        give_back::<P>(&mut row);
        Ok((Heap::from_row(row), mutators))
    }

    /// Ends the epoch as `close` does, and returns what is known of the blocks for the next one:
    /// what was known as it began, and what the seats noted. Looks at no block for that.
    ///
    /// Fails if memory runs out. The heap is lost then.
    pub fn close_with(
        self,
        alloc: Global,
        seats: Vec<MutatorSeat>,
        notes: BlockNotes,
    ) -> Result<(Heap, Vec<Mutator>, BlockNotes), AllocError>
        requires some { 0 < length seats.items }
        requires calls { All (MayCall P.rules self.row) seats.items }
        requires all { map number_of seats.items
            ≡ numbers_of (epoch_of_world P.rules self).mutators }
        requires notes { AreNotes P.rules.fill (epoch_of_world P.rules self).before notes }
        requires flags { FlagsCover P.rules (epoch_of_world P.rules self).before
            notes.flags.items }
        ensures ends { IfOk result (λ r. EndsEpoch P.rules (epoch_of_world P.rules self)
            seats.items (heap_state r.0) (map mutator_state r.1.items)) }
        ensures notes { IfOk result (λ r. AreNotes P.rules.fill (heap_state r.0) r.2) }
        ensures flags { IfOk result (λ r. FlagsCover P.rules (heap_state r.0)
            r.2.flags.items) }
        ensures joins { IfOk result (λ r. JoinsNotes P.rules.fill seats.items notes.notes.items
            r.2.notes.items) }
    {
        let BlockNotes {
            mut counts,
            mut notes,
            owned,
            mut flags,
        } = notes;
        join_flags(&mut flags, &seats);
        join_notes(&mut notes, counts.blocks, &seats, P::alloc_kind());
        let allowance = counts.allowance(P::reserve());
        let unused = unused_tickets(&seats, allowance);
        let (heap, mutators) = self.close(alloc, seats)?;
        // The Free blocks taken are the tickets drawn below the allowance but for the unused ones.
        let drawn = drawn_below(heap.words().get(BUDGET_WORD), allowance);
        counts.free = counts.free + unused - drawn;
        let notes = BlockNotes {
            counts,
            notes,
            owned,
            flags,
        };
        Ok((heap, mutators, notes))
    }
}
