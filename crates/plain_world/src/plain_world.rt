//! A world: a heap that mutators use in turns, in one epoch.
//!
//! Called by whoever runs an epoch. `begin` makes all fields of the row of a heap, its mutators and
//! notes; `close` takes them apart. The stop word and the budget word are 0 at the beginning; at
//! the end no block has an owner, and notes, flags and counts are right for the heap that is handed
//! on.

ghost use Rattle.std.specs.Prelude.{◌≡◌, ◌+◌, ◌<◌, ◌≤◌, ℕ, List, [], ◌∷◌, Some, None, length, map, replicate, IfOk};
ghost use Rattle.plain_world.specs.Prelude.{IdealHeap, Entry, Represents, heap_state, Rules, Remembers, Stopped, Epoch, GivesBack, numbers_of, mutator_state, AreNotes, FlagsCover, heap_of_world, mutators_of_world, is_generational, fill_of, births_at, ticket_at, budget_word, places_of, HasPlace, IsOpen, HasHistory, MayUse, without_stop, epoch_of, empty_seat, GrantsWithTickets};

use crate::closing::{give_back, unused_tickets};
use bitflags::Flags;
use block_regions::{BlockNotes, copies};
use heap_layout::{BUDGET_WORD, CLASSES, STOP_WORD};
use ideal_heap::MAX_MUTATORS;
use local_allocators::LocalSeat;
use mutator_calls::Mutator;
use object_model::Heap;
use plain_row::PlainRow;
use plan_api::{Plan, PlanFlags};
use std::alloc::{AllocError, Global};
use std::marker::PhantomData;

/// A heap with the mutators that use it in turns, from the beginning of an epoch to its end.
///
/// A call makes the atomic steps of one mutator, which is given by its place in the list. Between
/// two calls any mutator may go on.
#[derive(Debug, Drop)]
pub struct PlainWorld<P> {
    pub(crate) row: PlainRow,
    plan: PhantomData<P>,
}

/// What `count` mutators have as an epoch begins: no ticket, and no block.
///
/// Fails if memory runs out.
pub fn new_seats(alloc: Global, count: usize) -> Result<Vec<LocalSeat>, AllocError>
    ensures { IfOk result (λ v. v.items ≡ replicate count empty_seat) }
{
    let seat = LocalSeat {
        ticket: None,
        blocks: [None; CLASSES],
        over: None,
    };
    copies(alloc, seat, count)
}

impl<P: Plan> PlainWorld<P> {
    /// Begins an epoch: no stop is raised, no ticket is drawn, and no block has an owner. Reads the
    /// block words, for the allowance, and no other side metadata.
    ///
    /// Fails if memory runs out. The heap and the mutators are lost then.
    pub fn begin(
        alloc: Global,
        heap: Heap,
        mutators: Vec<Mutator>,
    ) -> Result<PlainWorld<P>, AllocError>
        requires few { length mutators.items ≤ MAX_MUTATORS }
        requires users { MayUse (heap_state heap) (map mutator_state mutators.items) }
        requires remembers { Remembers P.rules (heap_state heap) }
        ensures open { IfOk result (λ w. IsOpen P.rules w) }
        ensures mutators { IfOk result (λ w. mutators_of_world w
            ≡ map mutator_state mutators.items) }
        ensures places { IfOk result (λ w. places_of w ≡ length mutators.items) }
        ensures plan { IfOk result (λ w. is_generational w ≡ P.rules.young) }
        ensures fill { IfOk result (λ w. fill_of w ≡ P.rules.fill) }
        ensures heap { IfOk result (λ w. heap_of_world w ≡ without_stop (heap_state heap)) }
        ensures tickets { IfOk result (λ w. (k : ℕ) → ticket_at w k ≡ None) }
        ensures begins { IfOk result (λ w. (i : IdealHeap)
            → Represents (heap_state heap) (map mutator_state mutators.items) i
            → HasHistory w (epoch_of P.rules (heap_state heap) (map mutator_state mutators.items))
            i []) }
    {
        let notes = BlockNotes::new(alloc, &heap)?;
        PlainWorld::begin_with(alloc, heap, mutators, notes)
    }

    /// Begins an epoch as `begin` does, with what is known of the blocks. Reads no side metadata,
    /// and takes memory for the mutators alone.
    ///
    /// Fails if memory runs out. The heap, the mutators and the notes are lost then.
    pub fn begin_with(
        alloc: Global,
        heap: Heap,
        mutators: Vec<Mutator>,
        notes: BlockNotes,
    ) -> Result<PlainWorld<P>, AllocError>
        requires few { length mutators.items ≤ MAX_MUTATORS }
        requires users { MayUse (heap_state heap) (map mutator_state mutators.items) }
        requires remembers { Remembers P.rules (heap_state heap) }
        requires notes { AreNotes P.rules.fill (heap_state heap) notes }
        requires flags { FlagsCover P.rules (heap_state heap) notes.flags.items }
        ensures open { IfOk result (λ w. IsOpen P.rules w) }
        ensures mutators { IfOk result (λ w. mutators_of_world w
            ≡ map mutator_state mutators.items) }
        ensures places { IfOk result (λ w. places_of w ≡ length mutators.items) }
        ensures plan { IfOk result (λ w. is_generational w ≡ P.rules.young) }
        ensures fill { IfOk result (λ w. fill_of w ≡ P.rules.fill) }
        ensures heap { IfOk result (λ w. heap_of_world w ≡ without_stop (heap_state heap)) }
        ensures tickets { IfOk result (λ w. (k : ℕ) → ticket_at w k ≡ None) }
        ensures begins { IfOk result (λ w. (i : IdealHeap)
            → Represents (heap_state heap) (map mutator_state mutators.items) i
            → HasHistory w (epoch_of P.rules (heap_state heap) (map mutator_state mutators.items))
            i []) }
    {
        let seats = new_seats(alloc, mutators.len())?;
        Ok(PlainWorld::begin_seated(heap, mutators, notes, seats))
    }

    /// Begins an epoch as `begin_with` does, with seats that `new_seats` made for the mutators.
    /// Takes no memory.
    pub fn begin_seated(
        heap: Heap,
        mutators: Vec<Mutator>,
        notes: BlockNotes,
        seats: Vec<LocalSeat>,
    ) -> PlainWorld<P>
        requires few { length mutators.items ≤ MAX_MUTATORS }
        requires users { MayUse (heap_state heap) (map mutator_state mutators.items) }
        requires remembers { Remembers P.rules (heap_state heap) }
        requires notes { AreNotes P.rules.fill (heap_state heap) notes }
        requires flags { FlagsCover P.rules (heap_state heap) notes.flags.items }
        requires seats { seats.items ≡ replicate (length mutators.items) empty_seat }
        ensures open { IsOpen P.rules result }
        ensures mutators { mutators_of_world result ≡ map mutator_state mutators.items }
        ensures places { places_of result ≡ length mutators.items }
        ensures plan { is_generational result ≡ P.rules.young }
        ensures fill { fill_of result ≡ P.rules.fill }
        ensures heap { heap_of_world result ≡ without_stop (heap_state heap) }
        ensures tickets { (k : ℕ) → ticket_at result k ≡ None }
        ensures begins { (i : IdealHeap)
            → Represents (heap_state heap) (map mutator_state mutators.items) i
            → HasHistory result
            (epoch_of P.rules (heap_state heap) (map mutator_state mutators.items)) i [] }
    {
        let mut row = heap.into_row();
        row.words.set(STOP_WORD, 0);
        row.words.set(BUDGET_WORD, 0);
        let BlockNotes {
            counts,
            notes,
            owned,
            flags,
        } = notes;
        let row = PlainRow {
            row,
            mutators,
            seats,
            turn: 0,
            notes,
            owned,
            flags,
            counts,
            fill: P::alloc_kind(),
            young: P::FLAGS.contains(PlanFlags::YOUNG),
            allowance: counts.allowance(P::reserve()),
        };
        PlainWorld {
            row,
            plan: PhantomData,
        }
    }

    /// The mutators, with their births and registers. A call takes a place in this list.
    pub fn mutators(&self) -> &Vec<Mutator>
        ensures states { map mutator_state result.now.items ≡ mutators_of_world self.now }
        ensures places { length result.now.items ≡ places_of self.now }
    {
        &self.row.mutators
    }

    /// The number of objects that the mutator at place `place` has allocated.
    pub fn births(&self, place: u32) -> u32
        requires { HasPlace self.now place }
        ensures { result ≡ births_at self.now place }
    {
        self.row.mutators[place as usize].births
    }

    /// Ends the epoch: the mutators give back their blocks, which are relisted. Takes no memory,
    /// and reads no side words of blocks that nobody owned.
    pub fn close(self) -> (Heap, Vec<Mutator>)
        requires open { IsOpen P.rules self }
        ensures stopped { (p : Epoch) (i : IdealHeap) (part : List Entry)
            → HasHistory self p i part
            → Stopped p.rules (numbers_of p.mutators) p.before i part
            (heap_state result.0) (map mutator_state result.1.items) }
        ensures mutators { map mutator_state result.1.items ≡ mutators_of_world self }
        ensures places { length result.1.items ≡ places_of self }
        ensures users { MayUse (heap_state result.0) (map mutator_state result.1.items) }
        ensures remembers { (rules : Rules) → rules.young ≡ is_generational self
            → Remembers rules (heap_state result.0) }
        ensures gives { GivesBack (heap_of_world self) (heap_state result.0) }
        ensures drawn { (k t : ℕ) → ticket_at self k ≡ Some t → t < budget_word self }
        ensures tickets { (p : Epoch) (i : IdealHeap) (part : List Entry)
            → HasHistory self p i part → GrantsWithTickets p self (heap_state result.0) }
    {
        let (heap, mutators, _) = self.close_with();
        (heap, mutators)
    }

    /// Ends the epoch as `close` does, and returns what is known of the blocks for the next one.
    pub fn close_with(self) -> (Heap, Vec<Mutator>, BlockNotes)
        requires open { IsOpen P.rules self }
        ensures stopped { (p : Epoch) (i : IdealHeap) (part : List Entry)
            → HasHistory self p i part
            → Stopped p.rules (numbers_of p.mutators) p.before i part
            (heap_state result.0) (map mutator_state result.1.items) }
        ensures mutators { map mutator_state result.1.items ≡ mutators_of_world self }
        ensures places { length result.1.items ≡ places_of self }
        ensures users { MayUse (heap_state result.0) (map mutator_state result.1.items) }
        ensures remembers { (rules : Rules) → rules.young ≡ is_generational self
            → Remembers rules (heap_state result.0) }
        ensures gives { GivesBack (heap_of_world self) (heap_state result.0) }
        ensures drawn { (k t : ℕ) → ticket_at self k ≡ Some t → t < budget_word self }
        ensures tickets { (p : Epoch) (i : IdealHeap) (part : List Entry)
            → HasHistory self p i part → GrantsWithTickets p self (heap_state result.0) }
        ensures notes { (p : Epoch) (i : IdealHeap) (part : List Entry)
            → HasHistory self p i part → AreNotes p.rules.fill (heap_state result.0) result.2 }
        ensures known { AreNotes (fill_of self) (heap_state result.0) result.2 }
        ensures flags { (rules : Rules) → rules.young ≡ is_generational self
            → FlagsCover rules (heap_state result.0) result.2.flags.items }
    {
        let PlainRow {
            mut row,
            mutators,
            seats,
            mut notes,
            mut owned,
            flags,
            mut counts,
            ..
        } = self.row;
        // The Free blocks taken are the tickets drawn but for the unused ones.
        counts.free = counts.free + unused_tickets(&seats) - row.words.get(BUDGET_WORD) as u32;
        give_back::<P>(&mut row, &mut notes, &owned);
        owned.clear();
        let notes = BlockNotes {
            counts,
            notes,
            owned,
            flags,
        };
        (Heap::from_row(row), mutators, notes)
    }
}
