//! Objects that no mutator could allocate, placed at a stop.
//!
//! `write_object` writes the object and its block's word and line bits, and with them the mutator's
//! births and register, and the notes: these change together. A refused need writes nothing.
//! Collections are made by `collect.rt`.

ghost use Rattle.std.specs.Prelude.{◌≡◌, ◌+◌, ◌≤◌, ◌<◌, ◌^◌, ℕ, length, slice_get, IfSome, IfNone, IfOk, IsTrue, OnErr, Some};
ghost use Rattle.managed_heap.specs.Prelude.{Note, heap_state, size_of, session_counts, Fits, counts_of, Setting, Moment, Places, ServesNeed, Mutator, AreNotes, collections_of, IsManaged, IsHeapInOrder, IsStopped, HeapStandsAt, IsSpot, born_in, AddsBirths, AddsNeed, MutatorAllocatesAt, IfRefused, MakesRoomAtStop, MayAllocate, NotesLast, WritesNeed, Settles, IsNoteOfLast};
ghost use Rattle.managed_heap.specs.Prelude.placed;

use crate::scheduler::Scheduler;
use crate::spot::{Spot, note_placed, relist_spot, take_spot};
use crate::stopped_heap::StoppedHeap;
use collector::Note;
use forward_word::NUMBER_BITS;
use ideal_heap::{MAX_NUMS, MAX_REFS, Name, REGISTERS};
use large_space::{blocks_for, find_run};
use mutator_calls::{Mutator, Need};
use object_model::{Collect, Heap, MAX_MEDIUM_WORDS, Shape, size_words};
use plan_api::Plan;
use pools::Pool;
use std::alloc::AllocError;
use std::thread::Threads;
use work_packets::Gate;

/// What became of a need.
#[derive(Clone, Copy, Debug, PartialEq, Eq)]
pub enum Placed {
    /// The object is placed and has this name.
    Placed(Name),
    /// After a full collection an object of `size` words does not fit.
    HeapFull { size: u32 },
}

/// The shape of the object that is needed.
fn shape_of(need: &Need) -> Shape
    ensures refs { result.refs ≡ need.now.refs }
    ensures nums { result.nums ≡ need.now.nums }
{
    Shape {
        refs: need.refs,
        nums: need.nums,
    }
}

/// Counts an object of mutator `number` and stores its address into register `d`. Returns its name.
fn count_birth(mutators: &mut Vec<Mutator>, number: u32, d: u32, address: u32) -> Name
    requires least { 1 ≤ number }
    requires most { number ≤ length mutators.old.items }
    requires register { d < REGISTERS }
    requires births { (k : ℕ) (u : Mutator) → k + 1 ≡ number
        → slice_get mutators.old.items k ≡ Some u → u.births + 1 < 2 ^ 32 }
    ensures { (k : ℕ) → k + 1 ≡ number
        → MutatorAllocatesAt mutators.old.items mutators.new.items k number d address result }
{
    let mutator = &mut mutators[number as usize - 1];
    mutator.births += 1;
    mutator.registers[d as usize] = address;
    Name {
        mutator: number,
        birth: mutator.births,
    }
}

impl<P: Plan> StoppedHeap<P> {
    /// Where an object of `size` words is to be placed: in the first hole with room of the lowest
    /// block that has one, else at the start of the lowest Free block, if one may be granted. If it
    /// is large, in the lowest run of Free blocks.
    fn find_place(&mut self, size: u32) -> Option<Spot>
        requires plan { IsManaged P.rules }
        requires notes { AreNotes P.rules.fill (heap_state self.old.heap) self.old.notes }
        requires least { 3 ≤ size }
        requires most { size ≤ size_of MAX_REFS MAX_NUMS }
        ensures notes { AreNotes P.rules.fill (heap_state self.new.heap) self.new.notes }
        ensures flags { self.new.notes.flags ≡ self.old.notes.flags }
        ensures rest { self.new ≡ record self.old { notes = self.new.notes } }
        ensures spot { IfSome result (IsSpot P.rules (heap_state self.old.heap) size) }
        ensures none { IfNone result (Fits P.rules (heap_state self.old.heap) size → ⊥) }
    {
        if size > MAX_MEDIUM_WORDS {
            return self.find_large(size);
        }
        if let Some((block, offset)) = self.notes.lowest_hole(&self.heap, P::alloc_kind(), size) {
            return Some(Spot {
                block,
                offset,
                free: false,
                run: 0,
            });
        }
        let reserve = P::reserve();
        if !self.notes.counts().is_grantable(reserve) {
            return None;
        }
        let block = self.notes.lowest_free(&self.heap)?;
        Some(Spot {
            block,
            offset: 0,
            free: true,
            run: 0,
        })
    }

    /// Where a large object of `size` words is to be placed: at the start of the lowest run of Free
    /// blocks, if it may be granted. Reads block words alone.
    fn find_large(&self, size: u32) -> Option<Spot>
        requires counts { session_counts self.now.notes.counts
            ≡ counts_of (heap_state self.now.heap) }
        requires large { MAX_MEDIUM_WORDS < size }
        requires most { size ≤ size_of MAX_REFS MAX_NUMS }
        ensures spot { IfSome result (IsSpot P.rules (heap_state self.now.heap) size) }
        ensures none { IfNone result (Fits P.rules (heap_state self.now.heap) size → ⊥) }
    {
        let count = blocks_for(size);
        if !self.notes.counts().is_run_grantable(P::reserve(), count) {
            return None;
        }
        let block = find_run(self.heap.words(), self.heap.layout(), count)?;
        Some(Spot {
            block,
            offset: 0,
            free: true,
            run: count,
        })
    }

    /// Writes, names and counts the object of a need of mutator `number` at a spot, and relists its
    /// block.
    fn write_object(self, number: u32, need: &Need, spot: Spot) -> (StoppedHeap<P>, Name)
        requires plan { IsManaged P.rules }
        requires stopped { IsStopped P.rules self }
        requires may { MayAllocate self number need.now }
        requires spot { IsSpot P.rules (heap_state self.heap) (size_of need.now.refs need.now.nums)
            spot }
        ensures { WritesNeed P.rules self number need.now spot result.1 result.0 }
    {
        let StoppedHeap {
            alloc,
            heap,
            mut mutators,
            mut notes,
            roots,
            nursery,
            full,
            workers,
            plan,
        } = self;
        let shape = shape_of(need);
        let mut row = take_spot::<P>(heap.into_row(), &spot, size_words(&shape));
        let address = row.layout.address(spot.block, spot.offset);
        let name = count_birth(&mut mutators, number, need.register, address);
        row.write_object(address, &name, &shape);
        let row = relist_spot::<P>(row, &spot);
        let heap = Heap::from_row(row);
        note_placed(&mut notes, &heap, &spot);
        let stopped = StoppedHeap {
            alloc,
            heap,
            mutators,
            notes,
            roots,
            nursery,
            full,
            workers,
            plan,
        };
        (stopped, name)
    }

    /// Places the object of a need of mutator `number` there.
    fn place_need(self, number: u32, need: &Need, spot: Spot) -> (StoppedHeap<P>, Name)
        requires plan { IsManaged P.rules }
        requires stopped { IsStopped P.rules self }
        requires may { MayAllocate self number need.now }
        requires spot { IsSpot P.rules (heap_state self.heap) (size_of need.now.refs need.now.nums)
            spot }
        ensures order { IsHeapInOrder P.rules result.0 }
        ensures places { (t : Setting) (now : Moment) → HeapStandsAt P.rules self t now
            → (next : Moment)
            × Places t number need.now.register need.now.refs need.now.nums now next
            × AddsNeed number need.now (placed.Placed result.1) now next
            × HeapStandsAt P.rules result.0 t next }
        ensures births { AddsBirths self.mutators.items number 1 result.0.mutators.items }
        ensures counts { collections_of result.0 ≡ collections_of self }
    {
        self.write_object(number, need, spot)
    }

    /// The collections for an object of `size` words that does not fit: the one to try first, and a
    /// full one if that was a nursery one and the object still does not fit. The note, if
    /// `has_note` asks for one, is of the last one.
    ///
    /// Fails if memory runs out. The heap is lost then.
    fn make_room<Q: Pool, G: Gate, R: Threads + Sync>(
        self,
        scheduler: &Scheduler<'_, R, Q, G>,
        size: u32,
        has_note: bool,
    ) -> Result<(StoppedHeap<P>, Option<Note>), AllocError>
        requires plan { IsManaged P.rules }
        requires stopped { IsStopped P.rules self }
        requires collections { collections_of self + 2 < 2 ^ NUMBER_BITS }
        requires least { 3 ≤ size }
        requires most { size ≤ size_of MAX_REFS MAX_NUMS }
        ensures order { IfOk result (λ r. IsHeapInOrder P.rules r.0) }
        ensures room { (t : Setting) (now : Moment) → HeapStandsAt P.rules self t now
            → IfOk result (λ r. (late : Moment) × MakesRoomAtStop t size now late
            × HeapStandsAt P.rules r.0 t late) }
        ensures full { IfOk result (λ r. (Fits P.rules (heap_state r.0.heap) size → ⊥)
            → r.0.full ≡ self.full + 1) }
        ensures births { IfOk result (λ r. (m : ℕ)
            → AddsBirths self.mutators.items m 0 r.0.mutators.items) }
        ensures counts { IfOk result (λ r. collections_of r.0 ≤ collections_of self + 2) }
        ensures noted { IfOk result (λ r. (note : Note) × IsNoteOfLast P.rules self r.0 note
            × (IsTrue has_note → r.1 ≡ Some note) × IfSome r.1 (λ known. known ≡ note)) }
    {
        let Scheduler { rt, pool, gate } = *scheduler;
        let first = P::kind(&self.heap);
        let (mut stopped, note) = self.collect_noting(rt, first, pool, gate, has_note)?;
        if first == Collect::Full {
            return Ok((stopped, note));
        }
        if let Some(_spot) = stopped.find_place(size) {
            return Ok((stopped, note));
        }
        let (stopped, note) = stopped.collect_noting(rt, Collect::Full, pool, gate, has_note)?;
        Ok((stopped, note))
    }

    /// Places the object of a need of mutator `number` if it fits.
    fn place_or_refuse(self, number: u32, need: &Need) -> (StoppedHeap<P>, Placed)
        requires plan { IsManaged P.rules }
        requires stopped { IsStopped P.rules self }
        requires may { MayAllocate self number need.now }
        ensures order { IsHeapInOrder P.rules result.0 }
        ensures settles { (t : Setting) (now : Moment) → HeapStandsAt P.rules self t now
            → (next : Moment) × Settles t number need.now result.1 now next
            × AddsNeed number need.now result.1 now next × HeapStandsAt P.rules result.0 t next }
        ensures births { AddsBirths self.mutators.items number (born_in result.1)
            result.0.mutators.items }
        ensures counts { collections_of result.0 ≡ collections_of self }
        ensures refused { IfRefused result.1 (λ size. (size ≡ size_of need.now.refs need.now.nums)
            × (result.0.full ≡ self.full) × (heap_state result.0.heap ≡ heap_state self.heap)
            × (Fits P.rules (heap_state result.0.heap) size → ⊥)) }
    {
        let size = size_words(&shape_of(need));
        let mut stopped = self;
        if let Some(spot) = stopped.find_place(size) {
            let (stopped, name) = stopped.place_need(number, need, spot);
            return (stopped, Placed::Placed(name));
        }
        (stopped, Placed::HeapFull { size })
    }

    /// Serves a need of mutator `number`. If the object does not fit, the collection to try first
    /// is made, and a full one if that was a nursery one and the object still does not fit. It is
    /// placed if it fits then. The note is of the last collection, if one was made and `has_note`
    /// asks for one. Writes no reply.
    ///
    /// Fails if memory runs out in a collection. The heap is lost then.
    pub fn place_or_collect<Q: Pool, G: Gate, R: Threads + Sync>(
        self,
        rt: &R,
        number: u32,
        need: Need,
        pool: &Q,
        gate: &G,
        has_note: bool,
    ) -> Result<(StoppedHeap<P>, Placed, Option<Note>), AllocError>
        requires plan { IsManaged P.rules }
        requires stopped { IsStopped P.rules self }
        requires may { MayAllocate self number need }
        requires collections { collections_of self + 2 < 2 ^ NUMBER_BITS }
        ensures stopped { IfOk result (λ r. IsStopped P.rules r.0) }
        ensures serves { (t : Setting) (now : Moment) → HeapStandsAt P.rules self t now
            → IfOk result (λ r. (next : Moment)
            × ServesNeed t number need.register need.refs need.nums now next
            × AddsNeed number need r.1 now next × HeapStandsAt P.rules r.0 t next) }
        ensures births { IfOk result (λ r. AddsBirths self.mutators.items number (born_in r.1)
            r.0.mutators.items) }
        ensures counts { IfOk result (λ r. collections_of r.0 ≤ collections_of self + 2) }
        ensures refused { IfOk result (λ r. IfRefused r.1 (λ size.
            (size ≡ size_of need.refs need.nums) × (r.0.full ≡ self.full + 1)
            × (Fits P.rules (heap_state r.0.heap) size → ⊥))) }
        ensures noted { IsTrue has_note → IfOk result (λ r. NotesLast P.rules self r.0 r.2) }
        ensures known { IfOk result (λ r. IfSome r.2 (λ note. IsNoteOfLast P.rules self r.0 note)) }
        ensures lost { OnErr result (Fits P.rules (heap_state self.heap)
            (size_of need.refs need.nums) → ⊥) }
    {
        let size = size_words(&shape_of(&need));
        let mut stopped = self;
        if let Some(spot) = stopped.find_place(size) {
            let (stopped, name) = stopped.place_need(number, &need, spot);
            return Ok((stopped, Placed::Placed(name), None));
        }
        let scheduler = Scheduler { rt, pool, gate };
        let (stopped, note) = stopped.make_room(&scheduler, size, has_note)?;
        let (stopped, placed) = stopped.place_or_refuse(number, &need);
        Ok((stopped, placed, note))
    }
}
