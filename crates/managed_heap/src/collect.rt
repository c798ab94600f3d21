//! A collection of a stopped heap.
//!
//! `collect` writes heap, registers, notes and one of the counts, which change together: registers
//! are addresses of the new heap, and notes speak of its blocks. Never writes births.

ghost use Rattle.std.specs.Prelude.{◌≡◌, ◌+◌, ◌*◌, ◌^◌, ◌<◌, ◌≤◌, [], map, length, vec_capacity, IfOk, IfSome, IsTrue, Some, false};
ghost use Rattle.std.specs.List.{AllByRecursion};
ghost use Rattle.managed_heap.specs.Prelude.{Full, Note, Kind, Rules, heap_state, AreNotes, FlagsCover, NoneIsLogged, roots_of, Setting, Moment, MakesCollection, birth_count, mutator_state, IsOffered, collections_of, counted, HasCollected, IsStopped, HeapStandsAt};

use crate::stopped_heap::StoppedHeap;
use block_regions::{BlockNote, BlockNotes};
use collector::Note;
use forward_word::NUMBER_BITS;
use heap_layout::BLOCK_WORDS;
use ideal_heap::REGISTERS;
use mutator_calls::Mutator;
use object_model::{Collect, Heap};
use plan_api::{Plan, block_counts};
use pools::Pool;
use std::alloc::{AllocError, Global};
use std::thread::Threads;
use work_packets::Gate;

/// Makes a list that of the registers of some mutators, one mutator after another.
///
/// Fails if the list has no room for them and memory runs out.
fn list_registers(roots: &mut Vec<u32>, mutators: &[Mutator]) -> Result<(), AllocError>
    ensures { IfOk result (λ _. roots.new.items ≡ roots_of (map mutator_state mutators.now)) }
{
    roots.clear();
    for mutator in mutators {
        roots.extend_from_slice(&mutator.registers)?;
    }
    Ok(())
}

/// The registers of some mutators, one mutator after another.
pub fn all_registers(alloc: Global, mutators: &[Mutator]) -> Result<Vec<u32>, AllocError>
    ensures { IfOk result (λ v. v.items ≡ roots_of (map mutator_state mutators.now)) }
{
    let mut roots = Vec::new(alloc);
    list_registers(&mut roots, mutators)?;
    Ok(roots)
}

/// Counts the blocks of a heap that has as many as the notes. Of their holes nothing is known then;
/// the flags stay. Takes no memory, and reads each block word once.
fn forget_holes(notes: &mut BlockNotes, heap: &Heap)
    requires blocks { length notes.old.notes.items ≡ (heap_state heap.now).blocks }
    requires owned { notes.old.owned.items ≡ [] }
    requires room { (heap_state heap.now).blocks ≤ vec_capacity notes.old.owned }
    ensures notes { (fill : Kind) → AreNotes fill (heap_state heap.now) notes.new }
    ensures flags { notes.new.flags ≡ notes.old.flags }
{
    notes.counts = block_counts(heap);
    notes.notes.fill(BlockNote::Unowned {
        least: BLOCK_WORDS + 1,
    });
}

/// Counts the blocks of a heap that has as many as the notes, and in which no object is logged.
/// Nothing else is known of them then.
fn renew_notes(notes: &mut BlockNotes, heap: &Heap)
    requires blocks { length notes.old.notes.items ≡ (heap_state heap.now).blocks }
    requires owned { notes.old.owned.items ≡ [] }
    requires room { (heap_state heap.now).blocks ≤ vec_capacity notes.old.owned }
    requires flags { length notes.old.flags.items ≡ (heap_state heap.now).blocks }
    ensures notes { (fill : Kind) → AreNotes fill (heap_state heap.now) notes.new }
    ensures flags { (rules : Rules) → NoneIsLogged rules (heap_state heap.now)
        → FlagsCover rules (heap_state heap.now) notes.new.flags.items }
{
    forget_holes(notes, heap);
    notes.flags.fill(false);
}

/// Gives each mutator its registers: 16 of `roots` each, one mutator after another.
fn set_registers(mutators: &mut Vec<Mutator>, roots: &[u32])
    requires { length roots.now ≡ REGISTERS * length mutators.old.items }
    ensures roots { roots_of (map mutator_state mutators.new.items) ≡ roots.now }
    ensures births { map birth_count (map mutator_state mutators.new.items)
        ≡ map birth_count (map mutator_state mutators.old.items) }
    ensures registers { AllByRecursion (λ u. length u.registers ≡ 16) mutators.new.items }
{
    for m in 0..mutators.len() {
        let from = m * REGISTERS;
        mutators[m]
            .registers
            .copy_from_slice(&roots[from..from + REGISTERS]);
    }
}

/// The numbers of nursery and full collections after one more of this kind.
fn count_one(kind: Collect, nursery: u64, full: u64) -> (u64, u64)
    requires { nursery + full + 1 < 2 ^ 64 }
    ensures { result ≡ counted kind nursery full }
{
    match kind {
        Collect::Nursery => (nursery + 1, full),
        Collect::Full => (nursery, full + 1),
    }
}

impl<P: Plan> StoppedHeap<P> {
    /// Makes a collection of this kind and returns what it kept. Its roots are the registers of all
    /// mutators and the globals; the heap's workers run its packets in `pool`. Memory is taken for
    /// the tracer, and for the roots only if their list has no room.
    ///
    /// Fails if memory runs out. The heap is lost then.
    pub fn collect<Q: Pool, G: Gate, R: Threads + Sync>(
        self,
        rt: &R,
        kind: Collect,
        pool: &Q,
        gate: &G,
    ) -> Result<(StoppedHeap<P>, Note), AllocError>
        requires offered { IsOffered P.rules kind (heap_state self.heap) }
        requires stopped { IsStopped P.rules self }
        requires collections { collections_of self + 1 < 2 ^ NUMBER_BITS }
        ensures stopped { IfOk result (λ r. IsStopped P.rules r.0) }
        ensures collected { IfOk result (λ r. HasCollected P.rules kind self r.0 r.1) }
        ensures makes { (t : Setting) (now : Moment) → HeapStandsAt P.rules self t now
            → IfOk result (λ r. (late : Moment) × MakesCollection t kind now late
            × HeapStandsAt P.rules r.0 t late) }
    {
        let StoppedHeap {
            alloc,
            heap,
            mut mutators,
            mut notes,
            mut roots,
            nursery,
            full,
            workers,
            plan,
        } = self;
        list_registers(&mut roots, &mutators)?;
        let flags = &notes.flags;
        let after = collector::collect_flagged::<P, Q, G, R>(
            rt, alloc, heap, roots, flags, kind, workers, pool, gate,
        )?;
        set_registers(&mut mutators, &after.roots);
        renew_notes(&mut notes, &after.heap);
        let (nursery, full) = count_one(kind, nursery, full);
        let stopped = StoppedHeap {
            alloc,
            heap: after.heap,
            mutators,
            notes,
            roots: after.roots,
            nursery,
            full,
            workers,
            plan,
        };
        Ok((stopped, after.note))
    }

    /// Makes a collection as `collect` does, with its note if `has_note` asks for one. A plan that
    /// reclaims nothing counts all its objects for a note, and without one takes no time.
    ///
    /// Fails if memory runs out. The heap is lost then.
    pub fn collect_noting<Q: Pool, G: Gate, R: Threads + Sync>(
        self,
        rt: &R,
        kind: Collect,
        pool: &Q,
        gate: &G,
        has_note: bool,
    ) -> Result<(StoppedHeap<P>, Option<Note>), AllocError>
        requires offered { IsOffered P.rules kind (heap_state self.heap) }
        requires stopped { IsStopped P.rules self }
        requires collections { collections_of self + 1 < 2 ^ NUMBER_BITS }
        ensures stopped { IfOk result (λ r. IsStopped P.rules r.0) }
        ensures collected { IfOk result (λ r. (note : Note)
            × HasCollected P.rules kind self r.0 note × (IsTrue has_note → r.1 ≡ Some note)
            × IfSome r.1 (λ known. known ≡ note)) }
        ensures makes { (t : Setting) (now : Moment) → HeapStandsAt P.rules self t now
            → IfOk result (λ r. (late : Moment) × MakesCollection t kind now late
            × HeapStandsAt P.rules r.0 t late) }
    {
        let reclaims = P::collects();
        if has_note || reclaims {
            let (stopped, note) = self.collect(rt, kind, pool, gate)?;
            return Ok((stopped, Some(note)));
        }
        Ok((self.count_collection(), None))
    }

    // Counts a full collection under a plan that reclaims nothing: the number of the heap rises.
    fn count_collection(self) -> StoppedHeap<P>
        requires none { P.rules.collects ≡ false }
        requires stopped { IsStopped P.rules self }
        requires collections { collections_of self + 1 < 2 ^ NUMBER_BITS }
        ensures stopped { IsStopped P.rules result }
        ensures collected { (note : Note) × HasCollected P.rules Full self result note }
    {
        let StoppedHeap {
            alloc,
            heap,
            mutators,
            mut notes,
            roots,
            nursery,
            full,
            workers,
            plan,
        } = self;
        let mut row = heap.into_row();
        row.number += 1;
        let heap = Heap::from_row(row);
        renew_notes(&mut notes, &heap);
        StoppedHeap {
            alloc,
            heap,
            mutators,
            notes,
            roots,
            nursery,
            full: full + 1,
            workers,
            plan,
        }
    }
}
