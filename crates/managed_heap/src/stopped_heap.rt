//! A heap between two epochs: its mutators, what is known of its blocks, and its collections.

ghost use Rattle.std.specs.Prelude.{◌≡◌, ◌≤◌, length, map, IfOk};
ghost use Rattle.managed_heap.specs.Prelude.{Setting, Moment, first_moment, heap_state, mutator_state, parts_of, IsStopped, HeapStandsAt};

use collector::MAX_WORKERS;
use heap_layout::Layout;
use ideal_heap::{MAX_MUTATORS, REGISTERS};
use mutator_calls::Mutator;
use object_model::Heap;
use plain_world::{BlockNotes, new_mutators};
use plan_api::Plan;
use std::alloc::{AllocError, Global};
use std::marker::PhantomData;

/// A heap with its mutators, between two epochs. Heap, registers, notes and counts of collections
/// belong together: registers are addresses of this heap, and the notes speak of its blocks.
#[derive(Debug, Drop)]
pub struct StoppedHeap<P> {
    pub(crate) alloc: Global,
    pub(crate) heap: Heap,
    pub(crate) mutators: Vec<Mutator>,
    // What is known of the blocks.
    pub(crate) notes: BlockNotes,
    // The list that collections use for their roots.
    pub(crate) roots: Vec<u32>,
    // The numbers of nursery and full collections.
    pub(crate) nursery: u64,
    pub(crate) full: u64,
    // The number of workers of a collection.
    pub(crate) workers: u32,
    pub(crate) plan: PhantomData<P>,
}

/// The parts of a stopped heap. `PlainWorld::begin_with` takes the first three, and `close_with`
/// gives them back.
#[derive(Debug, Drop)]
pub struct Parts {
    pub heap: Heap,
    pub mutators: Vec<Mutator>,
    pub notes: BlockNotes,
    /// The list that collections use for their roots, with anything in it. While it has room for
    /// all registers, they take no memory for it.
    pub roots: Vec<u32>,
    /// The numbers of nursery and full collections.
    pub nursery: u64,
    pub full: u64,
    /// The number of workers of a collection.
    pub workers: u32,
}

impl<P: Plan> StoppedHeap<P> {
    /// An empty heap with mutators 1 to `mutators`, whose registers are nil. Its collections have
    /// `workers` workers. Takes the heap's memory, 32 KB a block.
    ///
    /// Fails if memory runs out.
    pub fn new(
        alloc: Global,
        layout: Layout,
        mutators: u32,
        workers: u32,
    ) -> Result<StoppedHeap<P>, AllocError>
        requires some { 1 ≤ mutators }
        requires few { mutators ≤ MAX_MUTATORS }
        requires some_worker { 1 ≤ workers }
        requires few_workers { workers ≤ MAX_WORKERS }
        ensures stopped { IfOk result (λ h. IsStopped P.rules h) }
        ensures stands { IfOk result (λ h. (t : Setting) → t.rules ≡ P.rules
            → t.workers ≡ workers → t.blocks ≡ layout.blocks → length t.traces ≡ mutators
            → HeapStandsAt P.rules h t (first_moment t)) }
        ensures mutators { IfOk result (λ h. length h.mutators.items ≡ mutators) }
    {
        let heap = Heap::new(alloc, layout)?;
        let notes = BlockNotes::new_unflagged(alloc, &heap)?;
        let roots = Vec::with_capacity(alloc, mutators as usize * REGISTERS)?;
        let mutators = new_mutators(alloc, mutators)?;
        Ok(StoppedHeap {
            alloc,
            heap,
            mutators,
            notes,
            roots,
            nursery: 0,
            full: 0,
            workers,
            plan: PhantomData,
        })
    }

    /// A stopped heap of its parts, as `into_parts` gives them or an epoch leaves them.
    pub fn from_parts(alloc: Global, parts: Parts) -> StoppedHeap<P>
        ensures { parts_of result ≡ parts }
    {
        StoppedHeap {
            alloc,
            heap: parts.heap,
            mutators: parts.mutators,
            notes: parts.notes,
            roots: parts.roots,
            nursery: parts.nursery,
            full: parts.full,
            workers: parts.workers,
            plan: PhantomData,
        }
    }

    /// Its parts.
    pub fn into_parts(self) -> Parts
        ensures { result ≡ parts_of self }
    {
        Parts {
            heap: self.heap,
            mutators: self.mutators,
            notes: self.notes,
            roots: self.roots,
            nursery: self.nursery,
            full: self.full,
            workers: self.workers,
        }
    }

    /// The heap.
    pub fn heap(&self) -> &Heap
        ensures same { result.now ≡ self.now.heap }
        ensures session { (t : Setting) (now : Moment) → HeapStandsAt P.rules self.now t now
            → heap_state result.now ≡ now.heap }
    {
        &self.heap
    }

    /// The mutators, with their births and registers.
    pub fn mutators(&self) -> &[Mutator]
        ensures same { result.now ≡ self.now.mutators.items }
        ensures session { (t : Setting) (now : Moment) → HeapStandsAt P.rules self.now t now
            → map mutator_state result.now ≡ now.mutators }
    {
        &self.mutators
    }

    /// The numbers of nursery and full collections so far.
    pub fn collections(&self) -> (u64, u64)
        ensures same { result ≡ (self.now.nursery, self.now.full) }
        ensures session { (t : Setting) (now : Moment) → HeapStandsAt P.rules self.now t now
            → (result.0 ≡ now.nursery) × (result.1 ≡ now.full) }
    {
        (self.nursery, self.full)
    }
}
