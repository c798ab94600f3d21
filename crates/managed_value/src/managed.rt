//! The managed heap, and what can be asked of it between two calls.

ghost use Rattle.std.specs.Prelude.{◌≡◌, ◌↔◌, ◌+◌, ◌≤◌, ◌<◌, ℕ, IfOk, IsTrue, [], Some, length, slice_get, slice_index};
ghost use Rattle.managed_value.specs.Prelude.{MIN_BLOCKS, MAX_BLOCKS, MAX_MUTATORS, REGISTERS, IdealHeap, User, free_of, World, heap_of_world, IsManaged, IsLost, IsUsable, HasEntries, HeapHasPlace, StandsFor, mutators_of_heap, heap_births_at, collections_made, shape_of_object, words_used, IsEmpty};

use heap_layout::Layout;
use managed_heap::{PlainWorld, StoppedHeap, new_seats};
use mutator_calls::Mutator;
use object_model::Shape;
use plan_api::Plan;
use std::alloc::{AllocError, Global};

/// A heap with its mutators, which use it in turns. The mutator at place `m` of their list has the
/// number `m + 1`.
///
/// If the host's memory runs out at a stop, heap and mutators may be lost. Calls that use them
/// require that they are not.
#[derive(Debug, Drop)]
pub struct ManagedHeap<P> {
    pub(crate) alloc: Global,
    // None if heap and mutators are lost.
    pub(crate) world: Option<PlainWorld<P>>,
    // The list that collections use for their roots.
    pub(crate) roots: Vec<u32>,
    // The numbers of nursery and full collections.
    pub(crate) nursery: u64,
    pub(crate) full: u64,
    // The words of the objects that the last collection kept, and of those allocated since.
    pub(crate) words: u64,
}

/// Whether two registers of the mutator at place `m` hold one address, or both are nil.
fn hold_one_address(mutators: &Vec<Mutator>, m: u32, s: u32, v: u32) -> bool
    requires place { m < length mutators.now.items }
    requires first { s < REGISTERS }
    requires second { v < REGISTERS }
    ensures { (u : User) → slice_get mutators.now.items m ≡ Some u
        → IsTrue result ↔ (slice_index u.registers s ≡ slice_index u.registers v) }
{
    let mutator = &mutators[m as usize];
    mutator.registers[s as usize] == mutator.registers[v as usize]
}

impl<P: Plan> ManagedHeap<P> {
    /// An empty heap of `blocks` blocks of 32 KB each, with mutators 1 to `mutators`, whose
    /// registers are nil.
    ///
    /// Fails if memory runs out.
    pub fn new(alloc: Global, blocks: u32, mutators: u32) -> Result<ManagedHeap<P>, AllocError>
        requires plan { IsManaged P.rules }
        requires least { MIN_BLOCKS ≤ blocks }
        requires most { blocks ≤ MAX_BLOCKS }
        requires some { 1 ≤ mutators }
        requires few { mutators ≤ MAX_MUTATORS }
        ensures usable { IfOk result (λ h. IsUsable P.rules h) }
        ensures places { IfOk result (λ h. mutators_of_heap h ≡ mutators) }
        ensures births { IfOk result (λ h. (m : ℕ) → heap_births_at h m ≡ 0) }
        ensures entries { IfOk result (λ h. HasEntries P.rules h []) }
        ensures collections { IfOk result (λ h. collections_made h ≡ 0) }
        ensures used { IfOk result (λ h. words_used h ≡ 0) }
        ensures empty { IfOk result (λ h. IsEmpty h blocks) }
    {
        let layout = Layout::new(blocks).unwrap();
        let mut heap = ManagedHeap {
            alloc,
            world: None,
            roots: Vec::new(alloc),
            nursery: 0,
            full: 0,
            words: 0,
        };
        let seats = new_seats(alloc, mutators as usize)?;
        let stopped = StoppedHeap::new(alloc, layout, mutators, 1)?;
        heap.go_on(stopped, seats);
        Ok(heap)
    }

    /// Whether heap and mutators are lost since memory ran out.
    pub fn is_lost(&self) -> bool
        ensures { IsTrue result ↔ IsLost self.now }
    {
        self.world.is_none()
    }

    /// The numbers of nursery and full collections so far.
    pub fn collections(&self) -> (u64, u64)
        ensures { result ≡ (self.now.nursery, self.now.full) }
    {
        (self.nursery, self.full)
    }

    /// The words of the objects that the last collection kept, and of those allocated since, or the
    /// largest number if they are more. No object is read.
    pub fn used_words(&self) -> u64
        ensures { result ≡ words_used self.now }
    {
        self.words
    }

    /// The number of Free blocks. No block is read.
    pub fn free_blocks(&self) -> u32
        requires { IsUsable P.rules self.now }
        ensures { (w : World P) → self.now.world ≡ Some w → result ≡ free_of (heap_of_world w) }
    {
        match &self.world {
            Some(world) => world.free_blocks(),
            None => 0,
        }
    }

    /// How many references and numbers the object in register `s` of the mutator at place `m` has,
    /// or `None` if the register is nil.
    pub fn shape(&self, m: u32, s: u32) -> Option<Shape>
        requires usable { IsUsable P.rules self.now }
        requires place { HeapHasPlace self.now m }
        requires register { s < REGISTERS }
        ensures { (i : IdealHeap) → StandsFor P.rules self.now i
            → result ≡ shape_of_object i (i.registers (m + 1) s) }
    {
        match &self.world {
            Some(world) => world.shape(m, s),
            None => None,
        }
    }

    /// Whether two registers of the mutator at place `m` hold one object, or both are nil.
    pub fn same(&self, m: u32, s: u32, v: u32) -> bool
        requires usable { IsUsable P.rules self.now }
        requires place { HeapHasPlace self.now m }
        requires first { s < REGISTERS }
        requires second { v < REGISTERS }
        ensures { (i : IdealHeap) → StandsFor P.rules self.now i
            → IsTrue result ↔ (i.registers (m + 1) s ≡ i.registers (m + 1) v) }
    {
        match &self.world {
            Some(world) => hold_one_address(world.mutators(), m, s, v),
            None => false,
        }
    }
}
