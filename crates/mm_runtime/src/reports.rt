//! What a manager answers about its session.
//!
//! `driver` calls `mutators` and `replies` as it prints, tests call the others. Nothing here is
//! written.

ghost use Rattle.std.specs.Prelude.{◌≡◌, ◌-◌, ◌<◌, ◌≤◌, ◌++◌, ℕ, Some, length, map, slice_get, IfOk};
ghost use Rattle.mm_runtime.specs.Prelude.{replies_of, heap_state, roots_of, global_word_at, mutator_state, Setting, Moment, State, globals_of, Closes, IsMutatorOf, IsInOrder};

use crate::manager::Manager;
use crate::progress::MAX_COMMANDS;
use heap_layout::GLOBALS;
use managed_heap::all_registers;
use object_model::Heap;
use plan_api::Plan;
use std::alloc::{AllocError, Global};
use stored_replies::StoredReplies;

/// A global: an address, or 0 for nil.
fn global_at(heap: &Heap, global: u32) -> u32
    requires { global < GLOBALS }
    ensures { result ≡ global_word_at (heap_state heap.now) global }
{
    heap.words().get(heap.layout().global_at(global) as usize) as u32
}

/// Appends the globals.
fn add_globals(heap: &Heap, roots: &mut Vec<u32>) -> Result<(), AllocError>
    ensures { IfOk result (λ u. roots.new.items
        ≡ roots.old.items ++ globals_of (heap_state heap.now)) }
{
    for global in 0..GLOBALS {
        roots.push(global_at(heap, global))?;
    }
    Ok(())
}

impl<P: Plan> Manager<P> {
    /// The number of mutators.
    pub fn mutators(&self) -> u32
        requires { IsInOrder P.rules 0 self.now }
        ensures number { result ≡ length self.now.progress.items }
        ensures traces { (t : Setting) (now : Moment) → Closes P.rules self.now t now
            → result ≡ length t.traces }
    {
        self.progress.len() as u32
    }

    /// The replies of mutator `number`, from 1 on, in the order of its trace.
    pub fn replies(&self, number: u32) -> &StoredReplies
        requires order { IsInOrder P.rules 0 self.now }
        requires mutator { IsMutatorOf self.now number }
        ensures few { length result.now.items ≤ MAX_COMMANDS }
        ensures same { (p : State) → slice_get self.now.progress.items (number - 1) ≡ Some p
            → result.now ≡ p.replies }
        ensures session { (t : Setting) (now : Moment) → Closes P.rules self.now t now
            → result.now.items ≡ replies_of number now.done }
    {
        &self.progress[number as usize - 1].replies
    }

    /// The heap.
    pub fn heap(&self) -> &Heap
        ensures same { result.now ≡ self.now.heap.heap }
        ensures session { (t : Setting) (now : Moment) → Closes P.rules self.now t now
            → heap_state result.now ≡ now.heap }
    {
        self.heap.heap()
    }

    /// The registers, mutator by mutator, and then the globals: addresses, or 0 for nil. Fails if
    /// memory runs out.
    pub fn roots(&self) -> Result<Vec<u32>, AllocError>
        ensures state { IfOk result (λ v. v.items
            ≡ roots_of (map mutator_state self.now.heap.mutators.items)
            ++ globals_of (heap_state self.now.heap.heap)) }
        ensures session { (t : Setting) (now : Moment) → Closes P.rules self.now t now
            → IfOk result (λ v. v.items ≡ roots_of now.mutators ++ globals_of now.heap) }
    {
        let mut roots = all_registers(self.alloc, self.heap.mutators())?;
        add_globals(self.heap.heap(), &mut roots)?;
        Ok(roots)
    }

    /// The numbers of nursery and full collections so far.
    pub fn collections(&self) -> (u64, u64)
        ensures same { result ≡ (self.now.heap.nursery, self.now.heap.full) }
        ensures session { (t : Setting) (now : Moment) → Closes P.rules self.now t now
            → (result.0 ≡ now.nursery) × (result.1 ≡ now.full) }
    {
        self.heap.collections()
    }
}
