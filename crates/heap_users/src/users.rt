//! Mutators that may use a heap.

ghost use Rattle.std.specs.Prelude.{◌≡◌, ◌↔◌, ◌≤◌, ◌<◌, ℕ, map, length, IfOk, IsTrue};
ghost use Rattle.std.specs.List.{AllByRecursion, Any, range_with_len};
ghost use Rattle.heap_layout.specs.declared.layout.TheConstants.{MIN_BLOCKS, MAX_BLOCKS};
ghost use Rattle.object_model.specs.Objects.{empty_heap, IsHeld, name_at as object_name};
ghost use Rattle.object_model.specs.Graphs.{AreMutators, AreRegisters, IsMutatorState, new_mutator};
ghost use Rattle.object_model.specs.Heaps.{heap_state};
ghost use Rattle.heap_users.specs.Users.{mutator_state};
ghost use Rattle.heap_users.specs.Beginnings.{MayUse};

use ideal_heap::{MAX_MUTATORS, Name, REGISTERS};
use mutator_calls::Mutator;
use object_model::{Heap, are_roots};
use std::alloc::{AllocError, Global};

/// Whether a mutator has the number.
fn has_number(mutators: &[Mutator], number: u32) -> bool
    ensures { IsTrue result ↔ Any (λ m. m.number ≡ number) (map mutator_state mutators.now) }
{
    for mutator in mutators {
        if mutator.number == number {
            return true;
        }
    }
    false
}

/// Whether the number of the mutator is 1 to 16.
fn is_mutator(mutator: Mutator) -> bool
    ensures { IsTrue result ↔ IsMutatorState (mutator_state mutator) }
{
    1 <= mutator.number && mutator.number <= MAX_MUTATORS
}

/// Whether the numbers of the mutators are 1 to 16 and different.
fn are_mutators(mutators: &[Mutator]) -> bool
    ensures { IsTrue result ↔ AreMutators (map mutator_state mutators.now) }
{
    for (i, mutator) in mutators.iter().enumerate() {
        if !is_mutator(*mutator) || has_number(&mutators[..i], mutator.number) {
            return false;
        }
    }
    true
}

/// Whether each register of the mutator is nil or has the address of a held object.
fn has_roots(heap: &Heap, mutator: Mutator) -> bool
    ensures { IsTrue result ↔ AreRegisters (heap_state heap.now) mutator.registers }
{
    are_roots(heap, &mutator.registers)
}

/// Whether each register of the mutators is nil or has the address of a held object.
fn have_roots(heap: &Heap, mutators: &[Mutator]) -> bool
    ensures { IsTrue result
        ↔ AllByRecursion (λ m. AreRegisters (heap_state heap.now) m.registers)
        (map mutator_state mutators.now) }
{
    for mutator in mutators {
        if !has_roots(heap, *mutator) {
            return false;
        }
    }
    true
}

/// Whether the name has the number of a mutator and a birth number of at most its births.
fn is_given(mutators: &[Mutator], name: Name) -> bool
    ensures { IsTrue result ↔ Any (λ m. (name.mutator ≡ m.number) × (name.birth ≤ m.births))
        (map mutator_state mutators.now) }
{
    for mutator in mutators {
        if name.mutator == mutator.number && name.birth <= mutator.births {
            return true;
        }
    }
    false
}

/// Whether the name of each held object has the number of a mutator and a birth number of at most
/// its births.
fn have_names(heap: &Heap, mutators: &[Mutator]) -> bool
    ensures { IsTrue result ↔ ((a : ℕ) → IsHeld (heap_state heap.now) a
        → Any (λ m. ((object_name (heap_state heap.now) a).mutator ≡ m.number)
        × ((object_name (heap_state heap.now) a).birth ≤ m.births))
        (map mutator_state mutators.now)) }
{
    for address in heap.layout().heap_base()..heap.layout().words() {
        if heap.held(address) && !is_given(mutators, heap.name_at(address)) {
            return false;
        }
    }
    true
}

/// Whether the mutators may use the heap. Their numbers are 1 to 16 and different, each register is
/// nil or has the address of a held object, and the name of each held object has the number of one
/// of them, with a birth number of at most its births.
///
/// Allocates nothing. Reads the start bit of each word of the heap, and the first word of each
/// object.
pub fn may_use(heap: &Heap, mutators: &[Mutator]) -> bool
    ensures { IsTrue result ↔ MayUse (heap_state heap.now) (map mutator_state mutators.now) }
{
    are_mutators(mutators) && have_roots(heap, mutators) && have_names(heap, mutators)
}

/// Mutators 1 to `count`, which have allocated nothing and have nil registers. Fails if memory runs
/// out.
pub fn new_mutators(alloc: Global, count: u32) -> Result<Vec<Mutator>, AllocError>
    requires least { 1 ≤ count }
    requires most { count ≤ MAX_MUTATORS }
    ensures states { IfOk result (λ v. map mutator_state v.items
        ≡ map new_mutator (range_with_len 1 count)) }
    ensures users { IfOk result (λ v. (b : ℕ) → MIN_BLOCKS ≤ b → b ≤ MAX_BLOCKS
        → MayUse (empty_heap b) (map mutator_state v.items)) }
    ensures places { IfOk result (λ v. length v.items ≡ count) }
{
    let mut mutators = Vec::with_capacity(alloc, count as usize)?;
    for index in 0..count {
        mutators.push(Mutator {
            number: index + 1,
            births: 0,
            registers: [0; REGISTERS],
        })?;
    }
    Ok(mutators)
}
