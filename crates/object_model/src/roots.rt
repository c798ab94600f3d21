//! Roots: words that are nil or hold the address of a held object.

ghost use Rattle.std.specs.Prelude.{◌↔◌, IsTrue};
ghost use Rattle.object_model.specs.Heaps.{heap_state};
ghost use Rattle.object_model.specs.Lawful.{AreRoots, IsRoot};

use crate::heap::Heap;

/// Whether a word is nil or the address of a held object.
fn is_root(heap: &Heap, value: u32) -> bool
    ensures { IsTrue result ↔ IsRoot (heap_state heap.now) value }
{
    let layout = heap.layout();
    value == 0 || layout.heap_base() <= value && value < layout.words() && heap.held(value)
}

/// Whether each of the roots is 0 (nil) or the address of a held object. Takes constant time a
/// root.
pub fn are_roots(heap: &Heap, roots: &[u32]) -> bool
    ensures { IsTrue result ↔ AreRoots (heap_state heap.now) roots.now }
{
    for root in roots {
        if !is_root(heap, *root) {
            return false;
        }
    }
    true
}
