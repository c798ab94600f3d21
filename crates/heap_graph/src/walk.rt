//! A walk over the reachable objects, in the order in which it visits them.

ghost use Rattle.std.specs.Prelude.{◌≡◌, ◌<◌, OnOk, IfOk, [], slice_index, length};
ghost use Rattle.object_model.specs.Objects.{IsHeld, global_at as global_word_at, ref_at, refs_at};
ghost use Rattle.object_model.specs.Heaps.{heap_state};
ghost use Rattle.object_model.specs.Lawful.{AreRoots, IsRoot};
ghost use Rattle.heap_graph.specs.Walks.{met, IsWalk, Adds, ClosesFields};

use crate::address_set::AddressSet;
use heap_layout::GLOBALS;
use object_model::Heap;
use std::alloc::{AllocError, Global};

/// The objects visited so far. Those whose fields have not been read yet come last.
#[derive(Debug, Drop)]
pub(crate) struct Walk {
    addresses: Vec<u32>,
    visited: AddressSet,
}

/// A global: an address, or 0 for nil.
fn global_at(heap: &Heap, global: u32) -> u32
    requires { global < GLOBALS }
    ensures value { result ≡ global_word_at (heap_state heap.now) global }
    ensures root { IsRoot (heap_state heap.now) result }
{
    heap.words().get(heap.layout().global_at(global) as usize) as u32
}

impl Walk {
    /// A walk that has visited nothing.
    pub(crate) fn new(alloc: Global, heap: &Heap) -> Result<Walk, AllocError>
        ensures walk { IfOk result (IsWalk (heap_state heap.now)) }
        ensures none { IfOk result (λ w. met w ≡ []) }
    {
        let visited = AddressSet::new(alloc, heap.layout())?;
        Ok(Walk {
            addresses: Vec::new(alloc),
            visited,
        })
    }

    /// Visits the object at `address`, unless that is nil or was visited before.
    fn visit(&mut self, heap: &Heap, address: u32) -> Result<(), AllocError>
        requires walk { IsWalk (heap_state heap.now) self.old }
        requires root { IsRoot (heap_state heap.now) address }
        ensures walk { OnOk result (IsWalk (heap_state heap.now) self.new) }
        ensures adds { OnOk result (Adds (λ _. address) 1 (met self.old) (met self.new)) }
    {
        if address == 0 {
            return Ok(());
        }
        if !self.visited.insert(address) {
            return Ok(());
        }
        self.addresses.push(address)?;
        Ok(())
    }

    /// Visits the roots.
    pub(crate) fn visit_roots(&mut self, heap: &Heap, roots: &[u32]) -> Result<(), AllocError>
        requires walk { IsWalk (heap_state heap.now) self.old }
        requires roots { AreRoots (heap_state heap.now) roots.now }
        ensures walk { OnOk result (IsWalk (heap_state heap.now) self.new) }
        ensures adds { OnOk result (Adds (λ i. slice_index roots.now i) (length roots.now)
            (met self.old) (met self.new)) }
    {
        for root in roots {
            self.visit(heap, *root)?;
        }
        Ok(())
    }

    /// Visits the objects that the globals refer to.
    pub(crate) fn visit_globals(&mut self, heap: &Heap) -> Result<(), AllocError>
        requires walk { IsWalk (heap_state heap.now) self.old }
        ensures walk { OnOk result (IsWalk (heap_state heap.now) self.new) }
        ensures adds { OnOk result (Adds (global_word_at (heap_state heap.now)) GLOBALS
            (met self.old) (met self.new)) }
    {
        for global in 0..GLOBALS {
            self.visit(heap, global_at(heap, global))?;
        }
        Ok(())
    }

    /// Visits the objects that the one at `address` refers to.
    fn visit_fields(&mut self, heap: &Heap, address: u32) -> Result<(), AllocError>
        requires walk { IsWalk (heap_state heap.now) self.old }
        requires held { IsHeld (heap_state heap.now) address }
        ensures walk { OnOk result (IsWalk (heap_state heap.now) self.new) }
        ensures adds { OnOk result (Adds (ref_at (heap_state heap.now) address)
            (refs_at (heap_state heap.now) address) (met self.old) (met self.new)) }
    {
        for index in 0..heap.shape_at(address).refs {
            self.visit(heap, heap.ref_at(address, index))?;
        }
        Ok(())
    }

    /// Visits all objects that are reachable from those visited so far.
    pub(crate) fn follow(&mut self, heap: &Heap) -> Result<(), AllocError>
        requires walk { IsWalk (heap_state heap.now) self.old }
        ensures walk { OnOk result (IsWalk (heap_state heap.now) self.new) }
        ensures closes { OnOk result (ClosesFields (heap_state heap.now) (length (met self.new))
            (met self.old) (met self.new)) }
    {
        let mut next = 0;
        while next < self.addresses.len() {
            let address = self.addresses[next];
            self.visit_fields(heap, address)?;
            next += 1;
        }
        Ok(())
    }

    /// The addresses of the visited objects, in the order of the visits.
    pub(crate) fn into_addresses(self) -> Vec<u32>
        ensures { result.items ≡ self.addresses.items }
    {
        self.addresses
    }
}
