//! The graph of the reachable objects.

ghost use Rattle.std.specs.Prelude.{◌≡◌, ℕ, List, IfOk};
ghost use Rattle.std.specs.List.{All};
ghost use Rattle.std.specs.List.Sorted.{IsPermutation};
ghost use Rattle.object_model.specs.Heaps.{heap_state};
ghost use Rattle.object_model.specs.Lawful.{AreRoots};
ghost use Rattle.object_model.specs.Objects.{IsHeld};
ghost use Rattle.heap_graph.specs.Places.{AreReached, IsGraphOf, IsPlaceOfObject, addresses_of};

use crate::place::Place;
use crate::walk::Walk;
use object_model::{Heap, size_words};
use std::alloc::{AllocError, Global};

/// The addresses of the objects that are reachable from roots and globals, each once, in any order.
///
/// Each root is an address, or 0 for nil. Allocates a bit for each word of the heap and 4 bytes for
/// each reachable object, and fails if memory runs out. Takes time linear in the reachable objects
/// and their references.
pub fn reachable(alloc: Global, heap: &Heap, roots: &[u32]) -> Result<Vec<u32>, AllocError>
    requires { AreRoots (heap_state heap.now) roots.now }
    ensures { IfOk result (λ live. AreReached (heap_state heap.now) roots.now live.items) }
{
    let mut walk = Walk::new(alloc, heap)?;
    walk.visit_roots(heap, roots)?;
    walk.visit_globals(heap)?;
    walk.follow(heap)?;
    Ok(walk.into_addresses())
}

// The place of the object at an address.
fn place_at(heap: &Heap, at: u32) -> Place
    requires { IsHeld (heap_state heap.now) at }
    ensures at { result.at ≡ at }
    ensures is { IsPlaceOfObject (heap_state heap.now) result }
{
    Place {
        name: heap.name_at(at),
        at,
        size: size_words(&heap.shape_at(at)),
    }
}

// The places of the objects at these addresses.
fn places_at(alloc: Global, heap: &Heap, addresses: &[u32]) -> Result<Vec<Place>, AllocError>
    requires { All (IsHeld (heap_state heap.now)) addresses.now }
    ensures at { IfOk result (λ places. addresses_of places.items ≡ addresses.now) }
    ensures each { IfOk result (λ places. All (IsPlaceOfObject (heap_state heap.now))
        places.items) }
{
    let mut places = Vec::with_capacity(alloc, addresses.len())?;
    for at in addresses {
        places.push(place_at(heap, *at))?;
    }
    Ok(places)
}

/// The places of reached objects in rising order of names.
pub fn in_order(alloc: Global, heap: &Heap, reached: &[u32]) -> Result<Vec<Place>, AllocError>
    requires { All (IsHeld (heap_state heap.now)) reached.now }
    ensures moved { IfOk result (λ places. IsPermutation reached.now
        (addresses_of places.items)) }
    ensures graph { (roots : List ℕ) → AreReached (heap_state heap.now) roots reached.now
        → IfOk result (λ places. IsGraphOf (heap_state heap.now) roots places.items) }
{
    let mut places = places_at(alloc, heap, reached)?;
    places.sort_unstable_by_key(|p| p.name);
    Ok(places)
}

/// The reachable objects in rising order of names: those of `reachable`, and the time of a sort.
pub fn graph(alloc: Global, heap: &Heap, roots: &[u32]) -> Result<Vec<Place>, AllocError>
    requires { AreRoots (heap_state heap.now) roots.now }
    ensures { IfOk result (λ places. IsGraphOf (heap_state heap.now) roots.now places.items) }
{
    let reached = reachable(alloc, heap, roots)?;
    in_order(alloc, heap, &reached)
}
