//! Laws of the regions in which mutators allocate.

ghost use Rattle.std.specs.Prelude.{◌≡◌, ◌≢◌, ◌+◌, ◌<◌, ◌≤◌, ℕ, Some, IsTrue};
ghost use Rattle.heap_layout.specs.Zones.{block_at, block_start};
ghost use Rattle.heap_layout.specs.declared.block.Kind.{Kind};
ghost use Rattle.heap_layout.specs.declared.block.Kind.TheVariants as kinds;
ghost use Rattle.heap_layout.specs.declared.region.Region.{Region};
ghost use Rattle.ideal_heap.specs.declared.name.Name.{Name};
ghost use Rattle.object_model.specs.Objects.{HeapState, HasKind, IsHeld, class_at, size_of, line_marked, empty_heap};
ghost use Rattle.object_model.specs.Lawful.{IsClear, LineBitsAreExact};
ghost use Rattle.object_model.specs.Births.{IsVacant, with_block};
ghost use Rattle.object_model.specs.Changes.{WritesObject};
ghost use Rattle.object_model.specs.WorkedHeaps.{unowned};
ghost use Rattle.sessions.specs.Fitting.{HasHole, class_of, class_for};
ghost use Rattle.sessions.specs.WorkedFits.{mixed_heap};
ghost use Rattle.plan_api.specs.Holes.{IsFirstHole, IsFirstPart};
ghost use Rattle.block_regions.specs.Notes.{FillsHoles, FillsTailsOrCells};
ghost use Rattle.block_regions.specs.Regions.{IsRegionIn, IsRestAfter, first_region};

use heap_layout::{BLOCK_LINES, BLOCK_WORDS};
use object_model::MAX_MEDIUM_WORDS;

/// What is left of a block for its owner, of a tail or of cells. A block has one region. With room
/// for a size, under cells for one of its class, it begins a hole, else no hole of the block has
/// room. A block whose region begins later than the block has an object. The first hole of a block
/// is its region, if its line bits are exact where mutators fill lines; and a clear block's region
/// is its first cell, or all of it.
pub fn regions_are_holes()
    ensures one { (fill : Kind) → FillsTailsOrCells fill → (s : HeapState) (k : ℕ)
        (r q : Region) → IsRegionIn fill s k r → IsRegionIn fill s k q
        → (r.next ≡ q.next) × (r.end ≡ q.end) }
    ensures hole { (fill : Kind) → FillsTailsOrCells fill → (s : HeapState) (k size : ℕ)
        (r : Region) → HasKind s k fill → IsRegionIn fill s k r
        → (fill ≡ kinds.Cells → class_at s k ≡ class_for fill size) → 1 ≤ size
        → size ≤ MAX_MEDIUM_WORDS → r.next + size ≤ r.end
        → HasHole fill s k r.next size }
    ensures none { (fill : Kind) → FillsTailsOrCells fill → (s : HeapState) (k at size : ℕ)
        (r : Region)
        → IsRegionIn fill s k r → r.end < r.next + size → HasHole fill s k at size → ⊥ }
    ensures other_class { (s : HeapState) (k at size : ℕ)
        → class_at s k ≢ class_for kinds.Cells size
        → HasHole kinds.Cells s k at size → ⊥ }
    ensures some { (fill : Kind) → FillsTailsOrCells fill → (s : HeapState) (k : ℕ)
        (r : Region) → k < s.blocks
        → IsRegionIn fill s k r → 0 < r.next
        → (a : ℕ) × IsHeld s a × (block_at s.blocks a ≡ k) }
    ensures first { (fill : Kind) → FillsHoles fill → (s : HeapState) (k size : ℕ)
        (r : Region) → (fill ≡ kinds.Immix → LineBitsAreExact s k)
        → IsFirstHole fill s k 0 size (Some r) → IsRegionIn fill s k r
        × (fill ≡ kinds.Cells → class_of size ≡ Some (class_at s k)) }
    ensures clear { (fill : Kind) → FillsHoles fill → (s : HeapState) (k : ℕ)
        → IsClear s k → IsRegionIn fill s k (first_region fill (class_at s k)) }
{}

/// What is left of a hole of lines for the block's owner. It lies in the block. The first hole
/// with room from its end on is a region too, and begins a hole. A region that begins later, in a
/// block without marked lines, has an object before it.
pub fn regions_of_lines()
    ensures inside { (s : HeapState) (k : ℕ) (r : Region) → IsRegionIn kinds.Immix s k r
        → (r.next ≤ r.end) × (r.end ≤ BLOCK_WORDS) }
    ensures next { (s : HeapState) (k size : ℕ) (r q : Region) → 1 ≤ size
        → IsRegionIn kinds.Immix s k r → IsFirstPart kinds.Immix s k r.end size q
        → IsRegionIn kinds.Immix s k q × HasHole kinds.Immix s k q.next size
        × (r.end ≤ q.next) }
    ensures some { (s : HeapState) (k : ℕ) (r : Region) → IsRegionIn kinds.Immix s k r
        → ((line : ℕ) → line < BLOCK_LINES → IsTrue (line_marked s k line) → ⊥)
        → 0 < r.next
        → (a : ℕ) × IsHeld s a × (block_at s.blocks a ≡ k) }
{}

/// After an object is written at the start of a region, the rest of the region is the block's.
pub fn rests_are_regions()
    ensures { (fill : Kind) (s new : HeapState) (k refs nums : ℕ) (n : Name) (r rest : Region)
        → k < s.blocks → IsRegionIn fill s k r → r.next + size_of refs nums ≤ r.end
        → IsVacant s (block_start s.blocks k + r.next) n refs nums
        → WritesObject s new (block_start s.blocks k + r.next) n refs nums
        → IsRestAfter fill s k (size_of refs nums) r rest → IsRegionIn fill new k rest }
{}

/// Regions of worked heaps: the tail after the last object, and the first free cell of its class's
/// size. An object in a cell leaves the next free cell, or no words if the block has no other; an
/// object in a tail leaves the words after it.
pub fn regions_of_worked_heaps()
    ensures tail { IsRegionIn kinds.Bump mixed_heap 0 (record { next = 15; end = BLOCK_WORDS }) }
    ensures young { IsRegionIn kinds.Young mixed_heap 7 (record {
      next = 10;
      end = BLOCK_WORDS;
    }) }
    ensures first_cell { IsRegionIn kinds.Cells mixed_heap 3 (record { next = 0; end = 1536 }) }
    ensures later_cell { IsRegionIn kinds.Cells mixed_heap 2 (record {
      next = 2048;
      end = BLOCK_WORDS;
    }) }
    ensures next_cell { IsRestAfter kinds.Cells (with_block (empty_heap 4) 1
        (unowned kinds.Cells 18)) 1 5
        (record { next = 0; end = 2048 }) (record { next = 2048; end = BLOCK_WORDS }) }
    ensures last_cell { IsRestAfter kinds.Cells mixed_heap 3 1536
        (record { next = 0; end = 1536 })
        (record { next = BLOCK_WORDS; end = BLOCK_WORDS }) }
    ensures tail_after { IsRestAfter kinds.Bump mixed_heap 0 4
        (record { next = 15; end = BLOCK_WORDS })
        (record { next = 19; end = BLOCK_WORDS }) }
{}
