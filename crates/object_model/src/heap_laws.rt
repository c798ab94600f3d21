//! Laws on changes that keep a heap lawful: stores, allocations, and taking Free blocks.

ghost use Rattle.std.specs.Prelude.{◌≡◌, ◌≢◌, ◌↔◌, ℕ, ◌+◌, ◌<◌, ◌≤◌, ◌^◌, Bool, IsTrue, List, slice_set};
ghost use Rattle.std.specs.List.{Contains};
ghost use Rattle.heap_layout.specs.declared.block.BlockWord.{BlockWord};
ghost use Rattle.heap_layout.specs.declared.block.Kind.TheVariants as kinds;
ghost use Rattle.heap_layout.specs.Blocks.{IsValidWord, code_of};
ghost use Rattle.heap_layout.specs.Zones.{first, Globals, BlockWords, block_at, block_start};
ghost use Rattle.ideal_heap.specs.declared.name.Name.{Name};
ghost use Rattle.ideal_heap.specs.Names.{name};
ghost use Rattle.ideal_heap.specs.Ideal.{IdealHeap, with_new};
ghost use Rattle.object_model.specs.Objects.{HeapState, with_words, word_at, block_word, HasKind, IsHeld, refs_at, nums_at, size_of};
ghost use Rattle.object_model.specs.Lawful.{IsLawful, IsLawfulButLines, IsWellFormed, IsClear, IsRefField, IsRoot, has_small};
ghost use Rattle.object_model.specs.Graphs.{MutatorState, Represents, numbers_of, add_birth, set_register_of};
ghost use Rattle.object_model.specs.Changes.{WritesObject, SetsPin, ClearsUnlog};
ghost use Rattle.object_model.specs.Births.{IsRoom, IsLargeRoom, MarksLinesOfBirth, WritesLargeObject, with_block};
ghost use Rattle.object_model.specs.WorkedHeaps.{unowned, one_block, with_lines, with_first_object};

use crate::shape::HEADER_WORDS;
use heap_layout::GLOBALS;
use ideal_heap::REGISTERS;

/// A store of a number, reference, global or pin bit keeps a heap lawful, and so does clearing an
/// unlog bit.
pub fn stores_keep_heaps_lawful()
    ensures number { (s : HeapState) (a j n : ℕ) → IsLawful s → IsHeld s a → j < nums_at s a
        → n < 2 ^ 64 → IsLawful (with_words s
        (slice_set s.words (a + HEADER_WORDS + refs_at s a + j) n)) }
    ensures reference { (s : HeapState) (a i v : ℕ) → IsLawful s → IsHeld s a
        → i < refs_at s a → v < 2 ^ 64 → IsRefField s v
        → IsLawful (with_words s (slice_set s.words (a + HEADER_WORDS + i) v)) }
    ensures global { (s : HeapState) (g v : ℕ) → IsLawful s → g < GLOBALS → IsRoot s v
        → IsLawful (with_words s (slice_set s.words (first s.blocks Globals + g) v)) }
    ensures pin { (s new : HeapState) (a : ℕ) (pinned : Bool) → IsLawful s → IsHeld s a
        → SetsPin s new a pinned → IsLawful new }
    ensures log { (s new : HeapState) (a : ℕ) → IsLawful s → ClearsUnlog s new a
        → IsLawful new }
{}

/// A Free block that is clear may become a block for small and medium objects, with any class and
/// owner that its new kind allows. Only the block's word changes.
pub fn free_blocks_may_be_taken()
    ensures block { (s : HeapState) (k : ℕ) (word : BlockWord) → IsWellFormed s → k < s.blocks
        → block_word (with_block s k word) k ≡ code_of word }
    ensures others { (s : HeapState) (k i : ℕ) (word : BlockWord)
        → i ≢ first s.blocks BlockWords + k
        → word_at (with_block s k word) i ≡ word_at s i }
    ensures held { (s : HeapState) (k a : ℕ) (word : BlockWord) → k < s.blocks
        → IsHeld (with_block s k word) a ↔ IsHeld s a }
    ensures order { (s : HeapState) (k : ℕ) (word : BlockWord) → IsWellFormed s
        → HasKind s k kinds.Free → IsClear s k → IsValidWord word
        → IsTrue (has_small (with_block s k word) k) → IsWellFormed (with_block s k word) }
    ensures but_lines { (s : HeapState) (k : ℕ) (word : BlockWord) → IsLawfulButLines s
        → HasKind s k kinds.Free → IsValidWord word → word.owner ≡ 0
        → IsTrue (has_small (with_block s k word) k) → IsLawfulButLines (with_block s k word) }
    ensures lawful { (s : HeapState) (k : ℕ) (word : BlockWord) → IsLawful s
        → HasKind s k kinds.Free → IsValidWord word → word.owner ≡ 0
        → IsTrue (has_small (with_block s k word) k) → IsLawful (with_block s k word) }
    ensures represents { (s : HeapState) (k : ℕ) (word : BlockWord) (ms : List MutatorState)
        (h : IdealHeap) → IsWellFormed s → HasKind s k kinds.Free → IsClear s k
        → IsValidWord word → IsTrue (has_small (with_block s k word) k) → Represents s ms h
        → Represents (with_block s k word) ms h }
{}

/// Allocating a small or medium object keeps a heap lawful, in a block of any kind that holds such
/// objects. In an Immix block, the object's lines are marked as well, before or after.
pub fn births_keep_heaps_lawful()
    ensures order { (s new : HeapState) (a refs nums : ℕ) (n : Name) → IsWellFormed s
        → IsRoom s a n refs nums → WritesObject s new a n refs nums → IsWellFormed new }
    ensures but_lines { (s new : HeapState) (a refs nums : ℕ) (n : Name) → IsLawfulButLines s
        → IsRoom s a n refs nums → WritesObject s new a n refs nums → IsLawfulButLines new }
    ensures lawful { (s new : HeapState) (a refs nums : ℕ) (n : Name) → IsLawful s
        → IsRoom s a n refs nums → (HasKind s (block_at s.blocks a) kinds.Immix → ⊥)
        → WritesObject s new a n refs nums → IsLawful new }
    ensures marked { (s between new : HeapState) (a refs nums : ℕ) (n : Name) → IsLawful s
        → IsRoom s a n refs nums → WritesObject s between a n refs nums
        → MarksLinesOfBirth between new a (size_of refs nums) → IsLawful new }
    ensures marked_before { (s between new : HeapState) (a refs nums : ℕ) (n : Name)
        → IsLawful s → IsRoom s a n refs nums → MarksLinesOfBirth s between a (size_of refs nums)
        → WritesObject between new a n refs nums → IsLawful new }
    ensures represents { (s new : HeapState) (ms : List MutatorState) (h : IdealHeap)
        (m d a refs nums : ℕ) → IsWellFormed s → Represents s ms h
        → Contains (numbers_of ms) m → d < REGISTERS
        → IsRoom s a (name m (h.births m + 1)) refs nums
        → WritesObject s new a (name m (h.births m + 1)) refs nums
        → Represents new (set_register_of (add_birth ms m) m d a) (with_new h m d refs nums) }
{}

/// Allocating a large object at the start of a run of Free blocks keeps a heap lawful.
pub fn large_births_keep_heaps_lawful()
    ensures order { (s new : HeapState) (k refs nums : ℕ) (n : Name) → IsWellFormed s
        → IsLargeRoom s k n refs nums → WritesLargeObject s new k n refs nums
        → IsWellFormed new }
    ensures but_lines { (s new : HeapState) (k refs nums : ℕ) (n : Name) → IsLawfulButLines s
        → IsLargeRoom s k n refs nums → WritesLargeObject s new k n refs nums
        → IsLawfulButLines new }
    ensures lawful { (s new : HeapState) (k refs nums : ℕ) (n : Name) → IsLawful s
        → IsLargeRoom s k n refs nums → WritesLargeObject s new k n refs nums → IsLawful new }
    ensures represents { (s new : HeapState) (ms : List MutatorState) (h : IdealHeap)
        (m d k refs nums : ℕ) → IsWellFormed s → Represents s ms h
        → Contains (numbers_of ms) m → d < REGISTERS
        → IsLargeRoom s k (name m (h.births m + 1)) refs nums
        → WritesLargeObject s new k (name m (h.births m + 1)) refs nums
        → Represents new (set_register_of (add_birth ms m) m d (block_start s.blocks k))
        (with_new h m d refs nums) }
{}

/// Worked heaps with one object. The heap is lawful with the object in a block of each kind that
/// holds small objects, in a cell of the smallest or the largest class, and in a run of two blocks.
/// It is not lawful if the object is larger than its cell, or if the run lacks a tail.
pub fn lawful_heaps()
    ensures bump { IsLawful (with_first_object (one_block kinds.Bump 0) 1) }
    ensures young { IsLawful (with_first_object (one_block kinds.Young 0) 1) }
    ensures mature { IsLawful (with_first_object (one_block kinds.Mature 0) 1) }
    ensures kept { IsLawful (with_first_object (one_block kinds.Kept 0) 1) }
    ensures immix { IsLawful (with_first_object (with_lines (one_block kinds.Immix 0) 3) 20) }
    ensures cells { IsLawful (with_first_object (one_block kinds.Cells 0) 1) }
    ensures large_cells { IsLawful (with_first_object (one_block kinds.Cells 18) 2045) }
    ensures large { IsLawful (with_first_object (with_block (one_block kinds.LargeHead 2) 1
        (unowned kinds.LargeTail 0)) 5000) }
    ensures over_a_cell { IsLawful (with_first_object (one_block kinds.Cells 0) 2) → ⊥ }
    ensures no_tail { IsLawful (with_first_object (with_block (one_block kinds.LargeHead 2) 1
        (unowned kinds.Bump 0)) 5000) → ⊥ }
{}
