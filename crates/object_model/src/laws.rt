//! Laws on the definitions of heaps, objects and blocks.

ghost use Rattle.std.specs.Prelude.{◌≡◌, ◌≢◌, ◌⊎◌, ◌↔◌, ℕ, ◌≤◌, ◌<◌, ◌+◌, ◌*◌, ◌/◌, ◌%◌, ◌^◌, nat_eq, IsTrue, true, false, replicate, List, [], ◌∷◌, map, if◌then◌else◌, Bool};
ghost use Rattle.std.specs.List.{AllByRecursion};
ghost use Rattle.forward_word.specs.CollectorWords.{collector_word};
ghost use Rattle.heap_layout.specs.Zones.{row_words, heap_of, first, LineWords, IsAddress, line_at, block_at, offset_at};
ghost use Rattle.ideal_heap.specs.declared.name.Name.{Name};
ghost use Rattle.ideal_heap.specs.Names.{IsName};
ghost use Rattle.object_model.specs.Changes.{WritesObject, ObjectsStay};
ghost use Rattle.object_model.specs.Births.{IsLargeRoom};
ghost use Rattle.std.specs.Int.{bit_at};
ghost use Rattle.heap_layout.specs.declared.block.BlockWord.{BlockWord};
ghost use Rattle.heap_layout.specs.declared.block.Kind.TheVariants as kinds;
ghost use Rattle.heap_layout.specs.Blocks.{IsValidWord, code_of, kind_code, is_block_code};
ghost use Rattle.ideal_heap.specs.Ideal.{empty};
ghost use Rattle.object_model.specs.Objects.{HeapState, empty_heap, word_at, block_word, HasKind, class_at, owner_at, number_at, target_at, line_marked, cell_words, blocks_for, lines_for, is_start, is_pinned, is_unlogged, IsHeld, IsInExtent, IsInExtentOf, refs_at, ref_at, is_reference, size_of, size_at, name_at};
ghost use Rattle.object_model.specs.Lawful.{IsLawful, IsLawfulButLines, IsWellFormed, IsClear, LineBitsAreExact, Lies, IsRoot, IsReadable, IsReadableBlock, HasObject, HasHeader, has_small};
ghost use Rattle.object_model.specs.Lines.{TouchesLine};
ghost use Rattle.object_model.specs.Ages.{is_old, is_logged, is_survivor, RemembersYoung};
ghost use Rattle.object_model.specs.Preserving.{may_leave, PreservesObjects, field_after};
ghost use Rattle.object_model.specs.Graphs.{AreDifferent, Represents, new_mutator};

use crate::shape::{COLLECTOR_OFFSET, MAX_MEDIUM_WORDS};
use forward_word::TARGET_BITS;
use heap_layout::{
    BLOCK_LINE_BIT_WORDS, BLOCK_LINES, BLOCK_WORDS, CLASS_UNIT, MAX_BLOCKS, MIN_BLOCKS, OWNER_UNIT,
};
use ideal_heap::{MAX_MUTATORS, MAX_NUMS, MAX_REFS};
use side_meta::BITS_PER_WORD;

/// A row of zeros is a lawful heap. With mutators that have allocated nothing, it represents the
/// empty ideal heap. A large object may begin at any of its blocks, if all blocks that the object
/// needs are in the heap.
pub fn empty_heap_laws()
    ensures lawful { (b : ℕ) → MIN_BLOCKS ≤ b → b ≤ MAX_BLOCKS
        → IsLawful (empty_heap b) }
    ensures represents { (b : ℕ) (numbers : List ℕ)
        → AllByRecursion (λ m. (1 ≤ m) × (m ≤ MAX_MUTATORS)) numbers
        → AreDifferent numbers → Represents (empty_heap b) (map new_mutator numbers) empty }
    ensures large { (b k refs nums : ℕ) (n : Name) → MIN_BLOCKS ≤ b → b ≤ MAX_BLOCKS
        → IsName n → refs ≤ MAX_REFS → nums ≤ MAX_NUMS
        → MAX_MEDIUM_WORDS < size_of refs nums → k + blocks_for (size_of refs nums) ≤ b
        → IsLargeRoom (empty_heap b) k n refs nums }
{}

/// A heap is lawful if and only if it is well formed, its block words are codes of blocks without
/// an owner, its Free blocks are clear, and its line bits are exact.
pub fn lawful_parts()
    ensures { (s : HeapState) → IsLawful s ↔ (IsWellFormed s
        × ((k : ℕ) → k < s.blocks
        → IsTrue (is_block_code (block_word s k)) × (owner_at s k ≡ 0))
        × ((k : ℕ) → HasKind s k kinds.Free → IsClear s k)
        × ((k : ℕ) → LineBitsAreExact s k)) }
{}

/// Where an object of a size may lie is an address, and the object ends within the row.
pub fn places_are_addresses()
    ensures address { (s : HeapState) (a size : ℕ) → Lies s a size → IsAddress s.blocks a }
    ensures inside { (s : HeapState) (a size : ℕ) → Lies s a size
        → a + size ≤ row_words s.blocks }
{}

/// A held object can be read if the heap is well formed, or if its block can be read. Each block
/// can be read if the heap is lawful, line bits apart.
pub fn readable_objects()
    ensures ordered { (s : HeapState) (a : ℕ) → IsWellFormed s → IsHeld s a
        → IsReadable s a }
    ensures in_block { (s : HeapState) (a : ℕ) → IsReadableBlock s (block_at s.blocks a)
        → IsHeld s a → IsReadable s a }
    ensures blocks { (s : HeapState) (k : ℕ) → IsLawfulButLines s → k < s.blocks
        → IsReadableBlock s k }
{}

/// The word of a field refers to an object if it is the address of a held one. Nil refers to none.
pub fn fields_refer()
    ensures nil { is_reference 0 ≡ false }
    ensures held { (s : HeapState) (a : ℕ) → IsHeld s a → is_reference a ≡ true }
{}

/// What old, logged and surviving mean. If the heap remembers its young objects, no field of an old
/// object that is not logged refers to a young one, and an unlog bit is set only at an old object.
/// With a base of 0 no object is old, so a heap remembers its young objects if no unlog bit is set.
pub fn ages()
    ensures old { (s : HeapState) (a : ℕ) → IsTrue (is_old s a)
        ↔ ((0 < s.base) × (s.base ≤ number_at s a)) }
    ensures logged { (s : HeapState) (a : ℕ) → IsTrue (is_logged s a)
        ↔ (IsTrue (is_start s a) × IsTrue (is_old s a) × (is_unlogged s a ≡ false)) }
    ensures survivor { (s : HeapState) (base a : ℕ)
        → IsTrue (is_survivor s base a) ↔ ((base ≤ number_at s a) × (target_at s a ≡ a)) }
    ensures remembered { (s : HeapState) (a i : ℕ) → RemembersYoung s → IsHeld s a
        → IsTrue (is_old s a) → is_logged s a ≡ false → i < refs_at s a
        → IsTrue (is_reference (ref_at s a i))
        → IsHeld s (ref_at s a i) × IsTrue (is_old s (ref_at s a i)) }
    ensures marked { (s : HeapState) (a : ℕ) → RemembersYoung s → IsHeld s a
        → IsTrue (is_unlogged s a) → IsTrue (is_old s a) }
    ensures young { (s : HeapState) → s.base ≡ 0
        → ((a : ℕ) → IsHeld s a → is_unlogged s a ≡ false) → RemembersYoung s }
{}

/// No step of a mutator sets an unlog bit.
pub fn steps_set_no_unlog_bit()
    ensures { (old new : HeapState) (a : ℕ) → ObjectsStay old new
        → is_unlogged old a ≡ false
        → is_unlogged new a ≡ false }
{}

/// If the line bits of a block are exact before a step that allocates nothing, they are exact after
/// it.
pub fn steps_keep_line_bits()
    ensures { (old new : HeapState) (k : ℕ) → ObjectsStay old new → LineBitsAreExact old k
        → LineBitsAreExact new k }
{}

/// What it means to preserve objects. If none moves, all that a well-formed heap holds is
/// preserved. An object that may not move stays, and so does the word of a field that refers to no
/// object. Only small and medium objects that are not pinned may leave evacuated blocks.
pub fn objects_are_preserved()
    ensures still { (s : HeapState) (roots : List ℕ) → IsWellFormed s
        → AllByRecursion (IsRoot s) roots
        → PreservesObjects (λ a. false) s roots (IsHeld s) s roots
        (λ a. if is_start s a then a else 0) }
    ensures stays { (moves : ℕ → Bool) (old new : HeapState) (roots after : List ℕ)
        (target : ℕ → ℕ) (a : ℕ)
        → PreservesObjects moves old roots (IsHeld new) new after target → 0 < target a
        → moves a ≡ false → target a ≡ a }
    ensures leaving { (from : ℕ → Bool) (s : HeapState) (a : ℕ)
        → IsTrue (may_leave from s a)
        ↔ (IsTrue (from (block_at s.blocks a)) × (is_pinned s a ≡ false)
        × (size_at s a ≤ MAX_MEDIUM_WORDS)) }
    ensures others { (target : ℕ → ℕ) (v : ℕ) → is_reference v ≡ false
        → field_after target v ≡ v }
    ensures references { (target : ℕ → ℕ) (v : ℕ) → is_reference v ≡ true
        → field_after target v ≡ target v }
{}

/// The kind, class and owner read from a block's word are those that were encoded.
pub fn block_words_read()
    ensures { (s : HeapState) (k : ℕ) (w : BlockWord) → IsValidWord w → k < s.blocks
        → block_word s k ≡ code_of w → HasKind s k w.kind × (class_at s k ≡ w.class)
        × (owner_at s k ≡ w.owner) }
{}

/// A collector word has room for an address of every heap: number and address are read back.
pub fn collector_words_read()
    ensures { (s : HeapState) (a n t : ℕ) → s.blocks ≤ MAX_BLOCKS → IsAddress s.blocks t
        → word_at s (a + COLLECTOR_OFFSET) ≡ collector_word n t
        → (number_at s a ≡ n) × (target_at s a ≡ t) }
{}

/// A block has four line words, of 64 lines each.
pub fn lines_have_words()
    ensures { (s : HeapState) (k line : ℕ) → line < BLOCK_LINES
        → line_marked s k line ≡ nat_eq (bit_at
        (word_at s (first s.blocks LineWords + BLOCK_LINE_BIT_WORDS * k + line / BITS_PER_WORD))
        (line % BITS_PER_WORD)) 1 }
{}

/// An object touches the lines in which it has a word.
pub fn touched_lines_have_words()
    ensures word { (b a n k : ℕ) → heap_of b ≤ a → 0 < n → TouchesLine b a n k
        → (i : ℕ) × IsInExtentOf a n i × (line_at b i ≡ k) }
    ensures touched { (b a n k i : ℕ) → heap_of b ≤ a → IsInExtentOf a n i
        → line_at b i ≡ k → TouchesLine b a n k }
{}

/// Sizes of cells, of lines and of runs.
pub fn sizes()
    ensures cells { map cell_words (0 ∷ 1 ∷ 2 ∷ 3 ∷ 4 ∷ 5 ∷ 6 ∷ 7 ∷ 8
        ∷ 9 ∷ 10 ∷ 11 ∷ 12 ∷ 13 ∷ 14 ∷ 15 ∷ 16 ∷ 17 ∷ 18 ∷ [])
        ≡ 4 ∷ 6 ∷ 8 ∷ 12 ∷ 16 ∷ 24 ∷ 32 ∷ 48 ∷ 64 ∷ 96 ∷ 128
        ∷ 192 ∷ 256 ∷ 384 ∷ 512 ∷ 768 ∷ 1024 ∷ 1536 ∷ 2048 ∷ [] }
    ensures blocks { map blocks_for (1 ∷ 4096 ∷ 4097 ∷ 61027 ∷ [])
        ≡ 1 ∷ 1 ∷ 2 ∷ 15 ∷ [] }
    ensures lines { map lines_for (1 ∷ 16 ∷ 17 ∷ 2048 ∷ [])
        ≡ 1 ∷ 1 ∷ 2 ∷ 128 ∷ [] }
{}

/// In a lawful heap, a marked line of an Immix block has a word of a held object, and each large
/// tail belongs to a run.
pub fn lawful_blocks()
    ensures lines { (s : HeapState) (k line : ℕ) → IsLawful s → HasKind s k kinds.Immix
        → line < BLOCK_LINES → IsTrue (line_marked s k line)
        → ∥ ((a : ℕ) × (i : ℕ) × IsHeld s a × IsInExtent s a i
        × (line_at s.blocks i ≡ BLOCK_LINES * k + line)) ∥₁ }
    ensures tails { (s : HeapState) (k : ℕ) → IsLawful s → HasKind s k kinds.LargeTail
        → (j : ℕ) × (j < k) × HasKind s j kinds.LargeHead × (k < j + class_at s j) }
{}

/// Writing an object into any free cell keeps a heap lawful, if the object fits into the cell.
pub fn cells_take_objects()
    ensures { (s new : HeapState) (a j refs nums : ℕ) (n : Name) → IsLawful s
        → IsAddress s.blocks a
        → HasKind s (block_at s.blocks a) kinds.Cells
        → offset_at s.blocks a ≡ j * cell_words (class_at s (block_at s.blocks a))
        → offset_at s.blocks a + cell_words (class_at s (block_at s.blocks a)) ≤ BLOCK_WORDS
        → size_of refs nums ≤ cell_words (class_at s (block_at s.blocks a))
        → size_of refs nums ≤ MAX_MEDIUM_WORDS → refs ≤ MAX_REFS → nums ≤ MAX_NUMS
        → IsName n
        → ((x i : ℕ) → IsHeld s x → IsInExtent s x i
        → (i < a) ⊎ (a + size_of refs nums ≤ i))
        → ((x : ℕ) → IsHeld s x → name_at s x ≢ n)
        → WritesObject s new a n refs nums → IsLawful new }
{}

/// What holds of the block words of a lawful heap, by what lies in the block.
pub fn lawful_words()
    ensures owners { (s : HeapState) (k : ℕ) → IsLawful s → k < s.blocks
        → block_word s k < OWNER_UNIT }
    ensures large { (s : HeapState) (a : ℕ) → IsLawful s → IsHeld s a
        → MAX_MEDIUM_WORDS < size_at s a
        → block_word s (block_at s.blocks a) ≡ 6 + CLASS_UNIT * blocks_for (size_at s a) }
    ensures free { (s : HeapState) (k line : ℕ) → IsLawful s → HasKind s k kinds.Free
        → line < BLOCK_LINES → IsTrue (line_marked s k line) → ⊥ }
    ensures cells { (s : HeapState) (a : ℕ) → IsLawful s → IsHeld s a
        → size_at s a ≤ MAX_MEDIUM_WORDS
        → HasKind s (block_at s.blocks a) kinds.Cells
        → offset_at s.blocks a + cell_words (class_at s (block_at s.blocks a)) ≤ BLOCK_WORDS }
    ensures kept { (s : HeapState) (k : ℕ) → HasKind s k kinds.Kept → has_small s k ≡ true }
    ensures base { (s : HeapState) → IsLawful s → s.base < s.number + 1 }
{}

/// Before any collection reaches the object, its collector word has the number 0. After that it is
/// the word of a past collection and the object's address.
pub fn headers_are_read()
    ensures from { (s : HeapState) (a n : ℕ) → HasObject s a → a < 2 ^ TARGET_BITS
        → n ≤ s.number → word_at s (a + COLLECTOR_OFFSET) ≡ collector_word n a → HasHeader s a }
    ensures into { (s : HeapState) (a : ℕ) → HasHeader s a
        → (word_at s (a + COLLECTOR_OFFSET) < 2 ^ TARGET_BITS) ⊎ ((n : ℕ) × (n ≤ s.number)
        × (word_at s (a + COLLECTOR_OFFSET) ≡ collector_word n a)) }
{}
