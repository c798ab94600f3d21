//! Whether a block may be released, as a test.

ghost use Rattle.std.specs.Prelude.{◌≡◌, ◌↔◌, ℕ, ◌+◌, ◌*◌, ◌<◌, ◌≤◌, ◌^◌, IsTrue, IfSome, IfNone, length};
ghost use Rattle.heap_layout.specs.Zones.{row_words, block_start, IsAddress, IsRowOf};
ghost use Rattle.heap_layout.specs.Blocks.{code_of, IsValidWord};
ghost use Rattle.heap_layout.specs.declared.layout.Layout.{Layout};
ghost use Rattle.object_model.specs.Objects.{cell_words as words_of_class, is_start, is_pinned, is_unlogged, size_at, block_word, shown};
ghost use Rattle.ideal_heap.specs.Names.{IsName, name_of};
ghost use Rattle.object_model.specs.Lawful.{HasObject};
ghost use Rattle.object_model.specs.Releasing.{IsReleasable};
ghost use Rattle.releasable_rows.specs.BlockTests.{HasNoMark, HasNoLine, AreTails, ObjectsGoOn, HoldsSmall, IsInCell, AreInCells, HoldsLarge};

use heap_layout::{BLOCK_WORDS, BlockWord, CLASS_UNIT, CLASSES, Kind, Layout, decode};
use ideal_heap::MAX_MUTATORS;
use object_model::{HEADER_WORDS, MAX_MEDIUM_WORDS, SHAPE_OFFSET, decode_shape, size_words};
use side_meta::{BITS_PER_WORD, Words, test_bit};

/// The size in words of a cell of each class.
const CELL_WORDS: [u32; CLASSES] = [
    4, 6, 8, 12, 16, 24, 32, 48, 64, 96, 128, 192, 256, 384, 512, 768, 1024, 1536, 2048,
];

/// The factor of the birth number in a name word. The mutator is below it.
const BIRTH_UNIT: u64 = 32;

/// Which bits of side metadata an address has.
#[derive(Clone, Copy)]
struct Marks {
    start: bool,
    pin: bool,
    unlog: bool,
}

/// Whether a block may be released: the condition of the sweeps, as a test.
pub fn is_releasable<W: Words>(words: &W, layout: &Layout, block: u32) -> bool
    requires extent { IsRowOf layout.now (W.words words.now) }
    requires block { block < layout.now.blocks }
    ensures { IsTrue result ↔ IsReleasable (shown (W.words words.now) layout.now) block }
{
    let Some(word) = decode(words.get(layout.block_at(block))) else {
        return false;
    };
    has_its_objects(words, layout, block, &word)
}

/// Whether the objects in the block, and its bits, are those of a block with this word.
fn has_its_objects<W: Words>(words: &W, layout: &Layout, block: u32, word: &BlockWord) -> bool
    requires extent { IsRowOf layout.now (W.words words.now) }
    requires block { block < layout.now.blocks }
    requires valid { IsValidWord word.now }
    requires word { code_of word.now
        ≡ block_word (shown (W.words words.now) layout.now) block }
    ensures { IsTrue result ↔ IsReleasable (shown (W.words words.now) layout.now) block }
{
    match word.kind {
        Kind::Free => is_clear(words, layout, block),
        Kind::LargeHead => holds_large(words, layout, block, word.class),
        Kind::LargeTail => is_empty(words, layout, block),
        Kind::Cells => holds_cells(words, layout, block, word.class),
        Kind::Bump | Kind::Young | Kind::Mature | Kind::Immix | Kind::Kept => {
            holds_small(words, layout, block)
        }
    }
}

/// Whether no bit of the block is set.
fn is_clear<W: Words>(words: &W, layout: &Layout, block: u32) -> bool
    requires extent { IsRowOf layout.now (W.words words.now) }
    requires block { block < layout.now.blocks }
    ensures { IsTrue result ↔ (HasNoMark (shown (W.words words.now) layout.now)
        (block_start layout.now.blocks block) (block_start layout.now.blocks block + BLOCK_WORDS)
        × HasNoLine (shown (W.words words.now) layout.now) block) }
{
    if !has_no_line(words, layout, block) {
        return false;
    }
    is_empty(words, layout, block)
}

/// Whether no start, pin or unlog bit of the block is set.
fn is_empty<W: Words>(words: &W, layout: &Layout, block: u32) -> bool
    requires extent { IsRowOf layout.now (W.words words.now) }
    requires block { block < layout.now.blocks }
    ensures { IsTrue result ↔ HasNoMark (shown (W.words words.now) layout.now)
        (block_start layout.now.blocks block) (block_start layout.now.blocks block + BLOCK_WORDS) }
{
    let first = layout.address(block, 0);
    has_no_mark(words, layout, first, first + BLOCK_WORDS)
}

/// Whether no address from `from` on, before `to`, has a start, pin or unlog bit.
fn has_no_mark<W: Words>(words: &W, layout: &Layout, from: u32, to: u32) -> bool
    requires extent { IsRowOf layout.now (W.words words.now) }
    requires from { block_start layout.now.blocks 0 ≤ from }
    requires to { to ≤ row_words layout.now.blocks }
    ensures { IsTrue result
        ↔ HasNoMark (shown (W.words words.now) layout.now) from to }
{
    for address in from..to {
        let marks = marks_at(words, layout, address);
        if marks.start || marks.pin || marks.unlog {
            return false;
        }
    }
    true
}

/// Whether no line bit of the block is set.
fn has_no_line<W: Words>(words: &W, layout: &Layout, block: u32) -> bool
    requires extent { IsRowOf layout.now (W.words words.now) }
    requires block { block < layout.now.blocks }
    ensures { IsTrue result ↔ HasNoLine (shown (W.words words.now) layout.now) block }
{
    let lines = layout.line_at(block);
    for index in lines..lines + 4 {
        if words.get(index) != 0 {
            return false;
        }
    }
    true
}

/// Whether the block and the `class - 1` blocks after it are a run that holds one large object.
fn holds_large<W: Words>(words: &W, layout: &Layout, block: u32, class: u32) -> bool
    requires extent { IsRowOf layout.now (W.words words.now) }
    requires block { block < layout.now.blocks }
    requires class { class ≤ 15 }
    ensures { IsTrue result
        ↔ HoldsLarge (shown (W.words words.now) layout.now) block class }
{
    if block + class > layout.blocks() {
        return false;
    }
    let first = layout.address(block, 0);
    if !marks_at(words, layout, first).start {
        return false;
    }
    let Some(size) = object_size(words, first) else {
        return false;
    };
    if size <= MAX_MEDIUM_WORDS || (size + BLOCK_WORDS - 1) / BLOCK_WORDS != class {
        return false;
    }
    if !are_tails(words, layout, block + 1, block + class) {
        return false;
    }
    has_no_mark(words, layout, first + 1, first + BLOCK_WORDS * class)
}

/// Whether the blocks from `from` on, before `to`, are later blocks of large runs.
fn are_tails<W: Words>(words: &W, layout: &Layout, from: u32, to: u32) -> bool
    requires extent { IsRowOf layout.now (W.words words.now) }
    requires blocks { to ≤ layout.now.blocks }
    ensures { IsTrue result ↔ AreTails (shown (W.words words.now) layout.now) from to }
{
    for block in from..to {
        if words.get(layout.block_at(block)) % CLASS_UNIT != Kind::LargeTail as u64 {
            return false;
        }
    }
    true
}

/// Whether the objects in the block are small or medium ones side by side, each with a cell of its
/// own of this class.
fn holds_cells<W: Words>(words: &W, layout: &Layout, block: u32, class: u32) -> bool
    requires extent { IsRowOf layout.now (W.words words.now) }
    requires block { block < layout.now.blocks }
    requires class { class ≤ 18 }
    ensures { IsTrue result ↔ (HoldsSmall (shown (W.words words.now) layout.now)
        block BLOCK_WORDS BLOCK_WORDS
        × AreInCells (shown (W.words words.now) layout.now)
        block (words_of_class class) BLOCK_WORDS) }
{
    if !holds_small(words, layout, block) {
        return false;
    }
    are_in_cells(words, layout, block, CELL_WORDS[class as usize])
}

/// Whether the objects in the block are small or medium ones, side by side in it. Pin and unlog
/// bits must be those of objects.
fn holds_small<W: Words>(words: &W, layout: &Layout, block: u32) -> bool
    requires extent { IsRowOf layout.now (W.words words.now) }
    requires block { block < layout.now.blocks }
    ensures { IsTrue result ↔ HoldsSmall (shown (W.words words.now) layout.now)
        block BLOCK_WORDS BLOCK_WORDS }
{
    let mut end = 0;
    for offset in 0..BLOCK_WORDS {
        let Some(next) = end_after(words, layout, block, offset, end) else {
            return false;
        };
        end = next;
    }
    true
}

/// Where the objects up to this offset end, if those before it end at `end`. `None` if there is no
/// object at the offset but another bit is set, or what begins there is no small or medium object
/// that lies after `end`, in the block.
fn end_after<W: Words>(words: &W, layout: &Layout, block: u32, offset: u32, end: u32) -> Option<u32>
    requires extent { IsRowOf layout.now (W.words words.now) }
    requires block { block < layout.now.blocks }
    requires offset { offset < BLOCK_WORDS }
    requires end { end ≤ BLOCK_WORDS }
    ensures some { IfSome result (λ next.
        ObjectsGoOn (shown (W.words words.now) layout.now) block offset end next) }
    ensures none { IfNone result ((next : ℕ)
        → ObjectsGoOn (shown (W.words words.now) layout.now) block offset end next → ⊥) }
{
    let address = layout.address(block, offset);
    let marks = marks_at(words, layout, address);
    if !marks.start {
        if marks.pin || marks.unlog {
            return None;
        }
        return Some(end);
    }
    if offset < end || offset + HEADER_WORDS > BLOCK_WORDS {
        return None;
    }
    let Some(size) = object_size(words, address) else {
        return None;
    };
    if size > MAX_MEDIUM_WORDS || offset + size > BLOCK_WORDS {
        return None;
    }
    Some(offset + size)
}

/// Whether each object in the block has a cell of its own, of `cell` words.
fn are_in_cells<W: Words>(words: &W, layout: &Layout, block: u32, cell: u32) -> bool
    requires extent { IsRowOf layout.now (W.words words.now) }
    requires block { block < layout.now.blocks }
    requires least { 4 ≤ cell }
    requires most { cell ≤ MAX_MEDIUM_WORDS }
    requires objects { HoldsSmall (shown (W.words words.now) layout.now)
        block BLOCK_WORDS BLOCK_WORDS }
    ensures { IsTrue result ↔ AreInCells (shown (W.words words.now) layout.now)
        block cell BLOCK_WORDS }
{
    for offset in 0..BLOCK_WORDS {
        if !is_in_cell(words, layout, block, cell, offset) {
            return false;
        }
    }
    true
}

/// Whether no object begins at the offset, or one that has a cell of its own, of `cell` words.
fn is_in_cell<W: Words>(words: &W, layout: &Layout, block: u32, cell: u32, offset: u32) -> bool
    requires extent { IsRowOf layout.now (W.words words.now) }
    requires block { block < layout.now.blocks }
    requires offset { offset < BLOCK_WORDS }
    requires least { 4 ≤ cell }
    requires most { cell ≤ MAX_MEDIUM_WORDS }
    requires objects { HoldsSmall (shown (W.words words.now) layout.now)
        block BLOCK_WORDS BLOCK_WORDS }
    ensures { IsTrue result
        ↔ (IsTrue (is_start (shown (W.words words.now) layout.now)
        (block_start layout.now.blocks block + offset)) → IsInCell cell offset
        (size_at (shown (W.words words.now) layout.now)
        (block_start layout.now.blocks block + offset))) }
{
    let address = layout.address(block, offset);
    if !marks_at(words, layout, address).start {
        return true;
    }
    if offset % cell != 0 || offset + cell > BLOCK_WORDS {
        return false;
    }
    let Some(size) = object_size(words, address) else {
        return false;
    };
    size <= cell
}

/// The size in words of the object at the address. `None` if its first two words are no name and
/// no shape.
fn object_size<W: Words>(words: &W, address: u32) -> Option<u32>
    requires index { address + SHAPE_OFFSET < 2 ^ 32 }
    requires word { address + SHAPE_OFFSET < length (W.words words.now) }
    ensures some { (layout : Layout) → IfSome result (λ size.
        HasObject (shown (W.words words.now) layout) address
        × (size ≡ size_at (shown (W.words words.now) layout) address)) }
    ensures none { (layout : Layout) → IfNone result
        (HasObject (shown (W.words words.now) layout) address → ⊥) }
{
    if !is_name(words.get(address)) {
        return None;
    }
    let Some(shape) = decode_shape(words.get(address + SHAPE_OFFSET)) else {
        return None;
    };
    Some(size_words(&shape))
}

/// Whether the word represents a name.
fn is_name(word: u64) -> bool
    ensures { IsTrue result ↔ IsName (name_of word) }
{
    let mutator = word % BIRTH_UNIT;
    let birth = word / BIRTH_UNIT;
    if mutator == 0 || mutator > u64::from(MAX_MUTATORS) {
        return false;
    }
    birth != 0 && birth <= u64::from(u32::MAX)
}

/// The bits of an address.
fn marks_at<W: Words>(words: &W, layout: &Layout, address: u32) -> Marks
    requires extent { IsRowOf layout.now (W.words words.now) }
    requires address { IsAddress layout.now.blocks address }
    ensures start { result.start
        ≡ is_start (shown (W.words words.now) layout.now) address }
    ensures pin { result.pin
        ≡ is_pinned (shown (W.words words.now) layout.now) address }
    ensures unlog { result.unlog
        ≡ is_unlogged (shown (W.words words.now) layout.now) address }
{
    let index = address - layout.heap_base();
    let (word, bit) = (index / BITS_PER_WORD, index % BITS_PER_WORD);
    Marks {
        start: test_bit(words, layout.start_base() + word, bit),
        pin: test_bit(words, layout.pin_base() + word, bit),
        unlog: test_bit(words, layout.unlog_base() + word, bit),
    }
}
