//! Tests of what is found by words alone: holes of block 1 in rows of 4 blocks, and runs in heaps
//! of 8 blocks.

use heap_layout::{BLOCK_WORDS, BlockWord, CLASS_UNIT, Kind, Layout, Region};
use object_model::Heap;
use plan_api::{Reserve, first_hole, fits, has_run, hole_in_block, view_in};
use releasable_rows::is_releasable;
use std::alloc::{AllocError, Global};
use std::test::Fail;

/// A row with objects of 5 words at these offsets of block 1, which has its first line marked.
fn row_with(
    alloc: Global,
    layout: &Layout,
    kind: Kind,
    class: u32,
    offsets: &[u32],
) -> Result<Vec<u64>, AllocError> {
    let count = layout.words() as usize;
    let mut words = Vec::with_capacity(alloc, count)?;
    words.resize(count, 0)?;
    put(
        &mut words,
        layout.block_at(1),
        kind as u64 + CLASS_UNIT * class as u64,
    );
    put(&mut words, layout.line_at(1), (kind != Kind::Free) as u64);
    for offset in offsets {
        write_object(&mut words, layout, *offset);
    }
    Ok(words)
}

/// Sets a word of the row, if there is such a word.
pub(crate) fn put(words: &mut Vec<u64>, index: u32, value: u64) {
    if let Some(word) = words.get_mut(index as usize) {
        *word = value;
    }
}

/// Writes an object of 5 words at an offset of block 1, and sets its start bit.
fn write_object(words: &mut Vec<u64>, layout: &Layout, offset: u32) {
    let at = offset.min(BLOCK_WORDS - 5);
    let address = layout.heap_base() + BLOCK_WORDS + at;
    put(words, address, 33 + 32 * at as u64);
    put(words, address + 1, 65_536 * 2);
    if let Some(word) = words.get_mut(layout.start_base() as usize + 64 + at as usize / 64) {
        *word |= 1 << (at % 64);
    }
}

/// Whether this is the first hole of block 1 from an offset on, by words and by its view. `false`
/// if there is no such block or size.
fn is_hole(
    words: &Vec<u64>,
    layout: &Layout,
    fill: Kind,
    from: u32,
    size: u32,
    want: Option<Region>,
) -> bool {
    if words.len() != layout.words() as usize || !is_releasable(words, layout, 1) {
        return false;
    }
    if size < 3 || size > 2048 {
        return false;
    }
    if first_hole(fill, &view_in(words, layout, 1), from, size) != want {
        return false;
    }
    hole_in_block(words, layout, fill, 1, from, size) == want
}

/// The block's kind, class, first line word and objects, the offset from which a hole for so many
/// words is looked for, and the first hole.
type Hole = (Kind, u32, u64, &'static [u32], u32, u32, Option<(u32, u32)>);

const HOLES: [Hole; 39] = [
    (Kind::Bump, 0, 1, &[], 0, 2048, Some((0, 4096))),
    (Kind::Bump, 0, 1, &[0, 10], 0, 3, Some((15, 4096))),
    (Kind::Bump, 0, 1, &[0], 100, 3, Some((100, 4096))),
    (Kind::Bump, 0, 1, &[0, 2043], 0, 2048, Some((2048, 4096))),
    (Kind::Bump, 0, 1, &[0, 2044], 0, 2048, None),
    (Kind::Bump, 0, 1, &[0], 2049, 2048, None),
    (Kind::Bump, 0, 1, &[0], 4094, 3, None),
    (Kind::Young, 0, 1, &[0, 10], 0, 3, Some((15, 4096))),
    (Kind::Young, 0, 1, &[0], 4093, 3, Some((4093, 4096))),
    (Kind::Young, 0, 1, &[4091], 0, 3, None),
    (Kind::Young, 0, 1, &[0], 4294967295, 3, None),
    // lines 1 and 3 to 63 are clear, or lines 1 to 63, and lines 65 to 255
    (Kind::Immix, 0, 0b101, &[0], 0, 16, Some((16, 32))),
    (Kind::Immix, 0, 0b101, &[0], 0, 17, Some((48, 1024))),
    (Kind::Immix, 0, 0b101, &[0], 17, 3, Some((48, 1024))),
    (Kind::Immix, 0, 0b101, &[0], 97, 3, Some((112, 1024))),
    (Kind::Immix, 0, 1, &[0], 0, 3, Some((16, 1024))),
    (Kind::Immix, 0, 1, &[0], 16, 1008, Some((16, 1024))),
    (Kind::Immix, 0, 1, &[0], 16, 1009, Some((1040, 4096))),
    (Kind::Immix, 0, 1, &[0], 17, 16, Some((32, 1024))),
    (Kind::Immix, 0, 1, &[0], 1024, 3, Some((1040, 4096))),
    (Kind::Immix, 0, 1, &[0], 2049, 2032, Some((2064, 4096))),
    (Kind::Immix, 0, 1, &[0], 2049, 2048, None),
    (Kind::Immix, 0, 1, &[0], 4080, 16, Some((4080, 4096))),
    (Kind::Immix, 0, 1, &[0], 4080, 17, None),
    (Kind::Immix, 0, 1, &[0], 4096, 3, None),
    (Kind::Cells, 0, 1, &[], 0, 3, Some((0, 4))),
    (Kind::Cells, 1, 1, &[6, 12], 0, 6, Some((0, 6))),
    (Kind::Cells, 1, 1, &[6], 1, 5, Some((12, 18))),
    (Kind::Cells, 1, 1, &[0, 6], 0, 5, Some((12, 18))),
    (Kind::Cells, 1, 1, &[0, 6], 0, 4, None),
    (Kind::Cells, 1, 1, &[0, 6], 0, 7, None),
    (Kind::Cells, 1, 1, &[0], 4087, 5, None),
    (Kind::Cells, 17, 1, &[0], 0, 1025, Some((1536, 3072))),
    (Kind::Cells, 18, 1, &[0], 0, 2048, Some((2048, 4096))),
    (Kind::Cells, 18, 1, &[0], 2049, 2048, None),
    (Kind::Cells, 18, 1, &[0, 2048], 0, 2048, None),
    (Kind::Kept, 0, 1, &[0], 0, 3, None),
    (Kind::Mature, 0, 1, &[0], 0, 3, None),
    (Kind::Free, 0, 0, &[], 0, 3, None),
];

// The search is for the block's own kind, from an offset on.
#[test]
fn holes_by_words(rt: HostRuntime) -> Result<(), Fail> {
    let layout = Layout::new(4)?;
    for (kind, class, lines, offsets, from, size, want) in HOLES {
        let want = want.map(|(next, end)| Region { next, end });
        let mut words = row_with(rt.alloc(), &layout, kind, class, offsets)?;
        put(&mut words, layout.line_at(1), lines);
        put(
            &mut words,
            layout.line_at(1) + 1,
            (kind == Kind::Immix) as u64,
        );
        let other = if kind == Kind::Bump {
            Kind::Cells
        } else {
            Kind::Bump
        };
        let found = is_hole(&words, &layout, kind, from, size, want);
        assert!(rt; found, "for {size} from {from} of class {class}");
        assert!(rt; is_hole(&words, &layout, other, from, size, None));
    }
    Ok(())
}

/// The heap after a mutator that fills tails took a block, if it is there and Free.
pub(crate) fn take(heap: Heap, block: u32) -> Heap {
    if block >= heap.layout().blocks() || heap.block(block).kind != Kind::Free {
        return heap;
    }
    let mut row = heap.into_row();
    row.set_block(
        block,
        &BlockWord {
            kind: Kind::Bump,
            class: 0,
            owner: 0,
        },
    );
    Heap::from_row(row)
}

/// A heap of 8 blocks with these in use.
fn heap_with(alloc: Global, used: &[u32]) -> Result<Heap, Fail> {
    let mut heap = Heap::new(alloc, Layout::new(8)?)?;
    for block in used {
        heap = take(heap, *block);
    }
    Ok(heap)
}

/// The blocks in use, and the longest runs that fit under each reserve.
const RUNS: [(&[u32], u32, u32, u32); 7] = [
    (&[], 8, 8, 7),
    (&[2, 5], 2, 2, 2),
    (&[3], 4, 4, 4),
    (&[0, 1, 2], 5, 2, 4),
    (&[1, 3, 5, 7], 1, 0, 1),
    (&[0, 1, 2, 3, 4, 6, 7], 1, 0, 0),
    (&[0, 1, 2, 3, 4, 5, 6, 7], 0, 0, 0),
];

/// Whether objects of so many words fit or not, by runs and by the plan's test.
fn fit_as(heap: &Heap, reserve: Reserve, size: u32, fit: bool) -> bool {
    if size <= 2048 || size > 61_027 {
        return false;
    }
    has_run(heap, reserve, size) == fit && fits(heap, Kind::Bump, reserve, size) == fit
}

/// Whether runs of up to so many blocks alone fit, and objects that need them.
fn longest_is(heap: &Heap, reserve: Reserve, longest: u32) -> bool {
    for count in 1..10 {
        let fit = count <= longest;
        if !fit_as(heap, reserve, 4096 * count, fit) {
            return false;
        }
        if !fit_as(heap, reserve, 4096 * count - 2000, fit) {
            return false;
        }
    }
    true
}

#[test]
fn runs(rt: HostRuntime) -> Result<(), Fail> {
    for (used, nothing, copies, headroom) in RUNS {
        let heap = heap_with(rt.alloc(), used)?;
        let are_wanted = longest_is(&heap, Reserve::Nothing, nothing)
            && longest_is(&heap, Reserve::Copies, copies)
            && longest_is(&heap, Reserve::Headroom, headroom);
        assert!(rt; are_wanted, "{used:?}");
    }
    Ok(())
}
