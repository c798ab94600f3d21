//! Candidates of heaps of blocks that are written by hand.

ghost use Rattle.std.specs.Prelude.{◌≡◌, ◌<◌, ◌≤◌, length, IfOk};
ghost use Rattle.heap_layout.specs.Zones.{row_words, IsRowOf};

use heap_layout::{Kind, Layout};
use immix_space::candidates;
use releasable_rows::{empty_row, set_block};
use std::alloc::{AllocError, Global};
use std::test::Fail;

const ALL: u64 = u64::MAX;

/// Makes a block an Immix block with these line words.
fn set_lines(words: &mut Vec<u64>, layout: &Layout, block: u32, lines: &[u64; 4])
    requires extent { IsRowOf layout.now words.old.items }
    requires block { block < layout.now.blocks }
    ensures { length words.new.items ≡ length words.old.items }
{
    set_block(words, layout, block, Kind::Immix, 0);
    let at = layout.line_at(block) as usize;
    for index in 0..4 {
        words[at + index] = lines[index];
    }
}

/// A row whose first blocks are Immix blocks with these line words.
fn row_with(alloc: Global, layout: &Layout, blocks: &[[u64; 4]; 6]) -> Result<Vec<u64>, AllocError>
    requires { 6 ≤ layout.now.blocks }
    ensures { IfOk result (λ words. length words.items ≡ row_words layout.now.blocks) }
{
    let mut words = empty_row(alloc, layout)?;
    for block in 0..6 {
        set_lines(&mut words, layout, block, &blocks[block as usize]);
    }
    Ok(words)
}

/// The line words of blocks 0 to 5 of a heap of 8 blocks, the kind of block 5, and which of the
/// blocks are candidates. Two Free blocks are left, room for 512 lines.
type Case = ([[u64; 4]; 6], Kind, [bool; 8]);

const CASES: [Case; 2] = [
    // one hole and 192 marked lines, twice; two holes and 128; no hole; no marked line
    (
        [
            [0, ALL, ALL, ALL],
            [ALL, ALL, ALL, 0],
            [0, ALL, 0, ALL],
            [ALL, ALL, ALL, ALL],
            [0, 0, 0, 0],
            [0, 0, 0, 0],
        ],
        Kind::Kept,
        [true, true, true, false, false, false, false, false],
    ),
    // block 1 is too many and ends the list, though block 5 with one marked line has room
    (
        [
            [0, ALL, ALL, ALL],
            [ALL, ALL, ALL, 0],
            [1, ALL, 0, ALL],
            [ALL, ALL, ALL, ALL],
            [1 << 63, 0, 0, ALL << 1],
            [0, 0, 0, 1 << 63],
        ],
        Kind::Immix,
        [true, false, true, false, true, false, false, false],
    ),
];

// Blocks with the most holes come first.
#[test]
fn most_holes_first(rt: HostRuntime) -> Result<(), Fail> {
    let layout = Layout::new(8)?;
    for (blocks, last, wanted) in CASES {
        let mut words = row_with(rt.alloc(), &layout, &blocks)?;
        set_block(&mut words, &layout, 5, last, 0);
        let found = candidates(rt.alloc(), &words, &layout)?;
        assert_eq!(rt; found.as_slice(), wanted.as_slice());
    }
    Ok(())
}
