//! Tests of the search for runs, of placing and of sweeps, on rows of 8 blocks.

ghost use Rattle.std.specs.Prelude.{◌≡◌, ◌%◌, ◌<◌, IsTrue, length};
ghost use Rattle.heap_layout.specs.Zones.{IsRowOf};
ghost use Rattle.heap_layout.specs.declared.block.Kind.TheVariants as kinds;
ghost use Rattle.object_model.specs.Objects.{HasKind, shown};

use crate::rows::{first_wrong, put};
use heap_layout::{BLOCK_WORDS, CLASS_UNIT, Kind, Layout};
use large_space::{blocks_for, find_run, place_large, sweep_large};
use releasable_rows::is_releasable;
use std::alloc::{AllocError, Global};
use std::test::Fail;

const SIZES: [(u32, u32); 8] = [
    (0, 0),
    (2049, 1),
    (4096, 1),
    (4097, 2),
    (57_344, 14),
    (57_345, 15),
    (61_027, 15),
    (u32::MAX, 1_048_576),
];

#[test]
fn blocks_of_sizes(rt: HostRuntime) {
    for (size, want) in SIZES {
        assert!(rt; blocks_for(size) == want, "{size}");
    }
}

/// A row of zeros, but for those of the first eight blocks whose bits are set: they are of the kind
/// Bump.
fn row_of_used(alloc: Global, layout: &Layout, used: u64) -> Result<Vec<u64>, AllocError> {
    let count = layout.words() as usize;
    let mut words = Vec::with_capacity(alloc, count)?;
    words.resize(count, 0)?;
    for block in 0..8 {
        if used >> block & 1 == 1 {
            put(&mut words, block + 18, Kind::Bump as u64);
        }
    }
    Ok(words)
}

/// The lowest run, or a block outside if this is no row of the layout, or no run is so long.
fn lowest_run(words: &Vec<u64>, layout: &Layout, count: u32) -> Option<u32> {
    if words.len() != layout.words() as usize || count == 0 || count > 15 {
        return Some(layout.blocks());
    }
    find_run(words, layout, count)
}

/// The blocks that are used, as bits, the length of a run, and where the lowest one begins.
const RUNS: [(u64, u32, Option<u32>); 16] = [
    (0, 1, Some(0)),
    (0, 8, Some(0)),
    (0, 9, None),
    (0b1, 7, Some(1)),
    (0b1, 8, None),
    (0b1000, 3, Some(0)),
    (0b1000, 4, Some(4)),
    (0b1000, 5, None),
    (0b10_0100, 2, Some(0)),
    (0b100_1010, 2, Some(4)),
    (0b10_1010, 2, Some(6)),
    (0b10_1010, 3, None),
    (0b111_1111, 1, Some(7)),
    (0b1000_0000, 7, Some(0)),
    (0b1000_0000, 8, None),
    (0b1111_1111, 1, None),
];

#[test]
fn runs(rt: HostRuntime) -> Result<(), Fail> {
    let layout = Layout::new(8)?;
    for (used, count, want) in RUNS {
        let words = row_of_used(rt.alloc(), &layout, used)?;
        assert!(rt;
            lowest_run(&words, &layout, count) == want,
            "{count} beside {used}"
        );
    }
    Ok(())
}

/// Places a run of `count` blocks at the lowest place, and answers where.
fn place_lowest(words: &mut Vec<u64>, layout: &Layout, count: u32) -> Option<u32> {
    if words.len() != layout.words() as usize || count == 0 || count > 15 {
        return None;
    }
    let block = find_run(words, layout, count)?;
    place_large(words, layout, block, count);
    Some(block)
}

/// Whether runs of these lengths are placed at these blocks, one after another.
fn are_placed(words: &mut Vec<u64>, layout: &Layout, runs: &[(u32, Option<u32>)]) -> bool {
    for (count, block) in runs {
        if place_lowest(words, layout, *count) != *block {
            return false;
        }
    }
    true
}

const PLACED: &[(u32, Option<u32>)] = &[(4, Some(3)), (2, Some(0)), (2, None), (1, Some(7))];

// Kinds and classes of the blocks: heads of 2, 4 and 1 blocks.
const HEADS: &[u64] = &[518, 7, 1, 1030, 7, 7, 7, 262, 0];

#[test]
fn placed_runs(rt: HostRuntime) -> Result<(), Fail> {
    let layout = Layout::new(8)?;
    let mut words = row_of_used(rt.alloc(), &layout, 0b100)?;
    let are = are_placed(&mut words, &layout, PLACED);
    assert!(rt; are && words.get(18..27) == Some(HEADS));
    Ok(())
}

/// Writes an object with `nums` numbers at the start of a block, which collection `number` claimed.
/// Its start, pin and unlog bits are set.
fn write_object(words: &mut Vec<u64>, layout: &Layout, block: u32, nums: u32, number: u32) {
    let address = (layout.heap_base() + BLOCK_WORDS * (block % 8)) as usize;
    put(words, address, 33);
    put(words, address + 1, 65_536 * nums as u64);
    put(words, address + 2, ((number as u64) << 24) + address as u64);
    for zone in [layout.start_base(), layout.pin_base(), layout.unlog_base()] {
        put(words, (zone + 64 * (block % 8)) as usize, 1);
    }
}

/// Whether a block begins a run.
fn is_head(words: &Vec<u64>, layout: &Layout, block: u32) -> bool
    requires extent { IsRowOf layout.now words.now.items }
    requires block { block < layout.now.blocks }
    ensures { IsTrue result → HasKind (shown words.now.items layout.now) block
        kinds.LargeHead }
{
    words[layout.block_at(block) as usize] % CLASS_UNIT == Kind::LargeHead as u64
}

/// Whether a run was freed. `None` if it may not be swept.
fn sweep(words: &mut Vec<u64>, layout: &Layout, block: u32, base: u64) -> Option<bool> {
    if words.len() != layout.words() as usize || block >= layout.blocks() {
        return None;
    }
    if !is_head(words, layout, block) || !is_releasable(words, layout, block) {
        return None;
    }
    Some(sweep_large(words, layout, block, base))
}

/// Whether sweeps of these blocks since this collection answer so, one after another.
fn are_swept(words: &mut Vec<u64>, layout: &Layout, sweeps: &[(u32, u64, Option<bool>)]) -> bool {
    for (block, base, freed) in sweeps {
        if sweep(words, layout, *block, *base) != *freed {
            return false;
        }
    }
    true
}

const TWO_SWEEPS: &[(u32, u64, Option<bool>)] = &[
    (0, 2, None),
    (1, 2, Some(true)),
    (3, 2, Some(false)),
];

// Block words, and the object's start, pin and unlog bits of both runs.
const FIRST_FREED: &[(usize, u64)] = &[
    (18, 1),
    (19, 0),
    (20, 0),
    (21, 518),
    (22, 7),
    (23, 0),
    (122, 0),
    (634, 0),
    (1146, 0),
    (250, 1),
    (762, 1),
    (1274, 1),
];

// Of two runs of two blocks, collection 2 claimed the object of the second.
#[test]
fn swept_runs(rt: HostRuntime) -> Result<(), Fail> {
    let layout = Layout::new(8)?;
    let mut words = row_of_used(rt.alloc(), &layout, 1)?;
    for number in [1, 2] {
        let block = place_lowest(&mut words, &layout, 2).unwrap_or(0);
        write_object(&mut words, &layout, block, 5000, number);
    }
    let are = are_swept(&mut words, &layout, TWO_SWEEPS);
    let wrong = first_wrong(&words, FIRST_FREED);
    let again = place_lowest(&mut words, &layout, 2);
    assert!(rt; are && wrong.is_none() && again == Some(1));
    Ok(())
}
