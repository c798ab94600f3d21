//! Tests of classes, of the search for a cell and of sweeps, on rows of 4 blocks. Block 1 has
//! cells.

ghost use Rattle.std.specs.Prelude.{◌≡◌, ◌%◌, ◌/◌, ◌<◌, IsTrue, length};
ghost use Rattle.heap_layout.specs.Zones.{IsRowOf};
ghost use Rattle.heap_layout.specs.declared.block.Kind.TheVariants as kinds;
ghost use Rattle.object_model.specs.Objects.{HasKind, class_at, shown};

use crate::rows::put;
use cell_space::{cell_size, class_of, next_cell, sweep_block};
use heap_layout::{BLOCK_WORDS, CLASS_UNIT, Kind, Layout};
use releasable_rows::is_releasable;
use std::alloc::{AllocError, Global};
use std::test::Fail;

/// Whether all sizes from `least` to `most` are of the class, and its cells have `most` words.
fn are_of_class(least: u32, most: u32, class: u32) -> bool {
    let cells = class_of(most).map(|class| cell_size(class));
    cells == Some(most) && (least..=most).all(|size| class_of(size) == Some(class))
}

/// Each class, with the least and the largest size of its objects, which is that of its cells.
const CLASSES: [(u32, u32, u32); 19] = [
    (0, 0, 4),
    (1, 5, 6),
    (2, 7, 8),
    (3, 9, 12),
    (4, 13, 16),
    (5, 17, 24),
    (6, 25, 32),
    (7, 33, 48),
    (8, 49, 64),
    (9, 65, 96),
    (10, 97, 128),
    (11, 129, 192),
    (12, 193, 256),
    (13, 257, 384),
    (14, 385, 512),
    (15, 513, 768),
    (16, 769, 1024),
    (17, 1025, 1536),
    (18, 1537, 2048),
];

#[test]
fn classes_of_sizes(rt: HostRuntime) {
    for (class, least, most) in CLASSES {
        assert!(rt; are_of_class(least, most, class), "{class}");
    }
    assert!(rt; class_of(2049).is_none() && class_of(u32::MAX).is_none());
}

/// A row of zeros, but for the word of block 1: it has cells of this class.
fn row_of_cells(alloc: Global, layout: &Layout, class: u32) -> Result<Vec<u64>, AllocError> {
    let count = layout.words() as usize;
    let mut words = Vec::with_capacity(alloc, count)?;
    words.resize(count, 0)?;
    put(
        &mut words,
        19,
        Kind::Cells as u64 + CLASS_UNIT * class as u64,
    );
    Ok(words)
}

/// Turns a bit of block 1 round, among those that begin at word `zone` of the row.
fn turn(words: &mut Vec<u64>, zone: u32, offset: u32) {
    if let Some(word) = words.get_mut(zone as usize + 64 + offset as usize / 64) {
        *word ^= 1 << (offset % 64);
    }
}

/// Whether block 1 has cells of this class.
fn has_cells(words: &Vec<u64>, layout: &Layout, class: u32) -> bool
    requires extent { IsRowOf layout.now words.now.items }
    ensures kind { IsTrue result → HasKind (shown words.now.items layout.now) 1
        kinds.Cells }
    ensures class { IsTrue result → class_at (shown words.now.items layout.now) 1
        ≡ class }
{
    let word = words[layout.block_at(1) as usize];
    if word % CLASS_UNIT != Kind::Cells as u64 {
        return false;
    }
    word / CLASS_UNIT % 256 == class as u64
}

/// The next cell of block 1, or an offset outside if this is no row with such a block.
fn next_from(words: &Vec<u64>, layout: &Layout, class: u32, from: u32) -> Option<u32> {
    if words.len() != layout.words() as usize || class > 18 {
        return Some(BLOCK_WORDS);
    }
    if !has_cells(words, layout, class) {
        return Some(BLOCK_WORDS);
    }
    next_cell(words, layout, 1, class, from)
}

/// Takes all cells of block 1.
fn take_all(words: &mut Vec<u64>, layout: &Layout, size: u32) {
    for offset in (0..=BLOCK_WORDS - size.clamp(4, 2048)).step_by(size.clamp(4, 2048) as usize) {
        turn(words, layout.start_base(), offset);
    }
}

/// What is found in a block that is full but for the cell at this offset: from the start, from the
/// cell, and after its first word.
fn found(
    alloc: Global,
    layout: &Layout,
    class: u32,
    size: u32,
    offset: u32,
) -> Result<[Option<u32>; 3], AllocError> {
    let mut words = row_of_cells(alloc, layout, class)?;
    take_all(&mut words, layout, size);
    turn(&mut words, layout.start_base(), offset);
    Ok([
        next_from(&words, layout, class, 0),
        next_from(&words, layout, class, offset),
        next_from(&words, layout, class, offset.saturating_add(1)),
    ])
}

// Each class, with the first cell free, one between and the last. Some sizes divide a block, and
// some don't.
#[test]
fn one_free_cell(rt: HostRuntime) -> Result<(), Fail> {
    let layout = Layout::new(4)?;
    for (class, _, size) in CLASSES {
        let cells = BLOCK_WORDS.checked_div(size).unwrap_or(0);
        for cell in [0, cells / 2, cells.saturating_sub(1)] {
            let offset = cell.saturating_mul(size);
            let found = found(rt.alloc(), &layout, class, size, offset)?;
            assert!(rt;
                found == [Some(offset), Some(offset), None],
                "{offset} of {class}"
            );
        }
    }
    Ok(())
}

/// Writes an object of 5 words at an offset of block 1, which collection `number` claimed. Its
/// start, pin and unlog bits are set.
fn write_object(words: &mut Vec<u64>, layout: &Layout, offset: u32, number: u32) {
    let address = (layout.heap_base() + BLOCK_WORDS + offset.min(BLOCK_WORDS - 8)) as usize;
    put(words, address, 33 + 32 * offset as u64);
    put(words, address + 1, 65_536 * 2);
    put(words, address + 2, ((number as u64) << 24) + address as u64);
    for zone in [layout.start_base(), layout.pin_base(), layout.unlog_base()] {
        turn(words, zone, offset);
    }
}

/// The sweep of block 1, if it may be swept.
fn sweep(words: &mut Vec<u64>, layout: &Layout, base: u64) -> Option<u32> {
    if words.len() != layout.words() as usize || !is_releasable(words, layout, 1) {
        return None;
    }
    Some(sweep_block(words, layout, 1, base))
}

/// The first of 64 words from `from` on that is not as in the list, or not 0 where it is not in it.
fn first_wrong(words: &[u64], from: usize, wanted: &[(usize, u64)]) -> Option<usize> {
    for index in 0..64 {
        let mut want = 0;
        for (at, value) in wanted {
            if *at == index {
                want = *value;
            }
        }
        if words.get(from.saturating_add(index)) != Some(&want) {
            return Some(index);
        }
    }
    None
}

/// Offsets of objects, with the collections that claimed them.
type Objects = &'static [(u32, u32)];

const FIVE: Objects = &[(0, 1), (6, 2), (60, 2), (66, 1), (4080, 2)];

const TWO: Objects = &[(8, 1), (4088, 0)];

/// Words among the 64 bit words of a block, by their indexes.
type Bits = &'static [(usize, u64)];

const THREE_LIVE: Bits = &[(0, (1 << 60) + (1 << 6)), (63, 1 << 48)];

const NONE_LIVES: Bits = &[];

// Of objects in cells of this class those that collection 2 claimed live: how many, the block word,
// and the bits. A block in which nothing lives becomes Free.
const SWEEPS: [(u32, Objects, u32, u64, Bits); 2] = [
    (1, FIVE, 3, 261, THREE_LIVE),
    (2, TWO, 0, 0, NONE_LIVES),
];

/// Whether blocks 0, 2 and 3 are Free and block 1 has this word, and its start, pin and unlog bits
/// are these.
fn is_swept(words: &[u64], word: u64, bits: &[(usize, u64)]) -> bool {
    words.get(18..22) == Some([0, word, 0, 0].as_slice())
        && first_wrong(words, 102, bits).is_none()
        && first_wrong(words, 358, bits).is_none()
        && first_wrong(words, 614, bits).is_none()
}

#[test]
fn swept_blocks(rt: HostRuntime) -> Result<(), Fail> {
    let layout = Layout::new(4)?;
    for (class, objects, count, word, bits) in SWEEPS {
        let mut words = row_of_cells(rt.alloc(), &layout, class)?;
        for (offset, number) in objects {
            write_object(&mut words, &layout, *offset, *number);
        }
        let swept = sweep(&mut words, &layout, 2);
        let is_wanted = is_swept(&words, word, bits);
        assert!(rt; swept == Some(count) && is_wanted, "of class {class}");
    }
    Ok(())
}
