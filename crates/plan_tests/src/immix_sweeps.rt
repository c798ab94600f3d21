//! Sweeps of block 1 of heaps of 4 blocks, against a plain walk over its objects.

ghost use Rattle.std.specs.Prelude.{◌≡◌, ◌+◌, ◌≤◌, length, IfOk};
ghost use Rattle.heap_layout.specs.Zones.{row_words};

use heap_layout::{Kind, Layout};
use immix_space::{relist, sweep_block};
use object_model::Shape;
use releasable_rows::{Object, empty_row, is_releasable, set_block, write_object};
use std::alloc::{AllocError, Global};
use std::process::Abort;
use std::test::Fail;

/// An object without references that collection `number` claimed in place, pinned and unlogged.
fn claimed(offset: u32, nums: u32, number: u64) -> Object
    requires { offset + 3 ≤ 4096 }
{
    Object {
        offset,
        birth: offset + 1,
        shape: Shape { refs: 0, nums },
        collector: (number << 24) | (4902 + offset as u64),
        pinned: true,
        unlogged: true,
    }
}

/// Sweeps block 1 with base 2, if it is an Immix block that may be released. Answers how many
/// objects are left.
fn swept(words: &mut Vec<u64>, layout: &Layout) -> Option<u32>
    requires { length words.old.items ≡ row_words layout.now.blocks }
{
    if words[layout.block_at(1) as usize] % 256 != 4 {
        return None;
    }
    if !is_releasable(words, layout, 1) {
        return None;
    }
    Some(sweep_block(words, layout, 1, 2))
}

/// Relists block 1, if it is an Immix block that may be released. Answers whether it is one.
fn relisted(words: &mut Vec<u64>, layout: &Layout) -> bool
    requires { length words.old.items ≡ row_words layout.now.blocks }
{
    if words[layout.block_at(1) as usize] % 256 != 4 {
        return false;
    }
    if !is_releasable(words, layout, 1) {
        return false;
    }
    relist(words, layout, 1);
    true
}

/// Whether one of the objects that were claimed by collection `base` or later has a word in the
/// line.
fn is_touched(objects: &[Object], base: u64, line: u32) -> bool {
    for object in objects {
        let end = object.offset as u64 + 3 + object.shape.nums as u64;
        let lives = object.collector >> 24 >= base;
        if lives && object.offset / 16 <= line && 16 * (line as u64) < end {
            return true;
        }
    }
    false
}

/// Sets a word of the row, if there is such a word.
fn put(words: &mut Vec<u64>, index: usize, value: u64)
    ensures { length words.new.items ≡ length words.old.items }
{
    if let Some(word) = words.get_mut(index) {
        *word = value;
    }
}

/// A row whose block 1 is an Immix block with these objects, and with line bits that are wrong.
fn row_with(alloc: Global, layout: &Layout, objects: &[Object]) -> Result<Vec<u64>, AllocError>
    requires { 2 ≤ layout.now.blocks }
    ensures { IfOk result (λ words. length words.items ≡ row_words layout.now.blocks) }
{
    let mut words = empty_row(alloc, layout)?;
    set_block(&mut words, layout, 1, Kind::Immix, 0);
    for object in objects {
        write_object(&mut words, layout, 1, object);
    }
    put(&mut words, 26, 0x1234_5678_9abc_def0);
    put(&mut words, 29, u64::MAX);
    put(&mut words, 30, 1);
    Ok(words)
}

/// Exactly the lines of objects that were claimed by collection `base` or later are marked.
fn check_lines(rt: &impl Abort, words: &[u64], objects: &[Object], base: u64) {
    for line in 0..256 {
        let word = words.get(26 + line / 64).copied().unwrap_or(0);
        let marked = word >> (line % 64) & 1 == 1;
        assert_eq!(rt;
            marked,
            is_touched(objects, base, line as u32),
            "line {line}"
        );
    }
    // the next block keeps its bits
    assert_eq!(rt; words.get(30).copied(), Some(1));
}

/// How many of the objects were claimed by collection `base` or later.
fn plain_count(objects: &[Object], base: u64) -> u32 {
    let mut count: u32 = 0;
    for object in objects {
        if object.collector >> 24 >= base {
            count = count.wrapping_add(1);
        }
    }
    count
}

/// A block with these objects and this word is relisted, and another is swept: so many objects are
/// left, and exactly their lines are marked. A sweep gives the block back, and `relist` does not.
fn check(rt: &impl Abort, alloc: Global, objects: &[Object], word: u64) -> Result<(), Fail> {
    let layout = Layout::new(4)?;
    let mut listed = row_with(alloc, &layout, objects)?;
    put(&mut listed, 19, word);
    let mut words = listed.as_slice().to_vec(alloc)?;
    let is_listed = relisted(&mut listed, &layout);
    check_lines(rt, &listed, objects, 0);
    let left = swept(&mut words, &layout);
    check_lines(rt, &words, objects, 2);
    let want = plain_count(objects, 2);
    let kind = if want == 0 { 0 } else { 4 };
    let seen = (is_listed, listed.get(19).copied(), words.get(19).copied());
    assert_eq!(rt; (left, seen), (Some(want), (true, Some(word), Some(kind))));
    Ok(())
}

/// The offset, numbers and collection of an object.
type Claimed = (u32, u32, u64);

/// An object begins in each line of the words from offsets 2112, 2240 and 2304 on. The last of the
/// first reaches two lines further, that of the second ends with its word.
const LINES: &[Claimed] = &[
    (0, 2, 1),
    (30, 2045, 0),
    (2112, 13, 1),
    (2128, 13, 0),
    (2144, 1, 1),
    (2165, 40, 2),
    (2240, 13, 1),
    (2256, 13, 1),
    (2272, 13, 1),
    (2288, 13, 1),
    (2304, 20, 1),
    (2335, 0, 1),
    (2338, 5, 1),
    (2367, 1700, 1),
    (4080, 13, 2),
];

/// Neighbours in one line, and over a line's and a word's edge.
const CLOSE: &[Claimed] = &[(0, 2, 1), (5, 2, 3), (10, 2, 0), (15, 2, 2)];

const EDGES: &[Claimed] = &[(1020, 3, 2), (1026, 2040, 1), (4080, 13, 7)];

const FULL: &[Claimed] = &[(47, 2045, 2), (2095, 1998, 2)];

/// Objects of a block, and its owner or 0.
const BLOCKS: [(&[Claimed], u64); 6] = [
    (&[], 0),
    (&[(0, 13, 1)], 32),
    (CLOSE, 0),
    (EDGES, 1),
    (FULL, 17),
    (LINES, 0),
];

#[test]
fn worked_blocks(rt: HostRuntime) -> Result<(), Fail> {
    for (rows, owner) in BLOCKS {
        let mut objects = Vec::new(rt.alloc());
        for (offset, nums, number) in rows {
            assert!(rt; *offset <= 4093);
            objects.push(claimed(*offset, *nums, *number))?;
        }
        check(&rt, rt.alloc(), &objects, 4 + owner % 33 * 65_536)?;
    }
    Ok(())
}
