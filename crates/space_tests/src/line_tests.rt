//! Holes, counts and marks of block 1 of rows of 4 blocks, against a plain walk over its lines.

ghost use Rattle.std.specs.Prelude.{◌≡◌, ◌≤◌, length, IfOk};
ghost use Rattle.heap_layout.specs.Zones.{row_words, IsRowOf};

use heap_layout::Layout;
use line_marks::{Hole, count_holes, mark, marked_lines, next_hole};
use releasable_rows::empty_row;
use std::alloc::{AllocError, Global};
use std::test::Fail;

/// The row of an empty heap with these line words of block 1.
fn row_with(alloc: Global, layout: &Layout, lines: &[u64; 4]) -> Result<Vec<u64>, AllocError>
    requires { length lines.now ≡ 4 }
    ensures { IfOk result (λ words. length words.items ≡ row_words layout.now.blocks) }
{
    let mut words = empty_row(alloc, layout)?;
    let at = layout.line_at(1) as usize;
    words[at] = lines[0];
    words[at + 1] = lines[1];
    words[at + 2] = lines[2];
    words[at + 3] = lines[3];
    Ok(words)
}

/// Whether the line is one of the block's, and marked.
fn is_marked(lines: &[u64; 4], line: u32) -> bool
    requires { length lines.now ≡ 4 }
{
    if line >= 256 {
        return false;
    }
    lines[(line / 64) as usize] >> (line % 64) & 1 == 1
}

/// How many lines are marked, and how many holes there are.
fn plain_counts(lines: &[u64; 4]) -> (u32, u32)
    requires { length lines.now ≡ 4 }
{
    let mut marked: u32 = 0;
    let mut holes: u32 = 0;
    let mut before = true;
    for line in 0..256 {
        let now = is_marked(lines, line);
        if now {
            marked = marked.wrapping_add(1);
        } else if before {
            holes = holes.wrapping_add(1);
        }
        before = now;
    }
    (marked, holes)
}

/// The first run of at least `needed` clear lines from line `from` on.
fn plain_hole(lines: &[u64; 4], from: u32, needed: u32) -> Option<Hole>
    requires { length lines.now ≡ 4 }
{
    let mut start = from;
    for line in from..257 {
        if line == 256 || is_marked(lines, line) {
            let len = line.saturating_sub(start);
            if len >= needed {
                return Some(Hole {
                    start: 4902u32.wrapping_add(start.wrapping_mul(16)),
                    lines: len,
                });
            }
            start = line.saturating_add(1);
        }
    }
    None
}

/// The marked lines, the holes, and the first hole of a block with these line words.
fn found(
    alloc: Global,
    layout: &Layout,
    lines: &[u64; 4],
    from: u32,
    needed: u32,
) -> Result<(u32, u32, Option<Hole>), AllocError>
    requires lines { length lines.now ≡ 4 }
    requires some { 1 ≤ needed }
{
    let words = row_with(alloc, layout, lines)?;
    Ok((
        marked_lines(&words, layout, 1),
        count_holes(&words, layout, 1),
        next_hole(&words, layout, 1, from, needed),
    ))
}

/// The same, by a plain walk over the lines.
fn plain(lines: &[u64; 4], from: u32, needed: u32) -> (u32, u32, Option<Hole>)
    requires { length lines.now ≡ 4 }
{
    let (marked, holes) = plain_counts(lines);
    (marked, holes, plain_hole(lines, from, needed))
}

/// The next number of a xorshift sequence.
fn next_random(last: u64) -> u64 {
    let first = last ^ last << 13;
    let second = first ^ first >> 7;
    second ^ second << 17
}

/// A word with few bits set, with many, or with a run.
fn shaped(turn: u32, random: u64) -> u64 {
    let more = next_random(random);
    match turn % 4 {
        0 => random & more & more >> 11,
        1 => random | more | more >> 11,
        2 => u64::MAX << (random % 64),
        _ => u64::MAX >> (random % 64),
    }
}

/// Word `word` of line words in which the line alone is marked.
fn marked_word(line: u32, word: u32) -> u64 {
    if line / 64 == word {
        1 << (line % 64)
    } else {
        0
    }
}

/// Line words in which the line alone is marked, or is clear.
fn one_line(line: u32, marked: bool) -> [u64; 4]
    ensures { length result ≡ 4 }
{
    let others = if marked { 0 } else { u64::MAX };
    [
        marked_word(line, 0) ^ others,
        marked_word(line, 1) ^ others,
        marked_word(line, 2) ^ others,
        marked_word(line, 3) ^ others,
    ]
}

// One marked line at each place, so beside each word's edge, and one clear line. Last come a block
// with marks alone and one without.
#[test]
fn each_line(rt: HostRuntime) -> Result<(), Fail> {
    let layout = Layout::new(4)?;
    for turn in 0..771 {
        let line = turn / 3;
        let lines = one_line(line, turn % 3 != 0);
        let from = if turn % 3 == 1 { line } else { 0 };
        let needed = if turn % 3 == 2 { 1 + line / 2 } else { 1 };
        let wanted = plain(&lines, from, needed);
        let found = found(rt.alloc(), &layout, &lines, from, needed)?;
        assert!(rt; found == wanted, "turn {turn}");
    }
    Ok(())
}

#[test]
fn random_blocks(rt: HostRuntime) -> Result<(), Fail> {
    let layout = Layout::new(4)?;
    let mut random = 88_172_645_463_325_252;
    for turn in 0..2000 {
        let first = next_random(random);
        let second = next_random(first);
        let third = next_random(second);
        random = next_random(third);
        let lines = [
            shaped(turn, first),
            shaped(turn, second),
            shaped(turn / 4, third),
            shaped(turn, random),
        ];
        let wanted = plain(&lines, turn % 257, 1 + turn % 80);
        let found = found(rt.alloc(), &layout, &lines, turn % 257, 1 + turn % 80)?;
        assert!(rt; found == wanted, "turn {turn}");
    }
    Ok(())
}

/// Marks an object at an offset from the first word of a heap of 4 blocks. Does nothing if it does
/// not lie in the heap.
fn mark_at(words: &mut Vec<u64>, layout: &Layout, offset: u32, size: u32)
    requires blocks { layout.now.blocks ≡ 4 }
    requires extent { IsRowOf layout.now words.old.items }
    ensures { length words.new.items ≡ length words.old.items }
{
    if size == 0 || size > 16384 || offset > 16384 - size {
        return;
    }
    mark(words, layout, layout.heap_base() + offset, size);
}

const ALL: u64 = u64::MAX;

const EDGE: u64 = 13 + (1 << 63);

/// The offset and size of an object, and line words from that before block 1 on, after it and those
/// before it are marked.
const MARKS: [(u32, u32, [u64; 6]); 6] = [
    (4096, 16, [0, 1, 0, 0, 0, 0]),
    (4143, 17, [0, 0b1101, 0, 0, 0, 0]),
    (5119, 2, [0, EDGE, 1, 0, 0, 0]),
    (8176, 16, [0, EDGE, 1, 0, 1 << 63, 0]),
    (5119, 2018, [0, EDGE, ALL, ALL >> 1, 1 << 63, 0]),
    (4096, 4096, [0, ALL, ALL, ALL, ALL, 0]),
];

// Marks of an object of one line, of others over a line's and a word's edge, and of a whole block,
// one after another in block 1. The blocks beside it keep their bits.
#[test]
fn marks(rt: HostRuntime) -> Result<(), Fail> {
    let layout = Layout::new(4)?;
    let mut words = empty_row(rt.alloc(), &layout)?;
    for (offset, size, wanted) in MARKS {
        mark_at(&mut words, &layout, offset, size);
        assert!(rt;
            words.get(25..31) == Some(wanted.as_slice()),
            "{size} from {offset}"
        );
    }
    Ok(())
}

/// Which lines of a heap of 4 blocks have a word of an object, by its words.
fn plain_lines(alloc: Global, offset: u32, size: u32) -> Result<Vec<bool>, AllocError> {
    let mut lines = vec![in alloc; false; 1024]?;
    for word in offset..offset.saturating_add(size) {
        if let Some(line) = lines.get_mut((word / 16) as usize) {
            *line = true;
        }
    }
    Ok(lines)
}

/// The first line of an empty heap of 4 blocks that is marked, or not, otherwise than the words of
/// an object say, after the object was marked. Line 1024 stands for the words beside the line
/// words.
fn wrong_line(
    alloc: Global,
    layout: &Layout,
    offset: u32,
    size: u32,
) -> Result<Option<usize>, AllocError>
    requires { layout.now.blocks ≡ 4 }
{
    let mut words = empty_row(alloc, layout)?;
    mark_at(&mut words, layout, offset, size);
    let plain = plain_lines(alloc, offset, size)?;
    for line in 0..1024 {
        let word = words.get(22 + line / 64).copied().unwrap_or(0);
        let marked = word >> (line % 64) & 1 == 1;
        if Some(marked) != plain.get(line).copied() {
            return Ok(Some(line));
        }
    }
    let beside = (words.get(21).copied(), words.get(38).copied());
    Ok(if beside == (Some(0), Some(0)) {
        None
    } else {
        Some(1024)
    })
}

const EDGES: &[(u32, u32)] = &[
    (4095, 2),
    (4080, 16),
    (4000, 5000),
    (4096, 8192),
    (0, 16384),
    (16383, 1),
];

// Objects at the edges of blocks, of whole blocks, and 200 others of up to 4 blocks.
#[test]
fn marks_over_blocks(rt: HostRuntime) -> Result<(), Fail> {
    let layout = Layout::new(4)?;
    let mut random = 88_172_645_463_325_252;
    for turn in 0..206 {
        random = next_random(random);
        let offset = (random % 16384) as u32;
        let most = 1 + (random >> 32) as u32 % 16384;
        let other = (offset, most.min(16384 - offset));
        let (offset, size) = EDGES.get(turn).copied().unwrap_or(other);
        let wrong = wrong_line(rt.alloc(), &layout, offset, size)?;
        assert!(rt; wrong.is_none(), "{size} words from {offset}");
    }
    Ok(())
}
