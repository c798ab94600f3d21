//! The blocks that a full collection evacuates: recyclable blocks with the most holes, as long as
//! the Free blocks have as many lines as they have marked ones (defragmentation of Immix).

ghost use Rattle.std.specs.Prelude.{◌≡◌, ◌+◌, ◌*◌, ◌<◌, ◌≤◌, ◌&&◌, ℕ, All, nat_lt, nat_le, length, map, slice_index, IfOk};
ghost use Rattle.std.specs.List.{range_with_len};
ghost use Rattle.heap_layout.specs.Zones.{row_words, IsRowOf};
ghost use Rattle.heap_layout.specs.declared.layout.TheConstants.{BLOCK_LINES, MAX_BLOCKS};
ghost use Rattle.object_model.specs.Objects.{shown};
ghost use Rattle.sessions.specs.Collecting.{is_candidate};
ghost use Rattle.sessions.specs.Fitting.{free_of};
ghost use Rattle.immix_space.specs.Candidates.{counts_at, HasFewLines, marked_with, marked_above, is_chosen};

use heap_layout::{BLOCK_LINES, CLASS_UNIT, Kind, Layout};
use line_marks::{LineCounts, line_counts};
use side_meta::Words;
use std::alloc::{AllocError, Global};

/// For each block whether it is a candidate. Recyclable blocks, which are Immix blocks with a
/// marked line and a clear one, are taken in falling order of their holes, the lower block first
/// among equals, as long as they have together no more marked lines than the Free blocks have
/// lines. Reads each block word twice, and each line word once.
///
/// Fails if memory runs out.
pub fn candidates<W: Words>(
    alloc: Global,
    words: &W,
    layout: &Layout,
) -> Result<Vec<bool>, AllocError>
    requires { length (W.words words.now) ≡ row_words layout.now.blocks }
    ensures { IfOk result (λ v. v.items
        ≡ map (is_candidate (shown (W.words words.now) layout.now))
        (range_with_len 0 layout.now.blocks)) }
{
    let counts = recyclable_counts(alloc, words, layout)?;
    let taken = lines_above(alloc, &counts)?;
    let room = BLOCK_LINES * free_blocks(words, layout);
    let chosen = choose(alloc, &counts, taken, room)?;
    Ok(chosen)
}

/// The holes and marked lines of each block that is recyclable, and zeros for each other block.
fn recyclable_counts<W: Words>(
    alloc: Global,
    words: &W,
    layout: &Layout,
) -> Result<Vec<LineCounts>, AllocError>
    requires { length (W.words words.now) ≡ row_words layout.now.blocks }
    ensures { IfOk result (λ v. v.items
        ≡ map (counts_at (shown (W.words words.now) layout.now))
        (range_with_len 0 layout.now.blocks)) }
{
    let blocks = layout.blocks();
    let mut counts = Vec::with_capacity(alloc, blocks as usize)?;
    for block in 0..blocks {
        counts.push_reserved(block_counts(words, layout, block));
    }
    Ok(counts)
}

/// The holes and marked lines of a block if it is recyclable, else zeros.
fn block_counts<W: Words>(words: &W, layout: &Layout, block: u32) -> LineCounts
    requires extent { IsRowOf layout.now (W.words words.now) }
    requires block { block < layout.now.blocks }
    ensures { result ≡ counts_at (shown (W.words words.now) layout.now) block }
{
    let none = LineCounts {
        holes: 0,
        marked: 0,
    };
    if words.get(layout.block_at(block)) % CLASS_UNIT != Kind::Immix as u64 {
        return none;
    }
    let counts = line_counts(words, layout, block);
    if counts.marked == 0 {
        return none;
    }
    if counts.marked >= BLOCK_LINES {
        return none;
    }
    counts
}

/// The number of Free blocks.
fn free_blocks<W: Words>(words: &W, layout: &Layout) -> u32
    requires { length (W.words words.now) ≡ row_words layout.now.blocks }
    ensures value { result ≡ free_of (shown (W.words words.now) layout.now) }
    ensures most { result ≤ layout.now.blocks }
{
    let mut free = 0;
    for block in 0..layout.blocks() {
        if words.get(layout.block_at(block)) % CLASS_UNIT == Kind::Free as u64 {
            free += 1;
        }
    }
    free
}

/// For each number of holes the marked lines of blocks with as many.
fn lines_with(alloc: Global, counts: &[LineCounts]) -> Result<Vec<u32>, AllocError>
    requires blocks { length counts.now ≤ MAX_BLOCKS }
    requires few { All HasFewLines counts.now }
    ensures { IfOk result (λ v. (length v.items ≡ BLOCK_LINES + 1)
        × ((n : ℕ) → n ≤ BLOCK_LINES
        → slice_index v.items n ≡ marked_with n counts.now)) }
{
    let mut lines = vec![in alloc; 0u32; 257]?;
    for i in 0..counts.len() {
        let count = counts[i];
        lines[count.holes as usize] += count.marked;
    }
    Ok(lines)
}

/// For each number of holes the marked lines of blocks with more.
fn lines_above(alloc: Global, counts: &[LineCounts]) -> Result<Vec<u32>, AllocError>
    requires blocks { length counts.now ≤ MAX_BLOCKS }
    requires few { All HasFewLines counts.now }
    ensures { IfOk result (λ v. (length v.items ≡ BLOCK_LINES + 1)
        × ((n : ℕ) → n ≤ BLOCK_LINES
        → slice_index v.items n ≡ marked_above n counts.now)) }
{
    let mut lines = lines_with(alloc, counts)?;
    let mut above = 0;
    for holes in (0..lines.len()).rev() {
        let own = lines[holes];
        lines[holes] = above;
        above += own;
    }
    Ok(lines)
}

/// Which blocks are taken: those with a marked line, in falling order of holes, as long as they
/// have together at most `room` marked lines. `taken` has for each number of holes the marked
/// lines of blocks with more.
fn choose(
    alloc: Global,
    counts: &[LineCounts],
    mut taken: Vec<u32>,
    room: u32,
) -> Result<Vec<bool>, AllocError>
    requires blocks { length counts.now ≤ MAX_BLOCKS }
    requires few { All HasFewLines counts.now }
    requires len { length taken.items ≡ BLOCK_LINES + 1 }
    requires above { (n : ℕ) → n ≤ BLOCK_LINES
        → slice_index taken.items n ≡ marked_above n counts.now }
    ensures { IfOk result (λ v. v.items
        ≡ map (is_chosen counts.now room) (range_with_len 0 (length counts.now))) }
{
    let mut chosen = Vec::with_capacity(alloc, counts.len())?;
    for i in 0..counts.len() {
        let count = counts[i];
        let lines = taken[count.holes as usize] + count.marked;
        taken[count.holes as usize] = lines;
        chosen.push_reserved(has_room(&count, lines, room));
    }
    Ok(chosen)
}

/// Whether a block has a marked line, and there is room for `lines` lines.
fn has_room(count: &LineCounts, lines: u32, room: u32) -> bool
    ensures { result ≡ (nat_lt 0 count.now.marked && nat_le lines room) }
{
    count.marked > 0 && lines <= room
}
