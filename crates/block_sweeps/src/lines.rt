//! Line bits of a block, by the objects in it.

ghost use Rattle.std.specs.Prelude.{◌≡◌, true, false, ◌↔◌, ◌+◌, ◌-◌, ◌*◌, ◌<◌, ◌≤◌, ℕ, IsTrue, length, slice_index};
ghost use Rattle.line_bits.specs.LineMarks.{IsFromTo};
ghost use Rattle.std.specs.Int.{bit_at};
ghost use Rattle.heap_layout.specs.Zones.{first, block_start, LineWords, IsRowOf};
ghost use Rattle.heap_layout.specs.declared.block.Kind.TheVariants as kinds;
ghost use Rattle.object_model.specs.Objects.{HeapState, HasKind, is_start, shown};
ghost use Rattle.object_model.specs.Lawful.{IsReadableBlock};
ghost use Rattle.block_sweeps.specs.Stores.{Fills};
ghost use Rattle.block_sweeps.specs.Touches.{AddsEnds, AddsLines, AreBegun, AreBegunFrom, AreBitsOf, AreStarts, BeginsIn, MarksFrom, TouchesAt, has_line};
ghost use Rattle.block_sweeps.specs.Sweeping.{AreApart, MarksTouched, IsTouchedHere};

use crate::clearing::store;
use crate::objects::object_size;
use heap_layout::{
    BLOCK_BIT_WORDS, BLOCK_LINE_BIT_WORDS, BLOCK_LINES, BLOCK_WORDS, LINE_WORDS, Layout,
};
use line_bits::run_mask;
use side_meta::{BITS_PER_WORD, Words};

/// Makes the line bits of an Immix block those of the lines that objects in it touch. Reads the
/// start bits, and the shape word of an object only if it is the last that begins in its line and
/// none begins in the next one of the same 64 lines. Writes only words that change.
pub fn mark_touched_lines<W: Words>(words: &mut W, layout: &Layout, block: u32)
    requires block { IsReadableBlock (shown (W.words words.old) layout.now) block }
    requires apart { AreApart (shown (W.words words.old) layout.now) block }
    requires kind { HasKind (shown (W.words words.old) layout.now) block kinds.Immix }
    ensures { MarksTouched (shown (W.words words.old) layout.now)
        (shown (W.words words.new) layout.now) block }
{
    let lines = touched_lines(words, layout, block);
    store_lines(words, layout, block, &lines);
}

/// Stores the line words of a block.
fn store_lines<W: Words>(words: &mut W, layout: &Layout, block: u32, lines: &[u64; 4])
    requires extent { IsRowOf layout.now (W.words words.old) }
    requires block { block < layout.now.blocks }
    requires len { length lines.now ≡ 4 }
    ensures { Fills (W.words words.old) (W.words words.new)
        (first layout.now.blocks LineWords + BLOCK_LINE_BIT_WORDS * block)
        (first layout.now.blocks LineWords + BLOCK_LINE_BIT_WORDS * block + BLOCK_LINE_BIT_WORDS)
        (λ i. slice_index lines.now
        (i - (first layout.now.blocks LineWords + BLOCK_LINE_BIT_WORDS * block))) }
{
    let at = layout.line_at(block);
    for index in 0..4 {
        store(words, at + index, lines[index as usize]);
    }
}

/// The line bits of the lines that objects in the block touch: those in which objects begin, and
/// those that the last object of a line reaches. Any other object ends before one in its line.
fn touched_lines<W: Words>(words: &W, layout: &Layout, block: u32) -> [u64; 4]
    requires block { IsReadableBlock (shown (W.words words.now) layout.now) block }
    requires apart { AreApart (shown (W.words words.now) layout.now) block }
    requires kind { HasKind (shown (W.words words.now) layout.now) block kinds.Immix }
    ensures len { length result ≡ 4 }
    ensures lines { (line : ℕ) → line < BLOCK_LINES → IsTrue (has_line result line)
        ↔ IsTouchedHere (shown (W.words words.now) layout.now) block line }
{
    let begun = begun_lines(words, layout, block);
    let mut lines = begun;
    for word in 0..4 {
        add_ends(words, layout, block, word, begun[word as usize], &mut lines);
    }
    lines
}

/// The line bits of the lines in which objects begin.
fn begun_lines<W: Words>(words: &W, layout: &Layout, block: u32) -> [u64; 4]
    requires extent { IsRowOf layout.now (W.words words.now) }
    requires block { block < layout.now.blocks }
    ensures len { length result ≡ 4 }
    ensures lines { (word : ℕ) → word < 4
        → AreBegun (shown (W.words words.now) layout.now) block word
        (slice_index result word) }
{
    [
        begun_in(words, layout, block, 0),
        begun_in(words, layout, block, 1),
        begun_in(words, layout, block, 2),
        begun_in(words, layout, block, 3),
    ]
}

/// The bits of the 64 lines from `64 * word` on in which objects begin.
fn begun_in<W: Words>(words: &W, layout: &Layout, block: u32, word: u32) -> u64
    requires extent { IsRowOf layout.now (W.words words.now) }
    requires block { block < layout.now.blocks }
    requires word { word < 4 }
    ensures { AreBegun (shown (W.words words.now) layout.now) block word result }
{
    let mut begun = 0;
    for index in 0..16 {
        let starts = start_word(words, layout, block, 16 * word + index);
        begun |= begun_of(starts) << (4 * index);
    }
    begun
}

/// The bits of the four lines with these start bits in which objects begin.
#[inline(always)]
fn begun_of(starts: u64) -> u64
    ensures { (s : HeapState) (k index : ℕ) → AreStarts s k index starts
        → AreBegunFrom s k (4 * index) 4 result }
{
    let mut begun = 0;
    for line in 0..4 {
        begun |= begun_bit(starts, line) << line;
    }
    begun
}

/// 1 if an object begins in one of the four lines with these start bits, else 0. It takes no
/// branch, since nothing would foretell it.
#[inline(always)]
fn begun_bit(starts: u64, line: u32) -> u64
    requires { line < 4 }
    ensures { (s : HeapState) (k index : ℕ) → AreStarts s k index starts
        → AreBegunFrom s k (4 * index + line) 1 result }
{
    (line_bits(starts, line) != 0) as u64
}

/// For each of 64 lines in which objects begin, as the bits of `begun` say, adds the lines that
/// the last of them touches. It is not read if one begins in the next line, since it ends there.
fn add_ends<W: Words>(
    words: &W,
    layout: &Layout,
    block: u32,
    word: u32,
    begun: u64,
    lines: &mut [u64; 4],
)
    requires block { IsReadableBlock (shown (W.words words.now) layout.now) block }
    requires apart { AreApart (shown (W.words words.now) layout.now) block }
    requires kind { HasKind (shown (W.words words.now) layout.now) block kinds.Immix }
    requires word { word < 4 }
    requires begun { AreBegun (shown (W.words words.now) layout.now) block word begun }
    requires len { length lines.old ≡ 4 }
    ensures { AddsEnds (shown (W.words words.now) layout.now) block
        (BITS_PER_WORD * word) (BITS_PER_WORD * word + BITS_PER_WORD) lines.old lines.new }
{
    let mut rest = begun & !(begun >> 1);
    while rest != 0 {
        let bit = rest.trailing_zeros();
        rest &= !(1u64 << bit);
        add_last(words, layout, block, BITS_PER_WORD * word + bit, lines);
    }
}

/// Adds the lines that objects touch which begin in a line. Only the last of them is read.
#[inline(always)]
fn add_last<W: Words>(words: &W, layout: &Layout, block: u32, line: u32, lines: &mut [u64; 4])
    requires block { IsReadableBlock (shown (W.words words.now) layout.now) block }
    requires apart { AreApart (shown (W.words words.now) layout.now) block }
    requires kind { HasKind (shown (W.words words.now) layout.now) block kinds.Immix }
    requires line { line < BLOCK_LINES }
    requires begins { BeginsIn (shown (W.words words.now) layout.now) block line }
    requires len { length lines.old ≡ 4 }
    ensures { MarksFrom (shown (W.words words.now) layout.now) block
        (LINE_WORDS * line) (LINE_WORDS * line + LINE_WORDS) lines.old lines.new }
{
    let bits = line_bits(start_word(words, layout, block, line / 4), line % 4);
    let last = 63 - bits.leading_zeros();
    add_object(
        words,
        layout,
        block,
        BITS_PER_WORD * (line / 4) + last,
        lines,
    );
}

/// The start bits of 64 addresses of the block, from offset `64 * index` on.
fn start_word<W: Words>(words: &W, layout: &Layout, block: u32, index: u32) -> u64
    requires extent { IsRowOf layout.now (W.words words.now) }
    requires block { block < layout.now.blocks }
    requires index { index < BLOCK_BIT_WORDS }
    ensures { AreStarts (shown (W.words words.now) layout.now) block index result }
{
    words.get(layout.start_base() + BLOCK_BIT_WORDS * block + index)
}

/// The bits of one of the four lines of a word, where they are.
#[inline(always)]
fn line_bits(word: u64, line: u32) -> u64
    requires { line < 4 }
    ensures { AreBitsOf line word result }
{
    word & run_mask(LINE_WORDS * line, LINE_WORDS * line + (LINE_WORDS - 1))
}

/// Adds the lines that the object at this offset touches.
fn add_object<W: Words>(words: &W, layout: &Layout, block: u32, offset: u32, lines: &mut [u64; 4])
    requires block { IsReadableBlock (shown (W.words words.now) layout.now) block }
    requires kind { HasKind (shown (W.words words.now) layout.now) block kinds.Immix }
    requires offset { offset < BLOCK_WORDS }
    requires start { IsTrue (is_start (shown (W.words words.now) layout.now)
        (block_start layout.now.blocks block + offset)) }
    requires len { length lines.old ≡ 4 }
    ensures { AddsLines (TouchesAt (shown (W.words words.now) layout.now) block offset)
        lines.old lines.new }
{
    let size = object_size(words, layout.address(block, offset));
    set_run(lines, offset / LINE_WORDS, (offset + size - 1) / LINE_WORDS);
}

/// Sets bits `from` to `to`.
fn set_run(lines: &mut [u64; 4], from: u32, to: u32)
    requires len { length lines.old ≡ 4 }
    requires order { from ≤ to }
    requires to { to < BLOCK_LINES }
    ensures { AddsLines (IsFromTo from to) lines.old lines.new }
{
    // Nearly all objects are small, so one word has all their lines.
    if from / BITS_PER_WORD == to / BITS_PER_WORD {
        let (low, high) = (from % BITS_PER_WORD, to % BITS_PER_WORD);
        lines[(from / BITS_PER_WORD) as usize] |= run_mask(low, high);
        return;
    }
    for word in from / BITS_PER_WORD..to / BITS_PER_WORD + 1 {
        let low = from.saturating_sub(BITS_PER_WORD * word);
        let high = (to - BITS_PER_WORD * word).min(BITS_PER_WORD - 1);
        lines[word as usize] |= run_mask(low, high);
    }
}
