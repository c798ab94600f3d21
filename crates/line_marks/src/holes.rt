//! Holes of a block, and how many holes and marked lines it has.

ghost use Rattle.std.specs.Prelude.{◌≡◌, ◌+◌, ◌*◌, ◌-◌, ◌<◌, ◌≤◌, ◌&&◌, ℕ, not, nat_eq, length, slice_index, MatchOption, IfSome};
ghost use Rattle.side_meta.specs.BitWords.{has_bit};
ghost use Rattle.heap_layout.specs.Zones.{first, LineWords, IsRowOf};
ghost use Rattle.heap_layout.specs.declared.block.Kind.TheVariants as kinds;
ghost use Rattle.heap_layout.specs.declared.layout.TheConstants.{LINE_WORDS};
ghost use Rattle.object_model.specs.Objects.{HasKind, shown};
ghost use Rattle.object_model.specs.Lawful.{LineBitsAreExact, MeetsNoObject};
ghost use Rattle.sessions.specs.Collecting.{holes_in, marked_in};
ghost use Rattle.line_marks.specs.LineHoles.{IsNextHole, HasNoHole};

use crate::runs::first_run;
use heap_layout::{BLOCK_LINE_BIT_WORDS, LINE_WORDS, Layout};
use side_meta::{BITS_PER_WORD, Words};

/// A run of clear lines, or the part of it from a line on.
#[derive(Clone, Copy, Debug, PartialEq, Eq)]
pub struct Hole {
    /// The address of its first word.
    pub start: u32,
    /// How many lines it has.
    pub lines: u32,
}

/// How many holes and how many marked lines a block has.
#[derive(Clone, Copy, Debug, PartialEq, Eq)]
pub struct LineCounts {
    /// How many holes it has.
    pub holes: u32,
    /// How many of its lines are marked.
    pub marked: u32,
}

/// The four words with the line bits of a block.
pub fn line_words<W: Words>(words: &W, layout: &Layout, block: u32) -> [u64; 4]
    requires extent { IsRowOf layout.now (W.words words.now) }
    requires block { block < layout.now.blocks }
    ensures len { length result ≡ 4 }
    ensures words { (n : ℕ) → n < 4 → slice_index result n
        ≡ slice_index (W.words words.now)
        (first layout.now.blocks LineWords + BLOCK_LINE_BIT_WORDS * block + n) }
{
    let at = layout.line_at(block);
    [
        words.get(at),
        words.get(at + 1),
        words.get(at + 2),
        words.get(at + 3),
    ]
}

/// The first hole of the block with at least `lines` lines, among its lines from `from` on. Of a
/// hole that begins before `from` the part from `from` on counts. No held object has a word in it
/// if the line bits are those of the lines that held objects touch.
///
/// For callers that have words and no view, as tests: plans look for holes in views (`hole_in` of
/// `plan_api`).
pub fn next_hole<W: Words>(
    words: &W,
    layout: &Layout,
    block: u32,
    from: u32,
    lines: u32,
) -> Option<Hole>
    requires extent { IsRowOf layout.now (W.words words.now) }
    requires block { block < layout.now.blocks }
    requires some { 1 ≤ lines }
    ensures hole { MatchOption result
        (HasNoHole (shown (W.words words.now) layout.now) block from lines)
        (λ hole. IsNextHole (shown (W.words words.now) layout.now)
        block from lines hole) }
    ensures apart { HasKind (shown (W.words words.now) layout.now) block kinds.Immix
        → LineBitsAreExact (shown (W.words words.now) layout.now) block
        → IfSome result (λ hole. MeetsNoObject (shown (W.words words.now) layout.now)
        hole.start (LINE_WORDS * hole.lines)) }
{
    let bits = line_words(words, layout, block);
    let Some(run) = first_run(&bits, from, lines) else {
        return None;
    };
    Some(Hole {
        start: layout.address(block, LINE_WORDS * run.start),
        lines: run.end - run.start,
    })
}

/// How many holes and how many marked lines the block has, from one pass over its line words.
pub fn line_counts<W: Words>(words: &W, layout: &Layout, block: u32) -> LineCounts
    requires extent { IsRowOf layout.now (W.words words.now) }
    requires block { block < layout.now.blocks }
    ensures holes { result.holes
        ≡ holes_in (shown (W.words words.now) layout.now) block }
    ensures marked { result.marked
        ≡ marked_in (shown (W.words words.now) layout.now) block }
{
    let mut holes = 0;
    let mut marked = 0;
    let mut before = 1;
    for index in BLOCK_LINE_BIT_WORDS * block..BLOCK_LINE_BIT_WORDS * (block + 1) {
        let word = words.get(layout.line_at(0) + index);
        holes += hole_starts(word, before).count_ones();
        marked += word.count_ones();
        before = word >> 63;
    }
    LineCounts { holes, marked }
}

/// The lines of a word with which holes begin. `before` is the bit of the line before it.
fn hole_starts(word: u64, before: u64) -> u64
    requires { before < 2 }
    ensures lowest { has_bit result 0 ≡ (not (has_bit word 0) && nat_eq before 1) }
    ensures others { (j : ℕ) → 0 < j → j < BITS_PER_WORD
        → has_bit result j ≡ (not (has_bit word j) && has_bit word (j - 1)) }
{
    !word & (word << 1 | before)
}

/// How many holes the block has.
///
/// For callers that want one count alone, as tests: the choice of candidates for evacuation takes
/// both at once, by `line_counts`.
pub fn count_holes<W: Words>(words: &W, layout: &Layout, block: u32) -> u32
    requires extent { IsRowOf layout.now (W.words words.now) }
    requires block { block < layout.now.blocks }
    ensures { result ≡ holes_in (shown (W.words words.now) layout.now) block }
{
    line_counts(words, layout, block).holes
}

/// How many lines of the block are marked. For callers of one count alone, as `count_holes`.
pub fn marked_lines<W: Words>(words: &W, layout: &Layout, block: u32) -> u32
    requires extent { IsRowOf layout.now (W.words words.now) }
    requires block { block < layout.now.blocks }
    ensures { result ≡ marked_in (shown (W.words words.now) layout.now) block }
{
    line_counts(words, layout, block).marked
}
