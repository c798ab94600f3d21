//! The search for the first hole of a block with room for an object.

ghost use Rattle.std.specs.Prelude.{◌≡◌, ◌+◌, ◌*◌, ◌/◌, ◌<◌, ◌≤◌, ℕ, max, false, length, MatchOption};
ghost use Rattle.plan_api.specs.Prelude.{HeapState, lines_for, IsFirstClearRun, HasNoClearRun, IsViewOf, AreApart, IsFirstHole};

use crate::block_view::BlockView;
use crate::cells::free_cell;
use cell_space::{cell_size, class_of};
use heap_layout::{BLOCK_WORDS, Kind, LINE_WORDS, Region};
use line_marks::first_run;
use object_model::{HEADER_WORDS, MAX_MEDIUM_WORDS};

/// The first part of a hole of the block that has room for `size` words and begins at or after the
/// offset `from`, in words. `None` if there is none, or if the block is not of the kind `fill`,
/// which mutators fill. A free cell is always returned whole. Runs of clear lines are filled as in
/// Immix.
pub fn first_hole(fill: Kind, view: &BlockView, from: u32, size: u32) -> Option<Region>
    requires least { HEADER_WORDS ≤ size }
    requires most { size ≤ MAX_MEDIUM_WORDS }
    ensures { (s : HeapState) (k : ℕ) → IsViewOf s k view.now → AreApart s k
        → IsFirstHole fill s k from size result }
{
    if view.word.kind != fill {
        return None;
    }
    match fill {
        Kind::Bump => tail_part(view.end, from, size),
        Kind::Young => tail_part(view.end, from, size),
        Kind::Cells => cell_part(view, from, size),
        Kind::Immix => clear_lines(&view.lines, from, size),
        Kind::Free | Kind::Mature | Kind::LargeHead | Kind::LargeTail | Kind::Kept => None,
    }
}

/// The first free cell at or after the offset `from`, if cells of the block's class suit `size`
/// words.
fn cell_part(view: &BlockView, from: u32, size: u32) -> Option<Region>
    requires least { HEADER_WORDS ≤ size }
    requires most { size ≤ MAX_MEDIUM_WORDS }
    ensures { (s : HeapState) (k : ℕ) → IsViewOf s k view.now
        → view.now.word.kind ≡ Kind.Cells
        → IsFirstHole Kind.Cells s k from size result }
{
    let class = class_of(size)?;
    if class != view.word.class {
        return None;
    }
    free_cell(&view.starts, cell_size(class), from)
}

/// The part of the tail at or after the offset `from`, if it has room for `size` words. The tail
/// begins at the offset `end`.
fn tail_part(end: u32, from: u32, size: u32) -> Option<Region>
    requires { size ≤ MAX_MEDIUM_WORDS }
    ensures { MatchOption result (BLOCK_WORDS < max end from + size)
        (λ r. (r.next ≡ max end from) × (r.end ≡ BLOCK_WORDS)
        × (r.next + size ≤ BLOCK_WORDS)) }
{
    let next = end.max(from);
    if next > BLOCK_WORDS - size {
        return None;
    }
    Some(Region {
        next,
        end: BLOCK_WORDS,
    })
}

/// The first run of clear lines with room for `size` words, among the lines that begin at or after
/// the offset `from`.
pub(crate) fn clear_lines(lines: &[u64], from: u32, size: u32) -> Option<Region>
    requires words { length lines.now ≡ 4 }
    requires least { HEADER_WORDS ≤ size }
    requires most { size ≤ MAX_MEDIUM_WORDS }
    ensures { MatchOption result (HasNoClearRun lines.now (lines_for from) (lines_for size))
        (λ r. (x : ℕ) × (end : ℕ) × (r.next ≡ LINE_WORDS * x)
        × (r.end ≡ LINE_WORDS * end)
        × IsFirstClearRun lines.now (lines_for from) (lines_for size) x end) }
{
    let first = from.div_ceil(LINE_WORDS);
    let Some(run) = first_run(lines, first, size.div_ceil(LINE_WORDS)) else {
        return None;
    };
    Some(Region {
        next: LINE_WORDS * run.start,
        end: LINE_WORDS * run.end,
    })
}
