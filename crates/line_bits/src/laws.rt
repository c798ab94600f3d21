//! Laws of marked lines.

ghost use Rattle.std.specs.Prelude.{ℕ, List, ◌+◌, ◌<◌, ◌≤◌, ◌^◌, slice_index};
ghost use Rattle.heap_layout.specs.Zones.{row_words};
ghost use Rattle.heap_layout.specs.declared.layout.Layout.{Layout};
ghost use Rattle.object_model.specs.Births.{MarksLinesOfBirth};
ghost use Rattle.object_model.specs.Objects.{state_over, shown};
ghost use Rattle.line_bits.specs.LineMarks.{MarksLines};

/// `mark` marks the lines of an object that is born: in a row of 64-bit words with room for the
/// object, the heap before and after, whatever its numbers, are as a birth has them.
pub fn births_mark_lines()
    ensures { (old new : List ℕ) (l : Layout) (number base a size : ℕ)
        → ((i : ℕ) → slice_index old i < 2 ^ 64) → a + size ≤ row_words l.blocks
        → MarksLines (shown old l) (shown new l) a size
        → MarksLinesOfBirth (state_over old l number base) (state_over new l number base)
        a size }
{}
