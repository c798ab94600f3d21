//! Marks of the lines that an object touches.

ghost use Rattle.std.specs.Prelude.{◌≡◌, ◌+◌, ◌<◌, ◌≤◌, length};
ghost use Rattle.heap_layout.specs.Zones.{row_words, IsAddress, IsRowOf};
ghost use Rattle.object_model.specs.Objects.{shown};
ghost use Rattle.line_bits.specs.LineMarks.{MarksLines, SetsRun};

use crate::masks::run_mask;
use heap_layout::{Layout, line_of};
use side_meta::{BITS_PER_WORD, Words};

/// Marks the lines that an object of `size` words at the address touches, in one block or several.
/// Writes only words that change.
pub fn mark<W: Words>(words: &mut W, layout: &Layout, address: u32, size: u32)
    requires extent { IsRowOf layout.now (W.words words.old) }
    requires address { IsAddress layout.now.blocks address }
    requires some { 1 ≤ size }
    requires last { address + size ≤ row_words layout.now.blocks }
    ensures { MarksLines (shown (W.words words.old) layout.now)
        (shown (W.words words.new) layout.now) address size }
{
    let first = line_of(layout, address);
    let last = line_of(layout, address + size - 1);
    let base = layout.line_at(0);
    // Nearly all objects are small, so one word has all their lines.
    if first / BITS_PER_WORD == last / BITS_PER_WORD {
        let (low, high) = (first % BITS_PER_WORD, last % BITS_PER_WORD);
        set_run(words, base + first / BITS_PER_WORD, low, high);
        return;
    }
    for word in first / BITS_PER_WORD..last / BITS_PER_WORD + 1 {
        let low = first.saturating_sub(BITS_PER_WORD * word);
        let high = (last - BITS_PER_WORD * word).min(BITS_PER_WORD - 1);
        set_run(words, base + word, low, high);
    }
}

/// Sets bits `low` to `high` of a word of the row. Writes it only if it changes.
fn set_run<W: Words>(words: &mut W, index: u32, low: u32, high: u32)
    requires index { index < length (W.words words.old) }
    requires order { low ≤ high }
    requires high { high < BITS_PER_WORD }
    ensures { SetsRun (W.words words.old) (W.words words.new) index low high }
{
    let before = words.get(index);
    let marked = before | run_mask(low, high);
    if marked != before {
        words.set(index, marked);
    }
}
