//! Marks of the lines that an object touches where it will be.

ghost use Rattle.std.specs.Int.{bit_at};
ghost use Rattle.std.specs.Prelude.{◌≡◌, ℕ, ◌+◌, ◌-◌, ◌/◌, ◌<◌, ◌≤◌, IsTrue};
ghost use Rattle.heap_layout.specs.Zones.{heap_of, line_at, row_words};
ghost use Rattle.object_model.specs.Lines.{TouchesLine};
ghost use Rattle.side_meta.specs.declared.word.TheConstants.{BITS_PER_WORD};
ghost use Rattle.trace_core.specs.Setups.{blocks, size as size_of_object};
ghost use Rattle.trace_core.specs.Views.{hits};
ghost use Rattle.trace_words.specs.Rule.{HasLined};
ghost use Rattle.trace_table.specs.Seats.{IsTable, IsSeat, IsGrey, setup_at, MarksOnly};

use crate::table::{TraceTable, WorkerSeat};
use crate::tokens::Grey;
use heap_layout::line_of;
use line_bits::run_mask;
use side_meta::BITS_PER_WORD;
use std::marker::Brand;
use trace_words::{About, look_at_lines, mark_lines};

impl TraceTable {
    /// Marks the lines that an object touches where it will be. The seat copied it, or took in its
    /// token.
    pub fn mark_lines(&self, seat: &mut WorkerSeat, grey: &Grey)
        requires table { IsTable self.now }
        requires seat { IsSeat self.now seat.old }
        requires grey { IsGrey self.now grey.now }
        requires knows { 0 < hits grey.now.object grey.now.target seat.old.seat.me.0.known }
        ensures seat { IsSeat self.now seat.new }
        ensures marks { MarksOnly seat.old.seat.me.0 seat.new.seat.me.0 }
        ensures lines { (line : ℕ)
            → TouchesLine (blocks (setup_at self.now)) grey.now.target grey.now.size line
            → HasLined (setup_at self.now) seat.new.seat.me.0 line }
    {
        self.mark_object(seat, grey.object, grey.target, grey.size);
    }

    /// Marks the lines of the object that was at `x`, of so many words, and is at `target`.
    pub(crate) fn mark_object(&self, seat: &mut WorkerSeat, x: u32, target: u32, words: u32)
        requires table { IsTable self.now }
        requires seat { IsSeat self.now seat.old }
        requires knows { 0 < hits x target seat.old.seat.me.0.known }
        requires words { words ≡ size_of_object (setup_at self.now) x }
        requires start { heap_of (blocks (setup_at self.now)) ≤ target }
        requires within { target + words ≤ row_words (blocks (setup_at self.now)) }
        ensures seat { IsSeat self.now seat.new }
        ensures marks { MarksOnly seat.old.seat.me.0 seat.new.seat.me.0 }
        ensures lines { (line : ℕ)
            → TouchesLine (blocks (setup_at self.now)) target words line
            → HasLined (setup_at self.now) seat.new.seat.me.0 line }
    {
        let first = line_of(&self.layout, target);
        let last = line_of(&self.layout, target + words - 1);
        for word in first / BITS_PER_WORD..last / BITS_PER_WORD + 1 {
            self.mark_word::<Brand>(seat, x, target, word, first, last);
        }
    }

    /// Marks those of the lines `first` to `last` of an object that have their bits in a word.
    /// Where all are marked already, nothing is written.
    fn mark_word<C: About>(
        &self,
        seat: &mut WorkerSeat,
        x: u32,
        target: u32,
        word: u32,
        first: u32,
        last: u32,
    )
        requires about { (setup_at self.now ≡ C.setup) × (x ≡ C.object) × (target ≡ C.target) }
        requires table { IsTable self.now }
        requires seat { IsSeat self.now seat.old }
        requires knows { 0 < hits C.object C.target seat.old.seat.me.0.known }
        requires start { heap_of (blocks C.setup) ≤ target }
        requires within { target + size_of_object C.setup C.object
            ≤ row_words (blocks C.setup) }
        requires first { first ≡ line_at (blocks C.setup) target }
        requires last { last ≡ line_at (blocks C.setup)
            (target + size_of_object C.setup C.object - 1) }
        requires word { (first / BITS_PER_WORD ≤ word) × (word ≤ last / BITS_PER_WORD) }
        ensures seat { IsSeat self.now seat.new }
        ensures marks { MarksOnly seat.old.seat.me.0 seat.new.seat.me.0 }
        ensures lines { (line : ℕ) → first ≤ line → line ≤ last
            → line / BITS_PER_WORD ≡ word
            → HasLined C.setup seat.new.seat.me.0 line }
    {
        let low = first.saturating_sub(BITS_PER_WORD * word);
        let high = (last - BITS_PER_WORD * word).min(BITS_PER_WORD - 1);
        let at = (self.layout.line_at(0) + word) as usize;
        let mask = run_mask(low, high);
        let marked = look_at_lines(&self.row.words, &mut seat.seat, at);
        if has_all(marked, mask) {
            return;
        }
        mark_lines::<C>(&self.row.words, &mut seat.seat, at, mask);
    }
}

/// Whether all bits of a mask are set in a word.
#[inline(always)]
fn has_all(word: u64, mask: u64) -> bool
    ensures { IsTrue result → (k : ℕ) → bit_at mask k ≡ 1 → bit_at word k ≡ 1 }
{
    word & mask == mask
}
