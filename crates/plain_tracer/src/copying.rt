//! Copies, and marks of lines.
//! `collector` calls `copy`, for registers; scans call the others.
//! Writes the row alone: the words of the copy, its unlog bit and start bit, and line bits.
//! Unlog bit and start bit of a copy change together, after its words (`move_object`).
//! Never writes a word of an object that moves where it was.

ghost use Rattle.std.specs.Prelude.{◌≡◌, ◌+◌, ◌*◌, ◌-◌, ◌/◌, ◌%◌, ◌≤◌, ◌++◌, ℕ, List, IsTrue, nat_eq, slice_index, slice_set};
ghost use Rattle.std.specs.Int.{bit_at};
ghost use Rattle.plain_tracer.specs.Prelude.{heap_of, first, IsAddress, LineWords, UnlogBits, bit_of, IsRowOf, with_bit, TouchesLine, Setup, blocks, Event, View, copied_view, IsWon, IsGrey, Tracks, TracerHolds, MakesEvents, ChangesWords, KeepsRun, Marks, copying, IsMarking, IsMoving, IsCopiedHere};

use crate::plain_trace::PlainTrace;
use crate::tokens::{Grey, Won};
use heap_layout::Layout;
use side_meta::BITS_PER_WORD;

impl PlainTrace {
    /// Copies a claimed object to its target, and sets the target's unlog bit and its start bit. In
    /// place it sets the unlog bit alone.
    pub fn copy(&mut self, won: Won) -> Grey
        requires { TracerHolds self.old (λ p es v. IsWon p v won) }
        ensures object { result.object ≡ won.object }
        ensures target { result.target ≡ won.target }
        ensures tracks { (p : Setup) (es : List Event) (v : View) → Tracks p es self.old v
            → IsWon p v won → Tracks p (es ++ copying p won.object won.target) self.new
            (copied_view p won.object won.target v) }
        ensures grey { (p : Setup) (es : List Event) (v : View) → Tracks p es self.old v
            → IsWon p v won → IsGrey p (copied_view p won.object won.target v) result }
        ensures keeps { KeepsRun self.old self.new }
    {
        let layout = self.row.layout;
        self.copy_with(layout, won)
    }

    /// Copies a claimed object. The layout is the row's.
    pub(crate) fn copy_with(&mut self, layout: Layout, won: Won) -> Grey
        requires layout { layout.blocks ≡ self.old.row.layout.blocks }
        requires tracing { TracerHolds self.old (λ p es v. IsWon p v won) }
        ensures object { result.object ≡ won.object }
        ensures target { result.target ≡ won.target }
        ensures tracks { (p : Setup) (es : List Event) (v : View) → Tracks p es self.old v
            → IsWon p v won → Tracks p (es ++ copying p won.object won.target) self.new
            (copied_view p won.object won.target v) }
        ensures grey { (p : Setup) (es : List Event) (v : View) → Tracks p es self.old v
            → IsWon p v won → IsGrey p (copied_view p won.object won.target v) result }
        ensures keeps { KeepsRun self.old self.new }
    {
        let Won {
            object,
            target,
            size,
            refs,
        } = won;
        if target == object {
            self.copy_in_place(layout, object);
        } else {
            self.move_object(layout, object, target, size);
        }
        Grey {
            object,
            target,
            size,
            refs,
        }
    }

    /// Sets the unlog bit of a claimed object that stays: no more is left of its copying.
    pub(crate) fn copy_in_place(&mut self, layout: Layout, x: u32)
        requires layout { layout.blocks ≡ self.old.row.layout.blocks }
        requires tracing { TracerHolds self.old (IsCopiedHere x) }
        ensures copies { (p : Setup) (es : List Event) (v : View) → Tracks p es self.old v
            → IsCopiedHere x p es v
            → Tracks p (es ++ copying p x x) self.new (copied_view p x x v) }
        ensures keeps { KeepsRun self.old self.new }
    {
        self.set_bit(layout, layout.unlog_base(), x);
    }

    /// Copies the words of an object, and sets the unlog bit and the start bit of its copy.
    fn move_object(&mut self, layout: Layout, object: u32, target: u32, size: u32)
        requires tracing { TracerHolds self.old (IsMoving object target size) }
        requires layout { layout.blocks ≡ self.old.row.layout.blocks }
        ensures moves { (p : Setup) (es : List Event) (v : View) → Tracks p es self.old v
            → IsMoving object target size p es v
            → Tracks p (es ++ copying p object target) self.new (copied_view p object target v) }
        ensures keeps { KeepsRun self.old self.new }
    {
        self.row
            .words
            .copy_within(object as usize, target as usize, size as usize);
        self.set_bit(layout, layout.unlog_base(), target);
        self.set_bit(layout, layout.start_base(), target);
    }

    /// Whether the bit of an address is set, in a zone that has a bit for each word of the heap.
    pub(crate) fn has_bit(&self, layout: Layout, zone: u32, address: u32) -> bool
        requires layout { layout.blocks ≡ self.now.row.layout.blocks }
        requires extent { IsRowOf self.now.row.layout self.now.row.words }
        requires address { IsAddress self.now.row.layout.blocks address }
        requires zone { zone ≤ first self.now.row.layout.blocks UnlogBits }
        ensures { result ≡ nat_eq (bit_at (slice_index self.now.row.words
            (zone + (address - heap_of self.now.row.layout.blocks) / BITS_PER_WORD))
            ((address - heap_of self.now.row.layout.blocks) % BITS_PER_WORD)) 1 }
    {
        let index = address - layout.heap_base();
        side_meta::test_bit(
            &self.row.words,
            zone + index / BITS_PER_WORD,
            index % BITS_PER_WORD,
        )
    }

    /// Sets the bit of an address in a zone that has a bit for each word of the heap.
    fn set_bit(&mut self, layout: Layout, zone: u32, address: u32)
        requires layout { layout.blocks ≡ self.old.row.layout.blocks }
        requires extent { IsRowOf self.old.row.layout self.old.row.words }
        requires address { IsAddress self.old.row.layout.blocks address }
        requires zone { zone ≤ first self.old.row.layout.blocks UnlogBits }
        ensures { ChangesWords self.old self.new (slice_set self.old.row.words
            (zone + (address - heap_of self.old.row.layout.blocks) / BITS_PER_WORD)
            (with_bit (slice_index self.old.row.words
            (zone + (address - heap_of self.old.row.layout.blocks) / BITS_PER_WORD))
            ((address - heap_of self.old.row.layout.blocks) % BITS_PER_WORD))) }
    {
        let index = address - layout.heap_base();
        side_meta::set_bit(
            &mut self.row.words,
            zone + index / BITS_PER_WORD,
            index % BITS_PER_WORD,
        );
    }

    /// Marks the lines that an object touches after the collection.
    pub fn mark_lines(&mut self, grey: &Grey)
        requires { TracerHolds self.old (λ p es v. IsMarking p v grey.now) }
        ensures grows { (p : Setup) (es : List Event) (v : View) → Tracks p es self.old v
            → IsMarking p v grey.now → MakesEvents p es self.new v (Marks grey.now.object) }
        ensures marked { (p : Setup) (es : List Event) (v : View) → Tracks p es self.old v
            → IsMarking p v grey.now → (k : ℕ)
            → TouchesLine (blocks p) grey.now.target grey.now.size k
            → IsTrue (bit_of (blocks p) LineWords self.new.row.words k) }
        ensures keeps { KeepsRun self.old self.new }
    {
        self.row.words.words_fit();
        let layout = self.row.layout;
        line_bits::mark(&mut self.row.words, &layout, grey.target, grey.size);
    }
}
