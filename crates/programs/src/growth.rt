//! The heaps that programs come to.

ghost use Rattle.std.specs.Prelude.{ℕ, List};
ghost use Rattle.programs.specs.Prelude.{Command, IdealHeap, IsIdeal, empty, step, Entry, heap_after_run, IsGrown};

/// Each heap that entries, whatever they are, make from the empty one is grown, and so is the heap
/// after one more command. So a program needs no proof of it.
pub fn heaps_grow()
    ensures after { (es : List Entry) → IsGrown (heap_after_run empty es) }
    ensures step { (h : IdealHeap) (m : ℕ) (c : Command) → IsGrown h
        → IsGrown (step h m c).1 }
    ensures ideal { (ms : List ℕ) (h : IdealHeap) → IsIdeal ms h → IsGrown h }
{}
