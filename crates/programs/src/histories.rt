//! From the history of a heap to the steps of its commands.

ghost use Rattle.std.specs.Prelude.{◌≡◌, ◌++◌, ◌∷◌, [], ℕ, List, false};
ghost use Rattle.programs.specs.Prelude.{Command, Reply, IdealHeap, step, Entry, IsRun, heap_after_run, entry, is_full};
ghost use Rattle.programs.specs.Prelude.reply;

/// The last entry of a run is a step of the heap after the entries before it: its reply is the
/// step's, and the heap after it is the step's. An allocation that was refused leaves the heap.
pub fn entries_are_steps()
    ensures reply { (h : IdealHeap) (es : List Entry) (m : ℕ) (c : Command) (r : Reply)
        → IsRun h (es ++ entry m c r ∷ []) → is_full r ≡ false
        → r ≡ (step (heap_after_run h es) m c).0 }
    ensures heap { (h : IdealHeap) (es : List Entry) (m : ℕ) (c : Command) (r : Reply)
        → is_full r ≡ false
        → heap_after_run h (es ++ entry m c r ∷ []) ≡ (step (heap_after_run h es) m c).1 }
    ensures refused { (h : IdealHeap) (es : List Entry) (m : ℕ) (c : Command)
        → heap_after_run h (es ++ entry m c reply.Full ∷ []) ≡ heap_after_run h es }
{}
