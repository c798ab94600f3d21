//! Laws of heaps that mutators may use, and of heaps as an epoch begins.

ghost use Rattle.std.specs.Prelude.{◌≡◌, ℕ, List};
ghost use Rattle.ideal_heap.specs.Ideal.{IdealHeap};
ghost use Rattle.ideal_heap.specs.Runs.{Entry};
ghost use Rattle.object_model.specs.Objects.{HeapState};
ghost use Rattle.object_model.specs.Graphs.{MutatorState, Represents};
ghost use Rattle.object_model.specs.Lawful.{IsLawful};
ghost use Rattle.sessions.specs.Sessions.{Stopped};
ghost use Rattle.sessions.specs.Plans.{Rules};
ghost use Rattle.heap_users.specs.Beginnings.{MayUse, without_stop};

/// A lawful heap and mutators that may use it represent an ideal heap.
pub fn heaps_represent_ideal_heaps()
    ensures { (s : HeapState) (ms : List MutatorState) → IsLawful s → MayUse s ms
        → (i : IdealHeap) × Represents s ms i }
{}

/// A heap that is stopped for the heap with stop word and budget word 0 is stopped for the heap
/// itself.
pub fn stops_see_no_stop_word()
    ensures { (rules : Rules) (numbers : List ℕ) (s new : HeapState) (i : IdealHeap)
        (part : List Entry) (ms : List MutatorState) → IsLawful s
        → Stopped rules numbers (without_stop s) i part new ms
        → Stopped rules numbers s i part new ms }
{}
