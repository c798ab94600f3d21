//! Laws of the tracing machine. Each holds after every list of events of a tracing, by any number
//! of workers in any order.

ghost use Rattle.std.specs.Prelude.{◌≡◌, ◌≢◌, ◌⊎◌, ◌↔◌, ℕ, ◌+◌, ◌*◌, ◌<◌, ◌≤◌, ◌++◌, ◌&&◌, false, Some, None, List, IsTrue, map, if◌then◌else◌, is_some, count_by};
ghost use Rattle.forward_word.specs.CollectorWords.{collector_word};
ghost use Rattle.heap_layout.specs.Zones.{LineWords, UnlogBits, StopWord, BudgetWord, PinBits, InZone, IsAddress, bit_of};
ghost use Rattle.heap_layout.specs.declared.block.Kind.TheVariants as kinds;
ghost use Rattle.object_model.specs.Lawful.{IsLawfulButLines};
ghost use Rattle.object_model.specs.Lines.{TouchesLine};
ghost use Rattle.object_model.specs.Objects.{HeapState, word_at, global_at, block_word, HasKind, IsHeld, line_marked, IsInExtent, IsInExtentOf, ref_at, is_pinned, is_unlogged, is_reference};
ghost use Rattle.trace_core.specs.Setups.{Setup, blocks, collection, size, refs, stays_old, was_logged, keeps_its_words, may_be_moved};
ghost use Rattle.trace_core.specs.Machine.{Machine, Event, next, Copying, Scanning, copied_word, step_of_offset, forward, IsSettled, taken_word};
ghost use Rattle.object_model.specs.Graphs.{IsReachable};
ghost use Rattle.object_model.specs.Ages.{is_logged, Lives, RemembersYoung, ListsLogged};
ghost use Rattle.object_model.specs.Preserving.{PreservesObjects};
ghost use Rattle.object_model.specs.Releasing.{IsReleasable};
ghost use Rattle.trace_core.specs.Views.{View, Holds};
ghost use Rattle.trace_core.specs.Rights.{StaysHere};
ghost use Rattle.trace_core.specs.Runs.{is_nursery, setup_of};
ghost use Rattle.object_model.specs.declared.collect.Collect.TheVariants.{Full};
ghost use Rattle.trace_core.specs.declared.run.TraceRun.{TraceRun};
ghost use Rattle.trace_core.specs.Outcomes.{FinishedRow, base_after_trace, image, HaveAsked, NoOthersAsked};
ghost use Rattle.trace_core.specs.Traces.{May, HasCopyRoom, IsTracing, IsFinished, TraceKeeps, machine_after, heap_after, stage_of, target_of, fields_scanned, is_claim_of, is_scan_of};

use heap_layout::GLOBALS;
use object_model::COLLECTOR_OFFSET;

/// No two objects have the same target.
pub fn targets_are_one_to_one()
    ensures { (p : Setup) (es : List Event) → IsTracing p es → (x y t : ℕ)
        → target_of p es x ≡ Some t → target_of p es y ≡ Some t → x ≡ y }
{}

/// The words of a target are words of the heap. They belong to no other target, and to no object
/// held as the collection began, unless they are that object's own and it stays in place. An object
/// that moves may, and goes to room in a block that a worker took, which was Free.
pub fn targets_are_apart()
    ensures inside { (p : Setup) (es : List Event) → IsTracing p es → (x t i : ℕ)
        → target_of p es x ≡ Some t → IsInExtentOf t (size p x) i → IsAddress (blocks p) i }
    ensures targets { (p : Setup) (es : List Event) → IsTracing p es → (x y t u i : ℕ)
        → x ≢ y → target_of p es x ≡ Some t → target_of p es y ≡ Some u
        → IsInExtentOf t (size p x) i → IsInExtentOf u (size p y) i → ⊥ }
    ensures extents { (p : Setup) (es : List Event) → IsTracing p es → (x y t i : ℕ)
        → target_of p es x ≡ Some t → IsHeld p.before y → IsInExtentOf t (size p x) i
        → IsInExtent p.before y i → (x ≡ y) × (t ≡ x) }
    ensures room { (p : Setup) (es : List Event) → IsTracing p es → (x t : ℕ)
        → target_of p es x ≡ Some t → t ≢ x → HasCopyRoom p (machine_after p es).taken x t }
    ensures free { (p : Setup) (es : List Event) → IsTracing p es → (b : ℕ)
        → 0 < (machine_after p es).taken b → HasKind p.before b kinds.Free }
{}

/// Until an object is scanned in place, each of its words but the collector word is as it was. The
/// collector word has the collection's number and the target if the object was claimed; it is as it
/// was if the object was not claimed, or is old in a nursery collection.
pub fn objects_wait_to_be_scanned()
    ensures words { (p : Setup) (es : List Event) → IsTracing p es → (x o : ℕ)
        → IsHeld p.before x → o < size p x → o ≢ 2
        → (word_at (heap_after p es) (x + o) ≡ word_at p.before (x + o))
        ⊎ ((k : ℕ) × (stage_of p es x ≡ Scanning x k) × (3 ≤ o) × (o < 3 + k)) }
    ensures claimed { (p : Setup) (es : List Event) → IsTracing p es → (x t : ℕ)
        → target_of p es x ≡ Some t → stays_old p x ≡ false
        → word_at (heap_after p es) (x + COLLECTOR_OFFSET) ≡ collector_word (collection p) t }
    ensures unclaimed { (p : Setup) (es : List Event) → IsTracing p es → (x : ℕ)
        → IsHeld p.before x → target_of p es x ≡ None
        → word_at (heap_after p es) (x + COLLECTOR_OFFSET)
        ≡ word_at p.before (x + COLLECTOR_OFFSET) }
    ensures old { (p : Setup) (es : List Event) → IsTracing p es → (x : ℕ)
        → IsTrue (stays_old p x) → word_at (heap_after p es) (x + COLLECTOR_OFFSET)
        ≡ word_at p.before (x + COLLECTOR_OFFSET) }
{}

/// The words of an object are copied in their order, the collector word last. A start bit is set
/// where an object was held, and where one is copied whole: no word of it but its fields changes
/// any more.
pub fn copies_are_whole()
    ensures copied { (p : Setup) (es : List Event) → IsTracing p es → (x t k o : ℕ)
        → stage_of p es x ≡ Copying t k → o < size p x → step_of_offset (size p x) o < k
        → word_at (heap_after p es) (t + o) ≡ copied_word p x t o }
    ensures whole { (p : Setup) (es : List Event) → IsTracing p es → (x t k o : ℕ)
        → stage_of p es x ≡ Scanning t k → o < size p x → (o < 3) ⊎ (3 + k ≤ o)
        → word_at (heap_after p es) (t + o) ≡ copied_word p x t o }
    ensures from { (p : Setup) (es : List Event) → IsTracing p es → (a : ℕ)
        → IsHeld (heap_after p es) a
        → IsHeld p.before a ⊎ ((x k : ℕ) × (stage_of p es x ≡ Scanning a k)) }
    ensures kept { (p : Setup) (es : List Event) → IsTracing p es → (a : ℕ)
        → IsHeld p.before a → IsHeld (heap_after p es) a }
    ensures done { (p : Setup) (es : List Event) → IsTracing p es → (x t k : ℕ)
        → stage_of p es x ≡ Scanning t k → IsHeld (heap_after p es) t }
{}

/// A scanned field, and a global that is set, has the target of what it referred to. Other globals
/// are as they were.
pub fn references_are_forwarded()
    ensures known { (p : Setup) (es : List Event) → IsTracing p es → (x t k i : ℕ)
        → stage_of p es x ≡ Scanning t k → i < k
        → IsSettled (stage_of p es) (ref_at p.before x i) }
    ensures field { (p : Setup) (es : List Event) → IsTracing p es → (x t k i : ℕ)
        → stage_of p es x ≡ Scanning t k → i < k
        → ref_at (heap_after p es) t i ≡ forward (stage_of p es) (ref_at p.before x i) }
    ensures fields { (p : Setup) (es : List Event) → IsTracing p es → (x t k : ℕ)
        → stage_of p es x ≡ Scanning t k → k ≤ refs p x }
    ensures global { (p : Setup) (es : List Event) → IsTracing p es → (g : ℕ) → g < GLOBALS
        → global_at (heap_after p es) g
        ≡ (if (machine_after p es).set g then forward (stage_of p es) (global_at p.before g)
        else global_at p.before g) }
    ensures set { (p : Setup) (es : List Event) → IsTracing p es → (g : ℕ) → g < GLOBALS
        → IsTrue ((machine_after p es).set g)
        → IsSettled (stage_of p es) (global_at p.before g) }
{}

/// A root, a global or an old object leads to each object that has a target, which was held as the
/// tracing began. Each root that asked for an object has its target.
pub fn claims_have_reasons()
    ensures reached { (p : Setup) (es : List Event) → IsTracing p es → (x t : ℕ)
        → target_of p es x ≡ Some t → TraceKeeps p (machine_after p es).asked x }
    ensures roots { (p : Setup) (es : List Event) → IsTracing p es → (x : ℕ)
        → 0 < (machine_after p es).asked x → (t : ℕ) × (target_of p es x ≡ Some t) }
    ensures held { (p : Setup) (es : List Event) → IsTracing p es → (x t : ℕ)
        → target_of p es x ≡ Some t → IsHeld p.before x }
{}

/// An object that may move is in place only if no block is Free.
pub fn objects_stay_for_want_of_blocks()
    ensures { (p : Setup) (es : List Event) → IsTracing p es → (x b : ℕ)
        → target_of p es x ≡ Some x → stays_old p x ≡ false → IsTrue (may_be_moved p x)
        → HasKind (heap_after p es) b kinds.Free → ⊥ }
{}

/// An object is claimed once if it has a target and is not old, and each of its fields is scanned
/// once. The fields of an old object are scanned only if it is logged.
pub fn each_field_is_scanned_once()
    ensures claims { (p : Setup) (es : List Event) → IsTracing p es → (x : ℕ)
        → stays_old p x ≡ false
        → count_by (is_claim_of x) es ≡ (if is_some (target_of p es x) then 1 else 0) }
    ensures scans { (p : Setup) (es : List Event) → IsTracing p es → (x : ℕ)
        → keeps_its_words p x ≡ false
        → count_by (is_scan_of x) es ≡ fields_scanned (stage_of p es x) }
    ensures old { (p : Setup) (es : List Event) → IsTracing p es → (x : ℕ)
        → IsTrue (stays_old p x) → count_by (is_claim_of x) es ≡ 0 }
    ensures idle { (p : Setup) (es : List Event) → IsTracing p es → (x : ℕ)
        → IsTrue (keeps_its_words p x) → count_by (is_scan_of x) es ≡ 0 }
{}

/// In a finished tracing each field of a claimed or logged object was scanned once. Each field of
/// an object that has a target, and each global, has the target of what it referred to.
pub fn finished_traces_are_whole()
    ensures scans { (p : Setup) (es : List Event) → IsTracing p es
        → IsFinished p (machine_after p es) → (x t : ℕ) → target_of p es x ≡ Some t
        → keeps_its_words p x ≡ false → count_by (is_scan_of x) es ≡ refs p x }
    ensures fields { (p : Setup) (es : List Event) → IsTracing p es
        → IsFinished p (machine_after p es) → (x t i : ℕ) → target_of p es x ≡ Some t
        → i < refs p x
        → ref_at (heap_after p es) t i ≡ forward (stage_of p es) (ref_at p.before x i) }
    ensures globals { (p : Setup) (es : List Event) → IsTracing p es
        → IsFinished p (machine_after p es) → (g : ℕ) → g < GLOBALS
        → global_at (heap_after p es) g ≡ forward (stage_of p es) (global_at p.before g) }
{}

/// A finished tracing preserves the graph: targets are one to one onto what lives, with the names,
/// shapes, numbers and pins of their objects; fields, globals and roots have the targets of what
/// they referred to; what may not move stays; and everything that roots and globals reach lives.
/// Roots are the registers that asked.
pub fn finished_traces_preserve_the_graph()
    ensures { (p : Setup) (es : List Event) → IsTracing p es → IsFinished p (machine_after p es)
        → (roots : List ℕ) → HaveAsked roots (machine_after p es).asked
        → PreservesObjects (may_be_moved p) p.before roots (Lives (base_after_trace p)
        (heap_after p es))
        (heap_after p es) (map (image (stage_of p es)) roots) (image (stage_of p es)) }
{}

/// A finished tracing keeps exactly the objects that a root, a global or, in a nursery collection,
/// an old object leads to. In a full collection in which the roots, and no others, asked, these are
/// the reachable objects.
pub fn finished_traces_are_precise()
    ensures kept { (p : Setup) (es : List Event) → IsTracing p es
        → IsFinished p (machine_after p es) → (a : ℕ)
        → (0 < image (stage_of p es) a) ↔ TraceKeeps p (machine_after p es).asked a }
    ensures full { (p : Setup) (es : List Event) → IsTracing p es
        → IsFinished p (machine_after p es) → (roots : List ℕ)
        → HaveAsked roots (machine_after p es).asked → p.nursery ≡ false
        → NoOthersAsked roots (machine_after p es).asked → (a : ℕ)
        → (0 < image (stage_of p es) a) ↔ IsReachable p.before roots a }
{}

/// What the row is after a finished tracing, without stages: what release of its blocks begins
/// with.
pub fn finished_traces_leave_rows()
    ensures { (p : Setup) (es : List Event) → IsTracing p es → IsFinished p (machine_after p es)
        → FinishedRow p (heap_after p es) (image (stage_of p es)) (machine_after p es).taken }
{}

/// After a finished tracing each block may be released.
pub fn finished_traces_may_be_released()
    ensures { (p : Setup) (es : List Event) → IsTracing p es → IsFinished p (machine_after p es)
        → (k : ℕ) → k < blocks p → IsReleasable (heap_after p es) k }
{}

/// In a nursery collection an old object is its own target. If it is not logged, its fields are as
/// they were.
pub fn old_objects_stay()
    ensures target { (p : Setup) (es : List Event) → IsTracing p es → (x : ℕ)
        → IsTrue (stays_old p x) → target_of p es x ≡ Some x }
    ensures idle { (p : Setup) (es : List Event) → IsTracing p es → (x : ℕ)
        → IsTrue (keeps_its_words p x) → stage_of p es x ≡ Scanning x (refs p x) }
    ensures fields { (p : Setup) (es : List Event) → IsTracing p es → (x i : ℕ)
        → IsTrue (keeps_its_words p x) → i < refs p x
        → ref_at (heap_after p es) x i ≡ ref_at p.before x i }
{}

/// A block that a worker took stays that worker's.
pub fn taken_blocks_stay_taken()
    ensures { (p : Setup) (m : Machine) (e : Event) → May p m e → (b : ℕ) → 0 < m.taken b
        → (next p m e).taken b ≡ m.taken b }
{}

/// An unlog bit is set if it was set, or if all words of an object that is not old are copied
/// there; it is set before the start bit. Pin bits are as they were.
pub fn bits_of_objects_are_set()
    ensures from { (p : Setup) (es : List Event) → IsTracing p es → (a : ℕ)
        → IsTrue (is_unlogged (heap_after p es) a) → IsTrue (is_unlogged p.before a)
        ⊎ ((x k : ℕ) × (stays_old p x ≡ false) × ((stage_of p es x ≡ Scanning a k)
        ⊎ ((stage_of p es x ≡ Copying a k) × (size p x < k)))) }
    ensures kept { (p : Setup) (es : List Event) → IsTracing p es → (a : ℕ)
        → IsTrue (is_unlogged p.before a) → IsTrue (is_unlogged (heap_after p es) a) }
    ensures done { (p : Setup) (es : List Event) → IsTracing p es → (x t k : ℕ)
        → stays_old p x ≡ false → stage_of p es x ≡ Scanning t k
        → IsTrue (is_unlogged (heap_after p es) t) }
    ensures pins { (p : Setup) (es : List Event) → IsTracing p es → (a : ℕ)
        → is_pinned (heap_after p es) a ≡ is_pinned p.before a }
{}

/// An object whose unlog bit is set is its own target, in both kinds of collections. One that may
/// not move has no target if the bit is clear, where nothing that is claimed waits to be copied.
pub fn unlog_bits_show_what_is_claimed()
    ensures marked { (p : Setup) (es : List Event) → IsTracing p es → (x : ℕ)
        → IsHeld p.before x → IsTrue (is_unlogged (heap_after p es) x)
        → target_of p es x ≡ Some x }
    ensures stays { (p : Setup) (es : List Event) (v : View) → IsTracing p es
        → Holds p (machine_after p es) v → (x : ℕ) → StaysHere p v x
        → IsTrue (is_unlogged (heap_after p es) x) ↔ (target_of p es x ≡ Some x) }
{}

/// The word of a block that a worker took has the kind to copy into and the worker as owner. Other
/// block words, the stop word and the budget word are as they were. A line bit is set if it was
/// set, or if a target touches the line, and one that is set stays set.
pub fn side_words_follow_events()
    ensures block { (p : Setup) (es : List Event) → IsTracing p es → (b : ℕ) → b < blocks p
        → (machine_after p es).taken b ≡ 0
        → block_word (heap_after p es) b ≡ block_word p.before b }
    ensures taken { (p : Setup) (es : List Event) → IsTracing p es → (b : ℕ) → b < blocks p
        → 0 < (machine_after p es).taken b
        → block_word (heap_after p es) b ≡ taken_word p ((machine_after p es).taken b) }
    ensures worker { (p : Setup) (es : List Event) → IsTracing p es → (b : ℕ)
        → (machine_after p es).taken b ≤ p.workers }
    ensures stop { (p : Setup) (es : List Event) → IsTracing p es → (i : ℕ)
        → InZone (blocks p) StopWord i ⊎ InZone (blocks p) BudgetWord i
        → word_at (heap_after p es) i ≡ word_at p.before i }
    ensures line { (p : Setup) (es : List Event) → IsTracing p es → (n : ℕ)
        → n < 256 * blocks p → IsTrue (bit_of (blocks p) LineWords (heap_after p es).words n)
        → IsTrue (bit_of (blocks p) LineWords p.before.words n)
        ⊎ ((x t : ℕ) × (target_of p es x ≡ Some t)
        × TouchesLine (blocks p) t (size p x) n) }
    ensures lines { (p : Setup) (es : List Event) → IsTracing p es → (n : ℕ)
        → n < 256 * blocks p → IsTrue (bit_of (blocks p) LineWords p.before.words n)
        → IsTrue (bit_of (blocks p) LineWords (heap_after p es).words n) }
    ensures stays { (p : Setup) (es more : List Event) → IsTracing p (es ++ more) → (n : ℕ)
        → n < 256 * blocks p → IsTrue (bit_of (blocks p) LineWords (heap_after p es).words n)
        → IsTrue (bit_of (blocks p) LineWords (heap_after p (es ++ more)).words n) }
{}

/// A tracing begins with the words of the heap that it is given, but for line and unlog bits. The
/// unlog bits are set of those objects that have their target: of none in a full collection, and of
/// the old ones in a nursery one. Those that were logged are known by the list that is given. Under
/// a plan with lines a full collection begins with all line bits clear.
pub fn traces_begin_with_the_heap()
    ensures words { (s : HeapState) (run : TraceRun) (w i : ℕ) → IsLawfulButLines s
        → (IsTrue (is_nursery run.collect) → ListsLogged s run.logged.items)
        → (InZone s.blocks LineWords i → ⊥) → (InZone s.blocks UnlogBits i → ⊥)
        → word_at (setup_of s run w).before i ≡ word_at s i }
    ensures held { (s : HeapState) (run : TraceRun) (w a : ℕ) → IsLawfulButLines s
        → (IsTrue (is_nursery run.collect) → ListsLogged s run.logged.items)
        → IsHeld (setup_of s run w).before a ↔ IsHeld s a }
    ensures logged { (s : HeapState) (run : TraceRun) (w a : ℕ) → IsLawfulButLines s
        → (IsTrue (is_nursery run.collect) → ListsLogged s run.logged.items)
        → (IsTrue (is_nursery run.collect) → RemembersYoung s)
        → was_logged (setup_of s run w) a ≡ (is_nursery run.collect && is_logged s a) }
    ensures lines { (s : HeapState) (run : TraceRun) (w k line : ℕ) → IsLawfulButLines s
        → IsTrue (run.lines) → run.collect ≡ Full → k < s.blocks → line < 256
        → line_marked (setup_of s run w).before k line ≡ false }
    ensures unlogs { (s : HeapState) (run : TraceRun) (w a : ℕ) → IsLawfulButLines s
        → (IsTrue (is_nursery run.collect) → ListsLogged s run.logged.items)
        → (IsTrue (is_nursery run.collect) → RemembersYoung s)
        → is_unlogged (setup_of s run w).before a ≡ stays_old (setup_of s run w) a }
{}
