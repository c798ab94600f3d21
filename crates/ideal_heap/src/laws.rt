//! Laws of names, updates, steps, runs and orders.

ghost use Rattle.std.specs.Prelude.{◌≤◌, IsTrue, ◌≡◌, ◌↔◌, ℕ, ◌+◌, ◌<◌, List, ◌++◌, ◌∷◌, [], map, take, length, false, Option, Some, Contains, IsSomeAnd};
ghost use Rattle.std.specs.List.{AllByRecursion};
ghost use Rattle.ideal_heap.specs.declared.name.Name.{Name};
ghost use Rattle.ideal_heap.specs.declared.command.Command.{Command};
ghost use Rattle.ideal_heap.specs.Names.{name, IsName, IsBefore, name_code, name_of};
ghost use Rattle.std.specs.declared.cmp.Ordering.TheVariants.{Less};
ghost use Rattle.ideal_heap.specs.Commands.{IsValid};
ghost use Rattle.ideal_heap.specs.Ideal.{IdealHeap, Record, IsIdeal, IsClosed, HasRecord, HasShapeOf, at_name, at_number, empty, step};
ghost use Rattle.ideal_heap.specs.Reach.{PathReaches};
ghost use Rattle.ideal_heap.specs.Runs.{Entry, IsRun, IsOrderPrefix, IsOrder, heap_after_run, after_entry, alone, commands_of, replies_of, is_full};

use crate::name::Name;

/// `name_of` inverts `name_code` on the names that objects may have, and `name_code` inverts
/// `name_of`.
pub fn names_and_codes()
    ensures back { (n : Name) → IsName n → name_of (name_code n) ≡ n }
    ensures code { (v : ℕ) → name_code (name_of v) ≡ v }
{}

/// `<` on names, by which they are sorted, is the order `IsBefore`.
pub fn names_are_ordered()
    ensures { (m n : Name) → (⟦<Name as Ord>⟧.cmp m n ≡ Less) ↔ IsBefore m n }
{}

/// An update of a map sets the value at its key and changes no other.
pub fn updates()
    ensures same_name { (f : Name → Option Record) (n : Name) (x : Option Record)
        → at_name f n x n ≡ x }
    ensures other_name { (f : Name → Option Record) (n k : Name) (x : Option Record)
        → (k ≡ n → ⊥) → at_name f n x k ≡ f k }
    ensures same_number { (f : ℕ → Option Name) (n : ℕ) (x : Option Name)
        → at_number f n x n ≡ x }
    ensures other_number { (f : ℕ → Option Name) (n k : ℕ) (x : Option Name)
        → (k ≡ n → ⊥) → at_number f n x k ≡ f k }
{}

/// In a closed heap, all names that paths from registers and globals reach are names of objects.
pub fn paths_reach_objects()
    ensures { (h : IdealHeap) (n : Name) → IsClosed h → PathReaches h n → HasRecord h n }
{}

/// The empty heap is an ideal heap of any mutators, and each valid command of one of them leaves an
/// ideal heap. So does each run. A step itself never replies `Full`.
pub fn steps()
    ensures start { (ms : List ℕ) → IsIdeal ms empty }
    ensures next { (ms : List ℕ) (h : IdealHeap) (m : ℕ) (c : Command) → IsIdeal ms h
        → Contains ms m → IsValid c → IsIdeal ms (step h m c).1 }
    ensures closed { (h : IdealHeap) (m : ℕ) (c : Command) → IsClosed h
        → IsClosed (step h m c).1 }
    ensures pins { (ms : List ℕ) (h : IdealHeap) (n : Name) → IsIdeal ms h
        → IsTrue (h.pinned n) → n.birth ≤ h.births n.mutator }
    ensures answered { (h : IdealHeap) (m : ℕ) (c : Command)
        → is_full (step h m c).0 ≡ false }
    ensures run { (ms : List ℕ) (h : IdealHeap) (es : List Entry) → IsIdeal ms h
        → AllByRecursion (λ e. Contains ms e.mutator × IsValid e.command) es
        → IsIdeal ms (heap_after_run h es) }
{}

/// In an ideal heap no object has birth 0, and none has the name of a mutator's next object. The
/// registers and globals from 16 on are nil, and all registers of those who are no mutators.
pub fn ideal_heaps()
    ensures unborn { (ms : List ℕ) (h : IdealHeap) (m : ℕ) → IsIdeal ms h
        → HasRecord h (name m 0) → ⊥ }
    ensures fresh { (ms : List ℕ) (h : IdealHeap) (m : ℕ) → IsIdeal ms h
        → HasRecord h (name m (h.births m + 1)) → ⊥ }
    ensures registers { (ms : List ℕ) (h : IdealHeap) (m : ℕ) (n : Name) → IsIdeal ms h
        → h.registers m 16 ≡ Some n → ⊥ }
    ensures globals { (ms : List ℕ) (h : IdealHeap) (n : Name) → IsIdeal ms h
        → h.globals 16 ≡ Some n → ⊥ }
    ensures mutators { (ms : List ℕ) (h : IdealHeap) (m d : ℕ) (n : Name) → IsIdeal ms h
        → h.registers m d ≡ Some n → Contains ms m }
{}

/// No step, and so no run, removes a record or changes how many references and numbers it has.
pub fn records_stay()
    ensures run { (ms : List ℕ) (h : IdealHeap) (es : List Entry) (n : Name) (x : Record)
        → IsIdeal ms h → AllByRecursion (λ e. Contains ms e.mutator × IsValid e.command) es
        → h.records n ≡ Some x → IsSomeAnd ((heap_after_run h es).records n) (HasShapeOf x) }
    ensures step { (ms : List ℕ) (h : IdealHeap) (m : ℕ) (c : Command) (n : Name) (x : Record)
        → IsIdeal ms h → h.records n ≡ Some x
        → IsSomeAnd ((step h m c).1.records n) (HasShapeOf x) }
{}

/// `es ++ more` is a run if and only if `es` is a run and `more` is a run from the heap after `es`.
pub fn runs_go_on()
    ensures longer { (h : IdealHeap) (es more : List Entry) → IsRun h es
        → IsRun (heap_after_run h es) more → IsRun h (es ++ more) }
    ensures heap { (h : IdealHeap) (es more : List Entry)
        → heap_after_run h (es ++ more) ≡ heap_after_run (heap_after_run h es) more }
    ensures prefix { (h : IdealHeap) (es more : List Entry) → IsRun h (es ++ more)
        → IsRun h es }
    ensures rest { (h : IdealHeap) (es more : List Entry) → IsRun h (es ++ more)
        → IsRun (heap_after_run h es) more }
{}

/// If no `new` was refused, the replies of one mutator are a function of its commands. Its entries
/// in the order of its trace are always in an order that `meet` allows.
pub fn one_mutator()
    ensures replies { (h : IdealHeap) (m : ℕ) (es : List Entry) → IsRun h es
        → AllByRecursion (λ e. e.mutator ≡ m) es
        → AllByRecursion (λ e. is_full e.reply ≡ false) es
        → replies_of m es ≡ alone h m (commands_of m es) }
    ensures prefix { (t : List Command) (es : List Entry)
        → AllByRecursion (λ e. e.mutator ≡ 1) es
        → map (λ e. e.command) es ≡ take (length es) t → IsOrderPrefix (t ∷ []) es }
    ensures order { (t : List Command) (es : List Entry)
        → AllByRecursion (λ e. e.mutator ≡ 1) es → map (λ e. e.command) es ≡ t
        → IsOrder (t ∷ []) es }
{}
