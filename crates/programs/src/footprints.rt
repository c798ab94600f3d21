//! What a command leaves as it was.

ghost use Rattle.std.specs.Prelude.{◌≡◌, ◌+◌, ℕ, Option, Some, None};
ghost use Rattle.programs.specs.Prelude.{Name, Command, name, IdealHeap, At, step, number_of_object, number_of, field_in, field_in_heap, IsGrown, changed_by, shared_by, SetsField, Changes, HitsNumber, HitsField};
ghost use Rattle.programs.specs.Prelude.command;

/// A command leaves each register but the one that it sets, each global but the one that it shares,
/// and each number and reference but the one that it changes.
pub fn commands_leave_the_rest()
    ensures registers { (h : IdealHeap) (m : ℕ) (c : Command) (k s : ℕ)
        → (SetsField m c k s → ⊥) → (step h m c).1.registers k s ≡ h.registers k s }
    ensures globals { (h : IdealHeap) (m : ℕ) (c : Command) (g : ℕ)
        → (shared_by c ≡ Some g → ⊥) → (step h m c).1.globals g ≡ h.globals g }
    ensures objects { (h : IdealHeap) (m : ℕ) (c : Command) (n : Name)
        → (changed_by h m c ≡ Some n → ⊥) → (step h m c).1.records n ≡ h.records n }
    ensures numbers { (h : IdealHeap) (m : ℕ) (c : Command) (o : Option Name) (j : ℕ)
        → (Changes h m c o → HitsNumber c j → ⊥)
        → number_of_object (step h m c).1 o j ≡ number_of_object h o j }
    ensures fields { (h : IdealHeap) (m : ℕ) (c : Command) (o : Option Name) (i : ℕ)
        → (Changes h m c o → HitsField c i → ⊥)
        → field_in (step h m c).1 o i ≡ field_in h o i }
    ensures number { (h : IdealHeap) (m : ℕ) (c : Command) (k s j : ℕ)
        → (SetsField m c k s → ⊥) → (Changes h m c (h.registers k s) → HitsNumber c j → ⊥)
        → number_of (step h m c).1 k s j ≡ number_of h k s j }
    ensures field { (h : IdealHeap) (m : ℕ) (c : Command) (k s i : ℕ) → (SetsField m c k s → ⊥)
        → (Changes h m c (h.registers k s) → HitsField c i → ⊥)
        → field_in_heap (step h m c).1 k s i ≡ field_in_heap h k s i }
{}

/// In a grown heap nothing has the name of a mutator's next object yet: no register, no global and
/// no reference. So `new` leaves each number and reference of what the other registers hold.
pub fn new_objects_are_new()
    ensures registers { (h : IdealHeap) (m k s : ℕ) → IsGrown h
        → h.registers k s ≡ Some (name m (h.births m + 1)) → ⊥ }
    ensures globals { (h : IdealHeap) (m g : ℕ) → IsGrown h
        → h.globals g ≡ Some (name m (h.births m + 1)) → ⊥ }
    ensures fields { (h : IdealHeap) (m i : ℕ) (o : Option Name) → IsGrown h
        → field_in h o i ≡ Some (At (name m (h.births m + 1))) → ⊥ }
    ensures number { (h : IdealHeap) (m d refs nums k s j : ℕ) → IsGrown h
        → (SetsField m (command.New d refs nums) k s → ⊥)
        → number_of (step h m (command.New d refs nums)).1 k s j ≡ number_of h k s j }
    ensures field { (h : IdealHeap) (m d refs nums k s i : ℕ) → IsGrown h
        → (SetsField m (command.New d refs nums) k s → ⊥)
        → field_in_heap (step h m (command.New d refs nums)).1 k s i ≡ field_in_heap h k s i }
{}
