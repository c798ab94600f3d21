//! What the accesses of an object do to its numbers and references.

ghost use Rattle.std.specs.Prelude.{◌≡◌, ◌+◌, ◌%◌, ◌^◌, ◌<◌, ◌≤◌, ℕ, Option, Some, None};
ghost use Rattle.programs.specs.Prelude.{name, IdealHeap, Field, Nil, name_of_field, field_reply, field_to, step, number_of, field_in_heap};
ghost use Rattle.programs.specs.Prelude.command;
ghost use Rattle.programs.specs.Prelude.reply;

/// `read` replies the number and changes nothing, and a number that it replies is the object's. If
/// the register is nil, the reply is `Null`.
pub fn reads()
    ensures number { (h : IdealHeap) (m s j x : ℕ) → number_of h m s j ≡ Some x
        → step h m (command.Read s j) ≡ (reply.Num x, h) }
    ensures replied { (h : IdealHeap) (m s j x : ℕ)
        → (step h m (command.Read s j)).0 ≡ reply.Num x → number_of h m s j ≡ Some x }
    ensures same { (h : IdealHeap) (m s j : ℕ) → (step h m (command.Read s j)).1 ≡ h }
    ensures nil { (h : IdealHeap) (m s j : ℕ) → h.registers m s ≡ None
        → (step h m (command.Read s j)).0 ≡ reply.Null }
{}

/// `write` sets a number that the object has, and `read` replies it then. `add` replies the number
/// and adds to it, modulo 2^64. `swap` sets it if it is the one that is given, and else changes
/// nothing.
pub fn numbers_change()
    ensures write { (h : IdealHeap) (m s j x v : ℕ) → number_of h m s j ≡ Some x
        → (step h m (command.Write s j v)).0 ≡ reply.Done }
    ensures written { (h : IdealHeap) (m s j x v : ℕ) → number_of h m s j ≡ Some x
        → number_of (step h m (command.Write s j v)).1 m s j ≡ Some v }
    ensures read_after_write { (h : IdealHeap) (m s j x v : ℕ) → number_of h m s j ≡ Some x
        → (step (step h m (command.Write s j v)).1 m (command.Read s j)).0 ≡ reply.Num v }
    ensures add { (h : IdealHeap) (m s j x v : ℕ) → number_of h m s j ≡ Some x
        → (step h m (command.Add s j v)).0 ≡ reply.Num x }
    ensures added { (h : IdealHeap) (m s j x v : ℕ) → number_of h m s j ≡ Some x
        → number_of (step h m (command.Add s j v)).1 m s j ≡ Some ((x + v) % 2 ^ 64) }
    ensures swap { (h : IdealHeap) (m s j was next : ℕ) → number_of h m s j ≡ Some was
        → (step h m (command.Swap s j was next)).0 ≡ reply.Yes }
    ensures swapped { (h : IdealHeap) (m s j was next : ℕ) → number_of h m s j ≡ Some was
        → number_of (step h m (command.Swap s j was next)).1 m s j ≡ Some next }
    ensures kept { (h : IdealHeap) (m s j x was next : ℕ) → number_of h m s j ≡ Some x
        → (x ≡ was → ⊥) → step h m (command.Swap s j was next) ≡ (reply.No, h) }
{}

/// `get` sets its register to what the reference holds, and replies it. `put` sets a reference that
/// the object has to what the register holds, and `get` gives it back then.
pub fn gets_and_puts()
    ensures get { (h : IdealHeap) (m d s i : ℕ) (f : Field) → field_in_heap h m s i ≡ Some f
        → (step h m (command.Get d s i)).0 ≡ field_reply f }
    ensures got { (h : IdealHeap) (m d s i : ℕ) (f : Field) → field_in_heap h m s i ≡ Some f
        → (step h m (command.Get d s i)).1.registers m d ≡ name_of_field f }
    ensures put { (h : IdealHeap) (m s i v : ℕ) (f : Field) → field_in_heap h m s i ≡ Some f
        → (step h m (command.Put s i v)).0 ≡ reply.Done }
    ensures stored { (h : IdealHeap) (m s i v : ℕ) (f : Field) → field_in_heap h m s i ≡ Some f
        → field_in_heap (step h m (command.Put s i v)).1 m s i ≡ Some (field_to (h.registers m v)) }
    ensures get_after_put { (h : IdealHeap) (m d s i v : ℕ) (f : Field)
        → field_in_heap h m s i ≡ Some f
        → (step (step h m (command.Put s i v)).1 m (command.Get d s i)).1.registers m d
        ≡ h.registers m v }
{}

/// A new object is in its register. Its numbers are zeros and its references nil, as many as were
/// asked for.
pub fn new_objects()
    ensures reply { (h : IdealHeap) (m d refs nums : ℕ)
        → (step h m (command.New d refs nums)).0 ≡ reply.New (name m (h.births m + 1)) }
    ensures register { (h : IdealHeap) (m d refs nums : ℕ)
        → (step h m (command.New d refs nums)).1.registers m d
        ≡ Some (name m (h.births m + 1)) }
    ensures numbers { (h : IdealHeap) (m d refs nums j : ℕ) → j < nums
        → number_of (step h m (command.New d refs nums)).1 m d j ≡ Some 0 }
    ensures no_number { (h : IdealHeap) (m d refs nums j : ℕ) → nums ≤ j
        → number_of (step h m (command.New d refs nums)).1 m d j ≡ None }
    ensures fields { (h : IdealHeap) (m d refs nums i : ℕ) → i < refs
        → field_in_heap (step h m (command.New d refs nums)).1 m d i ≡ Some Nil }
    ensures no_field { (h : IdealHeap) (m d refs nums i : ℕ) → refs ≤ i
        → field_in_heap (step h m (command.New d refs nums)).1 m d i ≡ None }
{}
