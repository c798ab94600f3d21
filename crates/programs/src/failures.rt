//! Accesses of what is not there, and what a reply shows.

ghost use Rattle.std.specs.Prelude.{◌≡◌, ℕ, None, Some};
ghost use Rattle.programs.specs.Prelude.{Name, IdealHeap, Field, Nil, At, step, missing_reply, number_of, field_in_heap};
ghost use Rattle.programs.specs.Prelude.command;
ghost use Rattle.programs.specs.Prelude.reply;

/// A command on a number or a reference that is not there replies `Null` if the register is nil,
/// and `Range` if its object has none. It changes nothing: `get` keeps its register.
pub fn accesses_fail()
    ensures read { (h : IdealHeap) (m s j : ℕ) → number_of h m s j ≡ None
        → step h m (command.Read s j) ≡ (missing_reply (h.registers m s), h) }
    ensures write { (h : IdealHeap) (m s j v : ℕ) → number_of h m s j ≡ None
        → step h m (command.Write s j v) ≡ (missing_reply (h.registers m s), h) }
    ensures add { (h : IdealHeap) (m s j v : ℕ) → number_of h m s j ≡ None
        → step h m (command.Add s j v) ≡ (missing_reply (h.registers m s), h) }
    ensures swap { (h : IdealHeap) (m s j was next : ℕ) → number_of h m s j ≡ None
        → step h m (command.Swap s j was next) ≡ (missing_reply (h.registers m s), h) }
    ensures get { (h : IdealHeap) (m d s i : ℕ) → field_in_heap h m s i ≡ None
        → step h m (command.Get d s i) ≡ (missing_reply (h.registers m s), h) }
    ensures put { (h : IdealHeap) (m s i v : ℕ) → field_in_heap h m s i ≡ None
        → step h m (command.Put s i v) ≡ (missing_reply (h.registers m s), h) }
    ensures pin { (h : IdealHeap) (m s : ℕ) → h.registers m s ≡ None
        → step h m (command.Pin s) ≡ (reply.Null, h) }
    ensures unpin { (h : IdealHeap) (m s : ℕ) → h.registers m s ≡ None
        → step h m (command.Unpin s) ≡ (reply.Null, h) }
{}

/// What a command replies shows what was there.
pub fn replies_show()
    ensures write { (h : IdealHeap) (m s j v : ℕ)
        → (step h m (command.Write s j v)).0 ≡ reply.Done
        → (x : ℕ) × (number_of h m s j ≡ Some x) }
    ensures add { (h : IdealHeap) (m s j v x : ℕ)
        → (step h m (command.Add s j v)).0 ≡ reply.Num x → number_of h m s j ≡ Some x }
    ensures swap { (h : IdealHeap) (m s j was next : ℕ)
        → (step h m (command.Swap s j was next)).0 ≡ reply.Yes
        → number_of h m s j ≡ Some was }
    ensures not_swapped { (h : IdealHeap) (m s j was next : ℕ)
        → (step h m (command.Swap s j was next)).0 ≡ reply.No
        → (x : ℕ) × (number_of h m s j ≡ Some x) × (x ≡ was → ⊥) }
    ensures nil { (h : IdealHeap) (m d s i : ℕ)
        → (step h m (command.Get d s i)).0 ≡ reply.Nil → field_in_heap h m s i ≡ Some Nil }
    ensures got { (h : IdealHeap) (m d s i : ℕ) (n : Name)
        → (step h m (command.Get d s i)).0 ≡ reply.Ref n → field_in_heap h m s i ≡ Some (At n) }
    ensures put { (h : IdealHeap) (m s i v : ℕ)
        → (step h m (command.Put s i v)).0 ≡ reply.Done
        → (f : Field) × (field_in_heap h m s i ≡ Some f) }
{}
