//! Births and pins.

ghost use Rattle.std.specs.Prelude.{◌≡◌, ◌+◌, ℕ, Some, true, false};
ghost use Rattle.programs.specs.Prelude.{Command, Name, is_new, IdealHeap, step, pinned_by};
ghost use Rattle.programs.specs.Prelude.command;
ghost use Rattle.programs.specs.Prelude.reply;

/// Only the `new` of a mutator changes its number of births: by one.
pub fn births_are_counted()
    ensures new { (h : IdealHeap) (m d refs nums : ℕ)
        → (step h m (command.New d refs nums)).1.births m ≡ h.births m + 1 }
    ensures rest { (h : IdealHeap) (m : ℕ) (c : Command) (k : ℕ)
        → (is_new c ≡ true → k ≡ m → ⊥) → (step h m c).1.births k ≡ h.births k }
{}

/// `pin` and `unpin` reply whether they changed something. Each leaves all objects pinned or not
/// but its own, and every other command leaves all.
pub fn pins_are_kept()
    ensures pinned { (h : IdealHeap) (m s : ℕ) (n : Name) → h.registers m s ≡ Some n
        → (step h m (command.Pin s)).1.pinned n ≡ true }
    ensures unpinned { (h : IdealHeap) (m s : ℕ) (n : Name) → h.registers m s ≡ Some n
        → (step h m (command.Unpin s)).1.pinned n ≡ false }
    ensures pin { (h : IdealHeap) (m s : ℕ) (n : Name) → h.registers m s ≡ Some n
        → h.pinned n ≡ false → (step h m (command.Pin s)).0 ≡ reply.Yes }
    ensures pin_again { (h : IdealHeap) (m s : ℕ) (n : Name) → h.registers m s ≡ Some n
        → h.pinned n ≡ true → (step h m (command.Pin s)).0 ≡ reply.No }
    ensures unpin { (h : IdealHeap) (m s : ℕ) (n : Name) → h.registers m s ≡ Some n
        → h.pinned n ≡ true → (step h m (command.Unpin s)).0 ≡ reply.Yes }
    ensures unpin_again { (h : IdealHeap) (m s : ℕ) (n : Name) → h.registers m s ≡ Some n
        → h.pinned n ≡ false → (step h m (command.Unpin s)).0 ≡ reply.No }
    ensures rest { (h : IdealHeap) (m : ℕ) (c : Command) (n : Name)
        → (pinned_by h m c ≡ Some n → ⊥) → (step h m c).1.pinned n ≡ h.pinned n }
{}
