//! What commands do to lists.

ghost use Rattle.std.specs.Prelude.{◌≡◌, ◌≢◌, ℕ, List, [], ◌∷◌, Option, None, Some};
ghost use Rattle.programs.specs.Prelude.{Name, Command, IdealHeap, step, IsGrown, changed_by, SetsField, IsListFrom, IsList, IsGlobalList, HasElement, KeepsLists, heap_after, pushes, pops, number_of};
ghost use Rattle.programs.specs.Prelude.command;
ghost use Rattle.programs.specs.Prelude.reply;

/// A list has one sequence of numbers. It stays over each command that changes none of its
/// elements: one that changes no object, one on another object, and `new`.
pub fn lists_stay()
    ensures one { (h : IdealHeap) (o : Option Name) (xs ys : List ℕ) → IsListFrom h o xs
        → IsListFrom h o ys → xs ≡ ys }
    ensures elsewhere { (h : IdealHeap) (m : ℕ) (c : Command) (o : Option Name) (xs : List ℕ)
        → ((n : Name) → HasElement h o xs n → changed_by h m c ≡ Some n → ⊥)
        → IsListFrom h o xs → IsListFrom (step h m c).1 o xs }
    ensures unchanged { (h : IdealHeap) (m : ℕ) (c : Command) → changed_by h m c ≡ None
        → KeepsLists h (step h m c).1 }
    ensures new { (h : IdealHeap) (m d refs nums : ℕ) → IsGrown h
        → KeepsLists h (step h m (command.New d refs nums)).1 }
    ensures held { (h : IdealHeap) (m : ℕ) (c : Command) (k s : ℕ) (xs : List ℕ)
        → (SetsField m c k s → ⊥) → KeepsLists h (step h m c).1 → IsList h k s xs
        → IsList (step h m c).1 k s xs }
{}

/// `push` puts a number at the front of a list, and `pop` takes it off: it replies the number, or
/// `Null` if the list is empty. Both keep each list, and the other registers with their numbers.
pub fn pops_and_pushes()
    ensures push { (h : IdealHeap) (m d s x : ℕ) (xs : List ℕ) → IsGrown h
        → s ≢ d → IsList h m s xs → IsList (heap_after h m (pushes d s x)) m s (x ∷ xs) }
    ensures push_keeps { (h : IdealHeap) (m d s x : ℕ) → IsGrown h
        → KeepsLists h (heap_after h m (pushes d s x)) }
    ensures push_leaves { (h : IdealHeap) (m d s x k r : ℕ) → (k ≡ m → r ≡ d → ⊥)
        → (k ≡ m → r ≡ s → ⊥)
        → (heap_after h m (pushes d s x)).registers k r ≡ h.registers k r }
    ensures push_numbers { (h : IdealHeap) (m d s x k r j : ℕ) → IsGrown h
        → (k ≡ m → r ≡ d → ⊥) → (k ≡ m → r ≡ s → ⊥)
        → number_of (heap_after h m (pushes d s x)) k r j ≡ number_of h k r j }
    ensures pop { (h : IdealHeap) (m s x : ℕ) (xs : List ℕ) → IsList h m s (x ∷ xs)
        → (step h m (command.Read s 0)).0 ≡ reply.Num x }
    ensures popped { (h : IdealHeap) (m s x : ℕ) (xs : List ℕ) → IsList h m s (x ∷ xs)
        → IsList (heap_after h m (pops s)) m s xs }
    ensures pop_keeps { (h : IdealHeap) (m s : ℕ) → KeepsLists h (heap_after h m (pops s)) }
    ensures pop_leaves { (h : IdealHeap) (m s k r : ℕ) → (k ≡ m → r ≡ s → ⊥)
        → (heap_after h m (pops s)).registers k r ≡ h.registers k r }
    ensures pop_numbers { (h : IdealHeap) (m s k r j : ℕ) → (k ≡ m → r ≡ s → ⊥)
        → number_of (heap_after h m (pops s)) k r j ≡ number_of h k r j }
    ensures empty { (h : IdealHeap) (m s : ℕ) → IsList h m s []
        → step h m (command.Read s 0) ≡ (reply.Null, h) }
    ensures pop_empty { (h : IdealHeap) (m s : ℕ) → IsList h m s []
        → heap_after h m (pops s) ≡ h }
{}

/// A list is passed on by a global, and by a copy of its register.
pub fn lists_are_passed_on()
    ensures share { (h : IdealHeap) (m g s : ℕ) (xs : List ℕ) → IsList h m s xs
        → IsGlobalList (step h m (command.Share g s)).1 g xs }
    ensures load { (h : IdealHeap) (m d g : ℕ) (xs : List ℕ) → IsGlobalList h g xs
        → IsList (step h m (command.Load d g)).1 m d xs }
    ensures copy { (h : IdealHeap) (m d s : ℕ) (xs : List ℕ) → IsList h m s xs
        → IsList (step h m (command.Move d s)).1 m d xs }
{}

/// `put` links the first element of a list to another list that does not lead to it: so a list is
/// turned round in place, element by element. What held the elements behind it keeps them.
pub fn elements_are_linked()
    ensures linked { (h : IdealHeap) (m s v x : ℕ) (xs ys : List ℕ) → IsList h m s (x ∷ xs)
        → IsList h m v ys → ((n : Name) → h.registers m s ≡ Some n
        → HasElement h (h.registers m v) ys n → ⊥)
        → IsList (step h m (command.Put s 0 v)).1 m s (x ∷ ys) }
    ensures rest { (h : IdealHeap) (m s i v : ℕ) (o : Option Name) (zs : List ℕ)
        → IsListFrom h o zs → ((n : Name) → h.registers m s ≡ Some n
        → HasElement h o zs n → ⊥) → IsListFrom (step h m (command.Put s i v)).1 o zs }
{}
