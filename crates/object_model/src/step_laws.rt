//! Laws on steps, preserved heaps, and when a heap represents an ideal heap.

ghost use Rattle.std.specs.Prelude.{◌↔◌, ◌≡◌, ◌≢◌, ℕ, Bool, IsTrue, List, [], ◌∷◌, map};
ghost use Rattle.std.specs.List.{Contains};
ghost use Rattle.ideal_heap.specs.Ideal.{IdealHeap, step};
ghost use Rattle.ideal_heap.specs.declared.name.Name.{Name};
ghost use Rattle.ideal_heap.specs.declared.command.Command.{Command};
ghost use Rattle.ideal_heap.specs.declared.reply.Reply.{Reply};
ghost use Rattle.ideal_heap.specs.declared.reply.Reply.TheVariants as replies;
ghost use Rattle.object_model.specs.Objects.{HeapState, IsHeld};
ghost use Rattle.object_model.specs.Ages.{is_old, is_logged, RemembersYoung};
ghost use Rattle.object_model.specs.Graphs.{MutatorState, IsReachable, Represents, roots_of, with_mutator};
ghost use Rattle.object_model.specs.Changes.{ClearsUnlog, ObjectsStay};
ghost use Rattle.object_model.specs.Preserving.{PreservesObjects};
ghost use Rattle.object_model.specs.Steps.{TakesStep};
ghost use Rattle.object_model.specs.Agreement.{RepresentsOn};
ghost use Rattle.object_model.specs.Lawful.{IsWellFormed};

/// A heap is well formed and represents an ideal heap if and only if it does so on the set of its
/// reachable addresses.
pub fn heaps_represent_on_sets()
    ensures { (s : HeapState) (ms : List MutatorState) (h : IdealHeap)
        → (IsWellFormed s × Represents s ms h)
        ↔ RepresentsOn s ms h (IsReachable s (roots_of ms)) }
{}

/// A heap whose objects are preserved represents the same ideal heap, each register with the target
/// of its address.
pub fn preserved_heaps_represent()
    ensures represents { (moves : ℕ → Bool) (old new : HeapState) (ms : List MutatorState)
        (h : IdealHeap) (after : List ℕ) (target : ℕ → ℕ) → IsWellFormed old
        → IsWellFormed new
        → PreservesObjects moves old (roots_of ms) (IsHeld new) new after target
        → Represents old ms h
        → Represents new (map {A = MutatorState} {B = MutatorState}
        (λ m. record m { registers = map target m.registers }) ms) h }
    ensures roots { (moves : ℕ → Bool) (old new : HeapState) (ms : List MutatorState)
        (after : List ℕ) (target : ℕ → ℕ)
        → PreservesObjects moves old (roots_of ms) (IsHeld new) new after target
        → after ≡ roots_of (map {A = MutatorState} {B = MutatorState}
        (λ m. record m { registers = map target m.registers }) ms) }
{}

/// To clear the unlog bit of an old object logs it, and no other object. A heap that remembers its
/// young objects still does.
pub fn cleared_bits_log()
    ensures logged { (old new : HeapState) (a : ℕ) → ClearsUnlog old new a → IsHeld old a
        → IsTrue (is_old old a) → IsTrue (is_logged new a) }
    ensures others { (old new : HeapState) (a x : ℕ) → ClearsUnlog old new a → x ≢ a
        → is_logged new x ≡ is_logged old x }
    ensures remembers { (old new : HeapState) (a : ℕ) → ClearsUnlog old new a
        → RemembersYoung old → RemembersYoung new }
{}

/// Two steps, one after the other, of two mutators or of one. Each replies as the ideal heap does,
/// the second after the first, and the heap after both represents the ideal heap after both. For a
/// mutator that runs alone the same holds on the set of all held objects, reachable or not.
pub fn steps_follow_steps()
    ensures other { (s mid new : HeapState) (m k m' k' : MutatorState) (c d : Command)
        (r q : Reply) (ms : List MutatorState) (h : IdealHeap) → IsWellFormed s
        → Represents s ms h → Contains ms m → Contains ms k → k.number ≢ m.number
        → TakesStep s m c r mid m' → TakesStep mid k d q new k'
        → (r ≡ (step h m.number c).0) × (q ≡ (step (step h m.number c).1 k.number d).0)
        × IsWellFormed new × Represents new (with_mutator (with_mutator ms m') k')
        (step (step h m.number c).1 k.number d).1 }
    ensures same { (s mid new : HeapState) (m m' m'' : MutatorState) (c d : Command)
        (r q : Reply) (ms : List MutatorState) (h : IdealHeap) → IsWellFormed s
        → Represents s ms h → Contains ms m → TakesStep s m c r mid m'
        → TakesStep mid m' d q new m''
        → (r ≡ (step h m.number c).0) × (q ≡ (step (step h m.number c).1 m.number d).0)
        × IsWellFormed new × Represents new (with_mutator (with_mutator ms m') m'')
        (step (step h m.number c).1 m.number d).1 }
    ensures alone { (s mid new : HeapState) (m m' m'' : MutatorState) (c d : Command)
        (r q : Reply) (h : IdealHeap) → RepresentsOn s (m ∷ []) h (IsHeld s)
        → TakesStep s m c r mid m' → TakesStep mid m' d q new m''
        → (r ≡ (step h m.number c).0) × (q ≡ (step (step h m.number c).1 m.number d).0)
        × RepresentsOn new (m'' ∷ []) (step (step h m.number c).1 m.number d).1 (IsHeld new) }
    ensures stay { (s mid new : HeapState) (m k m' k' : MutatorState) (c d : Command)
        (r q : Reply) → TakesStep s m c r mid m' → TakesStep mid k d q new k'
        → ObjectsStay s new × (m'.number ≡ m.number) × (m'.births ≡ m.births)
        × ((n : Name) → r ≢ replies.New n) }
{}
