//! What copies of registers and globals hand on.

ghost use Rattle.std.specs.Prelude.{◌≡◌, ℕ, None};
ghost use Rattle.programs.specs.Prelude.{IdealHeap, global_reply, step, number_of_object, number_of, field_in, field_in_heap};
ghost use Rattle.programs.specs.Prelude.command;
ghost use Rattle.programs.specs.Prelude.reply;

/// `move_register` copies a register, `drop_register` makes it nil, `load` copies a global into a
/// register, and `share` a register into a global.
pub fn registers_are_copied()
    ensures moved { (h : IdealHeap) (m d s : ℕ)
        → (step h m (command.Move d s)).1.registers m d ≡ h.registers m s }
    ensures dropped { (h : IdealHeap) (m s : ℕ)
        → (step h m (command.DropReg s)).1.registers m s ≡ None }
    ensures loaded { (h : IdealHeap) (m d g : ℕ)
        → (step h m (command.Load d g)).1.registers m d ≡ h.globals g }
    ensures shared { (h : IdealHeap) (m g s : ℕ)
        → (step h m (command.Share g s)).1.globals g ≡ h.registers m s }
    ensures move_reply { (h : IdealHeap) (m d s : ℕ)
        → (step h m (command.Move d s)).0 ≡ reply.Done }
    ensures drop_reply { (h : IdealHeap) (m s : ℕ)
        → (step h m (command.DropReg s)).0 ≡ reply.Done }
    ensures load_reply { (h : IdealHeap) (m d g : ℕ)
        → (step h m (command.Load d g)).0 ≡ global_reply (h.globals g) }
    ensures share_reply { (h : IdealHeap) (m g s : ℕ)
        → (step h m (command.Share g s)).0 ≡ reply.Done }
{}

/// The object that a register or a global holds is handed on with its numbers and references.
pub fn objects_are_passed_on()
    ensures move_number { (h : IdealHeap) (m d s j : ℕ)
        → number_of (step h m (command.Move d s)).1 m d j ≡ number_of h m s j }
    ensures move_field { (h : IdealHeap) (m d s i : ℕ)
        → field_in_heap (step h m (command.Move d s)).1 m d i ≡ field_in_heap h m s i }
    ensures load_number { (h : IdealHeap) (m d g j : ℕ)
        → number_of (step h m (command.Load d g)).1 m d j ≡ number_of_object h (h.globals g) j }
    ensures load_field { (h : IdealHeap) (m d g i : ℕ)
        → field_in_heap (step h m (command.Load d g)).1 m d i ≡ field_in h (h.globals g) i }
    ensures share_number { (h : IdealHeap) (m g s j : ℕ)
        → number_of_object (step h m (command.Share g s)).1
        ((step h m (command.Share g s)).1.globals g) j ≡ number_of h m s j }
    ensures share_field { (h : IdealHeap) (m g s i : ℕ)
        → field_in (step h m (command.Share g s)).1
        ((step h m (command.Share g s)).1.globals g) i ≡ field_in_heap h m s i }
{}
