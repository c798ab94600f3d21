//! The order of a session's entries.

ghost use Rattle.std.specs.Prelude.{ℕ, ◌≡◌, ◌<◌, ◌⊎◌, None, filter, length, take};
ghost use Rattle.std.specs.List.{AllByRecursion};
ghost use Rattle.sessions.specs.Prelude.{commands_of, of_mutator, trace_of, IsMutator, IsOrderPrefix, Setting, Moment, Cause, InSession, IsEpoch, IsWhole, RunsPart, CollectsFor, ServesAll, Meets, is_at_gc, is_at_need, traced_mutators, next_in};

/// Whatever the parts, collections and needs of an epoch, its entries keep an order that `meet`
/// allows, if each mutator's are the first commands of its trace. A session in which every command
/// has its reply is whole.
pub fn epochs_keep_the_order()
    ensures order { (t : Setting) (before stop collected served now : Moment) (ends : ℕ → Cause)
        → InSession t before → RunsPart t before ends stop
        → CollectsFor t (filter (λ m. is_at_gc (ends m)) (traced_mutators t)) stop collected
        → ServesAll t (filter (λ m. is_at_need (ends m)) (traced_mutators t)) collected served
        → Meets t served now
        → AllByRecursion (λ e. IsMutator t.traces e.mutator) now.done
        → ((m : ℕ) → IsMutator t.traces m → commands_of m now.done
        ≡ take (length (of_mutator m now.done)) (trace_of t.traces m))
        → IsOrderPrefix t.traces now.done }
    ensures whole { (t : Setting) (now : Moment) → InSession t now
        → ((m : ℕ) → IsMutator t.traces m → next_in t now m ≡ None) → IsWhole t now }
{}

/// Each epoch adds an entry, unless every command has its reply.
pub fn epochs_go_on()
    ensures { (t : Setting) (before now : Moment) → IsEpoch t before now
        → (length before.done < length now.done)
        ⊎ ((m : ℕ) → IsMutator t.traces m → next_in t now m ≡ None) }
{}
