//! Laws of evacuated blocks, and of what becomes of them.

ghost use Rattle.std.specs.Prelude.{◌≡◌, ◌&&◌, ◌||◌, ℕ, ◌<◌, Bool, true, false, List, IsTrue, map};
ghost use Rattle.std.specs.List.{range_with_len};
ghost use Rattle.plan_api.specs.Prelude.{Collect, Nursery, Full, HeapState, has_kind, HasKind, owner_at, IsHeld, may_leave, Rules, Plan, rules_of, is_evacuated, may_move, listed, is_kept_after};
ghost use Rattle.plan_api.specs.Prelude.kinds;
ghost use Rattle.plan_api.specs.Prelude.plans;

/// Under no plan is a block of a large object evacuated. With the blocks to evacuate as a list of
/// flags, the objects that may move are those of the definitions.
pub fn evacuated_blocks()
    ensures small { (p : Plan) (c : Collect) (s : HeapState) (k : ℕ)
        → IsTrue (is_evacuated (rules_of p) c s k)
        → IsTrue (has_kind s k kinds.LargeHead || has_kind s k kinds.LargeTail) → ⊥ }
    ensures listed { (r : Rules) (c : Collect) (s : HeapState) (from : List Bool) (a : ℕ)
        → from ≡ map (is_evacuated r c s) (range_with_len 0 s.blocks) → IsHeld s a
        → (r.moves && may_leave (listed from) s a) ≡ may_move r c s a }
{}

/// The blocks that are Kept if something stays in them. Only plans that copy whole blocks have
/// some, and a block with an owner, which has copies, is none.
pub fn kept_blocks()
    ensures nogc { (c : Collect) (s : HeapState) (k : ℕ)
        → is_kept_after (rules_of plans.NoGc) c s k ≡ false }
    ensures mark_sweep { (c : Collect) (s : HeapState) (k : ℕ)
        → is_kept_after (rules_of plans.MarkSweep) c s k ≡ false }
    ensures immix { (c : Collect) (s : HeapState) (k : ℕ)
        → is_kept_after (rules_of plans.Immix) c s k ≡ false }
    ensures sticky_immix { (c : Collect) (s : HeapState) (k : ℕ)
        → is_kept_after (rules_of plans.StickyImmix) c s k ≡ false }
    ensures semi_space { (s : HeapState) (k : ℕ) → HasKind s k kinds.Bump → owner_at s k ≡ 0
        → is_kept_after (rules_of plans.SemiSpace) Full s k ≡ true }
    ensures kept { (s : HeapState) (k : ℕ) → HasKind s k kinds.Kept → owner_at s k ≡ 0
        → is_kept_after (rules_of plans.SemiSpace) Full s k ≡ true }
    ensures copies { (r : Rules) (c : Collect) (s : HeapState) (k : ℕ) → 0 < owner_at s k
        → is_kept_after r c s k ≡ false }
    ensures young { (s : HeapState) (k : ℕ) → HasKind s k kinds.Young → owner_at s k ≡ 0
        → is_kept_after (rules_of plans.GenCopy) Nursery s k ≡ true }
    ensures old { (s : HeapState) (k : ℕ) → HasKind s k kinds.Mature
        → is_kept_after (rules_of plans.GenCopy) Nursery s k ≡ false }
    ensures mature { (s : HeapState) (k : ℕ) → HasKind s k kinds.Mature → owner_at s k ≡ 0
        → is_kept_after (rules_of plans.GenCopy) Full s k ≡ true }
{}
