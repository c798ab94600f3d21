//! Laws of the blocks that are relisted after mutators filled them.

ghost use Rattle.std.specs.Prelude.{◌≡◌, ◌↔◌, ◌<◌, ℕ, IsTrue, false};
ghost use Rattle.plan_api.specs.Prelude.{BLOCK_LINES, HeapState, HasKind, word_at, line_marked, LineBitsAreExact, AllLie, IsLineWord, IsTouchedHere, Rules, Relists};
ghost use Rattle.plan_api.specs.Prelude.kinds;

/// A relisted Immix block has its lines marked that objects in it touch, under rules with lines,
/// and its line bits are exact if all objects lie as they may. Under other rules, and in a block of
/// another kind, nothing changes, and never a word that has no line bits of the block.
pub fn relisted_blocks()
    ensures marked { (r : Rules) (s s' : HeapState) (k line : ℕ) → IsTrue r.lines
        → HasKind s k kinds.Immix → Relists r s s' k → line < BLOCK_LINES
        → IsTrue (line_marked s' k line) ↔ ∥ IsTouchedHere s k line ∥₁ }
    ensures exact { (r : Rules) (s s' : HeapState) (k : ℕ) → IsTrue r.lines
        → HasKind s k kinds.Immix → AllLie s → Relists r s s' k → LineBitsAreExact s' k }
    ensures no_lines { (r : Rules) (s s' : HeapState) (k : ℕ) → r.lines ≡ false
        → Relists r s s' k → s'.words ≡ s.words }
    ensures other_kind { (r : Rules) (s s' : HeapState) (k : ℕ)
        → (HasKind s k kinds.Immix → ⊥) → Relists r s s' k → s'.words ≡ s.words }
    ensures others { (r : Rules) (s s' : HeapState) (k i : ℕ) → Relists r s s' k
        → (IsLineWord s.blocks k i → ⊥) → word_at s' i ≡ word_at s i }
{}
