//! Laws of the two regions that a mutator fills under a plan with lines.

ghost use Rattle.std.specs.Prelude.{◌≡◌, ◌≤◌, ◌⊎◌, ℕ};
ghost use Rattle.plan_api.specs.Prelude.{LINE_WORDS, Cursors, PlacesInRegion, LacksRoom};

/// Cursors and size decide whether an object is placed, where, and what the cursors are then. An
/// object of at most a line is placed in the hole region or not at all. No region ends before it
/// begins, if none did.
pub fn placements_are_decided()
    ensures either { (cursors : Cursors) (size : ℕ) → LacksRoom cursors size
        ⊎ ((new : Cursors) × (k : ℕ) × (at : ℕ) × PlacesInRegion cursors new size k at) }
    ensures not_both { (old new : Cursors) (size k at : ℕ)
        → PlacesInRegion old new size k at → LacksRoom old size → ⊥ }
    ensures one { (old new other : Cursors) (size k at j to : ℕ)
        → PlacesInRegion old new size k at → PlacesInRegion old other size j to
        → (k ≡ j) × (at ≡ to) × (new ≡ other) }
    ensures line { (old new : Cursors) (size k at : ℕ) → size ≤ LINE_WORDS
        → PlacesInRegion old new size k at → (k ≡ old.hole_block) × (new.over ≡ old.over) }
    ensures order { (old new : Cursors) (size k at : ℕ) → old.hole.next ≤ old.hole.end
        → old.over.next ≤ old.over.end → PlacesInRegion old new size k at
        → (new.hole.next ≤ new.hole.end) × (new.over.next ≤ new.over.end) }
{}
