//! Laws of the collection that a tracing and the release of all blocks make.

ghost use Rattle.std.specs.Prelude.{◌≡◌, ◌^◌, ◌<◌, ℕ, List, IsTrue, true, false, map};
ghost use Rattle.collector.specs.Prelude.{Collect, Full, Nursery, HeapState, word_at, IsLawful, Rules, Plan, rules_of, IsCollection, Setup, blocks, collection, Event, IsTracing, IsFinished, machine_after, heap_after, stage_of, image, HaveAsked, NoOthersAsked, setup_of, MayRun, TraceRun, IsOffered, Remembers, first_collection, IsRunUnder, FillsBlocks, EvacuatesAll, ReleasesBelow, with_numbers, LeavesFewBlocks, used_of, one_object, one_copied, two_objects, one_kept, two_large, worked_note, Copies, SemiSpace, GenCopy, Setting, Moment, Cause, InSession, RunsPart, MakesCollection, Places};

/// Under every plan that reclaims, a finished tracing and the release of all blocks make a
/// collection: if the roots, and no others, asked, the heap after it and the roots' targets are
/// those that a collection leaves. That heap is lawful.
pub fn released_traces_are_collections()
    ensures collects { (q : Plan) (c : Collect) (s : HeapState) (run : TraceRun) (w : ℕ)
        (p : Setup) (es : List Event) (roots : List ℕ) (new : HeapState) → IsLawful s
        → MayRun s run → IsRunUnder (rules_of q) c s run → (rules_of q).collects ≡ true
        → p ≡ setup_of s run w → IsTracing p es → IsFinished p (machine_after p es)
        → HaveAsked roots (machine_after p es).asked
        → NoOthersAsked roots (machine_after p es).asked → FillsBlocks p (machine_after p es)
        → ReleasesBelow (rules_of q) c run.base (heap_after p es) new s.blocks
        → IsCollection (rules_of q) w c s roots (with_numbers new run.number run.base)
        (map (image (stage_of p es)) roots) }
    ensures lawful { (s : HeapState) (run : TraceRun) (w : ℕ) (p : Setup) (es : List Event)
        (r : Rules) (c : Collect) (new : HeapState) → MayRun s run → p ≡ setup_of s run w
        → IsTracing p es → IsFinished p (machine_after p es)
        → ((i : ℕ) → word_at (heap_after p es) i < 2 ^ 64)
        → ReleasesBelow r c run.base (heap_after p es) new s.blocks
        → IsLawful (with_numbers new run.number run.base) }
{}

/// A full collection may be made of any heap, and the collection to try first of a heap that
/// remembers its young objects. For callers who choose the kind themselves: under a plan with young
/// objects a nursery collection may be made of a lawful heap that a collection left. It still may
/// while the base stays and the heap remembers its young objects, as after an epoch or a placement.
pub fn offered_collections()
    ensures full { (r : Rules) (s : HeapState) → IsOffered r Full s }
    ensures first { (r : Rules) (s : HeapState) → Remembers r s
        → IsOffered r (first_collection r s) s }
    ensures none { (r : Rules) (s : HeapState) → r.young ≡ false → IsOffered r Nursery s → ⊥ }
    ensures begins { (r : Rules) (s : HeapState) → s.base ≡ 0 → IsOffered r Nursery s → ⊥ }
    ensures after { (q : Plan) (w : ℕ) (c : Collect) (s new : HeapState) (roots roots' : List ℕ)
        → IsTrue (rules_of q).young → IsOffered (rules_of q) c s → IsLawful new
        → IsCollection (rules_of q) w c s roots new roots' → IsOffered (rules_of q) Nursery new }
    ensures kept { (r : Rules) (s new : HeapState) → IsOffered r Nursery s → new.base ≡ s.base
        → Remembers r new → IsOffered r Nursery new }
{}

/// Under a plan that holds back copies each block of a session's heap is Free, of a large object,
/// or of a kind that a full collection evacuates: so it is after each epoch, and each step of a
/// stop leaves it so. This is the premise of the clause `blocks` of `collect`.
pub fn sessions_evacuate_all_blocks()
    ensures session { (q : Plan) (t : Setting) (now : Moment) → (rules_of q).reserve ≡ Copies
        → t.rules ≡ rules_of q → InSession t now → EvacuatesAll t.rules Full now.heap }
    ensures part { (q : Plan) (t : Setting) (before now : Moment) (ends : ℕ → Cause)
        → (rules_of q).reserve ≡ Copies → t.rules ≡ rules_of q → RunsPart t before ends now
        → EvacuatesAll t.rules Full before.heap → EvacuatesAll t.rules Full now.heap }
    ensures collection { (q : Plan) (t : Setting) (c : Collect) (before now : Moment)
        → (rules_of q).reserve ≡ Copies → t.rules ≡ rules_of q → MakesCollection t c before now
        → EvacuatesAll t.rules Full before.heap → EvacuatesAll t.rules Full now.heap }
    ensures placement { (q : Plan) (t : Setting) (m d refs nums : ℕ) (before now : Moment)
        → (rules_of q).reserve ≡ Copies → t.rules ≡ rules_of q
        → Places t m d refs nums before now
        → EvacuatesAll t.rules Full before.heap → EvacuatesAll t.rules Full now.heap }
{}

/// What the bound on blocks counts, by example. A worker that copies one object uses a block for
/// fewer than 2,048 words. A Kept block is in use too. Large blocks are not counted, whether their
/// objects are noted or not.
pub fn few_blocks_by_example()
    ensures worker { LeavesFewBlocks (rules_of SemiSpace) 1 Full one_object one_copied
        (worked_note Full 1 3 1 3) }
    ensures kept { LeavesFewBlocks (rules_of SemiSpace) 1 Full two_objects one_kept
        (worked_note Full 2 6 1 2) }
    ensures large { LeavesFewBlocks (rules_of GenCopy) 1 Nursery (two_large 1) (two_large 2)
        (worked_note Nursery 0 0 0 2) }
    ensures used { (used_of one_copied ≡ 1) × (used_of one_kept ≡ 2) × (used_of (two_large 2) ≡ 0) }
{}
