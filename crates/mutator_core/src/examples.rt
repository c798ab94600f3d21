//! Worked examples: lists of events with their histories.

ghost use Rattle.std.specs.Prelude.{◌≡◌, ℕ, ◌≤◌, List, [], ◌∷◌, ◌++◌, length, map, true};
ghost use Rattle.mutator_core.specs.Prelude.{empty, name, entry, empty_heap, new_mutator, NoGc, Plan, rules_of, first_machine, history, IsLog, EpochMayBegin, small_epoch, log_of, birth_events, share_events, separate_events, old_object_epoch, barrier_events, empty_epoch, mixed_log, used_block_epoch, load_log, HasSeenUsed, IsEpochLog, history_of, local_after_log, AreBetweenCalls};
ghost use Rattle.mutator_core.specs.Prelude.commands;
ghost use Rattle.mutator_core.specs.Prelude.replies;
ghost use Rattle.mutator_core.specs.Prelude.event;

use heap_layout::{MAX_BLOCKS, MIN_BLOCKS};
use ideal_heap::MAX_MUTATORS;

/// An allocation: a ticket, a Free block, the words of the object, its start bit. The last step
/// makes the entry. A mutator may not draw a second ticket before it uses the first, may not take a
/// Free block without a ticket, and may not begin an object while another one is unpublished.
pub fn births_by_steps()
    ensures before { history (small_epoch NoGc) (first_machine (small_epoch NoGc))
        (log_of (small_epoch NoGc) (first_machine (small_epoch NoGc)) (birth_events 1)) ≡ [] }
    ensures entry { history (small_epoch NoGc) (first_machine (small_epoch NoGc))
        (log_of (small_epoch NoGc) (first_machine (small_epoch NoGc))
        (birth_events 1 ++ (1, event.Perform (commands.New 0 1 1)) ∷ []))
        ≡ entry 1 (commands.New 0 1 1) (replies.New (name 1 1)) ∷ [] }
    ensures steps { IsLog (small_epoch NoGc) (first_machine (small_epoch NoGc))
        (log_of (small_epoch NoGc) (first_machine (small_epoch NoGc))
        (birth_events 1 ++ (1, event.Perform (commands.New 0 1 1)) ∷ [])) }
    ensures twice { IsLog (small_epoch NoGc) (first_machine (small_epoch NoGc))
        (log_of (small_epoch NoGc) (first_machine (small_epoch NoGc))
        ((1, event.DrawTicket) ∷ (1, event.DrawTicket) ∷ [])) → ⊥ }
    ensures early { IsLog (small_epoch NoGc) (first_machine (small_epoch NoGc))
        (log_of (small_epoch NoGc) (first_machine (small_epoch NoGc))
        ((1, event.TakeBlock 0 0 true) ∷ [])) → ⊥ }
    ensures again { IsLog (small_epoch NoGc) (first_machine (small_epoch NoGc))
        (log_of (small_epoch NoGc) (first_machine (small_epoch NoGc))
        ((1, event.DrawTicket) ∷ (1, event.TakeBlock 0 0 true)
        ∷ (1, event.Initialize 215 1 1 0) ∷ (1, event.Initialize 215 1 1 0) ∷ [])) → ⊥ }
{}

/// Two allocations in turns, in an epoch that begins with an empty heap. Mutator 2 finds the first
/// block taken and takes another with the same ticket. It polls before and after mutator 1 raises a
/// stop.
pub fn allocations_in_turns()
    ensures log { IsEpochLog empty_epoch empty mixed_log }
    ensures entries { history_of empty_epoch mixed_log
        ≡ entry 2 (commands.New 0 0 1) (replies.New (name 2 1))
        ∷ entry 1 (commands.New 0 1 0) (replies.New (name 1 1))
        ∷ entry 2 (commands.Share 3 0) replies.Done
        ∷ entry 1 (commands.Load 1 3) (replies.Ref (name 2 1))
        ∷ entry 1 (commands.Put 0 0 1) replies.Done
        ∷ entry 1 (commands.Get 2 0 0) (replies.Ref (name 2 1))
        ∷ [] }
    ensures blocks { map (λ m. map (λ o. o.block) (local_after_log empty_epoch mixed_log m).owned)
        (1 ∷ 2 ∷ []) ≡ (0 ∷ []) ∷ (1 ∷ []) ∷ [] }
    ensures polled { map (λ m. (local_after_log empty_epoch mixed_log m).stop) (1 ∷ 2 ∷ [])
        ≡ 0 ∷ 1 ∷ [] }
    ensures between { AreBetweenCalls empty_epoch mixed_log }
{}

/// Each command of an epoch, by two mutators in turns. The shape word that mutator 1 loads first
/// still serves its last step, when another register holds the object.
pub fn commands_in_turns()
    ensures entries { history (small_epoch NoGc) (first_machine (small_epoch NoGc))
        (log_of (small_epoch NoGc) (first_machine (small_epoch NoGc)) share_events)
        ≡ entry 1 (commands.New 0 1 1) (replies.New (name 1 1))
        ∷ entry 1 (commands.Write 0 0 5) replies.Done
        ∷ entry 1 (commands.Share 9 0) replies.Done
        ∷ entry 2 (commands.Load 3 9) (replies.Ref (name 1 1))
        ∷ entry 2 (commands.Add 3 0 4) (replies.Num 5)
        ∷ entry 1 (commands.Read 0 0) (replies.Num 9)
        ∷ entry 2 (commands.Swap 3 0 9 7) replies.Yes
        ∷ entry 1 (commands.Swap 0 0 9 8) replies.No
        ∷ entry 1 (commands.Get 2 0 0) replies.Nil
        ∷ entry 1 (commands.Put 0 0 0) replies.Done
        ∷ entry 2 (commands.Get 4 3 0) (replies.Ref (name 1 1))
        ∷ entry 1 (commands.Pin 0) replies.Yes
        ∷ entry 2 (commands.Pin 4) replies.No
        ∷ entry 2 (commands.Unpin 3) replies.Yes
        ∷ entry 1 (commands.Move 1 0) replies.Done
        ∷ entry 1 (commands.DropReg 0) replies.Done
        ∷ entry 1 (commands.Get 2 0 0) replies.Null
        ∷ entry 1 (commands.Read 1 1) replies.Range
        ∷ entry 1 (commands.Read 1 0) (replies.Num 7)
        ∷ [] }
    ensures steps { IsLog (small_epoch NoGc) (first_machine (small_epoch NoGc))
        (log_of (small_epoch NoGc) (first_machine (small_epoch NoGc)) share_events) }
{}

/// Each command of an epoch, by one mutator after the other.
pub fn commands_one_after_another()
    ensures entries { history (small_epoch NoGc) (first_machine (small_epoch NoGc))
        (log_of (small_epoch NoGc) (first_machine (small_epoch NoGc)) separate_events)
        ≡ entry 1 (commands.New 0 1 1) (replies.New (name 1 1))
        ∷ entry 1 (commands.Write 0 0 5) replies.Done
        ∷ entry 1 (commands.Add 0 0 4) (replies.Num 5)
        ∷ entry 1 (commands.Read 0 0) (replies.Num 9)
        ∷ entry 1 (commands.Swap 0 0 9 7) replies.Yes
        ∷ entry 1 (commands.Put 0 0 0) replies.Done
        ∷ entry 1 (commands.Get 1 0 0) (replies.Ref (name 1 1))
        ∷ entry 1 (commands.Share 9 0) replies.Done
        ∷ entry 1 (commands.Pin 0) replies.Yes
        ∷ entry 1 (commands.Unpin 0) replies.Yes
        ∷ entry 1 (commands.Move 2 0) replies.Done
        ∷ entry 1 (commands.DropReg 2) replies.Done
        ∷ entry 1 (commands.Load 3 9) (replies.Ref (name 1 1))
        ∷ entry 2 (commands.Load 0 9) (replies.Ref (name 1 1))
        ∷ entry 2 (commands.Read 0 0) (replies.Num 7)
        ∷ entry 2 (commands.Write 0 0 1) replies.Done
        ∷ entry 2 (commands.Add 0 0 2) (replies.Num 1)
        ∷ entry 2 (commands.Swap 0 0 5 8) replies.No
        ∷ entry 2 (commands.Get 1 0 0) (replies.Ref (name 1 1))
        ∷ entry 2 (commands.Put 0 0 5) replies.Done
        ∷ entry 2 (commands.Get 1 0 0) replies.Nil
        ∷ entry 2 (commands.Share 9 5) replies.Done
        ∷ entry 2 (commands.Pin 0) replies.Yes
        ∷ entry 2 (commands.Unpin 0) replies.Yes
        ∷ entry 2 (commands.Move 2 0) replies.Done
        ∷ entry 2 (commands.DropReg 0) replies.Done
        ∷ entry 2 (commands.Load 3 9) replies.Nil
        ∷ entry 2 (commands.Pin 0) replies.Null
        ∷ [] }
    ensures steps { IsLog (small_epoch NoGc) (first_machine (small_epoch NoGc))
        (log_of (small_epoch NoGc) (first_machine (small_epoch NoGc)) separate_events) }
{}

/// A store into an old object, after the barrier cleared the object's unlog bit. Without the
/// barrier the mutator may not make the store. A register that is nil has no unlog bit to load.
pub fn barriers_before_stores()
    ensures steps { IsLog old_object_epoch (first_machine old_object_epoch)
        (log_of old_object_epoch (first_machine old_object_epoch)
        (barrier_events ++ (1, event.Perform (commands.Put 0 0 0)) ∷ [])) }
    ensures entry { history old_object_epoch (first_machine old_object_epoch)
        (log_of old_object_epoch (first_machine old_object_epoch)
        (barrier_events ++ (1, event.Perform (commands.Put 0 0 0)) ∷ []))
        ≡ entry 1 (commands.Put 0 0 0) replies.Done ∷ [] }
    ensures before { IsLog old_object_epoch (first_machine old_object_epoch)
        (log_of old_object_epoch (first_machine old_object_epoch)
        ((1, event.LoadShape 0) ∷ (1, event.LoadCollector 0)
        ∷ (1, event.Perform (commands.Put 0 0 0)) ∷ [])) → ⊥ }
    ensures nil { IsLog old_object_epoch (first_machine old_object_epoch)
        (log_of old_object_epoch (first_machine old_object_epoch)
        ((1, event.LoadUnlog 1) ∷ [])) → ⊥ }
{}

/// A load that is no part of an entry is recorded, with the word that it found: a block word by its
/// block, the others by their index of the row. The shape word of an object that no register holds
/// may be loaded once the object's start bit was seen.
pub fn loads_are_recorded()
    ensures steps { IsLog used_block_epoch (first_machine used_block_epoch) load_log }
    ensures blocks { (local_after_log used_block_epoch load_log 1).blocks
        ≡ (record { at = 0; word = 2 }) ∷ [] }
    ensures used { HasSeenUsed (local_after_log used_block_epoch load_log 1) 0 }
    ensures words { (local_after_log used_block_epoch load_log 1).loaded
        ≡ (record { at = 216; word = 1 }) ∷ (record { at = 215; word = 33 })
        ∷ (record { at = 23; word = 1 }) ∷ (record { at = 19; word = 5 }) ∷ [] }
    ensures unseen { IsLog used_block_epoch (first_machine used_block_epoch)
        (log_of used_block_epoch (first_machine used_block_epoch)
        ((1, event.LoadBlock 0) ∷ (1, event.LoadName 0) ∷ (1, event.LoadShapeAt 215) ∷ []))
        → ⊥ }
{}

/// Under each plan an epoch may begin with an empty heap and up to `MAX_MUTATORS` mutators that
/// have allocated nothing.
pub fn empty_heaps_are_ready()
    ensures { (plan : Plan) (b : ℕ) (numbers : List ℕ) → MIN_BLOCKS ≤ b → b ≤ MAX_BLOCKS
        → length numbers ≤ MAX_MUTATORS
        → EpochMayBegin (record {
          rules = rules_of plan;
          before = empty_heap b;
          mutators = map new_mutator numbers;
        }) }
{}
