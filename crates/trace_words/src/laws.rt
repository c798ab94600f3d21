//! Laws of the rule, at every moment of a racing trace.

ghost use Rattle.std.specs.Prelude.{◌≡◌, ◌≢◌, ℕ, ◌+◌, ◌<◌, ◌≤◌, Bool, Some};
ghost use mathlib.Core.Option.{some};
ghost use lib.ListN.{get_elem?};
ghost use Rattle.heap_layout.specs.Zones.{block_at, block_start};
ghost use Rattle.heap_layout.specs.declared.layout.TheConstants.{BLOCK_WORDS};
ghost use Rattle.object_model.specs.Objects.{IsHeld, IsInExtentOf, word_at};
ghost use Rattle.trace_core.specs.Setups.{Setup, blocks, size};
ghost use Rattle.trace_core.specs.Machine.{Event};
ghost use Rattle.trace_core.specs.Traces.{heap_after, machine_after, target_of};
ghost use Rattle.trace_core.specs.Views.{hits};
ghost use Rattle.object_model.specs.Times.{times};
ghost use Rattle.trace_words.specs.declared.event.TraceEvent.{TraceEvent};
ghost use Rattle.trace_words.specs.declared.share.Share.{Share};
ghost use Rattle.trace_words.specs.Shares.{total, listed};
ghost use Rattle.trace_words.specs.Rule.{TraceState, KeepsTrace, claims_object, times_listed, times_made};

/// No share's room has a word in a block in which an object had a word as the trace began. So
/// nothing is copied over an object before the release, nor between objects.
pub fn rooms_hold_no_frozen_object()
    ensures { (p : Setup) (s : TraceState) → KeepsTrace p s → (j : ℕ) (v : Share)
        → get_elem? s.views j ≡ some v → (a x w : ℕ) → v.front ≤ a → a < v.limit
        → IsHeld p.before x → IsInExtentOf x (size p x) w
        → block_at (blocks p) w ≢ block_at (blocks p) a }
{}

/// Each right is of one share, which has it once: to copy an object, to scan it, to set a global.
/// An object that a share copies is scanned by none.
pub fn each_right_is_of_one_share()
    ensures copies { (p : Setup) (s : TraceState) → KeepsTrace p s → (i j : ℕ) (v w : Share)
        → get_elem? s.views i ≡ some v → get_elem? s.views j ≡ some w → (x k l : ℕ)
        → 0 < hits x k v.won → 0 < hits x l w.won → (i ≡ j) × (k ≡ l) }
    ensures scans { (p : Setup) (s : TraceState) → KeepsTrace p s → (i j : ℕ) (v w : Share)
        → get_elem? s.views i ≡ some v → get_elem? s.views j ≡ some w → (x k l : ℕ)
        → 0 < hits x k v.grey → 0 < hits x l w.grey → (i ≡ j) × (k ≡ l) }
    ensures apart { (p : Setup) (s : TraceState) → KeepsTrace p s → (i j : ℕ) (v w : Share)
        → get_elem? s.views i ≡ some v → get_elem? s.views j ≡ some w → (x k l : ℕ)
        → 0 < hits x k v.won → hits x l w.grey ≡ 0 }
    ensures globals { (p : Setup) (s : TraceState) → KeepsTrace p s → (i j : ℕ) (v w : Share)
        → get_elem? s.views i ≡ some v → get_elem? s.views j ≡ some w → (g : ℕ)
        → 0 < times g v.unset → 0 < times g w.unset → i ≡ j }
    ensures once { (p : Setup) (s : TraceState) → KeepsTrace p s → (j : ℕ) (v : Share)
        → get_elem? s.views j ≡ some v → (x k g : ℕ)
        → (hits x k v.won ≤ 1) × (hits x k v.grey ≤ 1) × (times g v.unset ≤ 1) }
{}

/// Of all shares one at most claimed an object, and once.
pub fn each_object_is_claimed_once()
    ensures { (p : Setup) (s : TraceState) → KeepsTrace p s → (x : ℕ)
        → total (times_made (claims_object x)) s.views ≤ 1 }
{}

/// Each event of the machine is listed as another one: what is listed names its event.
pub fn listed_events_are_told_apart()
    ensures { (e f : Event) → listed e ≡ listed f → e ≡ f }
{}

/// No two workers have one number.
pub fn workers_have_numbers_of_their_own()
    ensures { (p : Setup) (s : TraceState) → KeepsTrace p s → (i j : ℕ) (v w : Share)
        → get_elem? s.views i ≡ some v → get_elem? s.views j ≡ some w → 0 < v.worker
        → v.worker ≡ w.worker → i ≡ j }
{}

/// The room of a share is the end of a block whose word names the share's worker.
pub fn rooms_are_in_blocks_of_their_workers()
    ensures { (p : Setup) (s : TraceState) (keeps : KeepsTrace p s) (j : ℕ) (v : Share)
        → get_elem? s.views j ≡ some v → 0 < v.limit → (b : ℕ)
        × (block_start (blocks p) b ≤ v.front)
        × (v.limit ≡ block_start (blocks p) b + BLOCK_WORDS)
        × ((machine_after p keeps.events).taken b ≡ v.worker) }
{}

/// Words are those of the tracing machine, and what a share knows of a target is so. The machine's
/// events are those that the shares made, each once.
pub fn shares_show_the_machine()
    ensures words { (p : Setup) (s : TraceState) (keeps : KeepsTrace p s)
        → s.words ≡ (heap_after p keeps.events).words }
    ensures made { (p : Setup) (s : TraceState) (keeps : KeepsTrace p s)
        (test : TraceEvent → Bool)
        → times_listed test keeps.events ≡ total (times_made test) s.views }
    ensures known { (p : Setup) (s : TraceState) (keeps : KeepsTrace p s) (j : ℕ) (v : Share)
        → get_elem? s.views j ≡ some v → (x t : ℕ) → 0 < hits x t v.known
        → target_of p keeps.events x ≡ Some t }
{}
