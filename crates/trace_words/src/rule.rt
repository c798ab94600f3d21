//! The rule of a row on which tracers race, and what a step is about.

use crate::share::Share;
use atomic_table::TableRule;
use shared_row::{RowSeat, SharedWords, WordRow};
use std::marker::Brand;
use std::snapshot::Snapshot;
use trace_core::TraceRun;

/// What a row is told once: its words as the trace begins, and the collection.
#[derive(Drop)]
pub struct TraceKey {
    pub words: Snapshot<WordRow>,
    pub blocks: u32,
    pub number: u64,
    pub base: u64,
    pub run: TraceRun,
    pub workers: u32,
}

/// Words and shares show one state of the tracing machine.
pub struct TraceRule;

impl TableRule<(), Share, TraceKey> for TraceRule {
    ghost use Rattle.trace_words.specs.Rule.{KeepsTrace, setup_in};
    ghost use Rattle.trace_words.specs.Shares.{first_share};

    ghost holds = { λ key s. KeepsTrace (setup_in key) s };

    ghost first = { λ key. first_share key.run key.workers };
}

/// The words of a row on which tracers race.
pub type TraceWords = SharedWords<Share, TraceKey, TraceRule>;

/// The seat of a tracer or of a token.
pub type TraceSeat = RowSeat<Share>;

/// What a step is about. A caller gives the members by `Brand`.
pub trait About {
    ghost use Rattle.std.specs.Prelude.{ℕ};
    ghost use Rattle.trace_core.specs.Machine.{ClaimCause};
    ghost use Rattle.trace_core.specs.Setups.{Setup};

    ghost setup: { Setup };

    /// Why the object is claimed.
    ghost cause: { ClaimCause };

    /// The object, where it was as the trace began, and its target.
    ghost object: { ℕ };

    ghost target: { ℕ };

    /// The number of a field, of a step of copying or of a global.
    ghost index: { ℕ };

    /// The number of a worker that gets a seat.
    ghost worker: { ℕ };
}

impl About for Brand {
    ghost use Rattle.heap_layout.specs.declared.block.Kind.TheVariants as kinds;
    ghost use Rattle.object_model.specs.Objects.{empty_heap};
    ghost use Rattle.trace_core.specs.Machine.{ByRoot};
    ghost use Rattle.std.specs.Prelude.{false};

    ghost setup = { record {
      before = empty_heap 0;
      nursery = false;
      logged = λ a. false;
      from = λ b. false;
      copy = kinds.Free;
      workers = 0;
    } };

    ghost cause = { ByRoot };

    ghost object = { 0 };

    ghost target = { 0 };

    ghost index = { 0 };

    ghost worker = { 0 };
}
