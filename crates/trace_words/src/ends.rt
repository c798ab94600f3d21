//! How tracers begin to race on a row, and how they end.

ghost use Rattle.std.specs.Prelude.{◌≡◌, ℕ, [], length};
ghost use Rattle.object_model.specs.Times.{times, one_if};
ghost use Rattle.trace_core.specs.Setups.{TraceMayBegin, was_logged};
ghost use Rattle.trace_words.specs.Rule.{setup_in};
ghost use Rattle.trace_words.specs.Shares.{first_share};
ghost use Rattle.trace_words.specs.Steps.{LeavesTrace};

use crate::rule::{TraceKey, TraceRule, TraceSeat};
use crate::share::Share;
use shared_row::{SharedRow, WordRow};

/// Shares a row that is as a trace begins. The seat has all parts and all rights.
pub fn share_row(
    words: WordRow,
    key: &TraceKey,
) -> (SharedRow<Share, TraceKey, TraceRule>, TraceSeat)
    requires words { words ≡ (setup_in key.now).before.words }
    requires ready { TraceMayBegin (setup_in key.now) }
    requires logged { (x : ℕ)
        → times x key.now.run.logged.items ≡ one_if (was_logged (setup_in key.now) x) }
    ensures row { (result.0.words.table_id.words ≡ length words)
        × (result.0.words.key ≡ key.now) }
    ensures seat { (result.1.table_id ≡ result.0.words.table_id)
        × (result.1.me ≡ (first_share key.now.run key.now.workers, [])) }
{
    words.share::<Share, TraceKey, TraceRule>(key)
}

/// Plain words again: those of the machine. If this is the seat that the trace began with, which is
/// no worker's, and it took in those of all workers and as many tokens as were given, it made each
/// event. If nothing is left for it to do too, the trace is finished, and each field was scanned
/// once. A worker's seat that took in all others isn't said to have the whole trace.
pub fn take_row_back(row: SharedRow<Share, TraceKey, TraceRule>, seat: TraceSeat) -> WordRow
    requires own { seat.table_id ≡ row.words.table_id }
    ensures count { length result ≡ row.words.table_id.words }
    ensures trace { LeavesTrace (setup_in row.words.key) result seat.me.0 }
{
    row.into_row(seat)
}
