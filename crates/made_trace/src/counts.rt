//! Counts of replies.

ghost use Rattle.made_trace.specs.Counts.{AreCounts};

use stored_replies::{ReplyKind, StoredReplies};

/// How many replies there are of each kind, and the sum of the numbers in them, modulo 2^64.
#[derive(Clone, Copy, Debug)]
pub struct ReplyCounts {
    pub allocated: u64,
    pub full: u64,
    pub reference: u64,
    pub nil: u64,
    pub number: u64,
    pub sum: u64,
    pub done: u64,
    pub yes: u64,
    pub no: u64,
    pub null: u64,
    pub range: u64,
}

impl ReplyCounts {
    /// The counts of some replies.
    pub fn of(replies: &StoredReplies) -> ReplyCounts
        ensures { AreCounts result replies.now.items }
    {
        let counts = replies.kind_counts();
        ReplyCounts {
            allocated: counts[ReplyKind::New.index()],
            full: counts[ReplyKind::Full.index()],
            reference: counts[ReplyKind::Ref.index()],
            nil: counts[ReplyKind::Nil.index()],
            number: counts[ReplyKind::Num.index()],
            sum: replies.number_sum(),
            done: counts[ReplyKind::Done.index()],
            yes: counts[ReplyKind::Yes.index()],
            no: counts[ReplyKind::No.index()],
            null: counts[ReplyKind::Null.index()],
            range: counts[ReplyKind::Range.index()],
        }
    }
}
