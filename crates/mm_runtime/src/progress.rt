//! How far a mutator has come in its trace.

ghost use Rattle.std.specs.Prelude.{◌≡◌, ◌<◌, length, Some, None, MatchOption};
ghost use Rattle.mm_runtime.specs.Prelude.{is_at_meet, is_waiting, next_in_trace, IsProgress, GetsOk};

use ideal_heap::{Command, Reply};
use mutator_calls::Need;
use stored_commands::{StoredCommand, StoredTrace};
use stored_replies::StoredReplies;

/// The greatest number of commands of a trace.
pub const MAX_COMMANDS: usize = 1_000_000;

/// A mutator's trace, and the replies to its first commands.
#[derive(Debug, Drop)]
pub(crate) struct Progress {
    pub(crate) trace: StoredTrace,
    // There is room for the reply to each command.
    pub(crate) replies: StoredReplies,
}

/// Why a mutator's part of an epoch ended.
#[derive(Clone, Copy, Debug)]
pub enum PartEnd {
    /// Its next command is `gc`.
    Gc,
    /// Its next command is `meet`.
    Meet,
    /// Its trace has ended.
    Trace,
    /// Its next command is a `new` that the stop serves.
    Need(Need),
    /// The mutator with this number raised a stop.
    Raised(u32),
}

impl Progress {
    /// Draws the next command, if it is a made one, before it is read.
    #[inline(always)]
    pub(crate) fn prepare_next(&mut self)
        ensures { self.new ≡ self.old }
    {
        self.trace.prepare(self.replies.len());
    }

    /// The next command as it is stored, `None` at the end of the trace.
    #[inline(always)]
    pub(crate) fn next_stored(&self) -> Option<StoredCommand<'_>>
        ensures { MatchOption result (next_in_trace self.now ≡ None)
            (λ c. next_in_trace self.now ≡ Some c) }
    {
        self.trace.get(self.replies.len())
    }

    /// The next command, `None` at the end of the trace.
    pub(crate) fn next(&self) -> Option<Command>
        ensures { result ≡ next_in_trace self.now }
    {
        match self.next_stored() {
            Some(stored) => Some(stored.command()),
            None => None,
        }
    }

    /// Whether it is at `meet`.
    pub(crate) fn is_at_meet(&self) -> bool
        ensures { result ≡ is_at_meet (next_in_trace self.now) }
    {
        match self.next() {
            None => false,
            Some(command) => command == Command::Meet,
        }
    }

    /// Whether it is at `meet` or at the end of its trace.
    pub(crate) fn waits(&self) -> bool
        ensures { result ≡ is_waiting (next_in_trace self.now) }
    {
        match self.next() {
            None => true,
            Some(command) => command == Command::Meet,
        }
    }
}

/// The reply `ok` to the next command.
pub(crate) fn reply_ok(progress: &mut Progress)
    requires order { IsProgress progress.old }
    requires next { length progress.old.replies.items < length progress.old.trace }
    ensures { GetsOk progress.old progress.new }
{
    progress.replies.push_reserved(Reply::Done);
}
