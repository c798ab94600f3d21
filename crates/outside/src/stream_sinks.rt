//! Standard output and standard error, as sinks.

ghost use Rattle.std.specs.Prelude.{◌≡◌, ◌+◌, ◌<◌, ◌≤◌, [], length, min, take, if◌then◌else◌, IfOk, IsErr, OnErr, is_err};
ghost use Rattle.outside.specs.Outside.{LAST, HasRisen, AppendsText};

use crate::answers::write_once;
use crate::traits::{Failed, Sink, raise};
use std::io::{Stderr, Stdout, Write};

/// Standard output.
pub type OutSink = StreamSink<Stdout>;

/// Standard error.
pub type ErrSink = StreamSink<Stderr>;

/// A writer, as a sink. Its bytes are known to the contract if the writer's are; those of a real
/// stream are not.
#[derive(Drop)]
pub struct StreamSink<W> {
    to: W,
    count: u64,
}

impl<W: Write> StreamSink<W> {
    /// A sink that has counted no fault.
    pub fn new(to: W) -> StreamSink<W>
        ensures to { result.to ≡ to }
        ensures faults { result.count ≡ 0 }
    {
        StreamSink { to, count: 0 }
    }
}

impl<W: Write> Sink for StreamSink<W> {
    ghost state = { λ s. record { written = W.contents s.to; faults = s.count } };

    fn write(&mut self, bytes: &[u8]) -> Result<usize, Failed>
        ensures most { IfOk result (λ n. n ≤ length bytes.now) }
        ensures some { IfOk result (λ n. 0 < length bytes.now → 0 < n) }
        ensures added { IfOk result (λ n. AppendsText (W.contents self.old.to)
            (W.contents self.new.to) (take n bytes.now)) }
        ensures failed { OnErr result (AppendsText (W.contents self.old.to)
            (W.contents self.new.to) []) }
        ensures cause { IsErr result → HasRisen self.old.count self.new.count }
        ensures count { self.new.count ≡ (if is_err result then min
            (self.old.count + 1) LAST else self.old.count) }
        ensures later { self.old.count ≤ self.new.count }
    {
        let taken = write_once(&mut self.to, bytes);
        if taken.is_err() {
            raise(&mut self.count);
        }
        taken
    }
}
