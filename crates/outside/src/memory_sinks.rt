//! Sinks in memory.

ghost use Rattle.std.specs.Prelude.{◌≡◌, ℕ, ◌+◌, ◌-◌, ◌<◌, ◌≤◌, ◌++◌, ◌&&◌, ◌||◌, if◌then◌else◌, [], length, take, min, nat_lt, Option, Some, None, IfOk, OnErr, IsErr, is_err, vec_capacity};
ghost use Rattle.outside.specs.Outside.{LAST, HasRisen};
ghost use Rattle.outside.specs.Calls.{is_listed, next_call};

use crate::traits::{Failed, Sink, raise};
use std::alloc::{AllocError, Global};

/// A sink that never fails and keeps nothing. The bytes written are not known to the contract.
#[derive(Clone, Copy, Debug)]
pub struct SureSink;

impl Sink for SureSink {
    ghost state = { λ _. record { written = None; faults = 0 } };

    fn write(&mut self, bytes: &[u8]) -> Result<usize, Failed>
        ensures whole { result ≡ Ok (length bytes.now) }
    {
        Ok(bytes.len())
    }
}

/// A sink in memory. `new` allocates the memory for all its bytes.
#[derive(Drop)]
pub struct MemSink {
    bytes: Vec<u8>,
    room: usize,
    most: usize,
    calls: u64,
    fails: Vec<u64>,
    count: u64,
    ghost some: { 1 ≤ most },
    ghost within: { length bytes.items ≤ room },
    ghost taken: { room ≤ vec_capacity bytes },
}

impl MemSink {
    ghost use Rattle.outside.specs.Written.{bytes_of, room_of, most_bytes_of, faults_of, calls_of, fails_of};

    /// A sink of at most `room` bytes in all, and at most `most` bytes in one call. A call fails if
    /// `fails` has its number, counted from 1, or if it has a byte to write and the sink is full.
    ///
    /// Errors: out of memory.
    pub fn new(
        alloc: Global,
        room: usize,
        most: usize,
        fails: Vec<u64>,
    ) -> Result<MemSink, AllocError>
        requires { 1 ≤ most }
        ensures bytes { IfOk result (λ sink. bytes_of sink ≡ []) }
        ensures room { IfOk result (λ sink. room_of sink ≡ room) }
        ensures most { IfOk result (λ sink. most_bytes_of sink ≡ most) }
        ensures faults { IfOk result (λ sink. faults_of sink ≡ 0) }
        ensures calls { IfOk result (λ sink. calls_of sink ≡ 0) }
        ensures fails { IfOk result (λ sink. fails_of sink ≡ fails.items) }
    {
        Ok(MemSink {
            bytes: Vec::with_capacity(alloc, room)?,
            room,
            most,
            calls: 0,
            fails,
            count: 0,
        })
    }

    /// The bytes written so far.
    pub fn bytes(&self) -> &[u8]
        ensures { result.now ≡ bytes_of self.now }
    {
        &self.bytes
    }
}

impl Sink for MemSink {
    ghost use Rattle.outside.specs.Written.{sink_state, bytes_of, room_of, most_bytes_of, has_no_room, faults_of, calls_of, fails_of};

    ghost state = { λ s. sink_state s };

    fn write(&mut self, bytes: &[u8]) -> Result<usize, Failed>
        ensures taken { IfOk result (λ n. n ≡ min (length bytes.now) (min (most_bytes_of self.old)
            (room_of self.old - length (bytes_of self.old)))) }
        ensures some { IfOk result (λ n. 0 < length bytes.now → 0 < n) }
        ensures added { IfOk result (λ n. bytes_of self.new ≡ bytes_of self.old
            ++ take n bytes.now) }
        ensures failed { OnErr result (bytes_of self.new ≡ bytes_of self.old) }
        ensures fails { is_err result ≡ (is_listed (fails_of self.old) (calls_of self.new)
            || (nat_lt 0 (length bytes.now) && has_no_room self.old)) }
        ensures cause { IsErr result → HasRisen (faults_of self.old) (faults_of self.new) }
        ensures count { faults_of self.new ≡ (if is_err result then min
            (faults_of self.old + 1) LAST else faults_of self.old) }
        ensures later { faults_of self.old ≤ faults_of self.new }
        ensures calls { calls_of self.new ≡ next_call (calls_of self.old) }
        ensures within { length (bytes_of self.new) ≤ room_of self.new }
        ensures same_room { room_of self.new ≡ room_of self.old }
        ensures same_most { most_bytes_of self.new ≡ most_bytes_of self.old }
        ensures same_fails { fails_of self.new ≡ fails_of self.old }
    {
        self.calls = self.calls.saturating_add(1);
        let is_full = !bytes.is_empty() && self.bytes.len() >= self.room;
        if self.fails.contains(&self.calls) || is_full {
            raise(&mut self.count);
            return Err(Failed);
        }
        let n = bytes.len().min(self.most).min(self.room - self.bytes.len());
        self.bytes.extend_from_slice(&bytes[..n]).unwrap();
        Ok(n)
    }
}
