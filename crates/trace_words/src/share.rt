//! What a seat has of a trace that several workers make.

use crate::event::TraceEvent;
use std::collections::LinkedList;

/// What a seat has to do, has done and knows. No value of it is made: it is what clauses say of a
/// seat.
pub struct Share {
    /// How many parts of the trace it has. A token has none.
    pub parts: u64,
    /// 1 of a token, 0 else.
    pub token: u64,
    /// Its worker's number. 0 of a token, and of the share that begins, which takes no block.
    pub worker: u64,
    /// Numbers of workers that it may give seats to.
    pub numbers: LinkedList<u64>,
    /// The events of the tracing machine that it made, and those of the shares that it took in.
    pub made: LinkedList<TraceEvent>,
    /// How many tokens it gave, and how many it took in.
    pub gave: u64,
    pub took: u64,
    /// Its room to copy into: the addresses from `front` up to `limit`.
    pub front: u64,
    pub limit: u64,
    /// The lists of a tracer's view.
    pub won: LinkedList<(u64, u64)>,
    pub grey: LinkedList<(u64, u64)>,
    pub copied: LinkedList<u64>,
    pub unset: LinkedList<u64>,
    pub set: LinkedList<u64>,
    pub asked: LinkedList<u64>,
    pub known: LinkedList<(u64, u64)>,
    pub blocks: LinkedList<u64>,
    pub sparse: LinkedList<u64>,
    /// Of its blocks, the one that it copies into, and those that it left with more than
    /// `MAX_MEDIUM_WORDS` kept words.
    pub filling: LinkedList<u64>,
    pub full: LinkedList<u64>,
    /// Blocks that the shares it took in were filling then.
    pub last: LinkedList<u64>,
    /// Blocks that it took, or a share that it took in, with the numbers of the workers.
    pub owned: LinkedList<(u64, u64)>,
    /// Words of line bits in which it set bits or saw them set, with the masks.
    pub lined: LinkedList<(u64, u64)>,
    /// Blocks that it saw not to be Free.
    pub busy: LinkedList<u64>,
}
