//! The state and the events of a mutator in an epoch. Only contracts use these types.

use ideal_heap::{Command, Reply};
use std::collections::LinkedList;

/// A block that a mutator owns.
pub struct OwnedBlock {
    /// The block's number.
    pub block: u64,
    /// The size class that the block was taken for, 0 if it has no cells.
    pub class: u64,
}

/// The extent of an object.
pub struct Extent {
    /// The address of the first word.
    pub address: u64,
    /// The size in words.
    pub size: u64,
}

/// A word of the row as a mutator loaded it.
pub struct Loaded {
    /// What was loaded: an index of the row, a block's number or an object's address, by the field
    /// of `Local` that holds the value. In `shape` and `collector` 0 means that nothing is loaded.
    pub at: u64,
    /// The word that was found.
    pub word: u64,
}

/// An object whose words are being stored, in order, and whose start bit is not set yet.
pub struct Unpublished {
    /// The address, 0 if there is no such object.
    pub address: u64,
    /// The number of reference fields.
    pub refs: u64,
    /// The number of numbers.
    pub nums: u64,
    /// The number of words stored so far.
    pub written: u64,
}

/// The state of one mutator.
pub struct Local {
    /// The mutator's number.
    pub number: u64,
    /// The number of objects that the mutator has allocated.
    pub births: u64,
    /// The addresses that the registers hold, 0 for nil.
    pub registers: LinkedList<u64>,
    /// The blocks that the mutator took in this epoch.
    pub owned: LinkedList<OwnedBlock>,
    /// The numbers of those owned blocks that were Free.
    pub granted: LinkedList<u64>,
    /// The objects that the mutator published in this epoch.
    pub made: LinkedList<Extent>,
    /// The object that is being written.
    pub unpublished: Unpublished,
    /// A ticket that is not used for a block yet.
    pub ticket: Option<u64>,
    /// The shape word last loaded for a register's object, with the object's address.
    pub shape: Loaded,
    /// The collector word last loaded for a register's object, with the object's address.
    pub collector: Loaded,
    /// The address of an object whose unlog bit is known to be clear, 0 if none.
    pub logged: u64,
    /// The address of an object whose unlog bit this mutator cleared and into which it has not
    /// stored since, 0 if none.
    pub pending: u64,
    /// The line words, start words and header words that were loaded, by index of the row.
    pub loaded: LinkedList<Loaded>,
    /// The block words that were loaded, by block number.
    pub blocks: LinkedList<Loaded>,
    /// The stop word, as `Poll` last loaded it.
    pub stop: u64,
    /// Whether the mutator tried to raise a stop.
    pub raised: bool,
}

/// One atomic step of a mutator, on at most one word of the row. A register is given by its number,
/// and an object by its address or by the register that holds its address.
#[derive(Clone, Copy)]
pub enum Event {
    /// The step at which a command takes effect and gets its entry in the history.
    Perform(Command),
    /// The entry of a command that has no effect: its register is nil, or the object has no field
    /// or number with its index.
    Miss(Command),
    /// A load of the stop word.
    Poll,
    /// A load of the name word of a register's object.
    LoadName(u64),
    /// A load of the shape word of a register's object.
    LoadShape(u64),
    /// A load of the collector word of a register's object.
    LoadCollector(u64),
    /// A load of the shape word of the object at an address.
    LoadShapeAt(u64),
    /// A load of the block word of a block, given by its number.
    LoadBlock(u64),
    /// A load of a line word or start word, given by its index of the row.
    LoadSide(u64),
    /// A load of the word with the unlog bit of a register's object.
    LoadUnlog(u64),
    /// The compare-exchange of the stop word from 0 to the mutator's number.
    Raise,
    /// The barrier: the unlog bit of a register's object is cleared, as in MMTk's object barrier.
    ClearUnlog(u64),
    /// The store of one word of an unpublished object. `word` is the word's offset in the object.
    Initialize {
        address: u64,
        refs: u64,
        nums: u64,
        word: u64,
    },
    /// The addition of 1 to the budget word. The word found is the ticket.
    DrawTicket,
    /// The compare-exchange that takes a block. If `free` is set, a Free block is expected, else a
    /// block without an owner, of the kind that mutators fill.
    TakeBlock {
        block: u64,
        class: u64,
        free: bool,
    },
}

/// The answer to an event.
pub enum Answer {
    /// A reply of the ideal heap.
    Plain(Reply),
    /// The address that a reference holds, 0 for nil.
    Reference(u64),
}

/// An event in the log of all mutators, in the order of the steps.
pub struct LogEntry {
    /// The number of the mutator that made the step.
    pub mutator: u64,
    /// The event.
    pub event: Event,
    /// The answer to the event.
    pub answer: Answer,
}
