//! Events of the tracing machine, as shares list them.

/// What asks for an object.
pub enum TraceCause {
    /// A root that is no global.
    Root,
    /// The global of this number.
    Global(u64),
    /// A field of the object at an address, and its number.
    Field(u64, u64),
}

/// What a step of a tracer did to the machine.
pub enum TraceEvent {
    /// It claimed an object for a target.
    Claim(u64, u64, TraceCause),
    /// A root asked for an object that has its target.
    Ask(u64),
    /// It made the next step of the copying of an object.
    Copy(u64),
    /// It scanned the next field of an object.
    Scan(u64),
    /// It set a global.
    SetGlobal(u64),
    /// It set bits of a line word, given as a mask, for an object.
    MarkLines(u64, u64, u64),
    /// It took a block for a worker.
    TakeBlock(u64, u64),
}
