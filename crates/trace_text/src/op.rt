//! The operations of a trace.

/// The operation of a command, without its arguments.
#[derive(Clone, Copy, Debug, PartialEq, Eq)]
pub enum Op {
    New,
    Get,
    Put,
    Read,
    Write,
    Add,
    Swap,
    Move,
    DropReg,
    Load,
    Share,
    Pin,
    Unpin,
    Gc,
    Meet,
}
