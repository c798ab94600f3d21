//! Commands of mutators.

/// The maximum number of mutators of a heap.
pub const MAX_MUTATORS: u32 = 16;

/// The number of registers of a mutator.
pub const REGISTERS: usize = 16;

/// The last register of a mutator, counted from 0.
pub const MAX_REGISTER: u32 = REGISTERS as u32 - 1;

/// The number of globals of a heap.
pub const GLOBALS: usize = 16;

/// The last global of a heap, counted from 0.
pub const MAX_GLOBAL: u32 = GLOBALS as u32 - 1;

/// The maximum number of references of an object.
pub const MAX_REFS: u32 = 1024;

/// The maximum number of numbers of an object.
pub const MAX_NUMS: u32 = 60_000;

/// One step of a mutator.
///
/// `d`, `s` and `v` are registers of the mutator, at most `MAX_REGISTER`, and `g` is a global, at
/// most `MAX_GLOBAL`. `i` is the index of a reference, below `MAX_REFS`, and `j` the index of a
/// number, below `MAX_NUMS`.
#[derive(Clone, Copy, Debug, PartialEq, Eq)]
pub enum Command {
    /// Allocates an object of `refs` references, at most `MAX_REFS` and all nil, and `nums`
    /// numbers, at most `MAX_NUMS` and all 0. `d` becomes its name.
    New { d: u32, refs: u32, nums: u32 },
    /// `d` becomes reference `i` of the object that `s` names.
    Get { d: u32, s: u32, i: u32 },
    /// Reference `i` of the object that `s` names becomes `v`.
    Put { s: u32, i: u32, v: u32 },
    /// Replies number `j` of the object that `s` names.
    Read { s: u32, j: u32 },
    /// Number `j` of the object that `s` names becomes `n`.
    Write { s: u32, j: u32, n: u64 },
    /// Adds `n` to number `j`, modulo 2^64, and replies the number before the sum.
    Add { s: u32, j: u32, n: u64 },
    /// Sets number `j` to `next` if it is `was`, and replies whether it was.
    Swap { s: u32, j: u32, was: u64, next: u64 },
    /// `d` becomes `s`.
    Move { d: u32, s: u32 },
    /// `s` becomes nil.
    DropReg { s: u32 },
    /// `d` becomes the global `g`.
    Load { d: u32, g: u32 },
    /// The global `g` becomes `s`.
    Share { g: u32, s: u32 },
    /// Pins the object that `s` names, and replies yes if it was not pinned before.
    Pin { s: u32 },
    /// Unpins the object that `s` names, and replies yes if it was pinned before.
    Unpin { s: u32 },
    /// Requests a collection. It changes nothing in the ideal heap.
    Gc,
    /// Waits until each other mutator is at its next `meet` or has ended.
    Meet,
}
