//! The tables that represent an ideal heap.

ghost use Rattle.std.specs.Prelude.{◌<◌, ◌^◌, ◌≤◌, vec_len};

use crate::command::{GLOBALS, REGISTERS};
use crate::name::Name;

/// An object: its references, its numbers, and whether it is pinned.
#[derive(Drop)]
pub struct Object {
    pub refs: Vec<Option<Name>>,
    pub nums: Vec<u64>,
    pub pinned: bool,
}

/// A mutator: its registers, and its objects in the order of allocation.
#[derive(Drop)]
pub struct Mutator {
    pub registers: [Option<Name>; REGISTERS],
    pub objects: Vec<Object>,
    pub ghost few: { vec_len objects < 2 ^ 32 },
}

/// The tables of a heap. Mutator `m` has index `m - 1`, and its object of birth `k` index `k - 1`.
#[derive(Drop)]
pub struct Tables {
    pub mutators: Vec<Mutator>,
    pub globals: [Option<Name>; GLOBALS],
}
