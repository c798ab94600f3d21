//! Replies to commands.

use crate::name::Name;

/// The reply to a command.
#[derive(Clone, Copy, Debug, PartialEq, Eq)]
pub enum Reply {
    /// The new object's name.
    New(Name),
    /// A `new` was refused because the heap is full, and nothing changed.
    Full,
    /// The name in the reference or global that was read.
    Ref(Name),
    /// The reference or global that was read is nil.
    Nil,
    /// The number that was read, or for `add` the number before the sum.
    Num(u64),
    /// The command was executed and has no result.
    Done,
    /// `swap`, `pin` or `unpin` made its change.
    Yes,
    /// `swap` found another number, or the pin was already as requested.
    No,
    /// The register that should name an object is nil, and nothing changed.
    Null,
    /// The object has no such reference or number, and nothing changed.
    Range,
}
