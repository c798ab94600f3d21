//! Limits of the format.

/// The most commands of a trace.
pub const MAX_COMMANDS: u32 = 1_000_000;
