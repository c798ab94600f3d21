//! The arguments of a printed command.

/// An argument of a printed command, by its letter and its width.
#[derive(Clone, Copy)]
pub(crate) enum Argument {
    /// The letter `r` and a register number.
    Register(u32),
    /// The letter `g` and the number of a global.
    Global(u32),
    /// A count or an index of 32 bits, without a letter.
    Small(u32),
    /// A number of 64 bits, without a letter.
    Value(u64),
}
