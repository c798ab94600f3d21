//! Names of objects.

/// The name of an object, printed `mutator.birth`.
///
/// No two objects get the same name. Names are ordered by mutator, then birth.
#[derive(Clone, Copy, Debug, PartialEq, Eq, PartialOrd, Ord)]
pub struct Name {
    /// The mutator that allocated the object, from 1 on.
    pub mutator: u32,
    /// The number of the object among those that the mutator allocated, from 1 on.
    pub birth: u32,
}
