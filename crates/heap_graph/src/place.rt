//! Where an object lies.

use ideal_heap::Name;

/// An object's name and where it lies.
#[derive(Clone, Copy, Debug, PartialEq, Eq)]
pub struct Place {
    /// Its name.
    pub name: Name,
    /// Its address: the index of its first word in the row.
    pub at: u32,
    /// Its size in words, header included.
    pub size: u32,
}
