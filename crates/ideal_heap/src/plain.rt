//! The executable ideal heap.

ghost use Rattle.ideal_heap.specs.Tables.{tables_heap};
ghost use Rattle.ideal_heap.specs.Ideal.{IsClosed};

use crate::command::Command;
use crate::reply::Reply;
use crate::tables::Tables;
use std::alloc::{AllocError, Global};

/// The ideal heap as tables. Tests compare a managed heap with it.
///
/// No object is ever freed. `New` takes time linear in the size of the object, each other command
/// takes constant time.
#[derive(Drop)]
pub struct Ideal {
    pub(crate) alloc: Global,
    pub(crate) tables: Tables,
    ghost closed: { IsClosed (tables_heap tables) },
}
