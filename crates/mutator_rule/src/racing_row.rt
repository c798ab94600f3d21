//! A heap's row while mutators on threads share it.

ghost use Rattle.std.specs.Prelude.{◌≡◌, ◌<◌, length};

use crate::rule::{EpochRules, OneLog};
use crate::views::{RowKey, SeatView};
use heap_layout::Layout;
use shared_row::SharedRow;

/// The row of a heap that mutators share, from the beginning of an epoch to its end.
#[derive(Drop)]
pub struct RacingRow<P: EpochRules> {
    pub(crate) row: SharedRow<SeatView, RowKey, OneLog<P>>,
    pub(crate) layout: Layout,
    pub(crate) number: u64,
    pub(crate) base: u64,
    ghost some: { 0 < row.words.table_id.words },
    ghost counted: { row.words.table_id.words ≡ length row.words.key.words.value },
    ghost laid: { layout ≡ row.words.key.layout },
    ghost numbered: { number ≡ row.words.key.number },
    ghost based: { base ≡ row.words.key.base },
}

impl<P: EpochRules> RacingRow<P> {
    /// The layout of the heap.
    #[inline(always)]
    pub fn layout(&self) -> Layout
        ensures { result ≡ self.now.layout }
    {
        self.layout
    }

    /// The heap's number.
    pub fn number(&self) -> u64
        ensures { result ≡ self.now.number }
    {
        self.number
    }

    /// The heap's base, by which an object is old.
    #[inline(always)]
    pub fn base(&self) -> u64
        ensures { result ≡ self.now.base }
    {
        self.base
    }
}
