//! The plan of cells that are swept in place.

ghost use Rattle.plans.specs.Prelude.{mark_sweep, rules_of, none-large, part-clear, nothing-kept};
ghost use Rattle.std.proofs.Common.{refl};

use crate::release::release_in_place;
use heap_layout::{Kind, Layout};
use object_model::{Collect, Heap};
use plan_api::{Plan, PlanFlags, Reserve, no_blocks};
use side_meta::Words;
use std::alloc::{AllocError, Global};

/// MMTk's MarkSweep: each block has cells of one size, and a collection frees the cells of the
/// objects that it does not reach. No object moves, and no Free block is held back.
#[derive(Clone, Copy, Debug)]
pub struct MarkSweep;

impl Plan for MarkSweep {
    ghost plan = { mark_sweep };

    ghost rules = { rules_of mark_sweep };

    ghost FLAGS = { record { 0 = 8 } };

    const FLAGS: PlanFlags = PlanFlags::CELLS;

    const NAME: &'static str = "marksweep";

    ghost rules_are_of_plan = { refl };

    ghost flags_are_of_rules = { refl };

    ghost fill_has_holes = { refl };

    ghost holes_are_clear = { part-clear (rules_of mark_sweep).fill };

    ghost large_objects_stay = { none-large mark_sweep };

    ghost reserve_is_kept = { nothing-kept };

    fn plan_name() -> &'static str {
        MarkSweep::NAME
    }

    fn collects() -> bool {
        true
    }

    fn alloc_kind() -> Kind {
        Kind::Cells
    }

    fn copy_kind() -> Kind {
        Kind::Free
    }

    fn reserve() -> Reserve {
        Reserve::Nothing
    }

    fn kind(_heap: &Heap) -> Collect {
        Collect::Full
    }

    fn from_blocks(alloc: Global, heap: &Heap, _collect: Collect) -> Result<Vec<bool>, AllocError> {
        no_blocks(alloc, heap)
    }

    fn release_block<W: Words>(
        words: &mut W,
        layout: &Layout,
        block: u32,
        _collect: Collect,
        base: u64,
    ) {
        release_in_place(words, layout, block, base);
    }

    fn relist_block<W: Words>(_words: &mut W, _layout: &Layout, _block: u32) {}
}
