//! The plan that never reclaims memory.

ghost use Rattle.plans.specs.Prelude.{no_gc, rules_of, none-large, part-clear, nothing-kept};
ghost use Rattle.std.proofs.Common.{refl};

use crate::release::release_in_place;
use heap_layout::{Kind, Layout};
use object_model::{Collect, Heap};
use plan_api::{Plan, PlanFlags, Reserve, no_blocks};
use side_meta::Words;
use std::alloc::{AllocError, Global};

/// MMTk's NoGC: mutators fill blocks from start to end, and nothing is reclaimed. A collection
/// frees nothing and advances the heap's collection number.
#[derive(Clone, Copy, Debug)]
pub struct NoGc;

impl Plan for NoGc {
    ghost plan = { no_gc };

    ghost rules = { rules_of no_gc };

    ghost FLAGS = { record { 0 = 0 } };

    const FLAGS: PlanFlags = PlanFlags(0);

    const NAME: &'static str = "nogc";

    ghost rules_are_of_plan = { refl };

    ghost flags_are_of_rules = { refl };

    ghost fill_has_holes = { refl };

    ghost holes_are_clear = { part-clear (rules_of no_gc).fill };

    ghost large_objects_stay = { none-large no_gc };

    ghost reserve_is_kept = { nothing-kept };

    fn plan_name() -> &'static str {
        NoGc::NAME
    }

    fn collects() -> bool {
        false
    }

    fn alloc_kind() -> Kind {
        Kind::Bump
    }

    fn copy_kind() -> Kind {
        Kind::Free
    }

    fn reserve() -> Reserve {
        Reserve::Nothing
    }

    fn kind(_heap: &Heap) -> Collect {
        Collect::Full
    }

    fn from_blocks(alloc: Global, heap: &Heap, _collect: Collect) -> Result<Vec<bool>, AllocError> {
        no_blocks(alloc, heap)
    }

    fn release_block<W: Words>(
        words: &mut W,
        layout: &Layout,
        block: u32,
        _collect: Collect,
        base: u64,
    ) {
        release_in_place(words, layout, block, base);
    }

    fn relist_block<W: Words>(_words: &mut W, _layout: &Layout, _block: u32) {}
}
