//! The copying plan with two spaces.

ghost use Rattle.plans.specs.Prelude.{semi_space, rules_of, none-large, part-clear, copies-kept};
ghost use Rattle.std.proofs.Common.{refl};

use crate::release::release_copied;
use heap_layout::{Kind, Layout};
use object_model::{Collect, Heap};
use plan_api::{Fills, Plan, PlanFlags, Reserve, copied_blocks};
use side_meta::Words;
use std::alloc::{AllocError, Global};

/// MMTk's SemiSpace: mutators fill blocks from start to end, and a collection copies what is
/// reachable out of them into others. A Free block is held back for each block in use.
#[derive(Clone, Copy, Debug)]
pub struct SemiSpace;

// What mutators and tracers fill.
const FILLS: Fills = Fills {
    fill: Kind::Bump,
    copy: Kind::Bump,
    young: false,
};

impl Plan for SemiSpace {
    ghost plan = { semi_space };

    ghost rules = { rules_of semi_space };

    ghost FLAGS = { record { 0 = 1 } };

    const FLAGS: PlanFlags = PlanFlags::MOVES;

    const NAME: &'static str = "semispace";

    ghost rules_are_of_plan = { refl };

    ghost flags_are_of_rules = { refl };

    ghost fill_has_holes = { refl };

    ghost holes_are_clear = { part-clear (rules_of semi_space).fill };

    ghost large_objects_stay = { none-large semi_space };

    ghost reserve_is_kept = { copies-kept };

    fn plan_name() -> &'static str {
        SemiSpace::NAME
    }

    fn collects() -> bool {
        true
    }

    fn alloc_kind() -> Kind {
        Kind::Bump
    }

    fn copy_kind() -> Kind {
        Kind::Bump
    }

    fn reserve() -> Reserve {
        Reserve::Copies
    }

    fn kind(_heap: &Heap) -> Collect {
        Collect::Full
    }

    fn from_blocks(alloc: Global, heap: &Heap, collect: Collect) -> Result<Vec<bool>, AllocError> {
        let from = copied_blocks(alloc, heap, &FILLS, collect)?;
        Ok(from)
    }

    fn release_block<W: Words>(
        words: &mut W,
        layout: &Layout,
        block: u32,
        collect: Collect,
        base: u64,
    ) {
        release_copied(words, layout, block, &FILLS, collect, base);
    }

    fn relist_block<W: Words>(_words: &mut W, _layout: &Layout, _block: u32) {}
}
