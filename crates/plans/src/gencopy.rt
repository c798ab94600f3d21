//! The copying plan with young objects.

ghost use Rattle.plans.specs.Prelude.{gen_copy, rules_of, none-large, part-clear, copies-kept};
ghost use Rattle.std.proofs.Common.{refl};

use crate::release::release_copied;
use heap_layout::{Kind, Layout};
use object_model::{Collect, Heap};
use plan_api::{Fills, Plan, PlanFlags, Reserve, copied_blocks, first_kind};
use side_meta::Words;
use std::alloc::{AllocError, Global};

/// MMTk's GenCopy: mutators fill Young blocks from start to end. A nursery collection copies what
/// is reachable out of these into Mature blocks, a full one out of all blocks. A Free block is held
/// back for each block in use.
#[derive(Clone, Copy, Debug)]
pub struct GenCopy;

// What mutators and tracers fill.
const FILLS: Fills = Fills {
    fill: Kind::Young,
    copy: Kind::Mature,
    young: true,
};

impl Plan for GenCopy {
    ghost plan = { gen_copy };

    ghost rules = { rules_of gen_copy };

    ghost FLAGS = { record { 0 = 3 } };

    const FLAGS: PlanFlags = PlanFlags(PlanFlags::MOVES.0 | PlanFlags::YOUNG.0);

    const NAME: &'static str = "gencopy";

    ghost rules_are_of_plan = { refl };

    ghost flags_are_of_rules = { refl };

    ghost fill_has_holes = { refl };

    ghost holes_are_clear = { part-clear (rules_of gen_copy).fill };

    ghost large_objects_stay = { none-large gen_copy };

    ghost reserve_is_kept = { copies-kept };

    fn plan_name() -> &'static str {
        GenCopy::NAME
    }

    fn collects() -> bool {
        true
    }

    fn alloc_kind() -> Kind {
        Kind::Young
    }

    fn copy_kind() -> Kind {
        Kind::Mature
    }

    fn reserve() -> Reserve {
        Reserve::Copies
    }

    fn kind(heap: &Heap) -> Collect {
        first_kind(heap)
    }

    fn from_blocks(alloc: Global, heap: &Heap, collect: Collect) -> Result<Vec<bool>, AllocError> {
        let from = copied_blocks(alloc, heap, &FILLS, collect)?;
        Ok(from)
    }

    fn release_block<W: Words>(
        words: &mut W,
        layout: &Layout,
        block: u32,
        collect: Collect,
        base: u64,
    ) {
        release_copied(words, layout, block, &FILLS, collect, base);
    }

    fn relist_block<W: Words>(_words: &mut W, _layout: &Layout, _block: u32) {}
}
