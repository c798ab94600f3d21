//! Immix with young objects.

ghost use Rattle.plans.specs.Prelude.{sticky_immix, rules_of, none-large, part-clear, headroom-kept};
ghost use Rattle.std.proofs.Common.{refl};

use crate::release::{release_in_place, relist_lines};
use heap_layout::{Kind, Layout};
use immix_space::candidates;
use object_model::{Collect, Heap};
use plan_api::{Plan, PlanFlags, Reserve, first_kind, no_blocks};
use side_meta::Words;
use std::alloc::{AllocError, Global};

/// MMTk's StickyImmix: as Immix, but objects are young until a collection has kept them, and a
/// nursery collection clears the lines of unreachable young objects alone. It moves none; a full
/// one moves objects as Immix does.
#[derive(Clone, Copy, Debug)]
pub struct StickyImmix;

impl Plan for StickyImmix {
    ghost plan = { sticky_immix };

    ghost rules = { rules_of sticky_immix };

    ghost FLAGS = { record { 0 = 7 } };

    const FLAGS: PlanFlags = PlanFlags(
        PlanFlags::MOVES.0 | PlanFlags::YOUNG.0 | PlanFlags::LINES.0,
    );

    const NAME: &'static str = "stickyimmix";

    ghost rules_are_of_plan = { refl };

    ghost flags_are_of_rules = { refl };

    ghost fill_has_holes = { refl };

    ghost holes_are_clear = { part-clear (rules_of sticky_immix).fill };

    ghost large_objects_stay = { none-large sticky_immix };

    ghost reserve_is_kept = { headroom-kept };

    fn plan_name() -> &'static str {
        StickyImmix::NAME
    }

    fn collects() -> bool {
        true
    }

    fn alloc_kind() -> Kind {
        Kind::Immix
    }

    fn copy_kind() -> Kind {
        Kind::Immix
    }

    fn reserve() -> Reserve {
        Reserve::Headroom
    }

    fn kind(heap: &Heap) -> Collect {
        first_kind(heap)
    }

    fn from_blocks(alloc: Global, heap: &Heap, collect: Collect) -> Result<Vec<bool>, AllocError> {
        match collect {
            Collect::Nursery => no_blocks(alloc, heap),
            Collect::Full => {
                let from = candidates(alloc, heap.words(), heap.layout())?;
                Ok(from)
            }
        }
    }

    fn release_block<W: Words>(
        words: &mut W,
        layout: &Layout,
        block: u32,
        _collect: Collect,
        base: u64,
    ) {
        release_in_place(words, layout, block, base);
    }

    fn relist_block<W: Words>(words: &mut W, layout: &Layout, block: u32) {
        relist_lines(words, layout, block);
    }
}
