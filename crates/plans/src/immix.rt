//! The plan that fills clear lines between objects, and evacuates the blocks with the most holes.

ghost use Rattle.plans.specs.Prelude.{immix, rules_of, none-large, part-clear, headroom-kept};
ghost use Rattle.std.proofs.Common.{refl};

use crate::release::{release_in_place, relist_lines};
use heap_layout::{Kind, Layout};
use immix_space::candidates;
use object_model::{Collect, Heap};
use plan_api::{Plan, PlanFlags, Reserve};
use side_meta::Words;
use std::alloc::{AllocError, Global};

/// Immix, by the rules of Blackburn and McKinley (2008) and of MMTk: mutators fill runs of clear
/// lines between objects, and a collection clears the lines that no object it keeps touches. It
/// moves objects out of the blocks with the most holes, as long as these have no more marked lines
/// than the Free blocks have lines. One Free block is held back for each 32 blocks of the heap,
/// rounded up.
#[derive(Clone, Copy, Debug)]
pub struct Immix;

impl Plan for Immix {
    ghost plan = { immix };

    ghost rules = { rules_of immix };

    ghost FLAGS = { record { 0 = 5 } };

    const FLAGS: PlanFlags = PlanFlags(PlanFlags::MOVES.0 | PlanFlags::LINES.0);

    const NAME: &'static str = "immix";

    ghost rules_are_of_plan = { refl };

    ghost flags_are_of_rules = { refl };

    ghost fill_has_holes = { refl };

    ghost holes_are_clear = { part-clear (rules_of immix).fill };

    ghost large_objects_stay = { none-large immix };

    ghost reserve_is_kept = { headroom-kept };

    fn plan_name() -> &'static str {
        Immix::NAME
    }

    fn collects() -> bool {
        true
    }

    fn alloc_kind() -> Kind {
        Kind::Immix
    }

    fn copy_kind() -> Kind {
        Kind::Immix
    }

    fn reserve() -> Reserve {
        Reserve::Headroom
    }

    fn kind(_heap: &Heap) -> Collect {
        Collect::Full
    }

    // Only full collections are made.
    fn from_blocks(alloc: Global, heap: &Heap, _collect: Collect) -> Result<Vec<bool>, AllocError> {
        let from = candidates(alloc, heap.words(), heap.layout())?;
        Ok(from)
    }

    fn release_block<W: Words>(
        words: &mut W,
        layout: &Layout,
        block: u32,
        _collect: Collect,
        base: u64,
    ) {
        release_in_place(words, layout, block, base);
    }

    fn relist_block<W: Words>(words: &mut W, layout: &Layout, block: u32) {
        relist_lines(words, layout, block);
    }
}
