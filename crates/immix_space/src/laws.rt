//! Laws of lines.

ghost use Rattle.std.specs.Prelude.{ℕ};
ghost use Rattle.heap_layout.specs.declared.block.Kind.TheVariants as kinds;
ghost use Rattle.object_model.specs.Objects.{HeapState, HasKind};
ghost use Rattle.object_model.specs.Lawful.{AllLie};
ghost use Rattle.immix_space.specs.LineSweeps.{IsTouchedFromWithin};

/// Where all held objects lie as they may, none reaches into an Immix block from another.
pub fn immix_blocks_are_touched_from_within()
    ensures { (s : HeapState) (k : ℕ) → AllLie s → HasKind s k kinds.Immix
        → IsTouchedFromWithin s k }
{}
