//! Blocks that are relisted after mutators filled them, of rows that are written by hand.

ghost use Rattle.std.specs.Prelude.{◌≡◌};
ghost use Rattle.heap_layout.specs.Zones.{IsRowOf};

use crate::releases::{check_words, small_row};
use heap_layout::{Kind, Layout};
use plan_api::Plan;
use plans::{GenCopy, Immix, MarkSweep, NoGc, SemiSpace, StickyImmix};
use releasable_rows::is_releasable;
use std::alloc::{AllocError, Global};
use std::process::Abort;
use std::test::Fail;

/// Relists block 1. Of the words before the heap these change, and no other one.
fn check_relist<P: Plan>(
    rt: &impl Abort,
    alloc: Global,
    layout: &Layout,
    mut words: Vec<u64>,
    after: &[(usize, u64)],
) -> Result<(), AllocError>
    requires extent { IsRowOf layout.now words.items }
    requires blocks { layout.now.blocks ≡ 4 }
{
    let before = words.as_slice().to_vec(alloc)?;
    assert!(rt; is_releasable(&words, layout, 1));
    P::relist_block(&mut words, layout, 1);
    check_words::<P>(rt, &before, &words, after, &[]);
    Ok(())
}

/// Held objects touch lines 0, 4, 5, 8 and 12 to 15, dead ones too.
const EXACT: &[(usize, u64)] = &[(26, 0xf131), (29, 0)];

/// Kinds and classes of blocks. Where the owner is not 0, that mutator owns the block.
const BLOCKS: [(Kind, u32, u64); 7] = [
    (Kind::Immix, 0, 0),
    (Kind::Immix, 0, 16),
    (Kind::Bump, 0, 3),
    (Kind::Young, 0, 0),
    (Kind::Mature, 0, 0),
    (Kind::Cells, 8, 1),
    (Kind::Kept, 0, 0),
];

/// Relists block 1 of rows whose objects no collection met, under a plan without lines or with
/// them.
fn check_kinds<P: Plan>(rt: &impl Abort, alloc: Global, lines: bool) -> Result<(), Fail> {
    let layout = Layout::new(4)?;
    for (kind, class, owner) in BLOCKS {
        let mut words = small_row(alloc, &layout, kind, class, 0)?;
        if let Some(word) = words.get_mut(19) {
            *word = word.wrapping_add(65_536 * (owner % 17));
        }
        let after = if lines && kind == Kind::Immix {
            EXACT
        } else {
            &[]
        };
        check_relist::<P>(rt, alloc, &layout, words, after)?;
    }
    Ok(())
}

#[test]
fn relists(rt: HostRuntime) -> Result<(), Fail> {
    check_kinds::<NoGc>(&rt, rt.alloc(), false)?;
    check_kinds::<MarkSweep>(&rt, rt.alloc(), false)?;
    check_kinds::<SemiSpace>(&rt, rt.alloc(), false)?;
    check_kinds::<GenCopy>(&rt, rt.alloc(), false)?;
    check_kinds::<Immix>(&rt, rt.alloc(), true)?;
    check_kinds::<StickyImmix>(&rt, rt.alloc(), true)
}
