//! Releases of blocks of rows of 4 blocks that are written by hand, after collection 1: block words
//! from 18 on, line words from 22, start bits from 38, pin bits from 294, unlog bits from 550,
//! blocks from 806. Block 1 begins at word 4902, and block 2 at word 8998.

ghost use Rattle.std.specs.Prelude.{◌≡◌, ◌+◌, ◌<◌, ◌≤◌, length, IfOk};
ghost use Rattle.heap_layout.specs.Zones.{row_words, IsRowOf};
ghost use Rattle.heap_layout.specs.declared.layout.TheConstants.{BLOCK_WORDS};

use heap_layout::{Kind, Layout};
use object_model::{Collect, Shape};
use plan_api::Plan;
use plans::{GenCopy, Immix, MarkSweep, NoGc, SemiSpace, StickyImmix};
use releasable_rows::{Object, empty_row, is_releasable, set_block, write_object};
use std::alloc::{AllocError, Global};
use std::process::Abort;
use std::test::Fail;

/// The collector word of an object that collection `number` met, and that is at `address` since.
fn met(number: u64, address: u64) -> u64
    requires number { number < 1000 }
    requires address { address < 20000 }
{
    (number << 24) + address
}

/// An object with `nums` numbers and this collector word.
fn object(offset: u32, nums: u32, collector: u64, pinned: bool, unlogged: bool) -> Object
    requires { offset + 3 ≤ BLOCK_WORDS }
{
    Object {
        offset,
        birth: offset + 1,
        shape: Shape { refs: 0, nums },
        collector,
        pinned,
        unlogged,
    }
}

/// A row whose block 1 has this kind and class, and two line bits. Of its four objects one moved to
/// block 2, and one is pinned but dead. Collection `number` met another pinned one, and one that is
/// logged.
pub(crate) fn small_row(
    alloc: Global,
    layout: &Layout,
    kind: Kind,
    class: u32,
    number: u64,
) -> Result<Vec<u64>, AllocError>
    requires blocks { layout.now.blocks ≡ 4 }
    requires number { number < 1000 }
    ensures { IfOk result (λ v. length v.items ≡ row_words layout.now.blocks) }
{
    let mut words = empty_row(alloc, layout)?;
    set_block(&mut words, layout, 1, kind, class);
    set_block(&mut words, layout, 2, Kind::Bump, 0);
    words[layout.line_at(1) as usize] = 1 << 3;
    words[layout.line_at(1) as usize + 3] = 1 << 63;
    let moved = object(0, 10, met(1, 8998), false, true);
    let pinned = object(64, 17, met(number, 4966), true, true);
    let dead = object(128, 3, 0, true, true);
    let logged = object(192, 61, met(number, 5094), false, false);
    let copy = object(0, 10, met(1, 8998), false, false);
    write_object(&mut words, layout, 1, &moved);
    write_object(&mut words, layout, 1, &pinned);
    write_object(&mut words, layout, 1, &dead);
    write_object(&mut words, layout, 1, &logged);
    write_object(&mut words, layout, 2, &copy);
    Ok(words)
}

/// The value that a word has in the list.
fn value_at(entries: &[(usize, u64)], index: usize) -> Option<u64> {
    for (at, value) in entries {
        if *at == index {
            return Some(*value);
        }
    }
    None
}

/// Of the words before the heap these of two lists changed under the plan, and no other one.
pub(crate) fn check_words<P: Plan>(
    rt: &impl Abort,
    before: &[u64],
    words: &[u64],
    own: &[(usize, u64)],
    rest: &[(usize, u64)],
) {
    for index in 0..806 {
        let changed = value_at(own, index).or(value_at(rest, index));
        let want = changed.or(before.get(index).copied());
        let is = words.get(index).copied();
        assert!(rt; is == want, "word {index} under {}", P::plan_name());
    }
}

/// Releases a block after collection 1, a full one. Of the words before the heap those of two lists
/// change, and no other one.
fn check_release<P: Plan>(
    rt: &impl Abort,
    alloc: Global,
    layout: &Layout,
    mut words: Vec<u64>,
    block: u32,
    own: &[(usize, u64)],
    rest: &[(usize, u64)],
) -> Result<(), AllocError>
    requires extent { IsRowOf layout.now words.items }
    requires block { block < layout.now.blocks }
{
    let before = words.as_slice().to_vec(alloc)?;
    assert!(rt; is_releasable(&words, layout, block));
    P::release_block(&mut words, layout, block, Collect::Full, 1);
    check_words::<P>(rt, &before, &words, own, rest);
    Ok(())
}

/// What becomes of block 1 of a kind and class in which two objects live: its word, and its first
/// and last line word. The word is 8 if the plan makes blocks of the kind Kept.
const LIVING: [((Kind, u32), u64, (u64, u64)); 6] = [
    ((Kind::Bump, 0), 1, STALE),
    ((Kind::Young, 0), 2, STALE),
    ((Kind::Mature, 0), 3, STALE),
    ((Kind::Immix, 0), 4, TOUCHED),
    ((Kind::Cells, 8), 2053, STALE),
    ((Kind::Kept, 0), 8, STALE),
];

// The line words of `small_row`, and those of lines 4, 5 and 12 to 15.
const STALE: (u64, u64) = (1 << 3, 1 << 63);

const TOUCHED: (u64, u64) = (0xf030, 0);

/// The object that moved away and the dead one are held no more. The two that live are unlogged,
/// and one of them is pinned.
const TWO_LIVE: &[(usize, u64)] = &[
    (102, 0),
    (103, 1),
    (104, 0),
    (105, 1),
    (359, 1),
    (360, 0),
    (614, 0),
    (615, 1),
    (616, 0),
    (617, 1),
];

/// A block in which nothing lives is Free, without a bit.
const NONE_LIVES: &[(usize, u64)] = &[
    (19, 0),
    (26, 0),
    (29, 0),
    (102, 0),
    (103, 0),
    (104, 0),
    (105, 0),
    (359, 0),
    (360, 0),
    (614, 0),
    (615, 0),
    (616, 0),
];

/// Blocks of each kind that mutators fill, in which two objects live, or none.
fn check_kinds<P: Plan>(
    rt: &impl Abort,
    alloc: Global,
    layout: &Layout,
    keeps: &[Kind],
) -> Result<(), AllocError>
    requires { layout.now.blocks ≡ 4 }
{
    for ((kind, class), plain, lines) in LIVING {
        let word = if keeps.contains(&kind) { 8 } else { plain };
        let own = [(19, word), (26, lines.0), (29, lines.1)];
        let living = small_row(alloc, layout, kind, class, 1)?;
        check_release::<P>(rt, alloc, layout, living, 1, &own, TWO_LIVE)?;
        let dead = small_row(alloc, layout, kind, class, 0)?;
        check_release::<P>(rt, alloc, layout, dead, 1, &[], NONE_LIVES)?;
    }
    Ok(())
}

/// A row whose block 1 is a Bump block that worker 17 owns.
fn owned_row(alloc: Global, layout: &Layout) -> Result<Vec<u64>, AllocError>
    requires { layout.now.blocks ≡ 4 }
    ensures { IfOk result (λ v. length v.items ≡ row_words layout.now.blocks) }
{
    let mut words = empty_row(alloc, layout)?;
    words[layout.block_at(1) as usize] = 1 + 65_536 * 17;
    Ok(words)
}

// A block of copies stays a Bump block, without an owner.
fn check_copies<P: Plan>(rt: &impl Abort, alloc: Global, layout: &Layout) -> Result<(), AllocError>
    requires { layout.now.blocks ≡ 4 }
{
    let mut words = owned_row(alloc, layout)?;
    let copy = object(0, 10, met(1, 4902), false, false);
    write_object(&mut words, layout, 1, &copy);
    check_release::<P>(rt, alloc, layout, words, 1, &[(19, 1), (614, 1)], &[])?;
    let words = owned_row(alloc, layout)?;
    check_release::<P>(rt, alloc, layout, words, 1, &[(19, 0)], &[])
}

/// A row with a large run of blocks 1 and 2. Its object is pinned.
fn run_row(
    alloc: Global,
    layout: &Layout,
    collector: u64,
    unlogged: bool,
) -> Result<Vec<u64>, AllocError>
    requires { layout.now.blocks ≡ 4 }
    ensures { IfOk result (λ v. length v.items ≡ row_words layout.now.blocks) }
{
    let mut words = empty_row(alloc, layout)?;
    set_block(&mut words, layout, 1, Kind::LargeHead, 2);
    set_block(&mut words, layout, 2, Kind::LargeTail, 0);
    let large = object(0, 5000, collector, true, unlogged);
    write_object(&mut words, layout, 1, &large);
    Ok(words)
}

/// A block of a heap with a large run of blocks 1 and 2, and what its release changes. The first
/// block releases the run. Its other block and a Free one change nothing.
const RUNS: [(u64, bool, u32, &[(usize, u64)]); 4] = [
    ((1 << 24) + 4902, false, 1, &[(614, 1)]),
    (
        0,
        true,
        1,
        &[(19, 0), (20, 0), (102, 0), (358, 0), (614, 0)],
    ),
    (0, true, 2, &[]),
    (0, true, 3, &[]),
];

fn check_runs<P: Plan>(rt: &impl Abort, alloc: Global, layout: &Layout) -> Result<(), AllocError>
    requires { layout.now.blocks ≡ 4 }
{
    for (collector, unlogged, block, after) in RUNS {
        assert!(rt; block < 4);
        let words = run_row(alloc, layout, collector, unlogged)?;
        check_release::<P>(rt, alloc, layout, words, block, after, &[])?;
    }
    Ok(())
}

/// All releases under a plan, which makes evacuated blocks of these kinds Kept.
fn check_plan<P: Plan>(rt: &impl Abort, alloc: Global, keeps: &[Kind]) -> Result<(), Fail> {
    let layout = Layout::new(4)?;
    check_kinds::<P>(rt, alloc, &layout, keeps)?;
    check_copies::<P>(rt, alloc, &layout)?;
    check_runs::<P>(rt, alloc, &layout)?;
    Ok(())
}

#[test]
fn releases(rt: HostRuntime) -> Result<(), Fail> {
    let mature = [Kind::Young, Kind::Mature, Kind::Kept];
    check_plan::<NoGc>(&rt, rt.alloc(), &[])?;
    check_plan::<MarkSweep>(&rt, rt.alloc(), &[])?;
    check_plan::<SemiSpace>(&rt, rt.alloc(), &[Kind::Bump, Kind::Kept])?;
    check_plan::<GenCopy>(&rt, rt.alloc(), &mature)?;
    check_plan::<Immix>(&rt, rt.alloc(), &[])?;
    check_plan::<StickyImmix>(&rt, rt.alloc(), &[])
}
