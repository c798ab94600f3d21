//! Sweeps of block 1 of rows of 4 blocks that are written by hand, and what they are made of: block
//! words from 18 on, line words from 22, start bits from 38, pin bits from 294, unlog bits from
//! 550, and the blocks from 806.

ghost use Rattle.std.specs.Prelude.{◌≡◌, ◌<◌, IsTrue, length, IfOk};
ghost use Rattle.heap_layout.specs.Zones.{row_words, IsRowOf};
ghost use Rattle.heap_layout.specs.Blocks.{IsValidWord};
ghost use Rattle.object_model.specs.Objects.{HasKind, shown};

use crate::rows::{first_wrong, put};
use block_sweeps::{free_block, mark_touched_lines, sweep_block, sweep_run, unlog_block};
use heap_layout::{BlockWord, CLASS_UNIT, Kind, Layout};
use releasable_rows::{empty_row, is_releasable};
use std::alloc::{AllocError, Global};
use std::test::Fail;

/// Some words of a row, by their indexes.
type Words = &'static [(usize, u64)];

/// What is done to a row.
#[derive(Clone, Copy)]
enum Work {
    /// Block 1 becomes Free.
    Free,
    /// The unlog bits of block 2 are set again.
    Unlog,
    /// The lines of block 0 are marked that its objects touch.
    Touch,
    /// The large run that begins in block 1 is swept.
    SweepRun,
    /// Block 1 is swept. With living objects it has this word.
    Sweep(BlockWord),
}

/// The work and the number of the oldest collection whose claims count, the words before it and
/// after it, and its answer: how many objects live, or 1 for a run that was freed.
type Case = (&'static str, Work, u64, Words, Words, u32);

const KEPT: BlockWord = BlockWord {
    kind: Kind::Kept,
    class: 0,
    owner: 0,
};

const BUMP: BlockWord = BlockWord {
    kind: Kind::Bump,
    ..KEPT
};

const YOUNG: BlockWord = BlockWord {
    kind: Kind::Young,
    ..KEPT
};

const MATURE: BlockWord = BlockWord {
    kind: Kind::Mature,
    class: 0,
    owner: 1,
};

const LINES: BlockWord = BlockWord {
    kind: Kind::Immix,
    class: 0,
    owner: 32,
};

const CELLS: BlockWord = BlockWord {
    kind: Kind::Cells,
    class: 0,
    owner: 17,
};

const USED: Words = &[(19, 4), (20, 1), (25, 2), (26, 1), (29, 1 << 63), (30, 4)];

// The blocks beside it keep their words.
const FREED: Words = &[
    (18, 0),
    (19, 0),
    (20, 1),
    (25, 2),
    (26, 0),
    (27, 0),
    (28, 0),
    (29, 0),
    (30, 4),
];

// Start bits of block 2 from 166 on, unlog bits from 678 on.
const LOGGED: Words = &[
    (166, 0b1001),
    (229, 1 << 63),
    (677, 5),
    (678, 0b11),
    (679, 1),
    (742, 7),
];

// The blocks beside it keep their bits.
const UNLOGGED: Words = &[
    (677, 5),
    (678, 0b1001),
    (679, 0),
    (740, 0),
    (741, 1 << 63),
    (742, 7),
];

// A large run of blocks 1 and 2. Its object has 5,000 numbers, was met by collection 1, and has all
// three bits.
const RUN: Words = &[
    (19, 6 + 256 * 2),
    (20, 7),
    (102, 1),
    (358, 1),
    (614, 1),
    (4902, 33),
    (4903, 65_536 * 5000),
    (4904, (1 << 24) + 4902),
];

const RUN_STAYS: Words = &[(19, 518), (20, 7), (102, 1), (358, 1), (614, 1)];

const RUN_FREED: Words = &[(19, 0), (20, 0), (102, 0), (358, 0), (614, 0)];

// Nine objects in block 0, an Immix block, and wrong line bits. Five have 3 words at 0, 10 at 10,
// 100 at 40, 8 at 1020 and 16 at 4080, and one begins in each of lines 20 to 23.
const UNMARKED: Words = &[
    (18, 4),
    (22, 1 << 30),
    (24, 1),
    (26, 1),
    (38, 1 + (1 << 10) + (1 << 40)),
    (43, 1 + (1 << 16) + (1 << 32) + (1 << 50)),
    (53, 1 << 60),
    (101, 1 << 48),
    (806, 33),
    (816, 65),
    (817, 65_536 * 7),
    (846, 97),
    (847, 65_536 * 97),
    (1126, 193),
    (1142, 225),
    (1158, 257),
    (1159, 65_536 * 7),
    (1176, 289),
    (1177, 65_536 * 27),
    (1826, 129),
    (1827, 65_536 * 5),
    (4886, 161),
    (4887, 65_536 * 13),
];

// Lines 0, 0 and 1, 2 to 8, 20, 21, 22, 23 and 24, 63 and 64, and 255. The next block's stay.
const TOUCHED: Words = &[
    (22, (1 << 63) + (0x1f << 20) + 0x1ff),
    (23, 1),
    (24, 0),
    (25, 1 << 63),
    (26, 1),
];

// Of five objects, all pinned and unlogged, two live: one that collection 2 claimed, and one that
// collection 3 claimed. The others were claimed by none, by collection 1, and moved away.
const FIVE: Words = &[
    (19, 1),
    (26, 5),
    (102, 0b100_1001),
    (103, 1),
    (165, 1 << 61),
    (358, 0b100_1001),
    (359, 1),
    (421, 1 << 61),
    (614, 0b100_1001),
    (615, 1),
    (677, 1 << 61),
    (4902, 33),
    (4904, (2 << 24) + 4902),
    (4905, 65),
    (4907, (1 << 24) + 4905),
    (4908, 97),
    (4910, (2 << 24) + 8998),
    (4966, 129),
    (4968, (3 << 24) + 4966),
    (8995, 161),
];

const TWO_LIVE: Words = &[
    (18, 0),
    (19, 8),
    (20, 0),
    (26, 5),
    (102, 1),
    (103, 1),
    (165, 0),
    (358, 1),
    (359, 1),
    (421, 0),
    (614, 1),
    (615, 1),
    (677, 0),
];

const THREE_BLOCKS: Words = &[
    (18, 1),
    (19, 4),
    (20, 1),
    (25, 1),
    (26, 1),
    (29, 1 << 63),
    (30, 1),
    (101, 1),
    (102, 1),
    (165, 1 << 61),
    (166, 1),
    (358, 1),
    (677, 1 << 61),
    (678, 1),
    (4902, 33),
    (4904, (2 << 24) + 806),
    (8995, 65),
    (8997, (1 << 24) + 8995),
];

// The objects of blocks 0 and 2 stay.
const NONE_LIVES: Words = &[
    (18, 1),
    (19, 0),
    (20, 1),
    (25, 1),
    (26, 0),
    (29, 0),
    (30, 1),
    (101, 1),
    (102, 0),
    (165, 0),
    (166, 1),
    (358, 0),
    (677, 0),
    (678, 1),
];

// A block of this kind, with one object, that collection 7 claimed.
const ONE_IN_BUMP: Words = &[(19, 1), (102, 16), (4906, 33), (4908, (7 << 24) + 4906)];

const ONE_IN_YOUNG: Words = &[(19, 2), (102, 16), (4906, 33), (4908, (7 << 24) + 4906)];

const ONE_IN_MATURE: Words = &[(19, 3), (102, 16), (4906, 33), (4908, (7 << 24) + 4906)];

const ONE_IN_LINES: Words = &[(19, 4), (102, 16), (4906, 33), (4908, (7 << 24) + 4906)];

const ONE_IN_CELLS: Words = &[(19, 5), (102, 16), (4906, 33), (4908, (7 << 24) + 4906)];

const ONE_IN_KEPT: Words = &[(19, 8), (102, 16), (4906, 33), (4908, (7 << 24) + 4906)];

const BUMP_AFTER: Words = &[(19, 1), (102, 16)];

const YOUNG_AFTER: Words = &[(19, 2), (102, 16)];

const MATURE_AFTER: Words = &[(19, 3 + 65_536), (102, 16)];

const LINES_AFTER: Words = &[(19, 4 + 65_536 * 32), (102, 16)];

const CELLS_AFTER: Words = &[(19, 5 + 65_536 * 17), (102, 16)];

const KEPT_AFTER: Words = &[(19, 8), (102, 16)];

const CASES: [Case; 13] = [
    ("free", Work::Free, 0, USED, FREED, 0),
    ("unlog", Work::Unlog, 0, LOGGED, UNLOGGED, 0),
    ("touch", Work::Touch, 0, UNMARKED, TOUCHED, 0),
    ("run stays", Work::SweepRun, 1, RUN, RUN_STAYS, 0),
    ("run freed", Work::SweepRun, 2, RUN, RUN_FREED, 1),
    ("two live", Work::Sweep(KEPT), 2, FIVE, TWO_LIVE, 2),
    (
        "none lives",
        Work::Sweep(KEPT),
        2,
        THREE_BLOCKS,
        NONE_LIVES,
        0,
    ),
    ("bump", Work::Sweep(BUMP), 7, ONE_IN_BUMP, BUMP_AFTER, 1),
    ("young", Work::Sweep(YOUNG), 7, ONE_IN_YOUNG, YOUNG_AFTER, 1),
    (
        "mature",
        Work::Sweep(MATURE),
        7,
        ONE_IN_MATURE,
        MATURE_AFTER,
        1,
    ),
    ("lines", Work::Sweep(LINES), 7, ONE_IN_LINES, LINES_AFTER, 1),
    ("cells", Work::Sweep(CELLS), 7, ONE_IN_CELLS, CELLS_AFTER, 1),
    ("kept", Work::Sweep(KEPT), 7, ONE_IN_KEPT, KEPT_AFTER, 1),
];

/// A row with these words, and zeros.
fn row(alloc: Global, layout: &Layout, entries: &[(usize, u64)]) -> Result<Vec<u64>, AllocError>
    ensures { IfOk result (λ v. length v.items ≡ row_words layout.now.blocks) }
{
    let mut words = empty_row(alloc, layout)?;
    for (index, value) in entries {
        put(&mut words, *index, *value);
    }
    Ok(words)
}

/// Whether a block has this kind.
fn is_of_kind(words: &Vec<u64>, layout: &Layout, block: u32, kind: Kind) -> bool
    requires extent { IsRowOf layout.now words.now.items }
    requires block { block < layout.now.blocks }
    ensures { IsTrue result → HasKind (shown words.now.items layout.now) block kind }
{
    words[layout.block_at(block) as usize] % CLASS_UNIT == kind as u64
}

/// Marks the lines that objects in block 0 touch. `None` if it is no Immix block that may be
/// released.
fn touched_marked(words: &mut Vec<u64>, layout: &Layout) -> Option<u32>
    requires extent { IsRowOf layout.now words.old.items }
{
    if !is_of_kind(words, layout, 0, Kind::Immix) {
        return None;
    }
    if !is_releasable(words, layout, 0) {
        return None;
    }
    mark_touched_lines(words, layout, 0);
    Some(0)
}

/// Whether the large run that begins in block 1 was freed. `None` if it may not be swept.
fn run_swept(words: &mut Vec<u64>, layout: &Layout, base: u64) -> Option<u32>
    requires extent { IsRowOf layout.now words.old.items }
{
    if !is_of_kind(words, layout, 1, Kind::LargeHead) || !is_releasable(words, layout, 1) {
        return None;
    }
    Some(u32::from(sweep_run(words, layout, 1, base)))
}

/// How many objects of block 1 live after its sweep. `None` if it may not be swept.
fn swept(words: &mut Vec<u64>, layout: &Layout, base: u64, living: &BlockWord) -> Option<u32>
    requires { IsRowOf layout.now words.old.items }
{
    if !living.is_valid() || !is_releasable(words, layout, 1) {
        return None;
    }
    Some(sweep_block(words, layout, 1, base, living))
}

/// Does the work. `None` if it may not be done.
fn worked(words: &mut Vec<u64>, layout: &Layout, work: Work, base: u64) -> Option<u32>
    requires { IsRowOf layout.now words.old.items }
{
    match work {
        Work::Free => free_block(words, layout, 1),
        Work::Unlog => unlog_block(words, layout, 2),
        Work::Touch => return touched_marked(words, layout),
        Work::SweepRun => return run_swept(words, layout, base),
        Work::Sweep(living) => return swept(words, layout, base, &living),
    }
    Some(0)
}

#[test]
fn worked_rows(rt: HostRuntime) -> Result<(), Fail> {
    let layout = Layout::new(4)?;
    for (name, work, base, before, after, count) in &CASES {
        let mut words = row(rt.alloc(), &layout, before)?;
        let answer = worked(&mut words, &layout, *work, *base);
        let wrong = first_wrong(&words, after);
        assert_eq!(rt; (answer, wrong), (Some(*count), None), "{name}");
    }
    Ok(())
}
