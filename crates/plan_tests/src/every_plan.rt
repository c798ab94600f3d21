//! What each plan says of itself, of empty heaps, and of blocks that it fills.

ghost use Rattle.object_model.specs.Heaps.{heap_state};
ghost use Rattle.sessions.specs.Collecting.{Remembers};

use heap_layout::{BlockWord, Kind, Layout, Region};
use object_model::{Collect, Heap};
use plan_api::{BlockView, Plan, PlanFlags, Reserve, plans_hold_reserves};
use plans::{GenCopy, Immix, MarkSweep, NoGc, SemiSpace, StickyImmix};
use std::alloc::{AllocError, Global};
use std::process::Abort;
use std::test::Fail;

/// What a plan says of itself.
#[derive(Clone, Copy, PartialEq)]
struct Profile {
    name: &'static str,
    flags: PlanFlags,
    collects: bool,
    kinds: (Kind, Kind),
    reserve: Reserve,
    /// The classes for 3, 4, 5, 1,536, 1,537 and 2,048 words.
    classes: [u32; 6],
}

/// Blocks of an empty heap, its allowance, and whether an object of 61,027 words fits.
type EmptyHeap = (u32, u32, bool);

/// The kind, class and line bits of a block with objects of 3 words at its start and at an offset.
type Block = (Kind, u32, [u64; 4], u32);

/// A block, the offset from which a hole for so many words is looked for, and the first hole. More
/// blocks are searched in `searches`.
type Hole = (Block, u32, u32, Option<(u32, u32)>);

const TAIL: Block = (Kind::Bump, 0, [0; 4], 1997);

const TAILS: [Hole; 2] = [
    (TAIL, 0, 2048, Some((2000, 4096))),
    (TAIL, 2049, 2048, None),
];

const YOUNG: Block = (Kind::Young, 0, [0; 4], 1997);

const YOUNG_TAILS: [Hole; 2] = [(YOUNG, 0, 3, Some((2000, 4096))), (TAIL, 0, 3, None)];

// A block of cells of 96 words, of which the first two are taken.
const MIDDLE: Block = (Kind::Cells, 9, [0; 4], 96);

const CELLS: [Hole; 2] = [(MIDDLE, 0, 96, Some((192, 288))), (MIDDLE, 3937, 96, None)];

const ALL: u64 = u64::MAX;

// Lines 62 to 65 are clear, over the end of a word.
const HOLE: Block = (Kind::Immix, 0, [ALL >> 2, ALL << 2, ALL, ALL], 0);

const LINES: [Hole; 3] = [
    (HOLE, 0, 64, Some((992, 1056))),
    (HOLE, 0, 65, None),
    (TAIL, 0, 3, None),
];

fn profile_of<P: Plan>() -> Profile {
    Profile {
        name: P::plan_name(),
        flags: P::FLAGS,
        collects: P::collects(),
        kinds: (P::alloc_kind(), P::copy_kind()),
        reserve: P::reserve(),
        classes: [
            P::class_for(3),
            P::class_for(4),
            P::class_for(5),
            P::class_for(1536),
            P::class_for(1537),
            P::class_for(2048),
        ],
    }
}

/// The allowance of a heap, whether objects of 3, 2,048 and 2,049 words fit, and whether one of
/// 61,027 words does, which needs 15 blocks. A collection is a full one.
fn asks<P: Plan>(heap: &Heap) -> (u32, [bool; 3], bool, Collect)
    requires { Remembers P.rules (heap_state heap.now) }
{
    plans_hold_reserves::<P>();
    (
        P::allowance(heap),
        [P::fits(heap, 3), P::fits(heap, 2048), P::fits(heap, 2049)],
        P::fits(heap, 61_027),
        P::kind(heap),
    )
}

/// Whether a full collection evacuates no block.
fn stays<P: Plan>(alloc: Global, heap: &Heap) -> Result<bool, AllocError> {
    let from = P::from_blocks(alloc, heap, Collect::Full)?;
    Ok(from.iter().all(|is| !*is))
}

fn view_of(block: &Block) -> BlockView {
    let (kind, class, lines, second) = *block;
    let mut starts = [0; 64];
    starts[0] = 1;
    starts[second as usize / 64 % 64] |= 1 << (second % 64);
    BlockView {
        word: BlockWord {
            kind,
            class,
            owner: 0,
        },
        lines,
        starts,
        end: second.wrapping_add(3),
    }
}

/// The first holes of blocks under a plan.
fn check_holes<P: Plan>(rt: &impl Abort, holes: &[Hole]) {
    for (block, from, size, want) in holes {
        assert!(rt; 3 <= *size && *size <= 2048);
        let want = want.map(|(next, end)| Region { next, end });
        let seen = P::hole_in(&view_of(block), *from, *size);
        assert_eq!(rt; seen, want, "from {from} for {size}");
    }
}

/// A plan says this of itself, of empty heaps, and of blocks.
fn check_plan<P: Plan>(
    rt: &impl Abort,
    alloc: Global,
    want: &Profile,
    heaps: &[EmptyHeap],
    holes: &[Hole],
) -> Result<(), Fail> {
    assert!(rt;
        profile_of::<P>() == *want && P::NAME == want.name,
        "{}",
        want.name
    );
    for (blocks, allowance, largest) in heaps {
        let heap = Heap::new(alloc, Layout::new(*blocks)?)?;
        let seen = (asks::<P>(&heap), stays::<P>(alloc, &heap)?);
        let want = ((*allowance, [true; 3], *largest, Collect::Full), true);
        assert_eq!(rt; seen, want, "of {blocks}");
    }
    check_holes::<P>(rt, holes);
    Ok(())
}

// No block of an empty heap is held back under NoGC and MarkSweep. SemiSpace and GenCopy let
// mutators take half of the blocks, Immix and StickyImmix all but the headroom.
#[test]
fn plans_say_their_rules(rt: HostRuntime) -> Result<(), Fail> {
    let alloc = rt.alloc();
    let nogc = Profile {
        name: "nogc",
        flags: PlanFlags(0),
        collects: false,
        kinds: (Kind::Bump, Kind::Free),
        reserve: Reserve::Nothing,
        classes: [0; 6],
    };
    let marksweep = Profile {
        name: "marksweep",
        flags: PlanFlags(8),
        collects: true,
        kinds: (Kind::Cells, Kind::Free),
        reserve: Reserve::Nothing,
        classes: [0, 0, 1, 17, 18, 18],
    };
    let semispace = Profile {
        name: "semispace",
        flags: PlanFlags(1),
        collects: true,
        kinds: (Kind::Bump, Kind::Bump),
        reserve: Reserve::Copies,
        classes: [0; 6],
    };
    let gencopy = Profile {
        name: "gencopy",
        flags: PlanFlags(3),
        collects: true,
        kinds: (Kind::Young, Kind::Mature),
        reserve: Reserve::Copies,
        classes: [0; 6],
    };
    let immix = Profile {
        name: "immix",
        flags: PlanFlags(5),
        collects: true,
        kinds: (Kind::Immix, Kind::Immix),
        reserve: Reserve::Headroom,
        classes: [0; 6],
    };
    let stickyimmix = Profile {
        name: "stickyimmix",
        flags: PlanFlags(7),
        ..immix
    };
    let whole = [
        (4, 4, false),
        (14, 14, false),
        (15, 15, true),
        (16, 16, true),
    ];
    let half = [(4, 2, false), (14, 7, false), (15, 7, true)];
    let rest = [
        (4, 3, false),
        (15, 14, false),
        (16, 15, true),
        (33, 31, true),
    ];
    check_plan::<NoGc>(&rt, alloc, &nogc, &whole, &TAILS)?;
    check_plan::<MarkSweep>(&rt, alloc, &marksweep, &whole, &CELLS)?;
    check_plan::<SemiSpace>(&rt, alloc, &semispace, &half, &TAILS)?;
    check_plan::<GenCopy>(&rt, alloc, &gencopy, &half, &YOUNG_TAILS)?;
    check_plan::<Immix>(&rt, alloc, &immix, &rest, &LINES)?;
    check_plan::<StickyImmix>(&rt, alloc, &stickyimmix, &rest, &LINES)
}
