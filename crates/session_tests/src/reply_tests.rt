//! Sessions of one mutator, against the ideal heap: which `new` gets `full`, and how often the
//! heap is collected.

ghost use Rattle.std.specs.Prelude.{◌≡◌};
ghost use Rattle.ideal_heap.specs.Plain.{mutators_of};

use crate::commands::{commands_of, create, random_commands};
use crate::fragments::refilled;
use crate::whole_sessions::{End, Under, session};
use ideal_heap::{Command, Ideal, Reply, valid};
use std::alloc::{AllocError, Global};
use std::process::Abort;
use std::test::Fail;
use std::thread::Threads;

// The ideal heap gives this reply.
fn check_reply(
    rt: &impl Abort,
    ideal: &mut Ideal,
    command: &Command,
    reply: &Reply,
) -> Result<(), AllocError>
    requires { mutators_of ideal.old ≡ 1 }
    ensures { mutators_of ideal.new ≡ 1 }
{
    assert!(rt; valid(command) && ideal.births(1) < 1_000_000);
    let want = ideal.apply(1, command)?;
    assert!(rt; *reply == want, "at {command:?}");
    Ok(())
}

/// The replies are those of the ideal heap, which skips each `new` that gets `full`. Returns how
/// many commands before it each of these has.
pub(crate) fn check_replies(
    rt: &impl Abort,
    alloc: Global,
    commands: &[Command],
    replies: &[Reply],
) -> Result<Vec<usize>, AllocError> {
    let mut ideal = Ideal::new(alloc, 1)?;
    let mut refused = Vec::new(alloc);
    for (n, reply) in replies.iter().enumerate() {
        let Some(command) = commands.get(n) else {
            break;
        };
        match (command, reply) {
            (Command::New { .. }, Reply::Full) => refused.push(n)?,
            _ => check_reply(rt, &mut ideal, command, reply)?,
        }
    }
    Ok(refused)
}

/// Runs the commands in a heap of `blocks` blocks. Returns where `full` stands among the replies,
/// and what the session left.
pub(crate) fn run_and_check<R: Abort + Threads + Sync>(
    rt: &R,
    alloc: Global,
    under: Under,
    blocks: u32,
    commands: &[Command],
) -> Result<(Vec<usize>, End), Fail> {
    let end = session(rt, alloc, under, blocks, &[commands], &[])?;
    let replies = match end.replies.first() {
        Some(replies) => replies.as_slice(),
        None => &[],
    };
    assert!(rt; (end.replies.len(), replies.len()) == (1, commands.len()));
    let refused = check_replies(rt, alloc, commands, replies)?;
    Ok((refused, end))
}

// The same. Returns where `full` stands, and the numbers of nursery and full collections.
fn run_and_list<R: Abort + Threads + Sync>(
    rt: &R,
    alloc: Global,
    under: Under,
    blocks: u32,
    commands: &[Command],
) -> Result<(Vec<usize>, (u64, u64)), Fail> {
    let (refused, end) = run_and_check(rt, alloc, under, blocks, commands)?;
    Ok((refused, end.collections))
}

// A random session: its plan, its seed, the blocks of the heap, how many commands it has, whether
// their objects have any size, how many nursery and full collections it has at least, and whether a
// `new` gets `full`.
type Random = (Under, u64, u32, usize, bool, (u64, u64), bool);

// Heaps that are collected again and again, and refuse some objects. Objects of any size have 3 to
// 61,027 words.
const FULL_HEAPS: [Random; 12] = [
    (Under::SemiSpace, 1, 7, 100_000, false, (0, 100), true),
    (Under::SemiSpace, 2, 8, 100_000, false, (0, 100), true),
    (Under::NoGc, 3, 32, 20_000, true, (0, 200), true),
    (Under::SemiSpace, 3, 32, 20_000, true, (0, 200), true),
    (Under::MarkSweep, 3, 32, 20_000, true, (0, 200), true),
    (Under::Immix, 4, 4, 50_000, true, (0, 1_000), true),
    (Under::Immix, 8, 8, 50_000, true, (0, 500), true),
    (Under::Immix, 64, 64, 50_000, true, (0, 10), true),
    (Under::GenCopy, 3, 32, 20_000, true, (100, 200), true),
    (Under::StickyImmix, 4, 4, 50_000, true, (1_500, 2_000), true),
    (Under::StickyImmix, 8, 8, 50_000, true, (900, 1_500), true),
    (Under::StickyImmix, 3, 64, 50_000, true, (200, 100), true),
];

const SEED: u64 = 0x9e37_79b9_7f4a_7c15;

// Where nothing is refused, replies are the same under all plans: those of the ideal heap.
const ROOMY_HEAPS: [Random; 10] = [
    (Under::NoGc, 5, 700, 100_000, false, (0, 0), false),
    (Under::SemiSpace, 5, 12, 100_000, false, (0, 100), false),
    (Under::MarkSweep, 5, 24, 100_000, false, (0, 20), false),
    (Under::Immix, 5, 12, 100_000, false, (0, 20), false),
    (Under::NoGc, SEED, 700, 100_000, false, (0, 0), false),
    (Under::SemiSpace, SEED, 12, 100_000, false, (0, 100), false),
    (Under::MarkSweep, SEED, 24, 100_000, false, (0, 20), false),
    (Under::Immix, SEED, 12, 100_000, false, (0, 20), false),
    (Under::GenCopy, SEED, 16, 100_000, false, (100, 50), false),
    (Under::StickyImmix, SEED, 12, 100_000, false, (80, 5), false),
];

// Under NoGC a collection is made for each object that is refused, and no other.
fn check_random<R: Abort + Threads + Sync>(
    rt: &R,
    alloc: Global,
    table: &[Random],
) -> Result<(), Fail> {
    for (under, seed, blocks, count, any_size, least, refuses) in table {
        let commands = random_commands(alloc, *seed, *count, *any_size)?;
        let (refused, made) = run_and_list(rt, alloc, *under, *blocks, &commands)?;
        let exact = *under != Under::NoGc || made.1 == refused.len() as u64;
        let young = made.0 >= least.0 && (made.0 == 0) == (least.0 == 0);
        assert!(rt;
            exact && young && made.1 >= least.1 && refused.is_empty() != *refuses,
            "{under:?} of {blocks} blocks: {made:?}, {}",
            refused.len()
        );
    }
    Ok(())
}

#[test]
fn random_sessions_in_full_heaps(rt: HostRuntime) -> Result<(), Fail> {
    check_random(&rt, rt.alloc(), &FULL_HEAPS)
}

#[test]
fn random_sessions_in_roomy_heaps(rt: HostRuntime) -> Result<(), Fail> {
    check_random(&rt, rt.alloc(), &ROOMY_HEAPS)
}

// A worked session: its plan, the blocks of the heap, its commands as letters, which of them are
// gets `full`, and how many nursery and full collections are made.
type Worked = (Under, u32, &'static [u8], &'static [usize], (u64, u64));

// SemiSpace fills two of 4 blocks. A pinned object stays, and its block is not filled any more. A
// large object takes a run of blocks, for which SemiSpace holds back as many as small objects
// fill. In the rows `+w+.wbw` there are two Free blocks apart, then a dead run between them. In the
// last four rows three of 4 blocks may be used under Immix plans, two under GenCopy, so the first
// collection, a full one, finds room for six or four objects of half a block; the later ones are
// nursery ones under plans with young objects. Object 1 stays; GenCopy fills no hole behind it.
const WORKED: [Worked; 28] = [
    (Under::NoGc, 4, b"01234.a45bc56", &[12], (0, 2)),
    (Under::SemiSpace, 4, b"01234.a45bc56", &[4, 8], (0, 5)),
    (Under::MarkSweep, 4, b"01234.a45bc56", &[], (0, 2)),
    (Under::NoGc, 4, b"0p123bcd123u3", &[], (0, 0)),
    (Under::SemiSpace, 4, b"0p123bcd123u3", &[10], (0, 3)),
    (Under::MarkSweep, 4, b"0p123bcd123u3", &[], (0, 0)),
    (Under::NoGc, 4, b"++++-", &[4], (0, 1)),
    (Under::SemiSpace, 4, b"++++-", &[], (0, 1)),
    (Under::MarkSweep, 4, b"++++-", &[], (0, 1)),
    (Under::NoGc, 16, b"LL", &[1], (0, 1)),
    (Under::SemiSpace, 16, b"LL", &[1], (0, 1)),
    (Under::MarkSweep, 16, b"LL", &[1], (0, 1)),
    (Under::NoGc, 15, b"LaL", &[2], (0, 1)),
    (Under::SemiSpace, 15, b"LaL", &[], (0, 1)),
    (Under::MarkSweep, 15, b"LaL", &[], (0, 1)),
    (Under::NoGc, 14, b"L", &[0], (0, 1)),
    (Under::SemiSpace, 14, b"L", &[0], (0, 1)),
    (Under::MarkSweep, 14, b"L", &[0], (0, 1)),
    (Under::NoGc, 5, b"0123w+", &[], (0, 0)),
    (Under::SemiSpace, 5, b"0123w+", &[4], (0, 1)),
    (Under::MarkSweep, 5, b"0123w+", &[], (0, 0)),
    (Under::NoGc, 5, b"+w+.wbw", &[4, 6], (0, 3)),
    (Under::SemiSpace, 5, b"+w+.wbw", &[4], (0, 3)),
    (Under::MarkSweep, 5, b"+w+.wbw", &[4], (0, 3)),
    (
        Under::Immix,
        4,
        b"a0a0a0a0a0a0a0a0a0a0a0a0a0a0a0a0a0a0a0a0a0a0a0a0a0\
          a0a0a0a0a0a0a0a0a0a0a0a0a0a0a0a0a0a0a0a0a0a0a0a0a0",
        &[],
        (0, 8),
    ),
    (Under::GenCopy, 4, b"a0a0a0a0a0a0a0a0a0", &[], (1, 1)),
    (Under::GenCopy, 4, b"1a0a0a0a0a0a0a0a0a0", &[], (2, 1)),
    (
        Under::StickyImmix,
        4,
        b"1a0a0a0a0a0a0a0a0a0a0a0a0a0",
        &[],
        (1, 1),
    ),
];

#[test]
fn worked_sessions(rt: HostRuntime) -> Result<(), Fail> {
    let alloc = rt.alloc();
    for (under, blocks, letters, refused, collections) in &WORKED {
        let commands = commands_of(alloc, letters)?;
        let (replied, made) = run_and_list(&rt, alloc, *under, *blocks, &commands)?;
        assert!(rt;
            (replied.as_slice(), made) == (*refused, *collections),
            "{under:?} of {blocks} blocks: {replied:?}, {made:?}"
        );
    }
    Ok(())
}

// There are holes for 176 objects of two lines. One of four lines has no hole: a collection
// evacuates the second and the third block into the Free one, which it fills, so 64 fit into the
// block that may be taken then. The next collection evacuates the table's block, and 24 more fit
// behind what it copied.
//
// If the first object of the second block is pinned, it stays there alone, and 63 objects of four
// lines fit behind it. The next collection evacuates the table's block, and 24 fit. The one after
// it evacuates the 63, but not the pinned one, and 64 more fit.
//
// Whether it is pinned, the lines of an object, how many are added, whether the last one gets
// `full`, and how many collections are made.
const REFILLED: [(bool, u32, u32, bool, u64); 5] = [
    (false, 2, 176, false, 1),
    (false, 2, 177, true, 2),
    (false, 4, 88, false, 3),
    (false, 4, 89, true, 4),
    (true, 4, 152, true, 5),
];

#[test]
fn holes_of_lines(rt: HostRuntime) -> Result<(), Fail> {
    let alloc = rt.alloc();
    for (pins, lines, count, refuses, collections) in &REFILLED {
        let commands = refilled(alloc, *pins, *lines, *count)?;
        let last = commands.len().saturating_sub(2);
        let replied = run_and_list(&rt, alloc, Under::Immix, 4, &commands)?;
        let refused = if *refuses { Some(last) } else { None };
        assert!(rt;
            replied.1 == (0, *collections) && replied.0.iter().copied().eq(refused),
            "{count} of {lines} lines: {replied:?}"
        );
    }
    Ok(())
}

// Eight objects fill 4 blocks but for 4 words. A `new` is refused after a full collection, and a
// smaller object fits. A `gc` makes one collection more. Another mutator gets no object after it.
#[test]
fn full_heap(rt: HostRuntime) -> Result<(), Fail> {
    let alloc = rt.alloc();
    let mut first = commands_of(alloc, b"0123456")?;
    first.extend_from_slice(&[
        create(7, 0, 2041),
        create(8, 0, 2),
        create(9, 0, 1),
        Command::Gc,
        Command::Read { s: 9, j: 0 },
    ])?;
    let second = [Command::Meet, create(0, 0, 2046), create(1, 0, 0)];
    let traces = [first.as_slice(), second.as_slice()];
    let end = session(&rt, alloc, Under::NoGc, 4, &traces, &[])?;
    assert!(rt; end.replies.len() == 2 && end.replies[0].len() == first.len());
    let refused = check_replies(&rt, alloc, &first, &end.replies[0])?;
    let others = [Reply::Done, Reply::Full, Reply::Full];
    assert!(rt;
        refused.as_slice() == [8].as_slice()
            && end.replies[1].as_slice() == others.as_slice()
            && end.collections == (0, 4)
    );
    Ok(())
}
