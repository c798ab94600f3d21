//! Tests of where objects go in lines, worked out by hand.

ghost use Rattle.std.specs.Prelude.{◌≡◌, IfOk};
ghost use Rattle.sessions.specs.Plans.{Immix as immix, rules_of};
ghost use Rattle.plain_world.specs.Calls.{IsOpen};

use crate::epochs::next_epoch;
use crate::filling::{allocate, fill};
use crate::model::{Fill, Model};
use crate::recycling::{Kept, recycled_epoch};
use crate::worlds::new_world;
use plain_world::PlainWorld;
use plans::Immix;
use std::alloc::AllocError;
use std::process::Abort;
use std::test::Fail;

type World = PlainWorld<Immix>;

// An object: the place of its mutator, its size, and the block and the offset where it goes.
type Row = (u32, u32, Option<(usize, u32)>);

// Two objects fill a block, so that nothing is left of its region.
const FULL_BLOCK: [Row; 2] = [(0, 2048, Some((0, 0))), (0, 2048, Some((0, 2048)))];

// Of 8 blocks 7 may be taken. An object above a line that the hole lacks room for goes to an
// overflow block, and the hole is filled on; an object of a line leaves it. A hole without words
// is left by all. A ticket that is not below the allowance lets an overflowing object look for
// holes.
const OVERFLOW: [Row; 23] = [
    (0, 2048, Some((0, 0))),
    (0, 2030, Some((0, 2048))),
    // 18 words are left
    (0, 19, Some((1, 0))),
    (0, 18, Some((0, 4078))),
    // and none
    (0, 17, Some((1, 19))),
    (0, 16, Some((2, 0))),
    (0, 2048, Some((2, 16))),
    // 2,032 words are left, and 4,060 for overflow
    (0, 2033, Some((1, 36))),
    (0, 2047, Some((3, 0))),
    (0, 2048, Some((3, 2047))),
    // 1 word is left for overflow
    (0, 2032, Some((2, 2064))),
    (0, 17, Some((4, 0))),
    (1, 100, Some((5, 0))),
    (1, 2048, Some((5, 100))),
    (1, 2048, Some((6, 0))),
    (1, 2048, Some((6, 2048))),
    // all seven are taken
    (1, 1949, None),
    (1, 1948, Some((5, 2148))),
    (0, 2048, Some((4, 17))),
    (0, 2048, None),
    (0, 2031, Some((4, 2065))),
    (0, 3, None),
    (1, 3, None),
];

// Object i of the first epoch touches lines i * 100 / 16 to (i * 100 + 99) / 16. So lines 7 to 11,
// 19 to 24, 32 to 36, 44 to 49 and 57 to 61 of block 1 are clear. No Free block may be taken.
const HOLES: [Row; 10] = [
    (0, 3, Some((1, 112))),
    (1, 3, Some((2, 112))),
    (0, 77, Some((1, 115))),
    (0, 3, Some((1, 304))),
    (0, 96, Some((1, 704))),
    (1, 16, Some((2, 115))),
    (0, 16, Some((1, 912))),
    (1, 62, Some((2, 131))),
    // no hole of block 1 has 7 lines but the last
    (0, 97, Some((1, 3904))),
    // block 3 has 2,000 words of objects
    (0, 97, Some((3, 2000))),
];

// The block and the offset of the last object.
fn last_place(model: &Model) -> Option<(usize, u32)> {
    match model.objects.last() {
        Some(object) => Some((object.block, object.offset)),
        None => None,
    }
}

// Objects of mutators in turns go there.
fn check_places(
    rt: &impl Abort,
    world: &mut World,
    model: &mut Model,
    table: &[Row],
) -> Result<(), AllocError>
    requires { IsOpen (rules_of immix) world.old }
    ensures { IsOpen (rules_of immix) world.new }
{
    for (m, size, want) in table {
        let made = allocate(rt, world, model, *m, *size)?;
        let place = if made { last_place(model) } else { None };
        assert!(rt; place == *want, "{size} words of {m}");
    }
    Ok(())
}

// At the end of the epoch the lines are marked that objects touch, and no others.
#[test]
fn objects_overflow(rt: HostRuntime) -> Result<(), Fail> {
    let alloc = rt.alloc();
    for (blocks, table) in [(4, FULL_BLOCK.as_slice()), (8, OVERFLOW.as_slice())] {
        let mut model = Model::new(alloc, Fill::Lines, blocks)?;
        let mut world = new_world::<Immix>(&rt, alloc, blocks, 2)?;
        model.begin(world.mutators());
        check_places(&rt, &mut world, &mut model, table)?;
        next_epoch(&rt, alloc, world, &mut model, true)?;
    }
    Ok(())
}

// 40 objects of 100 words fill block 0 but for 96 words, as many block 1, and one lies in block 2.
// Each second one goes, and the others of block 0 move to block 3, which is Free. Then two
// mutators share the blocks. Of its own blocks a mutator looks at that of its hole alone, from the
// hole's end on.
#[test]
fn holes_in_turns(rt: HostRuntime) -> Result<(), Fail> {
    let alloc = rt.alloc();
    let mut model = Model::new(alloc, Fill::Lines, 4)?;
    let mut world = new_world::<Immix>(&rt, alloc, 4, 2)?;
    model.begin(world.mutators());
    let mut state = 7;
    fill(&rt, &mut world, &mut model, 1, 81, &[100], &mut state)?;
    assert!(rt; last_place(&model) == Some((2, 0)));
    world = recycled_epoch(&rt, alloc, world, &mut model, Kept { of: 2, first: 1 })?;
    check_places(&rt, &mut world, &mut model, &HOLES)?;
    assert!(rt; fill(&rt, &mut world, &mut model, 2, 3_000, &[], &mut state)?);
    next_epoch(&rt, alloc, world, &mut model, true)?;
    Ok(())
}
