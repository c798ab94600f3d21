//! The first collections of rows with young, logged and other old objects, that are written by hand
//! or drawn at random, beside a walk over all addresses.

ghost use Rattle.std.specs.Prelude.{IsTrue};
ghost use Rattle.heap_layout.specs.Zones.{IsRowOf};
ghost use Rattle.plan_api.specs.Ages.{AreReadable};

use crate::searches::put;
use heap_layout::{BLOCK_WORDS, CLASS_UNIT, Kind, Layout};
use object_model::{COLLECTOR_OFFSET, Collect, NUMS_UNIT, SHAPE_OFFSET};
use plan_api::first_kind_in;
use releasable_rows::{empty_row, is_releasable};
use std::alloc::{AllocError, Global};
use std::process::Abort;
use std::test::Fail;

/// A block, the offset of an object in it, how many numbers it has, the number of the last
/// collection that claimed it, and whether its unlog bit is set.
type Placed = (u32, u32, u32, u64, bool);

/// The base, the first blocks, objects in them, and whether the first collection is a nursery one.
type Case = (u64, &'static [u8], &'static [Placed], bool);

/// The word of a block that a letter stands for.
fn block_code(letter: u8) -> u64 {
    match letter {
        b'y' => Kind::Young as u64,
        b'm' => Kind::Mature as u64,
        b'i' => Kind::Immix as u64,
        b'k' => Kind::Kept as u64,
        b'b' => Kind::Bump as u64,
        // a large object of 2,049 to 4,096 words, and the head and tail of one of up to 8,192
        b'o' => Kind::LargeHead as u64 + CLASS_UNIT,
        b'h' => Kind::LargeHead as u64 + 2 * CLASS_UNIT,
        b't' => Kind::LargeTail as u64,
        _ => Kind::Free as u64,
    }
}

const CASES: [Case; 22] = [
    // an empty heap, and one without young objects
    (2, b"", &[], false),
    (2, b"m", &[(0, 0, 0, 2, true)], false),
    // one of four used blocks is young, and one of five; the other objects are old
    (2, b"ymmm", FIRST_YOUNG, true),
    (2, b"ymmmm", FIRST_YOUNG, false),
    (2, b"iiii", FIRST_YOUNG, true),
    (2, b"iiiii", FIRST_YOUNG, false),
    (2, b"kmmyf", FIRST_YOUNG, true),
    // two of eight, and one of eight
    (2, b"yyyyyyyy", LAST_TOO, true),
    (2, b"mmmmmmmy", &[(7, 4093, 0, 1, false)], false),
    // no full collection was made
    (0, b"y", &[(0, 0, 0, 0, false)], false),
    (0, b"m", &[(0, 0, 0, 3, false)], false),
    // a young large object with no used block; its blocks do not count for the quarter
    (2, b"o", &[(0, 0, 3000, 0, false)], true),
    (2, b"ht", &[(0, 0, 7000, 1, false)], true),
    (2, b"htm", &[(0, 0, 7000, 1, false)], false),
    (2, b"ymmmmo", LARGE_TOO, false),
    (2, b"ymmmht", LARGE_OLD, true),
    // old logged objects beside no young one, and the same ones young
    (2, b"mio", LOGGED, false),
    (1, b"mio", LOGGED, false),
    (5, b"mio", LOGGED, true),
    // a young one behind logged ones of the same word, and in the last word of its block
    (4, b"m", &[(0, 0, 0, 4, false), (0, 61, 0, 3, false)], true),
    (
        4,
        b"b",
        &[(0, 63, 0, 4, false), (0, 4093, 0, 3, false)],
        true,
    ),
    (
        4,
        b"b",
        &[(0, 63, 0, 4, false), (0, 4093, 0, 4, false)],
        false,
    ),
];

const FIRST_YOUNG: &[Placed] = &[
    (0, 0, 0, 2, true),
    (0, 64, 5, 1, false),
    (1, 0, 0, 2, true),
    (2, 10, 0, 3, false),
    (3, 4093, 0, 2, true),
];

const LAST_TOO: &[Placed] = &[(0, 0, 0, 0, false), (7, 4093, 0, 1, false)];

const LARGE_TOO: &[Placed] = &[(0, 0, 0, 0, false), (5, 0, 2046, 0, false)];

const LARGE_OLD: &[Placed] = &[(0, 0, 0, 0, false), (4, 0, 8000, 2, false)];

const LOGGED: &[Placed] = &[
    (0, 0, 0, 2, false),
    (0, 63, 0, 2, false),
    (0, 4093, 0, 3, false),
    (1, 128, 0, 2, false),
    (2, 0, 4000, 4, false),
];

/// A word of the row, or 0 if there is none.
fn word(words: &Vec<u64>, index: u32) -> u64 {
    words.get(index as usize).copied().unwrap_or(0)
}

/// Sets a bit of the zone that begins at word `zone`.
fn set_bit(words: &mut Vec<u64>, zone: u32, bit: u32) {
    let index = zone.wrapping_add(bit / 64);
    let before = word(words, index);
    put(words, index, before | 1 << (bit % 64));
}

/// Writes an object, and sets its bits.
fn place(words: &mut Vec<u64>, layout: &Layout, object: &Placed) {
    let (block, offset, nums, number, unlogged) = *object;
    let bit = BLOCK_WORDS.wrapping_mul(block).wrapping_add(offset);
    let address = layout.heap_base().wrapping_add(bit);
    put(words, address, 33);
    put(
        words,
        address.wrapping_add(SHAPE_OFFSET),
        NUMS_UNIT * nums as u64,
    );
    put(
        words,
        address.wrapping_add(COLLECTOR_OFFSET),
        number << 24 | address as u64,
    );
    set_bit(words, layout.start_base(), bit);
    if unlogged {
        set_bit(words, layout.unlog_base(), bit);
    }
}

/// Whether each block of a row can be read.
fn is_readable(words: &Vec<u64>, layout: &Layout) -> bool
    ensures row { IsTrue result → IsRowOf layout.now words.now.items }
    ensures readable { IsTrue result → AreReadable words.now.items layout.now }
{
    if words.len() != layout.words() as usize {
        return false;
    }
    for block in 0..layout.blocks() {
        if !is_releasable(words, layout, block) {
            return false;
        }
    }
    true
}

/// Whether a young object begins at one of 64 addresses, by each of them: an object that no
/// collection has claimed since the one with number `base`.
fn has_young_in(words: &Vec<u64>, layout: &Layout, index: u32, base: u64) -> bool {
    let starts = word(words, layout.start_base().wrapping_add(index));
    let first = layout.heap_base().wrapping_add(index.wrapping_mul(64));
    for bit in 0..64 {
        let address = first.wrapping_add(bit);
        let number = word(words, address.wrapping_add(COLLECTOR_OFFSET)) >> 24;
        if starts >> bit & 1 == 1 && (base == 0 || number < base) {
            return true;
        }
    }
    false
}

/// Whether a young object begins in a block.
fn has_young(words: &Vec<u64>, layout: &Layout, block: u32, base: u64) -> bool {
    for part in 0..64 {
        let index = block.wrapping_mul(64).wrapping_add(part);
        let starts = word(words, layout.start_base().wrapping_add(index));
        if starts != 0 && has_young_in(words, layout, index, base) {
            return true;
        }
    }
    false
}

/// The first collection by its rule: a nursery one after a full one, if there are young objects,
/// in at least a quarter of the used blocks.
fn walk(words: &Vec<u64>, layout: &Layout, base: u64) -> Collect {
    let (mut used, mut young, mut some) = (0u32, 0u32, false);
    for block in 0..layout.blocks() {
        let kind = word(words, layout.block_at(block)) % 256;
        let large = kind == Kind::LargeHead as u64 || kind == Kind::LargeTail as u64;
        let small = !large && kind != Kind::Free as u64;
        let has = has_young(words, layout, block, base);
        some = some || has;
        used = used.wrapping_add(small as u32);
        young = young.wrapping_add((small && has) as u32);
    }
    if base > 0 && some && used <= young.wrapping_mul(4) {
        Collect::Nursery
    } else {
        Collect::Full
    }
}

/// A row with these first blocks, and objects in them.
fn row_with(
    alloc: Global,
    layout: &Layout,
    blocks: &[u8],
    objects: &[Placed],
) -> Result<Vec<u64>, AllocError> {
    let mut words = empty_row(alloc, layout)?;
    let mut at = 18;
    for letter in blocks {
        put(&mut words, at, block_code(*letter));
        at = at.wrapping_add(1);
    }
    for object in objects {
        place(&mut words, layout, object);
    }
    Ok(words)
}

#[test]
fn first_collections_by_hand(rt: HostRuntime) -> Result<(), Fail> {
    for (base, blocks, objects, nursery) in CASES {
        let layout = Layout::new(8)?;
        let words = row_with(rt.alloc(), &layout, blocks, objects)?;
        let want = if nursery {
            Collect::Nursery
        } else {
            Collect::Full
        };
        assert!(rt; is_readable(&words, &layout));
        let seen = (
            first_kind_in(&words, &layout, base),
            walk(&words, &layout, base),
        );
        assert_eq!(rt; seen, (want, want), "base {base}");
    }
    Ok(())
}

// A source of numbers that look random: Marsaglia's xorshift.
#[derive(Drop)]
struct Random(u64);

impl Random {
    // A number below `end`.
    fn below(&mut self, end: u32) -> u32 {
        self.0 ^= self.0 << 13;
        self.0 ^= self.0 >> 7;
        self.0 ^= self.0 << 17;
        match end {
            0 => 0,
            _ => ((self.0 >> 20) % u64::from(end)) as u32,
        }
    }

    // The number of the last collection that claimed an object, and whether its unlog bit is set,
    // or `None` for no object. The last of four ages is that of an object that may be young.
    fn age(&mut self, ages: u32) -> Option<(u64, bool)> {
        match self.below(ages) {
            0 => None,
            1 => Some((OLDEST, true)),
            2 => Some((OLDEST, false)),
            _ => Some((u64::from(self.below(3)), false)),
        }
    }
}

/// The largest base of a row. An object that was claimed then or later is old by each base.
const OLDEST: u64 = 3;

/// Where objects of 3 words may begin: at the offset, or at one of those after it.
const SLOTS: [(u32, u32); 6] = [(0, 1), (63, 2), (127, 2), (2047, 2), (4031, 2), (4093, 1)];

/// The kinds of blocks that are drawn: one in eight is Free, and one has a large object.
const LETTERS: [u8; 8] = *b"yymikbof";

/// Fills a block at random: one in three may have young objects.
fn fill(words: &mut Vec<u64>, layout: &Layout, block: u32, random: &mut Random) {
    let letter = LETTERS[random.below(8) as usize % 8];
    put(words, 18 + block % 8, block_code(letter));
    let ages = 3 + random.below(3) / 2;
    if letter == b'f' {
        return;
    }
    if letter == b'o' {
        let (number, unlogged) = random.age(ages).unwrap_or((OLDEST, true));
        place(words, layout, &(block, 0, 2046, number, unlogged));
        return;
    }
    for (offset, spread) in SLOTS {
        let offset = offset.wrapping_add(random.below(spread));
        if let Some((number, unlogged)) = random.age(ages) {
            place(words, layout, &(block, offset, 0, number, unlogged));
        }
    }
}

/// A row of 4 to 8 blocks, filled at random.
fn random_row(alloc: Global, layout: &Layout, random: &mut Random) -> Result<Vec<u64>, AllocError> {
    let mut words = empty_row(alloc, layout)?;
    for block in 0..layout.blocks() {
        fill(&mut words, layout, block, random);
    }
    Ok(words)
}

/// How many first collections of a row by bases up to the largest are nursery collections.
fn nurseries(rt: &impl Abort, words: &Vec<u64>, layout: &Layout) -> u32
    requires row { IsRowOf layout.now words.now.items }
    requires readable { AreReadable words.now.items layout.now }
{
    let mut count = 0u32;
    for base in 0..OLDEST + 1 {
        let want = walk(words, layout, base);
        assert_eq!(rt; first_kind_in(words, layout, base), want, "base {base}");
        count = count.wrapping_add((want == Collect::Nursery) as u32);
    }
    count
}

// Of the 8,000 first collections of 2,000 rows, four of each, at least 2,000 are nursery
// collections. At least 2,000 are full ones, since the first of each row is.
#[test]
fn first_collections_of_random_rows(rt: HostRuntime) -> Result<(), Fail> {
    let mut random = Random(88_172_645_463_325_252);
    let mut count = 0u32;
    for _row in 0..2000 {
        let layout = Layout::new(random.below(5).wrapping_add(4))?;
        let words = random_row(rt.alloc(), &layout, &mut random)?;
        assert!(rt; is_readable(&words, &layout));
        count = count.wrapping_add(nurseries(&rt, &words, &layout));
    }
    assert!(rt; 2_000 <= count, "{count}");
    Ok(())
}
