//! Blocks written by hand that may be released, and ones that may not.

ghost use Rattle.std.specs.Prelude.{◌≡◌, length};
ghost use Rattle.heap_layout.specs.Zones.{IsRowOf};

use heap_layout::{BLOCK_WORDS, Kind, Layout};
use object_model::{HEADER_WORDS, Shape};
use releasable_rows::{
    Object, empty_row, is_releasable, plain_object, set_bit_of, set_block, write_object,
};
use std::alloc::{AllocError, Global};
use std::test::Fail;

/// The offset of an object, its references and numbers, and whether its pin and unlog bits are set.
type Placed = (u32, u32, u32, bool);

/// Whether block 1 of a heap of four blocks may be released if it has this word and these objects,
/// as many of the blocks after it as `tails` are later blocks of a run, and the others are Free.
fn is_released(
    alloc: Global,
    layout: &Layout,
    kind: Kind,
    class: u32,
    tails: u32,
    objects: &[Placed],
) -> Result<bool, AllocError> {
    let mut words = empty_row(alloc, layout)?;
    set_block(&mut words, layout, 1, kind, class);
    for block in 2..layout.blocks() {
        if block - 2 < tails {
            set_block(&mut words, layout, block, Kind::LargeTail, 0);
        }
    }
    for object in objects {
        place(&mut words, layout, *object);
    }
    Ok(is_releasable(&words, layout, 1))
}

/// Writes an object into block 1, if its offset is one of the block's.
fn place(words: &mut Vec<u64>, layout: &Layout, object: Placed)
    requires { IsRowOf layout.now words.old.items }
    ensures { length words.new.items ≡ length words.old.items }
{
    let (offset, refs, nums, marked) = object;
    if offset > BLOCK_WORDS - HEADER_WORDS {
        return;
    }
    write_object(
        words,
        layout,
        1,
        &Object {
            offset,
            birth: offset + 1,
            shape: Shape { refs, nums },
            collector: 0,
            pinned: marked,
            unlogged: marked,
        },
    );
}

const FIRST: Placed = (0, 0, 5, false);

const WITHIN: Placed = (4, 0, 5, false);

const NEXT: Placed = (8, 0, 2040, false);

const LAST: Placed = (4090, 0, 3, false);

const PAST: Placed = (4090, 0, 4, false);

const PINNED: Placed = (2048, 1, 0, true);

/// The kind and class of a block, its objects, and whether it may be released.
const BLOCKS: [(Kind, u32, &[Placed], bool); 15] = [
    (Kind::Free, 0, &[], true),
    (Kind::Free, 0, &[FIRST], false),
    (Kind::Bump, 0, &[FIRST, NEXT], true),
    (Kind::Bump, 0, &[FIRST, WITHIN], false),
    (Kind::Immix, 0, &[NEXT, LAST], true),
    (Kind::Immix, 0, &[NEXT, PAST], false),
    (Kind::Kept, 0, &[PINNED], true),
    (Kind::Kept, 1, &[PINNED], false),
    (Kind::Cells, 2, &[NEXT], false),
    (Kind::Cells, 2, &[FIRST], true),
    (Kind::Cells, 1, &[FIRST], false),
    (Kind::Cells, 2, &[WITHIN], false),
    (Kind::LargeTail, 0, &[], true),
    (Kind::LargeTail, 0, &[FIRST], false),
    (Kind::LargeHead, 1, &[FIRST], false),
];

#[test]
fn objects(rt: HostRuntime) -> Result<(), Fail> {
    let layout = Layout::new(4)?;
    for (kind, class, objects, want) in BLOCKS {
        let is = is_released(rt.alloc(), &layout, kind, class, 0, objects)?;
        assert!(rt; is == want, "{kind:?} of class {class}");
    }
    Ok(())
}

/// The class of the first block of a large object, how many later blocks of it follow, its numbers,
/// and whether the block may be released.
const RUNS: [(u32, u32, u32, bool); 9] = [
    (1, 0, 2045, false),
    (1, 0, 2046, true),
    (1, 0, 4093, true),
    (1, 0, 4094, false),
    (2, 1, 4093, false),
    (2, 0, 4094, false),
    (2, 1, 4094, true),
    (3, 2, 8190, true),
    (4, 2, 12286, false),
];

#[test]
fn runs(rt: HostRuntime) -> Result<(), Fail> {
    let layout = Layout::new(4)?;
    for (class, tails, nums, want) in RUNS {
        let objects = [(0, 0, nums, false)];
        let is = is_released(rt.alloc(), &layout, Kind::LargeHead, class, tails, &objects)?;
        assert!(rt; is == want, "class {class}, {tails} tails, {nums} numbers");
    }
    Ok(())
}

/// Whether a large object of two blocks may be released, and whether it may with a pin bit in the
/// second.
fn with_pinned_tail(alloc: Global, layout: &Layout) -> Result<(bool, bool), AllocError> {
    let mut words = empty_row(alloc, layout)?;
    set_block(&mut words, layout, 1, Kind::LargeHead, 2);
    set_block(&mut words, layout, 2, Kind::LargeTail, 0);
    write_object(&mut words, layout, 1, &plain_object(0, 4094));
    let whole = is_releasable(&words, layout, 1);
    let last = layout.address(2, 4095);
    set_bit_of(&mut words, layout, layout.pin_base(), last);
    Ok((whole, is_releasable(&words, layout, 1)))
}

#[test]
fn pin_bit_in_a_tail(rt: HostRuntime) -> Result<(), Fail> {
    let layout = Layout::new(4)?;
    assert!(rt; with_pinned_tail(rt.alloc(), &layout)? == (true, false));
    Ok(())
}

/// A kind of bit that is set in block 1 without an object.
#[derive(Clone, Copy, Debug)]
enum Stray {
    Start,
    Pin,
    Unlog,
    Line,
}

/// Whether blocks 1 and 2 may be released if block 1 has this kind, and one bit of this kind is set
/// in it.
fn with_stray(
    alloc: Global,
    layout: &Layout,
    kind: Kind,
    stray: Stray,
) -> Result<(bool, bool), AllocError> {
    let mut words = empty_row(alloc, layout)?;
    set_block(&mut words, layout, 1, kind, 0);
    let address = layout.address(1, 9);
    match stray {
        Stray::Start => set_bit_of(&mut words, layout, layout.start_base(), address),
        Stray::Pin => set_bit_of(&mut words, layout, layout.pin_base(), address),
        Stray::Unlog => set_bit_of(&mut words, layout, layout.unlog_base(), address),
        Stray::Line => words[layout.line_at(1) as usize + 3] = 1,
    }
    let own = is_releasable(&words, layout, 1);
    Ok((own, is_releasable(&words, layout, 2)))
}

const STRAYS: [(Kind, Stray, bool); 6] = [
    (Kind::Free, Stray::Pin, false),
    (Kind::Bump, Stray::Pin, false),
    (Kind::Mature, Stray::Unlog, false),
    (Kind::Young, Stray::Start, false),
    (Kind::Free, Stray::Line, false),
    (Kind::Immix, Stray::Line, true),
];

// A bit without an object, and the Free block beside it.
#[test]
fn stray_bits(rt: HostRuntime) -> Result<(), Fail> {
    let layout = Layout::new(4)?;
    for (kind, stray, want) in STRAYS {
        let found = with_stray(rt.alloc(), &layout, kind, stray)?;
        assert!(rt; found == (want, true), "{kind:?} with a bit of {stray:?}");
    }
    Ok(())
}
