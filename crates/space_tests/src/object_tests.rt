//! Tests of shapes, and of a row: empty, with an object, and with pins.

use heap_layout::{BlockWord, Kind, Layout};
use ideal_heap::Name;
use object_model::{Heap, Shape, decode_shape, encode_shape, size_words};
use std::test::Fail;

#[test]
fn shapes(rt: HostRuntime) -> Result<(), Fail> {
    for (code, want, size) in [
        (0, Some(Shape { refs: 0, nums: 0 }), 3),
        (1, Some(Shape { refs: 1, nums: 0 }), 4),
        (65536, Some(Shape { refs: 0, nums: 1 }), 4),
        (
            3932161024,
            Some(Shape {
                refs: 1024,
                nums: 60000,
            }),
            61027,
        ),
        (1025, None, 0),
        (3932225536, None, 0),
        (18446744073709551615, None, 0),
    ] {
        let shape = decode_shape(code);
        let back = match &shape {
            Some(s) => (encode_shape(s), size_words(s)),
            None => (code, 0),
        };
        assert_eq!(rt; (shape, back), (want, (code, size)), "of {code}");
    }
    Ok(())
}

#[test]
fn rows(rt: HostRuntime) -> Result<(), Fail> {
    let heap = Heap::from_row(Heap::new(rt.alloc(), Layout::new(4)?)?.into_row());
    let free = BlockWord {
        kind: Kind::Free,
        class: 0,
        owner: 0,
    };
    let name = Name {
        mutator: 2,
        birth: 3,
    };
    let blocks = heap.layout().blocks();
    let is_empty = heap.number() == 0
        && heap.base() == 0
        && !heap.held(806)
        && heap.block(3) == free;
    let mut row = heap.into_row();
    row.write_object(808, &name, &Shape { refs: 1, nums: 1 });
    row.set_pinned(806, true);
    row.set_pinned(808, true);
    row.set_pinned(870, true);
    row.set_pinned(806, false);
    assert_eq!(rt; (blocks, is_empty), (4, true));
    // Start bits, two words of pin bits, the word before the object, its words, and those after it.
    let words = row.words.to_vec(rt.alloc())?;
    for (at, want) in [
        (38, Some(4)),
        (294, Some(4)),
        (295, Some(1)),
        (807, Some(0)),
        (808, Some(98)),
        (809, Some(65537)),
        (810, Some(0)),
        (812, Some(0)),
        (17189, Some(0)),
        (17190, None),
    ] {
        assert_eq!(rt; words.get(at).copied(), want, "at {at}");
    }
    Ok(())
}
