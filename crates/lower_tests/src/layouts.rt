//! Layouts, block words and collector words against values computed by hand.

use forward_word::{claimed, is_old, number_of, target_of};
use heap_layout::{
    BlockWord, Kind, Layout, LayoutFault, Region, block_of, bump, chunk_of, decode, line_of,
};
use std::test::Fail;

#[test]
fn sizes(rt: HostRuntime) -> Result<(), Fail> {
    for (blocks, want) in [
        (3, Err(LayoutFault::Size(3))),
        (4, Ok(17190)),
        (1024, Ok(4396050)),
        (1025, Err(LayoutFault::Size(1025))),
    ] {
        assert_eq!(rt; Layout::new(blocks).map(|l| l.words()), want, "at {blocks}");
    }
    let text = format!(in rt.alloc(); "{}", LayoutFault::Size(3))?;
    assert_eq!(rt; text.as_str(), "a heap has 4 to 1024 blocks, not 3");
    Ok(())
}

#[test]
fn places(rt: HostRuntime) -> Result<(), Fail> {
    let layout = Layout::new(200)?;
    let last = layout.address(199, 4095);
    let places = [
        layout.blocks(),
        layout.global_at(15),
        layout.block_at(199),
        layout.line_at(199),
        layout.start_base(),
        layout.pin_base(),
        layout.unlog_base(),
        layout.heap_base(),
        last,
        block_of(&layout, last),
        line_of(&layout, last),
        chunk_of(&layout, last),
    ];
    let want = [
        200, 17, 217, 1014, 1018, 13818, 26618, 39418, 858617, 199, 51199, 1,
    ];
    assert_eq!(rt; places, want);
    Ok(())
}

#[test]
fn codes(rt: HostRuntime) {
    for (kind, class, owner, code) in [
        (Kind::Free, 0, 0, 0),
        (Kind::Bump, 0, 32, 2097153),
        (Kind::Young, 0, 1, 65538),
        (Kind::Mature, 0, 16, 1048579),
        (Kind::Immix, 0, 17, 1114116),
        (Kind::Cells, 18, 2, 135685),
        (Kind::LargeHead, 15, 0, 3846),
        (Kind::LargeTail, 0, 0, 7),
        (Kind::Kept, 0, 0, 8),
    ] {
        let word = BlockWord { kind, class, owner };
        assert_eq!(rt;
            (decode(code), heap_layout::encode(&word)),
            (Some(word), code)
        );
    }
    assert_eq!(rt;
        [decode(9), decode(256)],
        [None, None],
        "no kind, no class of Free"
    );
}

#[test]
fn room(rt: HostRuntime) {
    let mut region = Region { next: 5, end: 8 };
    let taken = [bump(&mut region, 2), bump(&mut region, 2)];
    assert_eq!(rt;
        (taken, region),
        ([Some(5), None], Region { next: 7, end: 8 })
    );
}

#[test]
fn collector_words(rt: HostRuntime) {
    for (number, target, word) in [
        (0, 0, 0),
        (0, 0xff_ffff, 0xff_ffff),
        (1, 0, 0x100_0000),
        (3, 5312, 0x300_14c0),
        (0xff_ffff_ffff, 0, 0xffff_ffff_ff00_0000),
        (0xff_ffff_ffff, 0xff_ffff, 0xffff_ffff_ffff_ffff),
    ] {
        let parts = (number_of(word), target_of(word));
        let claims = (claimed(word, number), claimed(word, number + 1));
        assert_eq!(rt;
            (forward_word::encode(number, target), parts, claims),
            (word, (number, target), (Some(target), None)),
            "of {number} and {target}"
        );
    }
}

#[test]
fn ages(rt: HostRuntime) {
    for (number, base, want) in [
        (0, 0, false),
        (0, 1, false),
        (1, 0, false),
        (1, 1, true),
        (2, 1, true),
        (1, 2, false),
        (0xff_ffff_ffff, 0xff_ffff_ffff, true),
        (0xff_ffff_ffff, 0x100_0000_0000, false),
    ] {
        let word = forward_word::encode(number, 0xff_ffff);
        assert_eq!(rt; is_old(word, base), want, "{number} from {base}");
    }
}
