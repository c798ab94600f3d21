//! Tests of grants.

use heap_layout::Layout;
use immix_space::headroom;
use plan_api::{BlockCounts, Reserve};
use std::test::Fail;

/// Blocks, Free blocks and blocks of large objects under a reserve, and what is wanted: headroom,
/// which Immix has too, allowance, whether a block may be granted, and the longest run of blocks
/// that may be granted.
const FIGURES: [(Reserve, u32, u32, u32, u32, u32, bool, u32); 18] = [
    (Reserve::Nothing, 4, 4, 0, 1, 4, true, 4),
    (Reserve::Nothing, 5, 0, 2, 1, 0, false, 0),
    (Reserve::Nothing, 16, 9, 3, 1, 9, true, 9),
    (Reserve::Nothing, 32, 0, 0, 1, 0, false, 0),
    (Reserve::Nothing, 33, 0, 0, 2, 0, false, 0),
    (Reserve::Nothing, 1024, 700, 100, 32, 700, true, 700),
    (Reserve::Copies, 4, 4, 0, 1, 2, true, 4),
    (Reserve::Copies, 4, 3, 0, 1, 1, true, 2),
    (Reserve::Copies, 4, 2, 0, 1, 0, false, 0),
    (Reserve::Copies, 5, 3, 0, 1, 0, false, 1),
    (Reserve::Copies, 16, 9, 3, 1, 2, true, 5),
    (Reserve::Copies, 1024, 700, 100, 32, 238, true, 476),
    (Reserve::Headroom, 4, 4, 0, 1, 3, true, 3),
    (Reserve::Headroom, 4, 1, 0, 1, 0, false, 0),
    (Reserve::Headroom, 5, 3, 1, 1, 2, true, 2),
    (Reserve::Headroom, 16, 9, 3, 1, 8, true, 8),
    (Reserve::Headroom, 1024, 33, 0, 32, 1, true, 1),
    (Reserve::Headroom, 1024, 32, 0, 32, 0, false, 0),
];

#[test]
fn figures(rt: HostRuntime) -> Result<(), Fail> {
    for (reserve, blocks, free, large, held_back, allowance, grants, run) in FIGURES {
        let counts = BlockCounts {
            blocks,
            free,
            large,
        };
        let seen = (
            (headroom(&Layout::new(blocks)?), counts.headroom()),
            (counts.allowance(reserve), counts.is_grantable(reserve)),
            counts.is_run_grantable(reserve, run),
            counts.is_run_grantable(reserve, run.saturating_add(1)),
        );
        let want = ((held_back, held_back), (allowance, grants), true, false);
        assert_eq!(rt; seen, want, "of {blocks} and {free}");
    }
    Ok(())
}
