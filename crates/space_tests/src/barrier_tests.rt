//! Tests of the write barrier, beside bits and words worked out by hand.

use heap_layout::Layout;
use std::test::Fail;
use write_barrier::{is_unlogged, log, must_log};

// Of a heap of 4 blocks, whose first address is 806 and whose unlog bits begin at word 550: at both
// ends of words of bits, of blocks and of the heap, and at offset 4,093, the last of an object.
const BITS: [(u32, usize, u32); 8] = [
    (806, 550, 0),
    (869, 550, 63),
    (870, 551, 0),
    (4899, 613, 61),
    (4901, 613, 63),
    (4902, 614, 0),
    (17187, 805, 61),
    (17189, 805, 63),
];

#[test]
fn log_clears_one_bit(rt: HostRuntime) -> Result<(), Fail> {
    let layout = Layout::new(4)?;
    for (address, word, bit) in BITS {
        let mut words: Vec<u64> = vec![in rt.alloc(); u64::MAX; layout.words() as usize]?;
        assert!(rt; 806 <= address && address < 17190);
        let before = is_unlogged(&words, &layout, address);
        log(&mut words, &layout, address);
        let after = is_unlogged(&words, &layout, address);
        assert_eq!(rt; (before, after), (true, false), "of {address}");
        for (at, found) in words.iter().enumerate() {
            let want = if at == word { !(1 << bit) } else { u64::MAX };
            assert_eq!(rt; *found, want, "at {at}, of {address}");
        }
    }
    Ok(())
}

#[test]
fn old_objects_with_their_bit_must_be_logged(rt: HostRuntime) -> Result<(), Fail> {
    let layout = Layout::new(4)?;
    // The base, the number in the collector word, and the word of unlog bits.
    for (base, number, bits, want) in [
        (0, 0, 1, false),
        (0, 3, 1, false),
        (2, 0, 1, false),
        (2, 1, 1, false),
        (2, 2, 1, true),
        (2, 3, 1, true),
        (2, 3, 0, false),
        (2, 3, 2, false),
    ] {
        let mut words: Vec<u64> = vec![in rt.alloc(); 0; layout.words() as usize]?;
        words[550] = bits;
        words[808] = number << 24 | 806;
        let found = must_log(&words, &layout, base, 806);
        assert_eq!(rt; found, want, "base {base}, number {number}, bits {bits}");
    }
    Ok(())
}
