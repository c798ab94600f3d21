//! Tests against values computed by hand.

use crate::{Spec, clear, clear_bit, field, place, set, set_bit, set_field, test, test_bit};
use std::test::Fail;

#[test]
fn places(rt: HostRuntime) -> Result<(), Fail> {
    for (log_region, log_bits, a, want) in [
        (0, 0, 100, (7, 0)),
        (0, 0, 163, (7, 63)),
        (0, 0, 164, (8, 0)),
        (4, 0, 131, (7, 1)),
        (4, 2, 355, (7, 60)),
        (4, 2, 356, (8, 0)),
        (12, 3, 32868, (8, 0)),
        (12, 6, 4195, (7, 0)),
        (12, 6, 4196, (8, 0)),
    ] {
        let spec = Spec {
            zone: 7,
            heap: 100,
            log_region,
            log_bits,
        };
        assert_eq!(rt; place(&spec, a), want, "of {a}, {log_bits}");
    }
    Ok(())
}

#[test]
fn fields(rt: HostRuntime) -> Result<(), Fail> {
    for (log_bits, v, want) in [
        (0, 0, 0xffff_ffff_ffff_fffd),
        (2, 5, 0xffff_ffff_ffff_ff5f),
        (3, 0xa9, 0xffff_ffff_ffff_a9ff),
        (6, 12, 0xffff_ffff_ffff_ffff),
    ] {
        let mut row: Vec<u64> = vec![in rt.alloc(); u64::MAX; 4]?;
        let spec = Spec {
            zone: 1,
            heap: 100,
            log_region: 4,
            log_bits,
        };
        set_field(&mut row, &spec, 120, v);
        assert_eq!(rt; field(&row, &spec, 120), v);
        assert_eq!(rt; row.get(0), Some(&u64::MAX));
        assert_eq!(rt; row.get(1), Some(&want), "{log_bits} bits");
        let next = if log_bits == 6 { v } else { u64::MAX };
        assert_eq!(rt; row.get(2), Some(&next), "{log_bits} bits");
        assert_eq!(rt; row.get(3), Some(&u64::MAX));
    }
    Ok(())
}

// By a kind of side metadata and by word and place.
#[test]
fn bits(rt: HostRuntime) -> Result<(), Fail> {
    let mut row: Vec<u64> = vec![in rt.alloc(); 0; 3]?;
    let spec = Spec {
        zone: 1,
        heap: 100,
        log_region: 0,
        log_bits: 0,
    };
    set(&mut row, &spec, 163);
    set_bit(&mut row, 2, 0);
    assert_eq!(rt; row.as_slice(), [0, 0x8000_0000_0000_0000, 1].as_slice());
    assert_eq!(rt;
        (test(&row, &spec, 162), test(&row, &spec, 163)),
        (false, true)
    );
    assert_eq!(rt;
        (test_bit(&row, 1, 62), test_bit(&row, 1, 63)),
        (false, true)
    );
    clear(&mut row, &spec, 163);
    assert_eq!(rt; row.as_slice(), [0, 0, 1].as_slice());
    clear_bit(&mut row, 2, 0);
    assert_eq!(rt; row.as_slice(), [0, 0, 0].as_slice());
    Ok(())
}
