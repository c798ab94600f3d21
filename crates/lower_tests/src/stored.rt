//! Commands and replies that are stored and read again.

use ideal_heap::{Command, Name, Reply};
use std::test::Fail;
use stored_commands::{commands_of, stored_traces};
use stored_replies::StoredReplies;

// Commands at the limits of a trace.
const SHORT: [Command; 7] = [
    Command::New {
        d: 15,
        refs: 1024,
        nums: 60_000,
    },
    Command::Put {
        s: 3,
        i: 1023,
        v: 4,
    },
    Command::Write {
        s: 255,
        j: 65_535,
        n: 4_294_967_295,
    },
    Command::Add {
        s: 0,
        j: 59_999,
        n: 4_294_967_295,
    },
    Command::Swap {
        s: 1,
        j: 2,
        was: 65_535,
        next: 7,
    },
    Command::Share { g: 9, s: 8 },
    Command::Meet,
];

// Commands that take memory of their own.
const LONG: [Command; 6] = [
    Command::Write {
        s: 1,
        j: 2,
        n: 4_294_967_296,
    },
    Command::Add {
        s: 3,
        j: 4,
        n: u64::MAX,
    },
    Command::Swap {
        s: 1,
        j: 2,
        was: 65_536,
        next: 7,
    },
    Command::Swap {
        s: 1,
        j: 2,
        was: 7,
        next: 65_536,
    },
    Command::Unpin { s: 256 },
    Command::Read { s: 0, j: 65_536 },
];

// Commands at the limits of 4 bytes, and past them.
const NARROW: [Command; 8] = [
    Command::New {
        d: 15,
        refs: 15,
        nums: 60_000,
    },
    Command::New {
        d: 15,
        refs: 16,
        nums: 0,
    },
    Command::Write {
        s: 1,
        j: 255,
        n: 4095,
    },
    Command::Write { s: 1, j: 256, n: 0 },
    Command::Add {
        s: 2,
        j: 0,
        n: 4096,
    },
    Command::Swap {
        s: 3,
        j: 4095,
        was: 15,
        next: 15,
    },
    Command::Swap {
        s: 3,
        j: 4096,
        was: 0,
        next: 0,
    },
    Command::Swap {
        s: 3,
        j: 0,
        was: 16,
        next: 0,
    },
];

#[test]
fn commands_are_stored_and_read_again(rt: HostRuntime) -> Result<(), Fail> {
    let alloc = rt.alloc();
    let mut mixed = Vec::new(alloc);
    for (short, long) in SHORT.iter().zip(&LONG) {
        mixed.push(*short)?;
        mixed.push(*long)?;
    }
    let traces = vec![in alloc;
        Vec::from_slice(alloc, &SHORT)?,
        Vec::from_slice(alloc, &LONG)?,
        Vec::from_slice(alloc, &NARROW)?,
        mixed,
    ]?;
    let stored = stored_traces(alloc, &traces)?;
    for (trace, stored) in traces.iter().zip(&stored) {
        assert_eq!(rt; commands_of(alloc, stored)?.as_slice(), trace.as_slice());
        assert!(rt; stored.len() == trace.len() && stored.get(trace.len()).is_none());
    }
    Ok(())
}

// Replies of every kind.
const EACH: [Reply; 12] = [
    Reply::Num(u64::MAX),
    Reply::New(Name {
        mutator: 16,
        birth: u32::MAX,
    }),
    Reply::Full,
    Reply::Ref(Name {
        mutator: u32::MAX,
        birth: 1,
    }),
    Reply::Nil,
    Reply::Num(0),
    Reply::Done,
    Reply::Yes,
    Reply::New(Name {
        mutator: 1,
        birth: 2,
    }),
    Reply::No,
    Reply::Null,
    Reply::Range,
];

#[test]
fn replies_are_stored_and_read_again(rt: HostRuntime) -> Result<(), Fail> {
    let mut stored = StoredReplies::with_capacity(rt.alloc(), EACH.len())?;
    for (k, reply) in EACH.iter().enumerate() {
        assert_eq!(rt; stored.len(), k);
        stored.push_reserved(*reply);
    }
    assert_eq!(rt; stored.to_vec(rt.alloc())?.as_slice(), EACH.as_slice());
    let mut iter = stored.iter();
    for reply in &EACH {
        assert_eq!(rt; iter.next(), Some(*reply));
    }
    assert_eq!(rt; iter.next(), None);
    Ok(())
}
