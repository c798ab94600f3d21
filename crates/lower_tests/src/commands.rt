//! Replies of the ideal heap, worked out by hand.

use ideal_heap::{Command, Ideal, Name, Reply, valid};
use std::alloc::AllocError;

fn create(destination: u32, refs: u32, nums: u32) -> Command {
    let d = destination;
    Command::New { d, refs, nums }
}

fn write(register: u32, index: u32, number: u64) -> Command {
    Command::Write {
        s: register,
        j: index,
        n: number,
    }
}

fn swap(register: u32, index: u32, was: u64, next: u64) -> Command {
    Command::Swap {
        s: register,
        j: index,
        was,
        next,
    }
}

fn name(mutator: u32, birth: u32) -> Name {
    Name { mutator, birth }
}

// The last object is the greatest that there is.
#[test]
fn replies_as_worked_out(rt: HostRuntime) -> Result<(), AllocError> {
    let mut heap = Ideal::new(rt.alloc(), 2)?;
    for (mutator, command, want) in [
        (1, Command::Read { s: 3, j: 0 }, Reply::Null),
        (1, create(0, 1, 2), Reply::New(name(1, 1))),
        (1, Command::Read { s: 0, j: 2 }, Reply::Range),
        (1, Command::Get { d: 1, s: 0, i: 1 }, Reply::Range),
        (1, Command::Pin { s: 3 }, Reply::Null),
        (1, write(0, 1, u64::MAX), Reply::Done),
        (1, Command::Add { s: 0, j: 1, n: 1 }, Reply::Num(u64::MAX)),
        (1, Command::Read { s: 0, j: 1 }, Reply::Num(0)),
        (1, swap(0, 1, 1, 5), Reply::No),
        (1, swap(0, 1, 0, 5), Reply::Yes),
        (1, Command::Get { d: 1, s: 0, i: 0 }, Reply::Nil),
        (1, Command::Put { s: 0, i: 0, v: 0 }, Reply::Done),
        (1, Command::Get { d: 1, s: 0, i: 0 }, Reply::Ref(name(1, 1))),
        (1, Command::Pin { s: 1 }, Reply::Yes),
        (1, Command::Unpin { s: 0 }, Reply::Yes),
        (1, Command::Share { g: 0, s: 1 }, Reply::Done),
        (1, Command::DropReg { s: 0 }, Reply::Done),
        (2, Command::Meet, Reply::Done),
        (2, Command::Load { d: 1, g: 0 }, Reply::Ref(name(1, 1))),
        (2, Command::Move { d: 2, s: 1 }, Reply::Done),
        (2, Command::Read { s: 2, j: 1 }, Reply::Num(5)),
        (2, create(2, 0, 0), Reply::New(name(2, 1))),
        (1, create(2, 0, 0), Reply::New(name(1, 2))),
        (1, Command::Gc, Reply::Done),
        (2, create(0, 1024, 60_000), Reply::New(name(2, 2))),
    ] {
        assert!(rt;
            valid(&command) && (mutator == 1 || mutator == 2) && heap.births(mutator) < 9,
            "at {command:?}"
        );
        assert_eq!(rt; heap.apply(mutator, &command)?, want, "at {command:?}");
    }
    Ok(())
}
