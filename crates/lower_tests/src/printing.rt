//! Printed traces, replies and faults. The texts come from the format, not from its definitions.

use ideal_heap::{Command, Name, Reply};
use std::test::Fail;
use trace_text::{TraceFault, Why, print_mutator, print_reply, print_trace, read_trace};

// A command of each kind, and three with the greatest numbers.
const COMMANDS: [Command; 18] = [
    Command::New {
        d: 1,
        refs: 2,
        nums: 3,
    },
    Command::Get { d: 1, s: 2, i: 3 },
    Command::Put { s: 1, i: 2, v: 3 },
    Command::Read { s: 1, j: 2 },
    Command::Write { s: 1, j: 2, n: 3 },
    Command::Add { s: 1, j: 2, n: 3 },
    Command::Swap {
        s: 1,
        j: 2,
        was: 3,
        next: 4,
    },
    Command::Move { d: 1, s: 2 },
    Command::DropReg { s: 1 },
    Command::Load { d: 1, g: 2 },
    Command::Share { g: 1, s: 2 },
    Command::Pin { s: 1 },
    Command::Unpin { s: 1 },
    Command::Gc,
    Command::Meet,
    Command::Write {
        s: 15,
        j: 59_999,
        n: u64::MAX,
    },
    Command::Get {
        d: 10,
        s: 0,
        i: 1023,
    },
    Command::New {
        d: 9,
        refs: 1024,
        nums: 60_000,
    },
];

#[test]
fn commands_are_read_and_printed(rt: HostRuntime) -> Result<(), Fail> {
    let text = b"mmtrace 1\nnew r1 2 3\nget r1 r2 3\nput r1 2 r3\nread r1 2\nwrite r1 2 3\n\
        add r1 2 3\nswap r1 2 3 4\nmove r1 r2\ndrop r1\nload r1 g2\nshare g1 r2\npin r1\n\
        unpin r1\ngc\nmeet\nwrite r15 59999 18446744073709551615\nget r10 r0 1023\n\
        new r9 1024 60000\n";
    let commands = read_trace(rt.alloc(), text)?;
    assert_eq!(rt; commands.as_slice(), COMMANDS.as_slice());
    assert_eq!(rt;
        print_trace(rt.alloc(), &commands)?.as_slice(),
        text.as_slice()
    );
    Ok(())
}

// A reply of each kind, and the least and the greatest numbers.
const REPLIES: [Reply; 11] = [
    Reply::New(Name {
        mutator: 16,
        birth: u32::MAX,
    }),
    Reply::Full,
    Reply::Ref(Name {
        mutator: 1,
        birth: 10,
    }),
    Reply::Nil,
    Reply::Num(u64::MAX),
    Reply::Num(0),
    Reply::Done,
    Reply::Yes,
    Reply::No,
    Reply::Null,
    Reply::Range,
];

#[test]
fn prints_replies(rt: HostRuntime) -> Result<(), Fail> {
    let mut text = Vec::new(rt.alloc());
    print_mutator(16, &mut text)?;
    for reply in &REPLIES {
        print_reply(reply, &mut text)?;
    }
    let want =
        b"mutator 16\nnew 16.4294967295\nfull\nref 1.10\nnil\nnum 18446744073709551615\nnum 0\n\
        ok\nyes\nno\nnull\nrange\n";
    assert_eq!(rt; text.as_slice(), want.as_slice());
    Ok(())
}

#[test]
fn faults_are_printed(rt: HostRuntime) -> Result<(), Fail> {
    for (fault, text) in [
        (TraceFault::Line(1, Why::Header), "line 1: header"),
        (TraceFault::Line(20, Why::Word), "line 20: word"),
        (TraceFault::Line(3, Why::Count), "line 3: count"),
        (TraceFault::Line(4, Why::Number), "line 4: number"),
        (
            TraceFault::Line(1_000_001, Why::Range),
            "line 1000001: range",
        ),
        (TraceFault::TooMany, "more than 1000000 commands"),
        (TraceFault::OutOfMemory, "out of memory"),
    ] {
        assert_eq!(rt; format!(in rt.alloc(); "{fault}")?.as_str(), text);
    }
    Ok(())
}
