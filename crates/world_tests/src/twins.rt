//! Two mutators of a world beside those of the ideal heap.

ghost use Rattle.std.specs.Prelude.{◌≡◌, IfOk};
ghost use Rattle.ideal_heap.specs.Plain.{mutators_of};
ghost use Rattle.sessions.specs.Plans.{NoGc as no_gc, rules_of};
ghost use Rattle.plain_world.specs.Calls.{IsOpen};

use crate::worlds::{new_world, reply_to};
use heap_graph::{Place, graph};
use ideal_heap::{Command, GLOBALS, Ideal, MAX_NUMS, MAX_REFS, Name, Reply, valid};
use mutator_calls::Mutator;
use object_model::{Heap, are_roots};
use plain_world::PlainWorld;
use plans::NoGc;
use std::alloc::{AllocError, Global};
use std::process::Abort;
use std::test::Fail;

// What a walk uses: the head of its list of work, a cell of the list, what goes into a cell, and
// the object at hand. The registers below are the mutator's own.
const LIST: u32 = 12;

const CELL: u32 = 13;

const ITEM: u32 = 14;

const HAND: u32 = 15;

// A new cell before the list of work, with what register `ITEM` holds.
const ADD_CELL: [Command; 4] = [
    Command::New {
        d: CELL,
        refs: 2,
        nums: 0,
    },
    Command::Put {
        s: CELL,
        i: 0,
        v: LIST,
    },
    Command::Put {
        s: CELL,
        i: 1,
        v: ITEM,
    },
    Command::Move { d: LIST, s: CELL },
];

// What a walk leaves: its registers are nil.
const CLEAR: [Command; 4] = [
    Command::DropReg { s: LIST },
    Command::DropReg { s: CELL },
    Command::DropReg { s: ITEM },
    Command::DropReg { s: HAND },
];

// Takes the first object of the list of work in hand.
const TAKE: Command = Command::Get {
    d: HAND,
    s: LIST,
    i: 1,
};

const DROP_CELL: Command = Command::Get {
    d: LIST,
    s: LIST,
    i: 0,
};

pub(crate) type World = PlainWorld<NoGc>;

/// A world of two mutators, and the ideal heap that it follows.
#[derive(Drop)]
pub(crate) struct Twins {
    pub(crate) world: World,
    pub(crate) ideal: Ideal,
    ghost mutators: { mutators_of ideal ≡ 2 },
}

impl Twins {
    /// Two mutators of an empty heap.
    pub(crate) fn new(rt: &impl Abort, alloc: Global, blocks: u32) -> Result<Twins, Fail>
        ensures { IfOk result (λ t. IsOpen (rules_of no_gc) t.world) }
    {
        Ok(Twins {
            world: new_world(rt, alloc, blocks, 2)?,
            ideal: Ideal::new(alloc, 2)?,
        })
    }

    /// The reply to a command of the mutator at place `m`, which is that of the ideal heap. So is
    /// the number of its objects.
    pub(crate) fn call(
        &mut self,
        rt: &impl Abort,
        m: u32,
        command: &Command,
    ) -> Result<Reply, AllocError>
        requires { IsOpen (rules_of no_gc) self.old.world }
        ensures { IsOpen (rules_of no_gc) self.new.world }
    {
        assert!(rt; m < 2 && valid(command) && self.ideal.births(m + 1) < 1_000_000);
        let want = self.ideal.apply(m + 1, command)?;
        let reply = reply_to(rt, &mut self.world, m, command);
        assert!(rt; (m as usize) < self.world.mutators().len());
        let births = (self.world.births(m), self.ideal.births(m + 1));
        assert!(rt;
            reply == want && births.0 == births.1,
            "of {m} at {command:?}"
        );
        Ok(reply)
    }

    fn call_all(&mut self, rt: &impl Abort, m: u32, commands: &[Command]) -> Result<(), AllocError>
        requires { IsOpen (rules_of no_gc) self.old.world }
        ensures { IsOpen (rules_of no_gc) self.new.world }
    {
        for command in commands {
            self.call(rt, m, command)?;
        }
        Ok(())
    }

    // Adds what a command puts into register `ITEM` to the list of work. Returns false if the
    // command has no such field.
    fn add(&mut self, rt: &impl Abort, m: u32, get: &Command) -> Result<bool, AllocError>
        requires { IsOpen (rules_of no_gc) self.old.world }
        ensures { IsOpen (rules_of no_gc) self.new.world }
    {
        if self.call(rt, m, get)? == Reply::Range {
            return Ok(false);
        }
        self.call_all(rt, m, &ADD_CELL)?;
        Ok(true)
    }

    // Adds what the registers of the mutator and the globals hold to the list of work.
    fn add_roots(&mut self, rt: &impl Abort, m: u32) -> Result<(), AllocError>
        requires { IsOpen (rules_of no_gc) self.old.world }
        ensures { IsOpen (rules_of no_gc) self.new.world }
    {
        for root in 0..LIST + GLOBALS as u32 {
            let get = match root.checked_sub(LIST) {
                None => Command::Move { d: ITEM, s: root },
                Some(g) => Command::Load { d: ITEM, g },
            };
            self.add(rt, m, &get)?;
        }
        Ok(())
    }

    // Adds what the fields of the object at hand hold to the list of work. Returns their number.
    fn add_fields(&mut self, rt: &impl Abort, m: u32) -> Result<u32, AllocError>
        requires { IsOpen (rules_of no_gc) self.old.world }
        ensures { IsOpen (rules_of no_gc) self.new.world }
    {
        for i in 0..MAX_REFS {
            let get = Command::Get {
                d: ITEM,
                s: HAND,
                i,
            };
            if !self.add(rt, m, &get)? {
                return Ok(i);
            }
        }
        Ok(MAX_REFS)
    }

    // The number of numbers of the object at hand.
    fn count_numbers(&mut self, rt: &impl Abort, m: u32) -> Result<u32, AllocError>
        requires { IsOpen (rules_of no_gc) self.old.world }
        ensures { IsOpen (rules_of no_gc) self.new.world }
    {
        for j in 0..MAX_NUMS {
            if self.call(rt, m, &Command::Read { s: HAND, j })? == Reply::Range {
                return Ok(j);
            }
        }
        Ok(MAX_NUMS)
    }

    // Adds the object at hand to those found, and its fields to the list of work, unless it was
    // found before.
    fn visit(
        &mut self,
        rt: &impl Abort,
        m: u32,
        name: Name,
        found: &mut Vec<(Name, u32)>,
    ) -> Result<(), AllocError>
        requires { IsOpen (rules_of no_gc) self.old.world }
        ensures { IsOpen (rules_of no_gc) self.new.world }
    {
        if is_in(found, name) {
            return Ok(());
        }
        let refs = self.add_fields(rt, m)?;
        let nums = self.count_numbers(rt, m)?;
        found.push((name, refs.saturating_add(nums).saturating_add(3)))?;
        Ok(())
    }

    // Takes the first object of the list of work, and visits it. Returns false at the end of the
    // list.
    fn follow(
        &mut self,
        rt: &impl Abort,
        m: u32,
        found: &mut Vec<(Name, u32)>,
    ) -> Result<bool, AllocError>
        requires { IsOpen (rules_of no_gc) self.old.world }
        ensures { IsOpen (rules_of no_gc) self.new.world }
    {
        let reply = self.call(rt, m, &TAKE)?;
        self.call(rt, m, &DROP_CELL)?;
        if let Reply::Ref(name) = reply {
            self.visit(rt, m, name, found)?;
        }
        Ok(reply != Reply::Null)
    }

    // Walks along the fields from what the registers of the mutator and the globals hold.
    fn walk(
        &mut self,
        rt: &impl Abort,
        m: u32,
        found: &mut Vec<(Name, u32)>,
    ) -> Result<(), AllocError>
        requires { IsOpen (rules_of no_gc) self.old.world }
        ensures { IsOpen (rules_of no_gc) self.new.world }
    {
        self.add_roots(rt, m)?;
        for _ in 0..100_000 {
            if !self.follow(rt, m, found)? {
                return self.call_all(rt, m, &CLEAR);
            }
        }
        panic!(rt; "the walk does not end")
    }

    // The names and sizes of the reachable objects in rising order of names, by a walk with
    // commands of both mutators.
    fn walk_both(&mut self, rt: &impl Abort, alloc: Global) -> Result<Vec<(Name, u32)>, AllocError>
        requires { IsOpen (rules_of no_gc) self.old.world }
        ensures { IsOpen (rules_of no_gc) self.new.world }
    {
        let mut found = Vec::new(alloc);
        self.walk(rt, 0, &mut found)?;
        self.walk(rt, 1, &mut found)?;
        found.sort_unstable_by_key(|x| x.0);
        Ok(found)
    }

    /// Ends the epoch. The graph of the heap is that of a walk with commands of both mutators.
    pub(crate) fn check_graph(mut self, rt: &impl Abort, alloc: Global) -> Result<Twins, AllocError>
        requires { IsOpen (rules_of no_gc) self.world }
        ensures { IfOk result (λ t. IsOpen (rules_of no_gc) t.world) }
    {
        let found = self.walk_both(rt, alloc)?;
        let Twins { world, ideal } = self;
        let (heap, mutators) = world.close();
        check_graph(rt, alloc, &heap, &mutators, &found)?;
        assert!(rt; mutators.len() <= 16);
        let world = World::begin(alloc, heap, mutators)?;
        Ok(Twins { world, ideal })
    }
}

// Whether an object of this name was found.
fn is_in(found: &[(Name, u32)], name: Name) -> bool {
    for (other, _) in found {
        if *other == name {
            return true;
        }
    }
    false
}

// The names and sizes of what the registers and globals reach, in rising order of names.
fn check_graph(
    rt: &impl Abort,
    alloc: Global,
    heap: &Heap,
    mutators: &Vec<Mutator>,
    want: &Vec<(Name, u32)>,
) -> Result<(), AllocError> {
    let mut roots = Vec::new(alloc);
    for mutator in mutators {
        roots.extend_from_slice(&mutator.registers)?;
    }
    let places = graph_of(rt, alloc, heap, &roots)?;
    assert!(rt;
        places
            .iter()
            .map(|x| (x.name, x.size))
            .eq(want.iter().copied())
    );
    Ok(())
}

// The graph of a heap, whose roots are nil or held.
fn graph_of(
    rt: &impl Abort,
    alloc: Global,
    heap: &Heap,
    roots: &[u32],
) -> Result<Vec<Place>, AllocError> {
    assert!(rt; are_roots(heap, roots));
    graph(alloc, heap, roots)
}
