//! The calls of mutators. Each makes one entry, and takes no memory.

ghost use Rattle.std.specs.Prelude.{◌<◌};
ghost use Rattle.managed_value.specs.Prelude.{IsUsable, HeapHasPlace, EntersCall};
ghost use Rattle.managed_value.specs.Prelude.command;

use crate::managed::ManagedHeap;
use ideal_heap::{GLOBALS, REGISTERS, Reply};
use plan_api::Plan;

impl<P: Plan> ManagedHeap<P> {
    /// Loads reference `i` of the object in register `s` into register `d`.
    pub fn get(&mut self, m: u32, d: u32, s: u32, i: u32) -> Reply
        requires usable { IsUsable P.rules self.old }
        requires place { HeapHasPlace self.old m }
        requires target { d < REGISTERS }
        requires source { s < REGISTERS }
        ensures { EntersCall P.rules self.old m (command.Get d s i) result self.new }
    {
        match &mut self.world {
            Some(world) => world.get(m, d, s, i),
            None => Reply::Null,
        }
    }

    /// Stores register `v` into reference `i` of the object in register `s`.
    pub fn put(&mut self, m: u32, s: u32, i: u32, v: u32) -> Reply
        requires usable { IsUsable P.rules self.old }
        requires place { HeapHasPlace self.old m }
        requires target { s < REGISTERS }
        requires source { v < REGISTERS }
        ensures { EntersCall P.rules self.old m (command.Put s i v) result self.new }
    {
        match &mut self.world {
            Some(world) => world.put(m, s, i, v),
            None => Reply::Null,
        }
    }

    /// Loads number `j` of the object in register `s`.
    pub fn read(&mut self, m: u32, s: u32, j: u32) -> Reply
        requires usable { IsUsable P.rules self.old }
        requires place { HeapHasPlace self.old m }
        requires register { s < REGISTERS }
        ensures { EntersCall P.rules self.old m (command.Read s j) result self.new }
    {
        match &mut self.world {
            Some(world) => world.read(m, s, j),
            None => Reply::Null,
        }
    }

    /// Stores number `j` of the object in register `s`.
    pub fn write(&mut self, m: u32, s: u32, j: u32, n: u64) -> Reply
        requires usable { IsUsable P.rules self.old }
        requires place { HeapHasPlace self.old m }
        requires register { s < REGISTERS }
        ensures { EntersCall P.rules self.old m (command.Write s j n) result self.new }
    {
        match &mut self.world {
            Some(world) => world.write(m, s, j, n),
            None => Reply::Null,
        }
    }

    /// Adds to number `j` of the object in register `s`, modulo 2^64. Replies the number before.
    pub fn add(&mut self, m: u32, s: u32, j: u32, n: u64) -> Reply
        requires usable { IsUsable P.rules self.old }
        requires place { HeapHasPlace self.old m }
        requires register { s < REGISTERS }
        ensures { EntersCall P.rules self.old m (command.Add s j n) result self.new }
    {
        match &mut self.world {
            Some(world) => world.add(m, s, j, n),
            None => Reply::Null,
        }
    }

    /// Sets number `j` of the object in register `s` to `next` if it is `was`.
    pub fn swap(&mut self, m: u32, s: u32, j: u32, was: u64, next: u64) -> Reply
        requires usable { IsUsable P.rules self.old }
        requires place { HeapHasPlace self.old m }
        requires register { s < REGISTERS }
        ensures { EntersCall P.rules self.old m (command.Swap s j was next) result self.new }
    {
        match &mut self.world {
            Some(world) => world.swap(m, s, j, was, next),
            None => Reply::Null,
        }
    }

    /// Copies register `s` to register `d`.
    pub fn move_register(&mut self, m: u32, d: u32, s: u32) -> Reply
        requires usable { IsUsable P.rules self.old }
        requires place { HeapHasPlace self.old m }
        requires target { d < REGISTERS }
        requires source { s < REGISTERS }
        ensures { EntersCall P.rules self.old m (command.Move d s) result self.new }
    {
        match &mut self.world {
            Some(world) => world.move_register(m, d, s),
            None => Reply::Null,
        }
    }

    /// Clears register `s`.
    pub fn drop_register(&mut self, m: u32, s: u32) -> Reply
        requires usable { IsUsable P.rules self.old }
        requires place { HeapHasPlace self.old m }
        requires register { s < REGISTERS }
        ensures { EntersCall P.rules self.old m (command.DropReg s) result self.new }
    {
        match &mut self.world {
            Some(world) => world.drop_register(m, s),
            None => Reply::Null,
        }
    }

    /// Loads global `g` into register `d`.
    pub fn load(&mut self, m: u32, d: u32, g: u32) -> Reply
        requires usable { IsUsable P.rules self.old }
        requires place { HeapHasPlace self.old m }
        requires register { d < REGISTERS }
        requires global { g < GLOBALS }
        ensures { EntersCall P.rules self.old m (command.Load d g) result self.new }
    {
        match &mut self.world {
            Some(world) => world.load(m, d, g),
            None => Reply::Null,
        }
    }

    /// Stores register `s` into global `g`.
    pub fn share(&mut self, m: u32, g: u32, s: u32) -> Reply
        requires usable { IsUsable P.rules self.old }
        requires place { HeapHasPlace self.old m }
        requires register { s < REGISTERS }
        requires global { g < GLOBALS }
        ensures { EntersCall P.rules self.old m (command.Share g s) result self.new }
    {
        match &mut self.world {
            Some(world) => world.share(m, g, s),
            None => Reply::Null,
        }
    }

    /// Pins the object in register `s`: no collection moves it.
    pub fn pin(&mut self, m: u32, s: u32) -> Reply
        requires usable { IsUsable P.rules self.old }
        requires place { HeapHasPlace self.old m }
        requires register { s < REGISTERS }
        ensures { EntersCall P.rules self.old m (command.Pin s) result self.new }
    {
        match &mut self.world {
            Some(world) => world.pin(m, s),
            None => Reply::Null,
        }
    }

    /// Unpins the object in register `s`.
    pub fn unpin(&mut self, m: u32, s: u32) -> Reply
        requires usable { IsUsable P.rules self.old }
        requires place { HeapHasPlace self.old m }
        requires register { s < REGISTERS }
        ensures { EntersCall P.rules self.old m (command.Unpin s) result self.new }
    {
        match &mut self.world {
            Some(world) => world.unpin(m, s),
            None => Reply::Null,
        }
    }
}
