//! The execution of each command on the tables.

ghost use Rattle.std.specs.Prelude.{◌≡◌};
ghost use Rattle.ideal_heap.specs.Ideal.{global_reply};

use crate::name::Name;
use crate::reply::Reply;
use crate::tables::Tables;

/// The reply to the read of a reference or global with this value.
fn reply_of_global(value: Option<Name>) -> Reply
    ensures { result ≡ global_reply value }
{
    match value {
        Some(name) => Reply::Ref(name),
        None => Reply::Nil,
    }
}

impl Tables {
    ghost use Rattle.std.specs.Prelude.{◌≡◌, ◌<◌, ◌≤◌, ◌^◌};
    ghost use Rattle.ideal_heap.specs.declared.command.Command.TheVariants as command;
    ghost use Rattle.ideal_heap.specs.Tables.{tables_heap, HasMutator, mutator_count};
    ghost use Rattle.ideal_heap.specs.declared.command.TheConstants.{MAX_REGISTER, MAX_GLOBAL};
    ghost use Rattle.ideal_heap.specs.Ideal.{IsClosed, step};

    /// Executes `Get`.
    pub fn get(&mut self, mutator: u32, destination: u32, register: u32, index: u32) -> Reply
        requires mutator { HasMutator self.old mutator }
        requires registers { (destination ≤ MAX_REGISTER) × (register ≤ MAX_REGISTER) }
        ensures step { (result, tables_heap self.new)
            ≡ step (tables_heap self.old) mutator (command.Get destination register index) }
        ensures count { mutator_count self.new ≡ mutator_count self.old }
    {
        let Some(name) = self.register(mutator, register) else {
            return Reply::Null;
        };
        let Some(&field) = self.refs(name).get(index as usize) else {
            return Reply::Range;
        };
        self.set_register(mutator, destination, field);
        reply_of_global(field)
    }

    /// Executes `Put`.
    pub fn put(&mut self, mutator: u32, register: u32, index: u32, source: u32) -> Reply
        requires mutator { HasMutator self.old mutator }
        requires registers { (register ≤ MAX_REGISTER) × (source ≤ MAX_REGISTER) }
        ensures step { (result, tables_heap self.new)
            ≡ step (tables_heap self.old) mutator (command.Put register index source) }
        ensures count { mutator_count self.new ≡ mutator_count self.old }
    {
        let Some(name) = self.register(mutator, register) else {
            return Reply::Null;
        };
        if index as usize >= self.refs(name).len() {
            return Reply::Range;
        }
        let value = self.register(mutator, source);
        self.set_field(name, index, value);
        Reply::Done
    }

    /// Executes `Read`.
    pub fn read(&self, mutator: u32, register: u32, index: u32) -> Reply
        requires mutator { HasMutator self.now mutator }
        requires register { register ≤ MAX_REGISTER }
        ensures { (result, tables_heap self.now)
            ≡ step (tables_heap self.now) mutator (command.Read register index) }
    {
        let Some(name) = self.register(mutator, register) else {
            return Reply::Null;
        };
        match self.nums(name).get(index as usize) {
            Some(number) => Reply::Num(*number),
            None => Reply::Range,
        }
    }

    /// Executes `Write`.
    pub fn write(&mut self, mutator: u32, register: u32, index: u32, number: u64) -> Reply
        requires mutator { HasMutator self.old mutator }
        requires register { register ≤ MAX_REGISTER }
        ensures step { (result, tables_heap self.new)
            ≡ step (tables_heap self.old) mutator (command.Write register index number) }
        ensures count { mutator_count self.new ≡ mutator_count self.old }
    {
        let Some(name) = self.register(mutator, register) else {
            return Reply::Null;
        };
        if index as usize >= self.nums(name).len() {
            return Reply::Range;
        }
        self.set_number(name, index, number);
        Reply::Done
    }

    /// Executes `Add`.
    pub fn add(&mut self, mutator: u32, register: u32, index: u32, number: u64) -> Reply
        requires mutator { HasMutator self.old mutator }
        requires register { register ≤ MAX_REGISTER }
        ensures step { (result, tables_heap self.new)
            ≡ step (tables_heap self.old) mutator (command.Add register index number) }
        ensures count { mutator_count self.new ≡ mutator_count self.old }
    {
        let Some(name) = self.register(mutator, register) else {
            return Reply::Null;
        };
        let Some(&before) = self.nums(name).get(index as usize) else {
            return Reply::Range;
        };
        self.set_number(name, index, before.wrapping_add(number));
        Reply::Num(before)
    }

    /// Executes `Swap`.
    pub fn swap(&mut self, mutator: u32, register: u32, index: u32, was: u64, next: u64) -> Reply
        requires mutator { HasMutator self.old mutator }
        requires register { register ≤ MAX_REGISTER }
        ensures step { (result, tables_heap self.new)
            ≡ step (tables_heap self.old) mutator (command.Swap register index was next) }
        ensures count { mutator_count self.new ≡ mutator_count self.old }
    {
        let Some(name) = self.register(mutator, register) else {
            return Reply::Null;
        };
        let Some(&before) = self.nums(name).get(index as usize) else {
            return Reply::Range;
        };
        if before != was {
            return Reply::No;
        }
        self.set_number(name, index, next);
        Reply::Yes
    }

    /// Executes `Pin`.
    pub fn pin(&mut self, mutator: u32, register: u32) -> Reply
        requires mutator { HasMutator self.old mutator }
        requires register { register ≤ MAX_REGISTER }
        requires closed { IsClosed (tables_heap self.old) }
        ensures step { (result, tables_heap self.new)
            ≡ step (tables_heap self.old) mutator (command.Pin register) }
        ensures count { mutator_count self.new ≡ mutator_count self.old }
    {
        let Some(name) = self.register(mutator, register) else {
            return Reply::Null;
        };
        let was = self.is_pinned(name);
        self.set_pinned(name, true);
        if was { Reply::No } else { Reply::Yes }
    }

    /// Executes `Unpin`.
    pub fn unpin(&mut self, mutator: u32, register: u32) -> Reply
        requires mutator { HasMutator self.old mutator }
        requires register { register ≤ MAX_REGISTER }
        requires closed { IsClosed (tables_heap self.old) }
        ensures step { (result, tables_heap self.new)
            ≡ step (tables_heap self.old) mutator (command.Unpin register) }
        ensures count { mutator_count self.new ≡ mutator_count self.old }
    {
        let Some(name) = self.register(mutator, register) else {
            return Reply::Null;
        };
        let was = self.is_pinned(name);
        self.set_pinned(name, false);
        if was { Reply::Yes } else { Reply::No }
    }

    /// Executes `Load`.
    pub fn load(&mut self, mutator: u32, destination: u32, global: u32) -> Reply
        requires mutator { HasMutator self.old mutator }
        requires numbers { (destination ≤ MAX_REGISTER) × (global ≤ MAX_GLOBAL) }
        ensures step { (result, tables_heap self.new)
            ≡ step (tables_heap self.old) mutator (command.Load destination global) }
        ensures count { mutator_count self.new ≡ mutator_count self.old }
    {
        let value = self.global(global);
        self.set_register(mutator, destination, value);
        reply_of_global(value)
    }

    /// Executes `Share`.
    pub fn share(&mut self, mutator: u32, global: u32, source: u32) -> Reply
        requires mutator { HasMutator self.old mutator }
        requires numbers { (global ≤ MAX_GLOBAL) × (source ≤ MAX_REGISTER) }
        ensures step { (result, tables_heap self.new)
            ≡ step (tables_heap self.old) mutator (command.Share global source) }
        ensures count { mutator_count self.new ≡ mutator_count self.old }
    {
        let value = self.register(mutator, source);
        self.set_global(global, value);
        Reply::Done
    }

    /// Executes `Move`.
    pub fn copy_register(&mut self, mutator: u32, destination: u32, source: u32) -> Reply
        requires mutator { HasMutator self.old mutator }
        requires registers { (destination ≤ MAX_REGISTER) × (source ≤ MAX_REGISTER) }
        ensures step { (result, tables_heap self.new)
            ≡ step (tables_heap self.old) mutator (command.Move destination source) }
        ensures count { mutator_count self.new ≡ mutator_count self.old }
    {
        let value = self.register(mutator, source);
        self.set_register(mutator, destination, value);
        Reply::Done
    }

    /// Executes `DropReg`.
    pub fn drop_register(&mut self, mutator: u32, register: u32) -> Reply
        requires mutator { HasMutator self.old mutator }
        requires register { register ≤ MAX_REGISTER }
        ensures step { (result, tables_heap self.new)
            ≡ step (tables_heap self.old) mutator (command.DropReg register) }
        ensures count { mutator_count self.new ≡ mutator_count self.old }
    {
        self.set_register(mutator, register, None);
        Reply::Done
    }
}
