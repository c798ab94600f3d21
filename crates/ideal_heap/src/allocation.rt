//! Allocation of tables and objects.

use crate::command::{GLOBALS, REGISTERS};
use crate::name::Name;
use crate::tables::{Mutator, Object, Tables};
use std::alloc::{AllocError, Global};

impl Object {
    ghost use Rattle.std.specs.Prelude.{◌≡◌, IfOk, false};
    ghost use Rattle.ideal_heap.specs.Tables.{record_in};
    ghost use Rattle.ideal_heap.specs.Ideal.{born};

    /// An object of `refs` references, all nil, and `nums` numbers, all 0, which is not pinned.
    /// Fails if out of memory.
    pub fn new(alloc: Global, refs: u32, nums: u32) -> Result<Object, AllocError>
        ensures { IfOk result (λ x. (record_in x ≡ born refs nums) × (x.pinned ≡ false)) }
    {
        let refs = vec![in alloc; None; refs as usize]?;
        let nums = vec![in alloc; 0; nums as usize]?;
        Ok(Object {
            refs,
            nums,
            pinned: false,
        })
    }
}

impl Tables {
    ghost use Rattle.std.specs.Prelude.{◌≡◌, ◌<◌, ◌≤◌, ◌+◌, IfOk, MatchResult, false};
    ghost use Rattle.ideal_heap.specs.Tables.{tables_heap, HasMutator, mutator_count, record_in};
    ghost use Rattle.ideal_heap.specs.Names.{name};
    ghost use Rattle.ideal_heap.specs.declared.command.TheConstants.{MAX_REGISTER};
    ghost use Rattle.ideal_heap.specs.Ideal.{empty, with_new, with_object};

    /// Tables of `mutators` mutators without objects, all registers and globals nil.
    /// Fails if out of memory.
    pub fn new(alloc: Global, mutators: u32) -> Result<Tables, AllocError>
        ensures { IfOk result (λ t. (tables_heap t ≡ empty) × (mutator_count t ≡ mutators)) }
    {
        let mut all = Vec::with_capacity(alloc, mutators as usize)?;
        for _ in 0..mutators {
            let fresh = Mutator {
                registers: [None; REGISTERS],
                objects: Vec::new(alloc),
            };
            all.push(fresh)?;
        }
        Ok(Tables {
            mutators: all,
            globals: [None; GLOBALS],
        })
    }

    /// The number of objects that the mutator has allocated.
    pub fn births(&self, mutator: u32) -> u32
        requires { HasMutator self.now mutator }
        ensures { result ≡ (tables_heap self.now).births mutator }
    {
        self.mutators[mutator as usize - 1].objects.len() as u32
    }

    /// Adds the object as the mutator's next one. If out of memory, changes nothing.
    fn store(&mut self, mutator: u32, object: Object) -> Result<(), AllocError>
        requires mutator { HasMutator self.old mutator }
        requires room { (tables_heap self.old).births mutator < 4294967295 }
        requires unpinned { object.pinned ≡ false }
        ensures heap { MatchResult result (λ _. tables_heap self.new
            ≡ with_object (tables_heap self.old) mutator (record_in object))
            (λ _. tables_heap self.new ≡ tables_heap self.old) }
        ensures count { mutator_count self.new ≡ mutator_count self.old }
    {
        self.mutators[mutator as usize - 1].objects.push(object)?;
        Ok(())
    }

    /// Allocates the mutator's next object, sets register `destination` to its name, and returns
    /// the name. If out of memory, changes nothing.
    pub fn create(
        &mut self,
        alloc: Global,
        mutator: u32,
        destination: u32,
        refs: u32,
        nums: u32,
    ) -> Result<Name, AllocError>
        requires mutator { HasMutator self.old mutator }
        requires register { destination ≤ MAX_REGISTER }
        requires room { (tables_heap self.old).births mutator < 4294967295 }
        ensures heap { MatchResult result (λ n.
            (n ≡ name mutator ((tables_heap self.old).births mutator + 1))
            × (tables_heap self.new
            ≡ with_new (tables_heap self.old) mutator destination refs nums))
            (λ _. tables_heap self.new ≡ tables_heap self.old) }
        ensures count { mutator_count self.new ≡ mutator_count self.old }
    {
        let object = Object::new(alloc, refs, nums)?;
        self.store(mutator, object)?;
        let made = Name {
            mutator,
            birth: self.births(mutator),
        };
        self.set_register(mutator, destination, Some(made));
        Ok(made)
    }
}
