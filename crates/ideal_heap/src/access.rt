//! Reading and writing registers, globals, objects and pins.

use crate::name::Name;
use crate::tables::Tables;

impl Tables {
    ghost use Rattle.std.specs.Prelude.{◌≡◌, ◌<◌, ◌≤◌, map, length};
    ghost use Rattle.ideal_heap.specs.Tables.{tables_heap, HasMutator, mutator_count};
    ghost use Rattle.ideal_heap.specs.declared.command.TheConstants.{MAX_REGISTER, MAX_GLOBAL};
    ghost use Rattle.ideal_heap.specs.Ideal.{HasRecord, record_of, field_of, put_field, put_number, set_register, set_global, set_record, set_pinned};

    /// The name in the register of the mutator, or `None` if it is nil.
    pub fn register(&self, mutator: u32, register: u32) -> Option<Name>
        requires mutator { HasMutator self.now mutator }
        requires register { register ≤ MAX_REGISTER }
        ensures { result ≡ (tables_heap self.now).registers mutator register }
    {
        self.mutators[mutator as usize - 1].registers[register as usize]
    }

    /// Sets the register of the mutator to `value`.
    pub fn set_register(&mut self, mutator: u32, register: u32, value: Option<Name>)
        requires mutator { HasMutator self.old mutator }
        requires register { register ≤ MAX_REGISTER }
        ensures heap { tables_heap self.new
            ≡ set_register (tables_heap self.old) mutator register value }
        ensures count { mutator_count self.new ≡ mutator_count self.old }
    {
        self.mutators[mutator as usize - 1].registers[register as usize] = value;
    }

    /// The name in the global, or `None` if it is nil.
    pub fn global(&self, global: u32) -> Option<Name>
        requires { global ≤ MAX_GLOBAL }
        ensures { result ≡ (tables_heap self.now).globals global }
    {
        self.globals[global as usize]
    }

    /// Sets the global to `value`.
    pub fn set_global(&mut self, global: u32, value: Option<Name>)
        requires { global ≤ MAX_GLOBAL }
        ensures heap { tables_heap self.new ≡ set_global (tables_heap self.old) global value }
        ensures count { mutator_count self.new ≡ mutator_count self.old }
    {
        self.globals[global as usize] = value;
    }

    /// The references of object `name`, none if there is no such object.
    pub fn refs(&self, name: Name) -> &[Option<Name>]
        ensures { map field_of result.now ≡ (record_of (tables_heap self.now) name).refs }
    {
        if name.mutator == 0 || name.birth == 0 {
            return &[];
        }
        let Some(mutator) = self.mutators.get(name.mutator as usize - 1) else {
            return &[];
        };
        match mutator.objects.get(name.birth as usize - 1) {
            Some(object) => &object.refs,
            None => &[],
        }
    }

    /// The numbers of object `name`, none if there is no such object.
    pub fn nums(&self, name: Name) -> &[u64]
        ensures { result.now ≡ (record_of (tables_heap self.now) name).nums }
    {
        if name.mutator == 0 || name.birth == 0 {
            return &[];
        }
        let Some(mutator) = self.mutators.get(name.mutator as usize - 1) else {
            return &[];
        };
        match mutator.objects.get(name.birth as usize - 1) {
            Some(object) => &object.nums,
            None => &[],
        }
    }

    /// Sets reference `index` of object `name` to `value`.
    pub fn set_field(&mut self, name: Name, index: u32, value: Option<Name>)
        requires { index < length (record_of (tables_heap self.old) name).refs }
        ensures heap { tables_heap self.new ≡ set_record (tables_heap self.old) name (put_field
            (record_of (tables_heap self.old) name) index (field_of value)) }
        ensures count { mutator_count self.new ≡ mutator_count self.old }
    {
        self.mutators[name.mutator as usize - 1].objects[name.birth as usize
            - 1].refs[index as usize] = value;
    }

    /// Sets number `index` of object `name` to `number`.
    pub fn set_number(&mut self, name: Name, index: u32, number: u64)
        requires { index < length (record_of (tables_heap self.old) name).nums }
        ensures heap { tables_heap self.new ≡ set_record (tables_heap self.old) name (put_number
            (record_of (tables_heap self.old) name) index number) }
        ensures count { mutator_count self.new ≡ mutator_count self.old }
    {
        self.mutators[name.mutator as usize - 1].objects[name.birth as usize
            - 1].nums[index as usize] = number;
    }

    /// Whether object `name` is pinned.
    pub fn is_pinned(&self, name: Name) -> bool
        requires { HasRecord (tables_heap self.now) name }
        ensures { result ≡ (tables_heap self.now).pinned name }
    {
        self.mutators[name.mutator as usize - 1].objects[name.birth as usize - 1].pinned
    }

    /// Makes object `name` pinned or not pinned.
    pub fn set_pinned(&mut self, name: Name, pinned: bool)
        requires { HasRecord (tables_heap self.old) name }
        ensures heap { tables_heap self.new ≡ set_pinned (tables_heap self.old) name pinned }
        ensures count { mutator_count self.new ≡ mutator_count self.old }
    {
        self.mutators[name.mutator as usize - 1].objects[name.birth as usize - 1].pinned = pinned;
    }
}
