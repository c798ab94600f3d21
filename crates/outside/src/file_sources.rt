//! Files of the file system, as sources.

ghost use Rattle.std.specs.Prelude.{◌≡◌, ◌⊎◌, ◌+◌, ◌≤◌, [], length, min, if◌then◌else◌, None, Some, Ok, IfOk, IfSome, IsErr, IsErrOf, is_err};
ghost use Rattle.outside.specs.Outside.{LAST, HasRisen, Opens, asked_after, MovesBytes};
ghost use Rattle.outside.specs.AskedNames.{names_in};
ghost use Rattle.outside.specs.Real.{left_of_file};

use crate::answers::{open_fault, read_once};
use crate::names::ask;
use crate::traits::{Failed, OpenFault, Sources, raise};
use std::alloc::Global;
use std::fs;
use std::rt::Files;

/// Files of the file system. The bytes left of the open file are known to the contract if those of
/// `R::File` are; those of a real file are not.
#[derive(Drop)]
pub struct FileSources<'a, R: Files> {
    rt: &'a R,
    file: Option<R::File>,
    count: u64,
    asked: Vec<(String, u64)>,
}

impl<'a, R: Files> FileSources<'a, R> {
    /// Sources with no open file. `alloc` allocates the names that are asked for.
    pub fn new(rt: &'a R, alloc: Global) -> FileSources<'a, R>
        ensures closed { result.file ≡ None }
        ensures faults { result.count ≡ 0 }
        ensures asked { names_in result.asked.items ≡ [] }
    {
        FileSources {
            rt,
            file: None,
            count: 0,
            asked: Vec::new(alloc),
        }
    }
}

impl<R: Files> Sources for FileSources<'_, R> {
    // If no file is open, no bytes are left.
    ghost state = { λ s. record {
      content = λ _. None;
      left = left_of_file R.File.Read.remaining s.file;
      asked = names_in s.asked.items;
      faults = s.count;
    } };

    fn open_file(&mut self, name: &str) -> Result<(), OpenFault>
        ensures opened { Opens result None (left_of_file R.File.Read.remaining self.new.file) }
        ensures asked { names_in self.new.asked.items
            ≡ asked_after result name.now self.old.count (names_in self.old.asked.items) }
        ensures cause { IsErrOf result OpenFault.Failed → HasRisen self.old.count self.new.count }
        ensures counted { IsErrOf result OpenFault.Failed
            → self.new.count ≡ min (self.old.count + 1) LAST }
        ensures uncounted { IsErrOf result OpenFault.Failed
            ⊎ (self.new.count ≡ self.old.count) }
        ensures later { self.old.count ≤ self.new.count }
    {
        self.file = None;
        ask(&mut self.asked, name, self.count)?;
        match fs::open(self.rt, name) {
            Ok(file) => {
                self.file = Some(file);
                Ok(())
            }
            Err(error) => {
                let fault = open_fault(&error);
                match fault {
                    OpenFault::Failed => raise(&mut self.count),
                    OpenFault::OutOfMemory => {
                        self.asked.pop();
                    }
                }
                Err(fault)
            }
        }
    }

    fn read(&mut self, buf: &mut [u8]) -> Result<usize, Failed>
        ensures most { IfOk result (λ n. n ≤ length buf.old) }
        ensures moved { IfOk result (λ n. IfSome (left_of_file R.File.Read.remaining self.old.file)
            (λ bytes. MovesBytes n bytes buf.new
            (left_of_file R.File.Read.remaining self.new.file))) }
        ensures closed { self.old.file ≡ None → result ≡ Ok 0 }
        ensures cause { IsErr result → HasRisen self.old.count self.new.count }
        ensures count { self.new.count ≡ (if is_err result then min
            (self.old.count + 1) LAST else self.old.count) }
        ensures later { self.old.count ≤ self.new.count }
        ensures asked { self.new.asked ≡ self.old.asked }
    {
        let Some(file) = &mut self.file else {
            return Ok(0);
        };
        let moved = read_once(file, buf);
        if moved.is_err() {
            raise(&mut self.count);
        }
        moved
    }
}
