//! Files in memory, as sources.

ghost use Rattle.std.specs.Prelude.{◌≡◌, ◌+◌, ◌≤◌, ℕ, ◌&&◌, if◌then◌else◌, [], length, map, min, Option, Some, None, Ok, true, false, IfOk, OnErr, OnOk, IsErr, IsErrOf, IsTrue, ◌⊎◌, is_ok, is_err};
ghost use Rattle.outside.specs.Outside.{LAST, HasRisen, Opens, asked_after, MovesBytes};
ghost use Rattle.outside.specs.Files.{file_of, content_in};
ghost use Rattle.outside.specs.Calls.{is_listed, next_call};

use crate::files::Shelf;
use crate::names::ask;
use crate::traits::{Failed, OpenFault, Sources, raise};

/// Files in memory, with calls that fail by number. A read with no open file never fails. If memory
/// for the name runs out, `open_file` returns that error first.
#[derive(Drop)]
pub struct MemSources {
    shelf: Shelf,
    fails: Vec<u64>,
    calls: u64,
    count: u64,
    asked: Vec<(String, u64)>,
}

impl MemSources {
    ghost use Rattle.outside.specs.Memory.{files_of, left_of, asked_of, is_open, faults_of, calls_of, fails_of};

    /// Sources with these names and contents. Of two files with one name, the first is used. A call
    /// fails if `fails` has its number. The numbers count calls of `open_file` and `read` together,
    /// from 1. The allocator of `files` allocates the names that are asked for.
    pub fn new(files: Vec<(String, Vec<u8>)>, fails: Vec<u64>) -> MemSources
        ensures files { files_of result ≡ map file_of files.items }
        ensures left { left_of result ≡ [] }
        ensures closed { is_open result ≡ false }
        ensures asked { asked_of result ≡ [] }
        ensures faults { faults_of result ≡ 0 }
        ensures calls { calls_of result ≡ 0 }
        ensures fails { fails_of result ≡ fails.items }
    {
        let asked = Vec::new(*files.allocator());
        MemSources {
            shelf: Shelf::new(files),
            fails,
            calls: 0,
            count: 0,
            asked,
        }
    }

    // Counts this call, and returns whether `fails` has its number.
    fn is_to_fail(&mut self) -> bool
        ensures listed { result ≡ is_listed (fails_of self.old) (next_call (calls_of self.old)) }
        ensures calls { calls_of self.new ≡ next_call (calls_of self.old) }
        ensures shelf { self.new.shelf ≡ self.old.shelf }
        ensures asked { self.new.asked ≡ self.old.asked }
        ensures count { self.new.count ≡ self.old.count }
        ensures fails { fails_of self.new ≡ fails_of self.old }
    {
        self.calls = self.calls.saturating_add(1);
        self.fails.contains(&self.calls)
    }
}

impl Sources for MemSources {
    ghost use Rattle.outside.specs.Memory.{sources_state, files_of, left_of, asked_of, is_open, faults_of, calls_of, fails_of};

    ghost state = { λ s. sources_state s };

    fn open_file(&mut self, name: &str) -> Result<(), OpenFault>
        ensures opened { Opens result (content_in (files_of self.old) name.now)
            (Some (left_of self.new)) }
        ensures open { is_open self.new ≡ is_ok result }
        ensures asked { asked_of self.new
            ≡ asked_after result name.now (faults_of self.old) (asked_of self.old) }
        ensures cause { IsErrOf result OpenFault.Failed
            → HasRisen (faults_of self.old) (faults_of self.new) }
        ensures counted { IsErrOf result OpenFault.Failed
            → faults_of self.new ≡ min (faults_of self.old + 1) LAST }
        ensures uncounted { IsErrOf result OpenFault.Failed
            ⊎ (faults_of self.new ≡ faults_of self.old) }
        ensures fails { IsErrOf result OpenFault.Failed
            → IsTrue (is_listed (fails_of self.old) (calls_of self.new))
            ⊎ (content_in (files_of self.old) name.now ≡ None) }
        ensures listed { IsTrue (is_listed (fails_of self.old) (calls_of self.new))
            → IsErr result }
        ensures later { faults_of self.old ≤ faults_of self.new }
        ensures calls { calls_of self.new ≡ next_call (calls_of self.old) }
        ensures same { files_of self.new ≡ files_of self.old }
        ensures same_fails { fails_of self.new ≡ fails_of self.old }
    {
        let is_to_fail = self.is_to_fail();
        self.shelf.close();
        ask(&mut self.asked, name, self.count)?;
        if is_to_fail || !self.shelf.open(name) {
            raise(&mut self.count);
            return Err(OpenFault::Failed);
        }
        Ok(())
    }

    fn read(&mut self, buf: &mut [u8]) -> Result<usize, Failed>
        ensures most { IfOk result (λ n. n ≡ min (length buf.old) (length (left_of self.old))) }
        ensures moved { IfOk result (λ n. MovesBytes n (left_of self.old) buf.new
            (Some (left_of self.new))) }
        ensures closed { is_open self.old ≡ false → result ≡ Ok 0 }
        ensures open { is_open self.new ≡ is_open self.old }
        ensures failed { OnErr result (left_of self.new ≡ left_of self.old) }
        ensures fails { is_err result ≡ (is_open self.old
            && is_listed (fails_of self.old) (calls_of self.new)) }
        ensures cause { IsErr result → HasRisen (faults_of self.old) (faults_of self.new) }
        ensures count { faults_of self.new ≡ (if is_err result then min
            (faults_of self.old + 1) LAST else faults_of self.old) }
        ensures later { faults_of self.old ≤ faults_of self.new }
        ensures calls { calls_of self.new ≡ next_call (calls_of self.old) }
        ensures asked { asked_of self.new ≡ asked_of self.old }
        ensures same { files_of self.new ≡ files_of self.old }
        ensures same_fails { fails_of self.new ≡ fails_of self.old }
    {
        let is_to_fail = self.is_to_fail();
        if self.shelf.is_open() && is_to_fail {
            raise(&mut self.count);
            return Err(Failed);
        }
        Ok(self.shelf.read_next(buf))
    }
}

/// Files in memory, without faults: a call fails only if memory for a name runs out. Every other
/// name has an empty content.
#[derive(Drop)]
pub struct SureSources {
    shelf: Shelf,
    asked: Vec<(String, u64)>,
}

impl SureSources {
    ghost use Rattle.outside.specs.Sure.{files_of, left_of, asked_of};

    /// Sources with these names and contents. Of two files with one name, the first is used. The
    /// allocator of `files` allocates the names that are asked for.
    pub fn new(files: Vec<(String, Vec<u8>)>) -> SureSources
        ensures files { files_of result ≡ map file_of files.items }
        ensures left { left_of result ≡ [] }
        ensures asked { asked_of result ≡ [] }
    {
        let asked = Vec::new(*files.allocator());
        SureSources {
            shelf: Shelf::new(files),
            asked,
        }
    }
}

impl Sources for SureSources {
    ghost use Rattle.outside.specs.Sure.{sources_state};

    ghost state = { λ s. sources_state s };

    fn open_file(&mut self, name: &str) -> Result<(), OpenFault> {
        self.shelf.close();
        ask(&mut self.asked, name, 0)?;
        self.shelf.open(name);
        Ok(())
    }

    fn read(&mut self, buf: &mut [u8]) -> Result<usize, Failed> {
        Ok(self.shelf.read_next(buf))
    }
}
