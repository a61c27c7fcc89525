//! One file in memory, by its name; and one that fails at listed calls, to try what a caller does
//! then.

ghost use Rattle.std.specs.Prelude.{◌≡◌, ◌≤◌, IfErr, IfOk, MatchResult, length};
ghost use Rattle.reg_base.specs.Causes.{counted};
ghost use Rattle.reg_base.specs.Files.{AreAll, IsFaultAt, IsFileFault, IsReadAt, IsReadOf, IsStoreFault, faults_after, held_by};

use crate::bytes::Bytes;
use crate::errors::FileFault;
use crate::failing::CallPlan;
use crate::files::Files;
use reg_lists::OutOfMemory;
use std::alloc::Global;
use std::marker::Model;

/// A file in memory.
#[derive(Debug, Drop)]
struct StoredFile {
    name: String,
    bytes: Bytes,
}

impl Model for StoredFile {
    ghost use Rattle.std.specs.Prelude.{string_bytes};
    ghost use Rattle.reg_base.specs.Files.{NamedFile};

    ghost Value = { NamedFile };

    ghost view = { λ f. record { name = string_bytes f.name; bytes = f.bytes } };
}

impl StoredFile {
    fn new(alloc: Global, name: &str, bytes: Bytes) -> Result<StoredFile, OutOfMemory>
        ensures name { IfOk result (λ f. f.name ≡ name.now) }
        ensures bytes { IfOk result (λ f. f.bytes ≡ bytes) }
    {
        Ok(StoredFile {
            name: String::from_str(alloc, name)?,
            bytes,
        })
    }

    /// A copy of its bytes, or the first of the faults that applies.
    fn read(&self, alloc: Global, name: &str, most: u64) -> Result<Bytes, FileFault>
        ensures { MatchResult result (IsReadOf self.now name.now most) (IsStoreFault self.now name.now most) }
    {
        if self.name.as_str() != name {
            return Err(FileFault::Failed);
        }
        if self.bytes.len() as u64 > most {
            return Err(FileFault::TooLong);
        }
        let mut copy = Bytes::new(alloc);
        match copy.append(self.bytes.as_slice()) {
            Ok(()) => Ok(copy),
            Err(OutOfMemory) => Err(FileFault::OutOfMemory),
        }
    }
}

/// One file in memory. Its count of faults is 0 while its own name is asked.
#[derive(Debug, Drop)]
pub struct MemFiles {
    file: StoredFile,
    faults: u64,
}

impl Model for MemFiles {
    ghost use Rattle.reg_base.specs.Files.{FileStore};

    ghost Value = { FileStore };

    ghost view = { λ s. record { file = s.file; faults = s.faults } };
}

impl MemFiles {
    /// The one file of that name has these bytes.
    pub fn new(alloc: Global, name: &str, bytes: Bytes) -> Result<MemFiles, OutOfMemory>
        ensures name { IfOk result (λ s. s.file.name ≡ name.now) }
        ensures bytes { IfOk result (λ s. s.file.bytes ≡ bytes) }
        ensures faults { IfOk result (λ s. s.faults ≡ 0) }
    {
        Ok(MemFiles {
            file: StoredFile::new(alloc, name, bytes)?,
            faults: 0,
        })
    }
}

impl Files for MemFiles {
    ghost holds = { λ s name. held_by s.file name };

    ghost count = { λ s. s.faults };

    fn read_file(&mut self, alloc: Global, name: &str, most: u64) -> Result<Bytes, FileFault>
        ensures all { IfOk result (AreAll (held_by self.old.file name.now)) }
        ensures within { IfOk result (λ bytes. length bytes ≤ most) }
        ensures cause { IfErr result (IsFileFault most (held_by self.old.file name.now) self.old.faults self.new.faults) }
        ensures later { self.old.faults ≤ self.new.faults }
        ensures read { MatchResult result (IsReadOf self.old.file name.now most) (IsStoreFault self.old.file name.now most) }
        ensures faults { MatchResult result (λ _. self.new.faults ≡ self.old.faults) (λ fault. self.new.faults ≡ faults_after fault self.old.faults) }
        ensures kept { self.new.file ≡ self.old.file }
    {
        let read = self.file.read(alloc, name, most);
        if let Err(FileFault::Failed) = read {
            self.faults = self.faults.saturating_add(1);
        }
        read
    }

    fn faults(&self) -> u64 {
        self.faults
    }
}

/// One file in memory, whose reading fails at listed calls too.
#[derive(Debug, Drop)]
pub struct FailingFiles {
    file: StoredFile,
    plan: CallPlan,
}

impl Model for FailingFiles {
    ghost use Rattle.reg_base.specs.Files.{FailingFileStore};

    ghost Value = { FailingFileStore };

    ghost view = { λ s. record {
      file = s.file;
      failing = s.plan.failing.items;
      calls = s.plan.calls;
      faults = s.plan.faults;
    } };
}

impl FailingFiles {
    /// The one file of that name has these bytes. Reading fails at the calls listed by their numbers,
    /// counted from 1.
    pub fn new(
        alloc: Global,
        name: &str,
        bytes: Bytes,
        calls: &[u64],
    ) -> Result<FailingFiles, OutOfMemory>
        ensures name { IfOk result (λ s. s.file.name ≡ name.now) }
        ensures bytes { IfOk result (λ s. s.file.bytes ≡ bytes) }
        ensures failing { IfOk result (λ s. s.failing ≡ calls.now) }
        ensures calls { IfOk result (λ s. s.calls ≡ 0) }
        ensures faults { IfOk result (λ s. s.faults ≡ 0) }
    {
        Ok(FailingFiles {
            file: StoredFile::new(alloc, name, bytes)?,
            plan: CallPlan::new(alloc, calls)?,
        })
    }
}

impl Files for FailingFiles {
    ghost holds = { λ s name. held_by s.file name };

    ghost count = { λ s. s.faults };

    fn read_file(&mut self, alloc: Global, name: &str, most: u64) -> Result<Bytes, FileFault>
        ensures all { IfOk result (AreAll (held_by self.old.file name.now)) }
        ensures within { IfOk result (λ bytes. length bytes ≤ most) }
        ensures cause { IfErr result (IsFileFault most (held_by self.old.file name.now) self.old.faults self.new.faults) }
        ensures later { self.old.faults ≤ self.new.faults }
        ensures read { MatchResult result (IsReadAt (counted self.old.calls) self.old name.now most) (IsFaultAt (counted self.old.calls) self.old name.now most) }
        ensures faults { MatchResult result (λ _. self.new.faults ≡ self.old.faults) (λ fault. self.new.faults ≡ faults_after fault self.old.faults) }
        ensures kept { self.new.file ≡ self.old.file }
        ensures failing { self.new.failing ≡ self.old.failing }
        ensures calls { self.new.calls ≡ counted self.old.calls }
    {
        let read = if self.plan.fails_next() {
            Err(FileFault::Failed)
        } else {
            self.file.read(alloc, name, most)
        };
        if let Err(FileFault::Failed) = read {
            self.plan.count_fault();
        }
        read
    }

    fn faults(&self) -> u64 {
        self.plan.faults
    }
}
