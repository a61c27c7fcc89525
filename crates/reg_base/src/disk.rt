//! Files of the system, which tell no bytes: the trusted edge.

ghost use Rattle.std.specs.Prelude.{◌≡◌, ◌≤◌, None, IfErr, IfOk, MatchResult, length};
ghost use Rattle.reg_base.specs.Files.{IsFileFault, faults_after};
ghost use Rattle.reg_base.specs.Streams.{failed_files};

use crate::bytes::Bytes;
use crate::errors::FileFault;
use crate::files::Files;
use crate::read_all::read_to_end;
use crate::streams::StdSource;
use std::alloc::Global;
use std::{fs, rt};

/// The files of the system, by their paths.
#[derive(Drop)]
pub struct DiskFiles<R> {
    system: R,
    faults: u64,
}

impl<R: rt::Files> DiskFiles<R> {
    pub fn new(system: R) -> DiskFiles<R>
        ensures { failed_files result ≡ 0 }
    {
        DiskFiles { system, faults: 0 }
    }
}

impl<R: rt::Files> Files for DiskFiles<R> {
    ghost holds = { λ _ _. None };

    ghost count = { λ s. failed_files s };

    fn read_file(&mut self, alloc: Global, name: &str, most: u64) -> Result<Bytes, FileFault>
        ensures within { IfOk result (λ bytes. length bytes ≤ most) }
        ensures cause { IfErr result (IsFileFault most None (failed_files self.old) (failed_files self.new)) }
        ensures later { failed_files self.old ≤ failed_files self.new }
        ensures faults { MatchResult result
            (λ _. failed_files self.new ≡ failed_files self.old)
            (λ fault. failed_files self.new ≡ faults_after fault (failed_files self.old)) }
    {
        let read = match fs::open(&self.system, name) {
            Ok(file) => read_to_end(alloc, &mut StdSource::new(file), most as usize),
            Err(_error) => Err(FileFault::Failed),
        };
        if let Err(FileFault::Failed) = read {
            self.faults = self.faults.saturating_add(1);
        }
        read
    }

    fn faults(&self) -> u64 {
        self.faults
    }
}
