// Hosts in memory.
ghost use Rattle.std.specs.Prelude.{◌≡◌, Some, None, MatchOption, [], ◌+◌};
ghost use Rattle.pl_base.specs.Outside.{file_in, Counts};
ghost use Rattle.pl_base.specs.Kept.{told};

use crate::outside::{Host, HostError, HostFailed, TakeError};
use crate::pos::Memory;
use crate::store::{Fetched, HostFile, Store};
use std::alloc::{AllocError, Global};

/// A host in memory, which tells all that it holds. Its calls are counted from 0, over all four kinds, and those
/// with the listed numbers fail.
#[derive(Drop)]
pub struct MemoryHost {
    store: Store,
    fails: Vec<u32>,
    calls: u32,
    in_faults: u64,
    out_faults: u64,
}

impl MemoryHost {
    ghost use Rattle.pl_base.specs.Shown.{files_of, input_of, out_of};

    /// A host with these files and this input, and nothing written. It takes no memory.
    pub fn new(alloc: Global, files: Vec<HostFile>, input: Vec<u8>, fails: Vec<u32>) -> MemoryHost
        ensures files { files_of result ≡ told files.items }
        ensures input { input_of result ≡ input.items }
        ensures out { out_of result ≡ [] }
    {
        MemoryHost {
            store: Store::new(alloc, files, input),
            fails,
            calls: 0,
            in_faults: 0,
            out_faults: 0,
        }
    }

    /// The bytes of a file; `None` exactly where there is no file of that name.
    pub fn file(&self, name: &str) -> Option<&[u8]>
        ensures { MatchOption result (file_in name.now (files_of self.now) ≡ None) (λ b. file_in name.now (files_of self.now) ≡ Some b.now) }
    {
        self.store.file(name)
    }

    /// What was written.
    pub fn out(&self) -> &[u8]
        ensures { result.now ≡ out_of self.now }
    {
        self.store.out()
    }

    // Whether the next call is to fail.
    fn next_fails(&mut self) -> bool
        ensures { (self.new.store ≡ self.old.store) × (self.new.in_faults ≡ self.old.in_faults) × (self.new.out_faults ≡ self.old.out_faults) }
    {
        let number = self.calls;
        self.calls = number.saturating_add(1);
        self.fails.contains(&number)
    }

    // Whether this take or read is to fail; its fault is counted then.
    fn fails_in(&mut self) -> bool
        ensures counts { Counts result self.old.in_faults self.new.in_faults }
        ensures same { (self.new.store ≡ self.old.store) × (self.new.out_faults ≡ self.old.out_faults) }
    {
        let fails = self.next_fails();
        if fails {
            self.in_faults = self.in_faults.saturating_add(1);
        }
        fails
    }

    // Whether this put or write is to fail; its fault is counted then.
    fn fails_out(&mut self) -> bool
        ensures counts { Counts result self.old.out_faults self.new.out_faults }
        ensures same { (self.new.store ≡ self.old.store) × (self.new.in_faults ≡ self.old.in_faults) }
    {
        let fails = self.next_fails();
        if fails {
            self.out_faults = self.out_faults.saturating_add(1);
        }
        fails
    }
}

impl Host for MemoryHost {
    ghost use Rattle.pl_base.specs.Shown.{files_of, input_of, out_of};

    ghost files = { λ h. Some (files_of h) };

    ghost input = { λ h. Some (input_of h) };

    ghost out = { λ h. Some (out_of h) };

    ghost in_faults = { λ h. h.in_faults };

    ghost out_faults = { λ h. h.out_faults };

    fn take(&mut self, name: &str, most: u64) -> Result<Vec<u8>, TakeError> {
        if self.fails_in() {
            return Err(TakeError::Failed);
        }
        match self.store.fetch(name, most) {
            Ok(Fetched::Bytes(bytes)) => Ok(bytes),
            Ok(Fetched::TooLong) => Err(TakeError::TooLong),
            Ok(Fetched::Missing) => {
                self.in_faults = self.in_faults.saturating_add(1);
                Err(TakeError::Failed)
            }
            Err(AllocError) => Err(TakeError::Memory),
        }
    }

    fn put(&mut self, name: &str, bytes: &[u8]) -> Result<(), HostError> {
        if self.fails_out() {
            return Err(HostError::Failed);
        }
        match self.store.replace(name, bytes) {
            Ok(()) => Ok(()),
            Err(Memory) => Err(HostError::Memory),
        }
    }

    fn read_in(&mut self, buf: &mut [u8]) -> Result<usize, HostFailed> {
        if self.fails_in() {
            return Err(HostFailed);
        }
        Ok(self.store.read(buf))
    }

    fn write_out(&mut self, bytes: &[u8]) -> Result<usize, HostError> {
        if self.fails_out() {
            return Err(HostError::Failed);
        }
        match self.store.write(bytes) {
            Ok(()) => Ok(bytes.len()),
            Err(AllocError) => Err(HostError::Memory),
        }
    }
}

/// A host in memory that fails at nothing but the take of a missing file.
#[derive(Drop)]
pub struct SteadyHost {
    store: Store,
    in_faults: u64,
}

impl SteadyHost {
    ghost use Rattle.pl_base.specs.Shown.{steady_files, steady_input, steady_out};

    /// A host with these files and this input, and nothing written. It takes no memory.
    pub fn new(alloc: Global, files: Vec<HostFile>, input: Vec<u8>) -> SteadyHost
        ensures files { steady_files result ≡ told files.items }
        ensures input { steady_input result ≡ input.items }
        ensures out { steady_out result ≡ [] }
    {
        SteadyHost {
            store: Store::new(alloc, files, input),
            in_faults: 0,
        }
    }

    /// The bytes of a file; `None` exactly where there is no file of that name.
    pub fn file(&self, name: &str) -> Option<&[u8]>
        ensures { MatchOption result (file_in name.now (steady_files self.now) ≡ None) (λ b. file_in name.now (steady_files self.now) ≡ Some b.now) }
    {
        self.store.file(name)
    }

    /// What was written.
    pub fn out(&self) -> &[u8]
        ensures { result.now ≡ steady_out self.now }
    {
        self.store.out()
    }
}

impl Host for SteadyHost {
    ghost use Rattle.pl_base.specs.Shown.{steady_files, steady_input, steady_out};

    ghost files = { λ h. Some (steady_files h) };

    ghost input = { λ h. Some (steady_input h) };

    ghost out = { λ h. Some (steady_out h) };

    ghost in_faults = { λ h. h.in_faults };

    ghost out_faults = { λ h. 0 };

    fn take(&mut self, name: &str, most: u64) -> Result<Vec<u8>, TakeError> {
        match self.store.fetch(name, most) {
            Ok(Fetched::Bytes(bytes)) => Ok(bytes),
            Ok(Fetched::TooLong) => Err(TakeError::TooLong),
            Ok(Fetched::Missing) => {
                self.in_faults = self.in_faults.saturating_add(1);
                Err(TakeError::Failed)
            }
            Err(AllocError) => Err(TakeError::Memory),
        }
    }

    fn put(&mut self, name: &str, bytes: &[u8]) -> Result<(), HostError> {
        match self.store.replace(name, bytes) {
            Ok(()) => Ok(()),
            Err(Memory) => Err(HostError::Memory),
        }
    }

    fn read_in(&mut self, buf: &mut [u8]) -> Result<usize, HostFailed> {
        Ok(self.store.read(buf))
    }

    fn write_out(&mut self, bytes: &[u8]) -> Result<usize, HostError> {
        match self.store.write(bytes) {
            Ok(()) => Ok(bytes.len()),
            Err(AllocError) => Err(HostError::Memory),
        }
    }
}
