// What a host in memory holds.
ghost use Rattle.std.specs.Prelude.{◌≡◌, ◌<◌, ◌≤◌, ◌+◌, ◌∷◌, ◌++◌, [], ℕ, List, Some, None, MatchOption, length, take, drop, IfOk, OnOk, OnErr, position};
ghost use Rattle.std.specs.Str.{bytes_eq};
ghost use Rattle.pl_base.specs.Outside.{file_in, Puts};

use crate::items::Items;
use crate::name::Name;
use crate::pos::Memory;
use std::alloc::{AllocError, Global};

/// A file of a host in memory.
#[derive(Drop)]
pub struct HostFile {
    pub name: Name,
    pub bytes: Items<u8>,
}

/// Files, an input and an output in memory.
#[derive(Drop)]
pub struct Store {
    alloc: Global,
    files: Vec<HostFile>,
    input: Vec<u8>,
    read: usize,
    out: Vec<u8>,
    ghost within: { read ≤ length input.items },
}

/// What a look for a file found.
pub enum Fetched {
    Bytes(Vec<u8>),
    Missing,
    TooLong,
}

impl Store {
    ghost use Rattle.pl_base.specs.Kept.{told, left_of, IsFetched};

    pub fn new(alloc: Global, files: Vec<HostFile>, input: Vec<u8>) -> Store
        ensures files { told result.files.items ≡ told files.items }
        ensures input { left_of result ≡ input.items }
        ensures out { result.out.items ≡ [] }
    {
        Store {
            alloc,
            files,
            input,
            read: 0,
            out: Vec::new(alloc),
        }
    }

    /// A copy of a file's bytes, unless there are more than `most`.
    pub fn fetch(&self, name: &str, most: u64) -> Result<Fetched, AllocError>
        ensures { IfOk result (IsFetched (told self.now.files.items) name.now most) }
    {
        let Some(i) = place_of(self.files.as_slice(), name) else {
            return Ok(Fetched::Missing);
        };
        let bytes = self.files[i].bytes.as_slice();
        if bytes.len() as u64 > most {
            return Ok(Fetched::TooLong);
        }
        Ok(Fetched::Bytes(Vec::from_slice(self.alloc, bytes)?))
    }

    pub fn file(&self, name: &str) -> Option<&[u8]>
        ensures { MatchOption result (file_in name.now (told self.now.files.items) ≡ None) (λ b. file_in name.now (told self.now.files.items) ≡ Some b.now) }
    {
        match place_of(self.files.as_slice(), name) {
            Some(i) => Some(self.files[i].bytes.as_slice()),
            None => None,
        }
    }

    pub fn out(&self) -> &[u8]
        ensures { result.now ≡ self.now.out.items }
    {
        self.out.as_slice()
    }

    /// Puts a copy of the bytes in the place of the file of that name, or behind all files.
    pub fn replace(&mut self, name: &str, bytes: &[u8]) -> Result<(), Memory>
        ensures puts { OnOk result (Puts (Some (told self.old.files.items)) (Some (told self.new.files.items)) name.now bytes.now) }
        ensures err { OnErr result (told self.new.files.items ≡ told self.old.files.items) }
        ensures same { (left_of self.new ≡ left_of self.old) × (self.new.out ≡ self.old.out) }
    {
        let copy = Vec::from_slice(self.alloc, bytes)?;
        match place_of(self.files.as_slice(), name) {
            Some(i) => {
                self.files[i].bytes = Items::of(copy);
                Ok(())
            }
            None => {
                let name = Name::of(self.alloc, name)?;
                let bytes = Items::of(copy);
                self.files.push(HostFile { name, bytes })?;
                Ok(())
            }
        }
    }

    /// Moves bytes of the input to the front of the buffer, and tells how many.
    pub fn read(&mut self, buf: &mut [u8]) -> usize
        requires { 0 < length buf.old }
        ensures bound { result ≤ length buf.new }
        ensures bytes { left_of self.old ≡ take result buf.new ++ left_of self.new }
        ensures end { result ≡ 0 → left_of self.new ≡ [] }
        ensures same { (self.new.files ≡ self.old.files) × (self.new.out ≡ self.old.out) }
    {
        let rest = &self.input.as_slice()[self.read..];
        let count = rest.len().min(buf.len());
        let (front, _) = buf.split_at_mut(count);
        front.copy_from_slice(&rest[..count]);
        self.read += count;
        count
    }

    pub fn write(&mut self, bytes: &[u8]) -> Result<(), AllocError>
        ensures ok { OnOk result (self.new.out.items ≡ self.old.out.items ++ bytes.now) }
        ensures err { OnErr result (self.new.out.items ≡ self.old.out.items) }
        ensures same { (self.new.files ≡ self.old.files) × (left_of self.new ≡ left_of self.old) }
    {
        self.out.extend_from_slice(bytes)
    }
}

// The place of the file of that name.
fn place_of(files: &[HostFile], name: &str) -> Option<usize>
    ensures { result ≡ position (λ f. bytes_eq f.name name.now) files.now }
{
    files.iter().position(|f| f.name.text() == name)
}
