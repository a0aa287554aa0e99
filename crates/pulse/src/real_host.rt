// Real files, standard input and standard output. What they hold is not told.
ghost use Rattle.std.specs.Prelude.{◌≡◌, ◌≤◌, None, IfOk, vec_len};

use pl_base::{Host, HostError, HostFailed, TakeError};
use std::alloc::Global;
use std::io::{Read, Write};
use std::rt::Files;
use std::{fs, io};

/// The outside of the program as it runs, with its counts of faults.
#[derive(Drop)]
pub struct RealHost<'a, R> {
    rt: &'a R,
    alloc: Global,
    in_faults: u64,
    out_faults: u64,
}

impl<'a, R: Files + Input + Print> RealHost<'a, R> {
    pub fn new(rt: &'a R, alloc: Global) -> RealHost<'a, R> {
        RealHost {
            rt,
            alloc,
            in_faults: 0,
            out_faults: 0,
        }
    }
}

// The bytes of a reader, unless there are more than `most`.
fn read_all<R: Read + Drop>(alloc: Global, mut reader: R, most: u64) -> Result<Vec<u8>, TakeError>
    ensures { IfOk result (λ v. vec_len v ≤ most) }
{
    let mut all = Vec::new(alloc);
    let mut buf = [0u8; 16384];
    'pieces: while all.len() as u64 <= most {
        let Ok(count) = reader.read(&mut buf) else {
            return Err(TakeError::Failed);
        };
        if count == 0 {
            return Ok(all);
        }
        if all.extend_from_slice(&buf[..count]).is_err() {
            return Err(TakeError::Memory);
        }
    }
    Err(TakeError::TooLong)
}

impl<'a, R: Files + Input + Print> Host for RealHost<'a, R> {
    ghost files = { λ h. None };

    ghost input = { λ h. None };

    ghost out = { λ h. None };

    ghost in_faults = { λ h. h.in_faults };

    ghost out_faults = { λ h. h.out_faults };

    fn take(&mut self, name: &str, most: u64) -> Result<Vec<u8>, TakeError> {
        let taken = match fs::open(self.rt, name) {
            Ok(file) => read_all(self.alloc, file, most),
            Err(_) => Err(TakeError::Failed),
        };
        match taken {
            Ok(bytes) => Ok(bytes),
            Err(TakeError::Failed) => {
                self.in_faults = self.in_faults.saturating_add(1);
                Err(TakeError::Failed)
            }
            Err(TakeError::TooLong) => Err(TakeError::TooLong),
            Err(TakeError::Memory) => Err(TakeError::Memory),
        }
    }

    fn put(&mut self, name: &str, bytes: &[u8]) -> Result<(), HostError> {
        match fs::write(self.rt, name, bytes) {
            Ok(()) => Ok(()),
            Err(_) => {
                self.out_faults = self.out_faults.saturating_add(1);
                Err(HostError::Failed)
            }
        }
    }

    fn read_in(&mut self, buf: &mut [u8]) -> Result<usize, HostFailed> {
        match self.rt.reader().read(buf) {
            Ok(count) => Ok(count),
            Err(_) => {
                self.in_faults = self.in_faults.saturating_add(1);
                Err(HostFailed)
            }
        }
    }

    // A write that takes nothing is a fault: going on could last for ever.
    fn write_out(&mut self, bytes: &[u8]) -> Result<usize, HostError> {
        match io::writer(self.rt).write(bytes) {
            Ok(count) if count > 0 => Ok(count),
            _ => {
                self.out_faults = self.out_faults.saturating_add(1);
                Err(HostError::Failed)
            }
        }
    }
}
