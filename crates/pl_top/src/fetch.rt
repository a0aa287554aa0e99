// The calls of a host that a command makes, each to its end.
ghost use Rattle.std.specs.Prelude.{◌≡◌, false, ◌<◌, ◌≤◌, ◌^◌, IfOk, OnOk, OnErr, length};
ghost use Rattle.std.specs.Io.KnownBytes.{Appends};
ghost use Rattle.pl_base.specs.Outside.{Counts, Puts, KeepsOthers};
ghost use Rattle.pl_top.specs.Telling.{Takes, Reads, AppendsPart, given_by, is_in, is_out};

use pl_base::{Host, HostError, HostFailed, Memory, TakeError};
use std::alloc::Global;

/// What stops a command: a failed take or read, a failed put or write, or want of memory.
#[derive(Clone, Copy, PartialEq, Eq, Debug)]
pub enum Fault {
    In,
    Out,
    Memory,
}

impl From<Memory> for Fault {
    ghost use Rattle.std.specs.Prelude.{◌≡◌};
    ghost use Rattle.pl_top.specs.declared.fetch.Fault.TheVariants.{Memory};

    ghost from_gives = { λ _ e. e ≡ Memory };

    fn from(_: Memory) -> Fault {
        Fault::Memory
    }
}

/// What a file or the input gave: its bytes, or that it has too many.
#[derive(Drop)]
pub enum Fetched {
    Bytes(Vec<u8>),
    TooLong,
}

/// Takes a file of at most `most` bytes.
pub fn take_file<H: Host>(host: &mut H, name: &str, most: u64) -> Result<Fetched, Fault>
    ensures takes { IfOk result (λ f. Takes (H.files host.old) name.now most (given_by f)) }
    ensures in_faults { Counts (is_in result) (H.in_faults host.old) (H.in_faults host.new) }
    ensures out_faults { Counts (is_out result) (H.out_faults host.old) (H.out_faults host.new) }
    ensures same { (H.files host.new ≡ H.files host.old) × (H.input host.new ≡ H.input host.old) × (H.out host.new ≡ H.out host.old) }
{
    match host.take(name, most) {
        Ok(bytes) => Ok(Fetched::Bytes(bytes)),
        Err(TakeError::TooLong) => Ok(Fetched::TooLong),
        Err(TakeError::Failed) => Err(Fault::In),
        Err(TakeError::Memory) => Err(Fault::Memory),
    }
}

/// Reads the input to its end, or until it has given more than `most` bytes.
pub fn read_input<H: Host>(alloc: Global, host: &mut H, most: usize) -> Result<Fetched, Fault>
    requires { most < 2 ^ 32 }
    ensures reads { IfOk result (λ f. Reads (H.input host.old) (H.input host.new) most (given_by f)) }
    ensures in_faults { Counts (is_in result) (H.in_faults host.old) (H.in_faults host.new) }
    ensures out_faults { Counts (is_out result) (H.out_faults host.old) (H.out_faults host.new) }
    ensures same { (H.files host.new ≡ H.files host.old) × (H.out host.new ≡ H.out host.old) }
{
    let mut all = Vec::new(alloc);
    let mut buf = [0u8; 4096];
    'pieces: while all.len() <= most {
        let count = match host.read_in(&mut buf) {
            Ok(count) => count,
            Err(HostFailed) => return Err(Fault::In),
        };
        if count == 0 {
            return Ok(Fetched::Bytes(all));
        }
        if all.extend_from_slice(&buf[..count]).is_err() {
            return Err(Fault::Memory);
        }
    }
    Ok(Fetched::TooLong)
}

/// Puts a file. Where that fails it may hold anything.
pub fn put_file<H: Host>(host: &mut H, name: &str, bytes: &[u8]) -> Result<(), Fault>
    ensures puts { OnOk result (Puts (H.files host.old) (H.files host.new) name.now bytes.now) }
    ensures others { OnErr result (KeepsOthers (H.files host.old) (H.files host.new) name.now) }
    ensures outward { is_in result ≡ false }
    ensures in_faults { Counts (is_in result) (H.in_faults host.old) (H.in_faults host.new) }
    ensures out_faults { Counts (is_out result) (H.out_faults host.old) (H.out_faults host.new) }
    ensures same { (H.input host.new ≡ H.input host.old) × (H.out host.new ≡ H.out host.old) }
{
    match host.put(name, bytes) {
        Ok(()) => Ok(()),
        Err(HostError::Failed) => Err(Fault::Out),
        Err(HostError::Memory) => Err(Fault::Memory),
    }
}

/// Writes a text to its end. Where that fails, a beginning of it was written.
pub fn write_text<H: Host>(host: &mut H, text: &[u8]) -> Result<(), Fault>
    ensures whole { OnOk result (Appends (H.out host.old) (H.out host.new) text.now) }
    ensures part { OnErr result (AppendsPart (H.out host.old) (H.out host.new) text.now) }
    ensures outward { is_in result ≡ false }
    ensures in_faults { Counts (is_in result) (H.in_faults host.old) (H.in_faults host.new) }
    ensures out_faults { Counts (is_out result) (H.out_faults host.old) (H.out_faults host.new) }
    ensures same { (H.files host.new ≡ H.files host.old) × (H.input host.new ≡ H.input host.old) }
{
    let mut at = 0;
    'pieces: while at < text.len() {
        match host.write_out(&text[at..]) {
            Ok(count) => at += count,
            Err(HostError::Failed) => return Err(Fault::Out),
            Err(HostError::Memory) => return Err(Fault::Memory),
        }
    }
    Ok(())
}
