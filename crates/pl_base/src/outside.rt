// The outside of the program: a host's files, input and output, and the gate of its workers.
ghost use Rattle.std.specs.Prelude.{◌≡◌, ◌<◌, ◌≤◌, List, ℕ, Option, length, take, IfOk, OnOk, OnErr, IsErrOf, is_err};
ghost use Rattle.std.specs.Io.KnownBytes.{Appends, Consumes, IsAtEnd, Keeps, ReadConsumes};
ghost use Rattle.std.specs.Io.{ReadsAtMost};
ghost use Rattle.pl_base.specs.Outside.{Files, HasFile, HasLonger, Puts, KeepsOthers, Counts, take_failed, host_failed};

/// Why a file was not taken.
#[derive(Clone, Copy, PartialEq, Eq, Debug)]
pub enum TakeError {
    /// The call failed, and was counted. A missing file is a failed call.
    Failed,
    /// The file has more bytes than were asked for.
    TooLong,
    Memory,
}

/// A read of the input failed, and was counted.
#[derive(Clone, Copy, PartialEq, Eq, Debug)]
pub struct HostFailed;

/// Why a file was not put, or nothing was written.
#[derive(Clone, Copy, PartialEq, Eq, Debug)]
pub enum HostError {
    /// The call failed, and was counted.
    Failed,
    Memory,
}

/// The files, the input and the output that a program may use. A host tells what they hold, or tells nothing;
/// no call changes what it doesn't name. Its two counts of faults never fall, and stand still at 2^64 - 1.
pub trait Host {
    /// The files, where they are told.
    ghost files: { Self → Option Files };

    /// The bytes of the input that are left, where they are told.
    ghost input: { Self → Option (List ℕ) };

    /// The bytes that were written, where they are told.
    ghost out: { Self → Option (List ℕ) };

    /// How many calls of `take` and `read_in` failed.
    ghost in_faults: { Self → ℕ };

    /// How many calls of `put` and `write_out` failed.
    ghost out_faults: { Self → ℕ };

    /// The bytes of a file, at most `most` of them.
    fn take(&mut self, name: &str, most: u64) -> Result<Vec<u8>, TakeError>
        ensures bytes { IfOk result (λ v. HasFile (files self.old) name.now v.items) }
        ensures short { IfOk result (λ v. length v.items ≤ most) }
        ensures long { IsErrOf result TakeError.TooLong → HasLonger (files self.old) name.now most }
        ensures counts { Counts (take_failed result) (in_faults self.old) (in_faults self.new) }
        ensures same { (files self.new ≡ files self.old) × (input self.new ≡ input self.old) × (out self.new ≡ out self.old) × (out_faults self.new ≡ out_faults self.old) };

    /// Puts a file in the place of the one of that name. After `Failed` that file alone may hold anything,
    /// and `Memory` changed nothing.
    fn put(&mut self, name: &str, bytes: &[u8]) -> Result<(), HostError>
        ensures puts { OnOk result (Puts (files self.old) (files self.new) name.now bytes.now) }
        ensures others { OnErr result (KeepsOthers (files self.old) (files self.new) name.now) }
        ensures memory { IsErrOf result HostError.Memory → files self.new ≡ files self.old }
        ensures counts { Counts (host_failed result) (out_faults self.old) (out_faults self.new) }
        ensures same { (input self.new ≡ input self.old) × (out self.new ≡ out self.old) × (in_faults self.new ≡ in_faults self.old) };

    /// Moves bytes of the input to the front of the buffer, and tells how many. 0 is the end of the input.
    fn read_in(&mut self, buf: &mut [u8]) -> Result<usize, HostFailed>
        requires { 0 < length buf.old }
        ensures bound { ReadsAtMost result buf.new }
        ensures bytes { ReadConsumes (input self.old) (input self.new) result buf.new }
        ensures counts { Counts (is_err result) (in_faults self.old) (in_faults self.new) }
        ensures same { (files self.new ≡ files self.old) × (out self.new ≡ out self.old) × (out_faults self.new ≡ out_faults self.old) };

    /// Writes a beginning of the bytes, at least one of them, and tells how many. After an error nothing was written.
    fn write_out(&mut self, bytes: &[u8]) -> Result<usize, HostError>
        requires { 0 < length bytes.now }
        ensures bound { IfOk result (λ n. (0 < n) × (n ≤ length bytes.now)) }
        ensures written { IfOk result (λ n. Appends (out self.old) (out self.new) (take n bytes.now)) }
        ensures nothing { OnErr result (Keeps (out self.old) (out self.new)) }
        ensures counts { Counts (host_failed result) (out_faults self.old) (out_faults self.new) }
        ensures same { (files self.new ≡ files self.old) × (input self.new ≡ input self.old) × (in_faults self.new ≡ in_faults self.old) };
}

/// A place that each worker passes before each attempt, outside every lock. It promises nothing.
pub trait Gate: Sync {
    /// `done` counts the events or items that the worker has recorded.
    fn before(&self, worker: u32, done: u64);
}

/// The gate that holds nobody.
pub struct NullGate;

impl Gate for NullGate {
    fn before(&self, _worker: u32, _done: u64) {}
}
