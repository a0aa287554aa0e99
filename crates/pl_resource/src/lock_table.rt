ghost use Rattle.std.specs.Prelude.{◌≡◌, ◌≢◌, ◌<◌, ◌-◌, ◌^◌, [], ◌∷◌, ◌++◌, IfOk, OnOk, OnErr, IsOk, IsTrue, length, true, false};
ghost use Rattle.pl_resource.specs.Faults.{leaves};
ghost use Rattle.pl_resource.specs.LockTable.{is_free_of, set_of, end_of};
ghost use Rattle.pl_resource.specs.declared.lock_table.Mark.TheVariants.{Free};

use crate::value::{Entry, Fault};
use pl_base::Memory;
use std::alloc::Global;
use std::marker::Model;

/// How a lock stands.
#[derive(Clone, Copy)]
pub(crate) enum Mark {
    Free,
    Held,
    Ended,
}

/// A lock, and what it is made for where that is told.
#[derive(Drop)]
pub(crate) struct Lock {
    mark: Mark,
    entry: Option<Entry>,
}

/// The locks that were made, by their numbers, and room for the next one. Numbers count from 0 in the order of
/// making, and never come again. Contracts see the list of locks, each free, held or ended, with its entry.
#[derive(Drop)]
pub struct LockTable {
    locks: Vec<Lock>,
    room: bool,
}

impl Model for LockTable {
    ghost use Rattle.std.specs.Prelude.{◌<◌, IsTrue, vec_len, vec_capacity};
    ghost use Rattle.pl_resource.specs.LockTable.{Locks};

    ghost Value = { Locks };

    ghost view = { λ t. record { locks = t.locks.items; room = t.room } };

    ghost invariant = { λ t. IsTrue t.room → vec_len t.locks < vec_capacity t.locks };
}

impl LockTable {
    /// No lock. It takes no memory.
    pub fn new(alloc: Global) -> LockTable
        ensures { result ≡ record { locks = []; room = false } }
    {
        LockTable {
            locks: Vec::new(alloc),
            room: false,
        }
    }

    /// Makes room for one lock. The next `push` answers `Ok`, whatever calls other than `room` come between.
    pub fn room(&mut self) -> Result<(), Memory>
        ensures ok { OnOk result (self.new ≡ record self.old { room = true }) }
        ensures there_already { IsTrue self.old.room → IsOk result }
        ensures refused { OnErr result (self.new ≡ self.old) }
    {
        self.locks.reserve(1)?;
        self.room = true;
        Ok(())
    }

    /// Makes a free lock and tells its number. It wants memory only where there is no room.
    pub fn push(&mut self, entry: Option<Entry>) -> Result<u32, Memory>
        requires { length self.old.locks < 2 ^ 32 - 1 }
        ensures number { IfOk result (λ number. number ≡ length self.old.locks) }
        ensures lock { OnOk result (self.new.locks ≡ self.old.locks ++ record { mark = Free; entry = entry } ∷ []) }
        ensures used { OnOk result (self.new.room ≡ false) }
        ensures promised { IsTrue self.old.room → IsOk result }
        ensures refused { OnErr result (self.new ≡ self.old) }
    {
        let number = self.locks.len() as u32;
        let mark = Mark::Free;
        self.locks.push(Lock { mark, entry })?;
        self.room = false;
        Ok(number)
    }

    /// Whether a lock is free. It faults `LockFreed` exactly where the lock was ended.
    pub fn is_free(&self, lock: u32) -> Result<bool, Fault>
        requires made { lock < length self.now.locks }
        ensures { result ≡ is_free_of self.now.locks lock }
    {
        match self.locks[lock as usize].mark {
            Mark::Free => Ok(true),
            Mark::Held => Ok(false),
            Mark::Ended => Err(Fault::LockFreed),
        }
    }

    /// Acquires a lock that isn't held, or releases one. It faults `LockFreed` exactly where the lock was ended,
    /// and `LockFree` exactly where a free one is to be released.
    pub fn set(&mut self, lock: u32, held: bool) -> Result<(), Fault>
        requires made { lock < length self.old.locks }
        requires free { IsTrue held → is_free_of self.old.locks lock ≢ Ok false }
        ensures result { leaves result self.new.locks ≡ set_of self.old.locks lock held }
        ensures refused { OnErr result (self.new ≡ self.old) }
        ensures room { self.new.room ≡ self.old.room }
    {
        let free = self.is_free(lock)?;
        if free && !held {
            return Err(Fault::LockFree);
        }
        self.locks[lock as usize].mark = if held { Mark::Held } else { Mark::Free };
        Ok(())
    }

    /// Ends a lock. It faults `LockFreed` exactly where the lock was ended before, and `LockFree` exactly where
    /// it is free.
    pub fn end(&mut self, lock: u32) -> Result<(), Fault>
        requires made { lock < length self.old.locks }
        ensures result { leaves result self.new.locks ≡ end_of self.old.locks lock }
        ensures refused { OnErr result (self.new ≡ self.old) }
        ensures room { self.new.room ≡ self.old.room }
    {
        if self.is_free(lock)? {
            return Err(Fault::LockFree);
        }
        self.locks[lock as usize].mark = Mark::Ended;
        Ok(())
    }
}
