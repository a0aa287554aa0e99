ghost use Rattle.std.specs.Prelude.{◌≡◌, ◌<◌, ◌-◌, ◌^◌, ◌∷◌, ◌++◌, [], None, IfOk, OnOk, OnErr, IsOk, IsTrue, length, true, false};
ghost use Rattle.pl_resource.specs.Faults.{leaves};
ghost use Rattle.pl_resource.specs.LockTable.{is_free_of, set_of, end_of};
ghost use Rattle.pl_resource.specs.declared.lock_table.Mark.TheVariants.{Free};

use pl_base::Memory;
use pl_resource::{Fault, LockTable};
use std::alloc::Global;
use std::marker::Model;

/// The locks of a machine, with their count. One that was never made is used like one that was ended.
#[derive(Drop)]
pub(crate) struct Locks {
    table: LockTable,
    made: u32,
}

impl Model for Locks {
    ghost use Rattle.std.specs.Prelude.{◌≡◌, length};
    ghost use Rattle.pl_resource.specs.LockTable.{Locks};

    ghost Value = { Locks };

    ghost view = { λ l. l.table };

    ghost invariant = { λ l. l.made ≡ length l.table.locks };
}

impl Locks {
    pub(crate) fn new(alloc: Global) -> Locks
        ensures { result ≡ record { locks = []; room = false } }
    {
        Locks {
            table: LockTable::new(alloc),
            made: 0,
        }
    }

    pub(crate) fn room(&mut self) -> Result<(), Memory>
        ensures ok { OnOk result (self.new ≡ record self.old { room = true }) }
        ensures refused { OnErr result (self.new ≡ self.old) }
    {
        self.table.room()
    }

    /// Makes a free lock and tells its number.
    pub(crate) fn push(&mut self) -> u32
        requires few { length self.old.locks < 2 ^ 32 - 1 }
        requires room { IsTrue self.old.room }
        ensures number { result ≡ length self.old.locks }
        ensures lock { self.new.locks ≡ self.old.locks ++ record { mark = Free; entry = None } ∷ [] }
    {
        let Ok(number) = self.table.push(None) else {
            unreachable!();
        };
        self.made += 1;
        number
    }

    pub(crate) fn is_free(&self, lock: u32) -> Result<bool, Fault>
        ensures { result ≡ is_free_of self.now.locks lock }
    {
        if lock >= self.made {
            return Err(Fault::LockFreed);
        }
        self.table.is_free(lock)
    }

    /// Acquires a lock; one that is held stays so.
    #[tactic(auto, using(crate::proofs::Held::held_stays))]
    pub(crate) fn acquire(&mut self, lock: u32) -> Result<(), Fault>
        ensures result { leaves result self.new.locks ≡ set_of self.old.locks lock true }
        ensures refused { OnErr result (self.new ≡ self.old) }
        ensures room { self.new.room ≡ self.old.room }
    {
        if self.is_free(lock)? {
            self.table.set(lock, true)
        } else {
            Ok(())
        }
    }

    pub(crate) fn release(&mut self, lock: u32) -> Result<(), Fault>
        ensures result { leaves result self.new.locks ≡ set_of self.old.locks lock false }
        ensures refused { OnErr result (self.new ≡ self.old) }
        ensures room { self.new.room ≡ self.old.room }
    {
        if lock >= self.made {
            return Err(Fault::LockFreed);
        }
        self.table.set(lock, false)
    }

    pub(crate) fn end(&mut self, lock: u32) -> Result<(), Fault>
        ensures result { leaves result self.new.locks ≡ end_of self.old.locks lock }
        ensures refused { OnErr result (self.new ≡ self.old) }
        ensures room { self.new.room ≡ self.old.room }
    {
        if lock >= self.made {
            return Err(Fault::LockFreed);
        }
        self.table.end(lock)
    }
}
