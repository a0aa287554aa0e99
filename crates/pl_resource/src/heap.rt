ghost use Rattle.std.specs.Prelude.{◌≡◌, ◌<◌, ◌-◌, ◌^◌, [], ◌∷◌, ◌++◌, None, Some, IfOk, OnOk, OnErr, IsOk, length};
ghost use Rattle.pl_resource.specs.Faults.{leaves};
ghost use Rattle.pl_resource.specs.Heap.{IsFields, IsCount, HasRoom, made, load_of, store_of, cas_of, free_of, swap_leaves};

use crate::block::Block;
use crate::value::{Cell, Fault, Value};
use pl_base::Memory;
use std::alloc::Global;
use std::marker::Model;
use std::mem;

/// The blocks that were made, by their numbers, and room for the next one. Numbers count from 0 in the order of
/// making, and never come again.
///
/// A use of a cell faults `Dead` where the block isn't alive, since it was freed or never made (C11 6.2.4); else
/// `Outside` where the block has no such index or field (C11 6.5.6); else `Kind` where the block is atomic and the
/// use isn't, or the other way round, or the value is of another kind than the cell's (C11 6.5). Contracts see the
/// list of blocks.
#[derive(Drop)]
pub struct Heap {
    alloc: Global,
    blocks: Vec<Option<Block>>,
    // empty: the values of the next block come into it
    spare: Vec<Value>,
    // the fields and the count of that block, where there is room for it
    room: Option<(u32, u32)>,
}

impl Model for Heap {
    ghost use Rattle.std.specs.Prelude.{[], ◌≡◌, ◌<◌, ◌≤◌, ◌*◌, IsSome, vec_len, vec_capacity};
    ghost use Rattle.std.specs.Option.{ForSome};
    ghost use Rattle.pl_resource.specs.Heap.{Store};

    ghost Value = { Store };

    ghost view = { λ h. record { blocks = h.blocks.items; room = h.room } };

    ghost invariant = { λ h. record {
      empty : h.spare.items ≡ [];
      values : ForSome h.room (λ size. size.0 * size.1 ≤ vec_capacity h.spare);
      block : IsSome h.room → vec_len h.blocks < vec_capacity h.blocks;
    } };
}

impl Heap {
    /// No block. It takes no memory.
    pub fn new(alloc: Global) -> Heap
        ensures { result ≡ record { blocks = []; room = None } }
    {
        Heap {
            alloc,
            blocks: Vec::new(alloc),
            spare: Vec::new(alloc),
            room: None,
        }
    }

    /// Makes room for one block of `count` elements, from 1 to 1,048,576, with `fields` cells each. The next `make`,
    /// where it is of so many fields and that count, answers `Ok`, whatever calls other than `room` come between.
    pub fn room(&mut self, fields: u32, count: u32) -> Result<(), Memory>
        requires fields { IsFields fields }
        requires count { IsCount count }
        ensures ok { OnOk result (self.new ≡ record self.old { room = Some (fields, count) }) }
        ensures there_already { HasRoom self.old.room fields count → IsOk result }
        ensures refused { OnErr result (self.new ≡ self.old) }
    {
        if self.room == Some((fields, count)) {
            return Ok(());
        }
        let values = fields as usize * count as usize;
        self.blocks.reserve(1)?;
        if self.spare.capacity() != values {
            self.spare = Vec::with_capacity(self.alloc, values)?;
        }
        self.room = Some((fields, count));
        Ok(())
    }

    /// Makes a block of `count` elements, from 1 to 1,048,576, and tells its number. Each element has the values
    /// `first`, one for each field. It wants memory only where there is no room for just such a block.
    pub fn make(&mut self, atomic: bool, first: &[Value], count: u32) -> Result<u32, Memory>
        requires few { length self.old.blocks < 2 ^ 32 - 1 }
        requires fields { IsFields (length first.now) }
        requires count { IsCount count }
        ensures number { IfOk result (λ number. number ≡ length self.old.blocks) }
        ensures block { OnOk result (self.new.blocks ≡ self.old.blocks ++ Some (made atomic first.now count) ∷ []) }
        ensures used { OnOk result (self.new.room ≡ None) }
        ensures promised { HasRoom self.old.room (length first.now) count → IsOk result }
        ensures refused { OnErr result (self.new ≡ self.old) }
    {
        let fields = first.len() as u32;
        self.room(fields, count)?;
        self.room = None;
        let spare = mem::replace(&mut self.spare, Vec::new(self.alloc));
        let block = Block::new(atomic, first, count, spare);
        let number = self.blocks.len() as u32;
        self.blocks.push_reserved(Some(block));
        Ok(number)
    }

    /// The value of a cell, which is used as atomic or not.
    pub fn load(&self, cell: Cell, atomic: bool) -> Result<Value, Fault>
        ensures { result ≡ load_of self.now.blocks cell atomic }
    {
        let Some(Some(block)) = self.blocks.get(cell.block as usize) else {
            return Err(Fault::Dead);
        };
        block.load(cell, atomic)
    }

    /// Stores a value in a cell, which is used as atomic or not. A cell with a pointer takes null or a block.
    pub fn store(&mut self, cell: Cell, atomic: bool, value: Value) -> Result<(), Fault>
        ensures result { leaves result self.new.blocks ≡ store_of self.old.blocks cell atomic value }
        ensures refused { OnErr result (self.new ≡ self.old) }
        ensures room { self.new.room ≡ self.old.room }
    {
        let Some(slot) = self.blocks.get_mut(cell.block as usize) else {
            return Err(Fault::Dead);
        };
        let Some(block) = slot else {
            return Err(Fault::Dead);
        };
        block.store(cell, atomic, value)
    }

    /// A compare-and-swap of a cell of an atomic block (C11 7.17.7.4): the number that it saw, and whether that was
    /// `old`, so that `new` was stored. It faults `Kind` too where the cell holds no number.
    pub fn cas(&mut self, cell: Cell, old: i64, new: i64) -> Result<(i64, bool), Fault>
        ensures result { swap_leaves result self.new.blocks ≡ cas_of self.old.blocks cell old new }
        ensures refused { OnErr result (self.new ≡ self.old) }
        ensures room { self.new.room ≡ self.old.room }
    {
        let Some(slot) = self.blocks.get_mut(cell.block as usize) else {
            return Err(Fault::Dead);
        };
        let Some(block) = slot else {
            return Err(Fault::Dead);
        };
        block.cas(cell, old, new)
    }

    /// Frees a block and gives back its memory (C11 7.22.3.3). It faults `Dead` exactly where the block isn't alive.
    pub fn free(&mut self, block: u32) -> Result<(), Fault>
        ensures result { leaves result self.new.blocks ≡ free_of self.old.blocks block }
        ensures refused { OnErr result (self.new ≡ self.old) }
        ensures room { self.new.room ≡ self.old.room }
    {
        let Some(slot) = self.blocks.get_mut(block as usize) else {
            return Err(Fault::Dead);
        };
        if slot.is_none() {
            return Err(Fault::Dead);
        }
        *slot = None;
        Ok(())
    }
}
