ghost use Rattle.std.specs.Prelude.{◌≡◌, ◌*◌, ◌<◌, ◌≤◌, ◌^◌, [], OnErr, IfSome, IfNone, length, vec_len, vec_capacity};
ghost use Rattle.std.specs.List.{repeat};
ghost use Rattle.pl_resource.specs.Faults.{leaves};
ghost use Rattle.pl_resource.specs.Heap.{made, value_of, put_in, load_in, store_in, cas_in, swap_leaves};
ghost use Rattle.pl_resource.specs.Pieces.{IsPlace, HasNoPlace};

use crate::value::{Cell, Fault, Value};
use std::marker::Model;

/// A block that is alive, of `count` elements with `fields` cells each. Its values stand element by element.
#[derive(Drop)]
pub(crate) struct Block {
    atomic: bool,
    fields: u32,
    count: u32,
    values: Vec<Value>,
}

impl Model for Block {
    ghost use Rattle.std.specs.Prelude.{◌≡◌, ◌*◌, length};
    ghost use Rattle.pl_resource.specs.Heap.{Block};
    ghost use Rattle.pl_resource.specs.Pieces.{pieces};

    ghost Value = { Block };

    ghost view = { λ b. record { atomic = b.atomic; elements = pieces b.fields b.count b.values.items } };

    ghost invariant = { λ b. length b.values.items ≡ b.count * b.fields };
}

impl Block {
    // A block whose values come into the empty `room`.
    pub(crate) fn new(atomic: bool, first: &[Value], count: u32, room: Vec<Value>) -> Block
        requires few { length first.now < 2 ^ 32 }
        requires empty { room.items ≡ [] }
        requires enough { length first.now * count ≤ vec_capacity room }
        ensures { result ≡ made atomic first.now count }
    {
        let fields = first.len() as u32;
        let values = fill(room, first, count);
        Block {
            atomic,
            fields,
            count,
            values,
        }
    }

    pub(crate) fn load(&self, cell: Cell, atomic: bool) -> Result<Value, Fault>
        ensures { result ≡ load_in self.now cell atomic }
    {
        let held = self.value(cell)?;
        if self.atomic != atomic {
            return Err(Fault::Kind);
        }
        Ok(held)
    }

    pub(crate) fn store(&mut self, cell: Cell, atomic: bool, value: Value) -> Result<(), Fault>
        ensures result { leaves result self.new ≡ store_in self.old cell atomic value }
        ensures refused { OnErr result (self.new ≡ self.old) }
    {
        let held = self.load(cell, atomic)?;
        if !held.same_kind(&value) {
            return Err(Fault::Kind);
        }
        self.put(cell, value);
        Ok(())
    }

    pub(crate) fn cas(&mut self, cell: Cell, old: i64, new: i64) -> Result<(i64, bool), Fault>
        ensures result { swap_leaves result self.new ≡ cas_in self.old cell old new }
        ensures refused { OnErr result (self.new ≡ self.old) }
    {
        let Value::Int(seen) = self.load(cell, true)? else {
            return Err(Fault::Kind);
        };
        if seen != old {
            return Ok((seen, false));
        }
        self.put(cell, Value::Int(new));
        Ok((seen, true))
    }

    fn value(&self, cell: Cell) -> Result<Value, Fault>
        ensures { result ≡ value_of self.now cell }
    {
        match place(cell, self.fields, self.count) {
            Some(place) => Ok(self.values[place]),
            None => Err(Fault::Outside),
        }
    }

    // Nothing is put where there is no such cell.
    fn put(&mut self, cell: Cell, value: Value)
        ensures { self.new ≡ put_in self.old cell value }
    {
        if let Some(place) = place(cell, self.fields, self.count) {
            self.values[place] = value;
        }
    }
}

// Where the cell of a block stands among the block's values.
fn place(cell: Cell, fields: u32, count: u32) -> Option<usize>
    ensures found { IfSome result (λ place. IsPlace fields count cell.index cell.field place) }
    ensures missing { IfNone result (HasNoPlace fields count cell.index cell.field) }
{
    if cell.index < count && cell.field < fields {
        Some(cell.index as usize * fields as usize + cell.field as usize)
    } else {
        None
    }
}

// The first values, once for each element.
#[tactic(auto, using(crate::proofs::Filled::repeat_one_more))]
fn fill(mut values: Vec<Value>, first: &[Value], count: u32) -> Vec<Value>
    requires empty { values.items ≡ [] }
    requires enough { length first.now * count ≤ vec_capacity values }
    ensures items { result.items ≡ repeat count first.now }
    ensures len { vec_len result ≡ count * length first.now }
{
    for _element in 0..count {
        if values.extend_from_slice(first).is_err() {
            unreachable!();
        }
    }
    values
}
