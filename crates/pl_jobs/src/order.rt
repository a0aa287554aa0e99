// The results of items, in the order of the items.
ghost use Rattle.std.specs.Prelude.{◌≡◌, ◌<◌, ℕ, IfOk, All, Some, vec_len, slice_set};
ghost use Rattle.pl_jobs.specs.Numbers.{times};
ghost use Rattle.pl_jobs.specs.Slots.{RightFrom, InOrder};
ghost use Rattle.pl_jobs.specs.Items.{numbers};

use crate::work::{Done, Work};
use pl_base::Memory;
use std::alloc::Global;

// Puts a result into the place of its item.
fn place<T: Drop>(slots: &mut Vec<Option<T>>, done: Done<T>)
    ensures placed { slots.new.items ≡ slice_set slots.old.items done.item (Some done.out) }
{
    let Done { item, out } = done;
    if let Some(slot) = slots.get_mut(item as usize) {
        *slot = Some(out);
    }
}

// The results in the places of their items.
fn place_all<W: Work>(
    alloc: Global,
    items: u32,
    mut done: Vec<Done<W::Out>>,
    work: &W,
) -> Result<Vec<Option<W::Out>>, Memory>
    requires gives { All (λ d. W.gives work.now d.item d.out) done.items }
    requires each { (k : ℕ) → k < items → 0 < times k (numbers done.items) }
    ensures count { IfOk result (λ v. vec_len v ≡ items) }
    ensures right { IfOk result (λ v. RightFrom W.gives work.now 0 items v.items) }
{
    let mut slots = Vec::new(alloc);
    for _slot in 0..items {
        slots.push(None)?;
    }
    'places: while let Some(next) = done.pop() {
        place(&mut slots, next);
    }
    Ok(slots)
}

/// The results of items that were done, in the order of the items, which are those below `items`.
/// It fails for want of memory alone.
pub fn in_order<W: Work>(
    alloc: Global,
    items: u32,
    done: Vec<Done<W::Out>>,
    work: &W,
) -> Result<Vec<W::Out>, Memory>
    requires gives { All (λ d. W.gives work.now d.item d.out) done.items }
    requires each { (k : ℕ) → k < items → 0 < times k (numbers done.items) }
    ensures count { IfOk result (λ v. vec_len v ≡ items) }
    ensures order { IfOk result (λ v. InOrder W.gives work.now v.items) }
{
    let mut slots = place_all(alloc, items, done, work)?;
    let mut results = Vec::new(alloc);
    for k in 0..items {
        match slots[k as usize].take() {
            Some(out) => results.push(out)?,
            None => unreachable!(),
        }
    }
    Ok(results)
}
