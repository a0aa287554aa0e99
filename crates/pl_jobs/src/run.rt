// Items done by workers that claim them from one counter.
ghost use Rattle.std.specs.Prelude.{◌≡◌, ◌≤◌, IfOk, vec_len};
ghost use Rattle.pl_jobs.specs.Slots.{InOrder};

use crate::counter::{learn, open};
use crate::order::in_order;
use crate::work::Work;
use crate::workers::crew;
use pl_base::{Gate, Memory};
use std::alloc::Global;
use std::thread::Threads;

/// Does the items below `items`, each once, by so many workers that claim them from one shared counter, and answers the
/// results in the order of the items.
///
/// Each claim is one atomic addition. A worker ends at the first number that it draws past the items. It calls
/// `gate.before` before each claim, with its own number and the count of the items that it has done. Where no thread can
/// be started, workers go one after the other.
///
/// # Errors
///
/// [`Memory`], from a work or from this function itself.
pub fn run_claims<R: Threads + Sync, W: Work, G: Gate>(
    rt: &R,
    alloc: Global,
    workers: u32,
    items: u32,
    work: &W,
    gate: &G,
) -> Result<Vec<W::Out>, Memory>
    requires workers { (1 ≤ workers) × (workers ≤ 64) }
    requires items { items ≤ 4096 }
    ensures count { IfOk result (λ v. vec_len v ≡ items) }
    ensures order { IfOk result (λ v. InOrder W.gives work.now v.items) }
{
    let each = u64::from(items) + 1;
    let all = u64::from(workers) * each;
    let (table, seat) = open(alloc, all, each)?;
    let counter = &table.shared;
    let (mut seat, done) = crew(rt, alloc, counter, seat, all, 0, workers, items, work, gate)?;
    let _count = learn(counter, &mut seat);
    in_order(alloc, items, done, work)
}
