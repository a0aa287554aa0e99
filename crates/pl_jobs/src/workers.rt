// Workers that claim items and do them.
ghost use Rattle.std.specs.Prelude.{◌≡◌, ◌<◌, ◌≤◌, ◌+◌, ◌*◌, ◌-◌, IfOk};
ghost use Rattle.std.specs.Result.{ForOk};
ghost use Rattle.pl_jobs.specs.Items.{DoneBy, HasClaims};
ghost use denote.Param.Send.{IsSync};

use crate::counter::{Counter, Taker, draw, split, take_in};
use crate::work::{Done, Work};
use pl_base::{Gate, Memory};
use std::alloc::Global;
use std::thread::{Threads, join};

/// The seat of workers, and the items that they did.
pub type Share<T> = (Taker, Vec<Done<T>>);

// Claims and does items until there is none, as one worker. `all` is the claims of all workers, for the contract.
fn claim_all<W: Work, G: Gate>(
    alloc: Global,
    counter: &Counter,
    mut seat: Taker,
    all: u64,
    worker: u32,
    items: u32,
    work: &W,
    gate: &G,
) -> Result<Share<W::Out>, Memory>
    requires claims { HasClaims counter.now.table_id seat (items + 1) (items + 1) all }
    requires few { items ≤ 4096 }
    ensures done { IfOk result (DoneBy counter.now.table_id W.gives work.now items (items + 1) all) }
{
    let _all = all;
    let mut done = Vec::new(alloc);
    'claims: for recorded in 0..items + 1 {
        gate.before(worker, u64::from(recorded));
        let number = draw(counter, &mut seat);
        if number >= u64::from(items) {
            return Ok((seat, done));
        }
        let out = work.one(number as u32)?;
        done.push(Done { item: number, out })?;
    }
    Ok((seat, done))
}

/// So many workers, numbered from `worker` on, claim and do items, each in a thread of its own where one can be started.
/// `all` is the claims of all workers. It fails for want of memory alone.
pub fn crew<R: Threads + Sync, W: Work, G: Gate>(
    rt: &R,
    alloc: Global,
    counter: &Counter,
    mut seat: Taker,
    all: u64,
    worker: u32,
    workers: u32,
    items: u32,
    work: &W,
    gate: &G,
) -> Result<Share<W::Out>, Memory>
    requires claims { HasClaims counter.now.table_id seat (workers * (items + 1)) (items + 1) all }
    requires few { (items ≤ 4096) × (0 < workers) × (worker + workers ≤ 64) }
    ensures claimed { IfOk result (DoneBy counter.now.table_id W.gives work.now items (workers * (items + 1)) all) }
{
    if workers == 1 {
        return claim_all(alloc, counter, seat, all, worker, items, work, gate);
    }
    let mine = split(counter, &mut seat);
    let (here, there) = join(
        rt,
        || -> Result<Share<W::Out>, Memory>
            requires { HasClaims counter.now.table_id mine (items + 1) (items + 1) all × (items ≤ 4096) }
            ensures { IfOk result (DoneBy counter.entry.now.table_id W.gives work.entry.now items
                (items + 1) all) }
        { claim_all(alloc, counter, mine, all, worker, items, work, gate) },
        || -> Result<Share<W::Out>, Memory>
            requires { IsSync R.row
                × HasClaims counter.now.table_id seat ((workers - 1) * (items + 1)) (items + 1) all
                × (items ≤ 4096) × (1 < workers) × (worker + workers ≤ 64) }
            ensures { IfOk result (DoneBy counter.entry.now.table_id W.gives work.entry.now items
                ((workers - 1) * (items + 1)) all) }
        {
            let (next, others) = (worker + 1, workers - 1);
            crew(
                rt, alloc, counter, seat, all, next, others, items, work, gate,
            )
        },
    );
    together(counter, here, there, all, workers, items, work)
}

// What one worker and the others did. The last parameters serve the contract.
fn together<W: Work>(
    counter: &Counter,
    here: Result<Share<W::Out>, Memory>,
    there: Result<Share<W::Out>, Memory>,
    _all: u64,
    _workers: u32,
    _items: u32,
    _work: &W,
) -> Result<Share<W::Out>, Memory>
    requires table { counter.now.table_id.words ≡ 1 }
    requires here { ForOk here (DoneBy counter.now.table_id W.gives _work.now _items (_items + 1) _all) }
    requires there { ForOk there (DoneBy counter.now.table_id W.gives _work.now _items
        ((_workers - 1) * (_items + 1)) _all) }
    requires some { 0 < _workers }
    ensures claimed { IfOk result (DoneBy counter.now.table_id W.gives _work.now _items
        (_workers * (_items + 1)) _all) }
{
    let (mut seat, mut done) = here?;
    let (other, mut rest) = there?;
    take_in(counter, &mut seat, other);
    done.append(&mut rest)?;
    Ok((seat, done))
}
