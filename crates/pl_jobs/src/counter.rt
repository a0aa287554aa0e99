// The shared counter: one word of a table, from which workers draw numbers.
ghost use Rattle.std.specs.Prelude.{◌≡◌, ◌<◌, ◌≤◌, ◌+◌, [], length, IfOk};
ghost use Rattle.pl_jobs.specs.Items.{HasClaims};
ghost use Rattle.pl_jobs.specs.Numbers.{drew, gave, fresh, took, IsAll};

use crate::hand::Hand;
use atomic_table::{Join, Play, Seat, Shared, Split, Table, TableRule};
use std::alloc::{AllocError, Global};

/// The rule of the counter. Its key is the claims of all workers and the claims of one.
pub struct Numbers;

impl TableRule<(), Hand, (u64, u64)> for Numbers {
    ghost use Rattle.std.specs.Prelude.{[]};
    ghost use Rattle.pl_jobs.specs.Numbers.{Numbered, hand};

    ghost holds = { λ key s. Numbered key.0 s };

    ghost first = { λ key. hand [] key.0 key.1 key.0 };
}

/// A step that draws a number.
pub struct Drawing;

impl Play<(), Hand> for Drawing {
    ghost use Rattle.pl_jobs.specs.Numbers.{Draws};

    ghost then = { Draws };
}

/// A step that only looks.
pub struct Learning;

impl Play<(), Hand> for Learning {
    ghost use Rattle.pl_jobs.specs.Numbers.{Learns};

    ghost then = { Learns };
}

/// A seat gives a new one the claims of one worker.
pub struct Cut;

impl Split<Hand> for Cut {
    ghost use Rattle.pl_jobs.specs.Numbers.{gave, fresh};

    ghost left = { gave };

    ghost right = { fresh };
}

/// A seat takes another's numbers and claims in.
pub struct Gather;

impl Join<Hand> for Gather {
    ghost use Rattle.pl_jobs.specs.Numbers.{took, spent};

    ghost both = { took };

    ghost spent = { spent };
}

/// The counter as workers share it.
pub type Counter = Shared<(), Hand, (u64, u64), Numbers>;

/// A worker's seat at the counter.
pub type Taker = Seat<(), Hand>;

/// Draws the next number, by one `fetch_add`.
pub fn draw(counter: &Counter, seat: &mut Taker) -> u64
    requires table { (seat.old.table_id ≡ counter.now.table_id) × (counter.now.table_id.words ≡ 1) }
    requires left { 0 < seat.old.me.0.left }
    ensures table { (seat.new.table_id ≡ seat.old.table_id) × (seat.new.id ≡ seat.old.id) }
    ensures drew { seat.new.me ≡ (drew seat.old.me.0 result, seat.old.me.1) }
{
    counter.fetch_add::<Drawing>(seat, 0, 1)
}

/// A seat for one more worker.
pub fn split(counter: &Counter, seat: &mut Taker) -> Taker
    requires table { (seat.old.table_id ≡ counter.now.table_id) × (counter.now.table_id.words ≡ 1) }
    requires left { seat.old.me.0.each ≤ seat.old.me.0.left }
    ensures table { (seat.new.table_id ≡ seat.old.table_id) × (result.table_id ≡ seat.old.table_id) }
    ensures left { seat.new.me ≡ (gave seat.old.me.0, seat.old.me.1) }
    ensures right { result.me ≡ (fresh seat.old.me.0, []) }
{
    counter.split_seat::<Cut>(seat)
}

/// Takes in what another worker's seat knows.
pub fn take_in(counter: &Counter, seat: &mut Taker, other: Taker)
    requires table { (seat.old.table_id ≡ counter.now.table_id) × (other.table_id ≡ counter.now.table_id) × (counter.now.table_id.words ≡ 1) }
    requires free { other.me.1 ≡ [] }
    ensures table { seat.new.table_id ≡ seat.old.table_id }
    ensures both { seat.new.me ≡ (took seat.old.me.0 other.me.0, seat.old.me.1) }
{
    counter.join_seat::<Gather>(seat, other)
}

/// The number that comes next. Who has all claims learns that it drew all numbers below.
pub fn learn(counter: &Counter, seat: &mut Taker) -> u64
    requires table { (seat.old.table_id ≡ counter.now.table_id) × (counter.now.table_id.words ≡ 1) }
    requires all { (0 < seat.old.me.0.all) × (length seat.old.me.0.drawn + seat.old.me.0.left ≡ seat.old.me.0.all) }
    ensures all { (result ≡ length seat.old.me.0.drawn) × IsAll result seat.old.me.0.drawn }
{
    counter.load::<Learning>(seat, 0)
}

/// The counter with its table.
pub type Numbered = Table<(), Hand, (u64, u64), Numbers, Global>;

/// A counter at 0, and the seat that has all claims. It fails for want of memory alone.
pub fn open(alloc: Global, all: u64, each: u64) -> Result<(Numbered, Taker), AllocError>
    ensures claims { IfOk result (λ r. HasClaims r.0.shared.table_id r.1 all each all) }
{
    Table::of_words(alloc, &[0], &(all, each))
}
