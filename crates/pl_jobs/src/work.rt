// What is done at an item, and an item with its result.
ghost use Rattle.std.specs.Prelude.{ℕ, IfOk};

use pl_base::Memory;

/// The work at items, which are numbered from 0. An implementor that allocates holds its allocator.
pub trait Work: Sync {
    /// The result of an item.
    type Out: Send + Drop;

    /// What may come of an item.
    ghost gives: { Self → ℕ → Self.Out → Type 0 };

    /// Does one item. Workers call it beside each other.
    fn one(&self, item: u32) -> Result<Self::Out, Memory>
        ensures gives { IfOk result (λ out. gives self.now item out) };
}

/// An item that was done, with its result.
#[derive(Drop)]
pub struct Done<T> {
    pub item: u64,
    pub out: T,
}
