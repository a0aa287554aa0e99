//! Lists that are complete.

ghost use Rattle.std.specs.Prelude.{◌≡◌};

use pl_base::Items;

/// A list to which nothing will be added: it gives back the room that it doesn't use. Most lists of a text are short, and a
/// `Vec` begins with room for four.
pub fn exact<T>(mut list: Vec<T>) -> Items<T>
    ensures { result ≡ list.items }
{
    list.shrink_to_fit();
    Items::of(list)
}
