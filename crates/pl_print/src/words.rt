//! The smallest parts of a text.

ghost use Rattle.std.specs.Fmt.{signed_decimal};
ghost use Rattle.std.specs.Prelude.{decimal};
ghost use Rattle.pl_print.specs.Adds.{Adds};
ghost use Rattle.pl_print.specs.Lists.{indent, where_wanted};

use itoa::Buffer;
use pl_base::{Memory, Name};

/// Adds a text.
pub(crate) fn put(out: &mut Vec<u8>, text: &[u8]) -> Result<(), Memory>
    ensures { Adds result out.old out.new text.now }
{
    out.extend_from_slice(text)?;
    Ok(())
}

/// Adds a text where it is wanted.
pub(crate) fn put_where(out: &mut Vec<u8>, wanted: bool, text: &[u8]) -> Result<(), Memory>
    ensures { Adds result out.old out.new (where_wanted wanted text.now) }
{
    if wanted { put(out, text) } else { Ok(()) }
}

pub(crate) fn put_name(out: &mut Vec<u8>, name: &Name) -> Result<(), Memory>
    ensures { Adds result out.old out.new name.now }
{
    put(out, name.bytes())
}

/// Adds a number in decimal.
pub(crate) fn put_count(out: &mut Vec<u8>, n: u32) -> Result<(), Memory>
    ensures { Adds result out.old out.new (decimal n) }
{
    let mut buffer = Buffer::new();
    put(out, buffer.format(n).as_bytes())
}

/// Adds a number in decimal, with its sign where it is below 0.
pub(crate) fn put_number(out: &mut Vec<u8>, n: i128) -> Result<(), Memory>
    ensures { Adds result out.old out.new (signed_decimal n) }
{
    let mut buffer = Buffer::new();
    put(out, buffer.format(n).as_bytes())
}

/// Adds two blanks a level.
pub(crate) fn put_indent(out: &mut Vec<u8>, level: u64) -> Result<(), Memory>
    ensures { Adds result out.old out.new (indent level) }
{
    for _ in 0..level {
        put(out, b"  ")?;
    }
    Ok(())
}
