//! The smallest pieces of a text: names, types, numbers and the beginnings of lines.

ghost use Rattle.std.specs.Prelude.{◌++◌, decimal};
ghost use Rattle.c_syntax.specs.Text.{mangled_name, local_text, function_name, struct_name, member_name, arguments_name, argument_name, starter_name, type_text, indent};
ghost use Rattle.c_text.specs.Adds.{Adds};

use c_syntax::{CType, Local};
use itoa::Buffer;
use pl_base::{Memory, Name};

/// Adds a text.
pub(crate) fn put(out: &mut Vec<u8>, text: &[u8]) -> Result<(), Memory>
    ensures { Adds result out.old out.new text.now }
{
    out.extend_from_slice(text)?;
    Ok(())
}

/// Adds a number in decimal.
pub(crate) fn put_number(out: &mut Vec<u8>, n: u64) -> Result<(), Memory>
    ensures { Adds result out.old out.new (decimal n) }
{
    let mut buffer = Buffer::new();
    put(out, buffer.format(n).as_bytes())
}

/// Adds a name with its prefix.
pub(crate) fn put_name(out: &mut Vec<u8>, prefix: &[u8], name: &Name) -> Result<(), Memory>
    ensures { Adds result out.old out.new (prefix.now ++ mangled_name name.now) }
{
    let mangled = name.mangled(*out.allocator())?;
    put(out, prefix)?;
    put(out, mangled.as_slice())
}

pub(crate) fn put_local(out: &mut Vec<u8>, x: &Local) -> Result<(), Memory>
    ensures { Adds result out.old out.new (local_text x.now) }
{
    put_name(out, b"v_", &x.name)?;
    put(out, b"_")?;
    put_number(out, u64::from(x.number))
}

pub(crate) fn put_function_name(out: &mut Vec<u8>, name: &Name) -> Result<(), Memory>
    ensures { Adds result out.old out.new (function_name name.now) }
{
    put_name(out, b"f_", name)
}

pub(crate) fn put_struct_name(out: &mut Vec<u8>, name: &Name) -> Result<(), Memory>
    ensures { Adds result out.old out.new (struct_name name.now) }
{
    put_name(out, b"struct s_", name)
}

pub(crate) fn put_member_name(out: &mut Vec<u8>, name: &Name) -> Result<(), Memory>
    ensures { Adds result out.old out.new (member_name name.now) }
{
    put_name(out, b"m_", name)
}

pub(crate) fn put_arguments_name(out: &mut Vec<u8>, name: &Name) -> Result<(), Memory>
    ensures { Adds result out.old out.new (arguments_name name.now) }
{
    put_name(out, b"struct a_", name)
}

pub(crate) fn put_starter_name(out: &mut Vec<u8>, name: &Name) -> Result<(), Memory>
    ensures { Adds result out.old out.new (starter_name name.now) }
{
    put_name(out, b"t_", name)
}

pub(crate) fn put_argument_name(out: &mut Vec<u8>, k: u64) -> Result<(), Memory>
    ensures { Adds result out.old out.new (argument_name k) }
{
    put(out, b"a_")?;
    put_number(out, k)
}

/// Adds a type in front of a name.
pub(crate) fn put_type(out: &mut Vec<u8>, kind: &CType) -> Result<(), Memory>
    ensures { Adds result out.old out.new (type_text kind.now) }
{
    match kind {
        CType::Void => put(out, b"void "),
        CType::I64 => put(out, b"int64_t "),
        CType::Bool => put(out, b"bool "),
        CType::PtrI64 => put(out, b"int64_t *"),
        CType::PtrBool => put(out, b"bool *"),
        CType::PtrStruct(name) => {
            put_struct_name(out, name)?;
            put(out, b" *")
        }
        CType::PtrAtomic => put(out, b"p_atomic *"),
        CType::PtrLock => put(out, b"struct p_lock *"),
    }
}

/// Adds two blanks a level.
pub(crate) fn put_indent(out: &mut Vec<u8>, level: u32) -> Result<(), Memory>
    ensures { Adds result out.old out.new (indent level) }
{
    for _ in 0..level {
        put(out, b"  ")?;
    }
    Ok(())
}
