//! Names, types and locals of the program for which a text stands.

ghost use Rattle.std.specs.Prelude.{◌≡◌, IfOk};
ghost use Rattle.c_rules.specs.Sorts as rules;

use c_forms::Number;
use c_rules::number_of;
use c_syntax::{CType, Local};
use pl_base::{Items, Memory, Name};
use std::alloc::Global;

/// The same name.
pub(crate) fn copy_name(alloc: Global, name: &Name) -> Result<Name, Memory>
    ensures { IfOk result (λ copy. copy ≡ name.now) }
{
    Name::of(alloc, name.text())
}

/// The same type.
pub(crate) fn copy_type(alloc: Global, kind: &CType) -> Result<CType, Memory>
    ensures { IfOk result (λ copy. copy ≡ kind.now) }
{
    match kind {
        CType::Void => Ok(CType::Void),
        CType::I64 => Ok(CType::I64),
        CType::Bool => Ok(CType::Bool),
        CType::PtrI64 => Ok(CType::PtrI64),
        CType::PtrBool => Ok(CType::PtrBool),
        CType::PtrStruct(name) => {
            let name = copy_name(alloc, name)?;
            Ok(CType::PtrStruct(name))
        }
        CType::PtrAtomic => Ok(CType::PtrAtomic),
        CType::PtrLock => Ok(CType::PtrLock),
    }
}

/// The local that is written.
pub(crate) fn local_of(alloc: Global, x: &c_forms::Local) -> Result<Local, Memory>
    ensures { IfOk result (λ local. local ≡ rules.local_of x.now) }
{
    let name = copy_name(alloc, &x.name)?;
    Ok(Local {
        name,
        number: number_of(&x.number),
    })
}

/// The same number.
fn copy_number(alloc: Global, n: &Number) -> Result<Number, Memory>
    ensures { IfOk result (λ copy. copy ≡ n.now) }
{
    match n {
        Number::Small(n) => Ok(Number::Small(*n)),
        Number::Long(digits) => {
            let mut copy = Vec::new(alloc);
            copy.extend_from_slice(digits.as_slice())?;
            Ok(Number::Long(Items::of(copy)))
        }
    }
}

/// The same local.
pub(crate) fn copy_local(alloc: Global, x: &c_forms::Local) -> Result<c_forms::Local, Memory>
    ensures { IfOk result (λ copy. copy ≡ x.now) }
{
    let name = copy_name(alloc, &x.name)?;
    let number = copy_number(alloc, &x.number)?;
    Ok(c_forms::Local { name, number })
}
