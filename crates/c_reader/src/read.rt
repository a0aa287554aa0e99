//! The reader of C text of the fragment.

ghost use Rattle.std.specs.Prelude.{◌≡◌, ◌<◌, ◌^◌, length, IfErr, IfOk};
ghost use Rattle.c_syntax.specs.Fragment.{IsText};
ghost use Rattle.c_syntax.specs.Plain.{plain_program};
ghost use Rattle.c_syntax.specs.Tree.{Program};
ghost use Rattle.pl_lexer.specs.Proper.{IsName};
ghost use Rattle.c_reader.specs.Reads.{IfNotFragment, IsFirstWrong, IsReadAs};

use crate::consume::program_from;
use crate::error::ReadCError;
use c_forms::read_forms;
use c_rules::first_breach;
use c_syntax::CProgram;
use std::alloc::Global;

/// Reads a C text of the fragment: the one program of which the bytes are the text.
///
/// # Errors
/// - `NotFragment` where the bytes are the text of no program of the fragment, with the first wrong place: the end of their
///   longest front that begins some text of the forms, which is their length where the text ends too early; or, in a text
///   of the forms, the first byte of those that break a rule on names, types, numbers, prototypes or threads.
/// - `Memory` only for want of memory.
pub fn read_c(alloc: Global, bytes: &[u8]) -> Result<CProgram, ReadCError>
    requires { length bytes.now < 2 ^ 32 }
    ensures found { IfOk result (λ c. IsText IsName bytes.now (plain_program c)) }
    ensures only { (p : Program) → IsText IsName bytes.now p → IsReadAs result p }
    ensures refused { IfErr result (λ e. IfNotFragment e (IsFirstWrong bytes.now)) }
{
    let source = read_forms(alloc, bytes)?;
    if let Some(place) = first_breach(alloc, &source)? {
        return Err(ReadCError::NotFragment(place));
    }
    Ok(program_from(alloc, source)?)
}
