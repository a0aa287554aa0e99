// The C of a program.
ghost use Rattle.std.specs.Prelude.{IfOk};
ghost use Rattle.pl_syntax.specs.Plain.{plain_program};
ghost use Rattle.pl_top.specs.Goes.{IsEmission};

use c_syntax::CProgram;
use c_text::write_c;
use pl_base::Memory;
use pl_erase::erase;
use pl_syntax::Straight;
use std::alloc::Global;

/// A C program and its text.
#[derive(Drop)]
pub struct Emitted {
    pub program: CProgram,
    pub text: Vec<u8>,
}

/// The C program of a straight program, and its text.
pub fn emit(alloc: Global, straight: &Straight) -> Result<Emitted, Memory>
    ensures { IfOk result (IsEmission (plain_program straight.now)) }
{
    let program = erase(alloc, straight)?;
    let text = write_c(alloc, &program)?;
    Ok(Emitted { program, text })
}
