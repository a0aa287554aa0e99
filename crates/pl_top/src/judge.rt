// What a file is found to be.
ghost use Rattle.std.specs.Prelude.{◌≡◌, ◌≤◌, ◌∷◌, [], length, IfOk, IfErr};
ghost use Rattle.pl_syntax.specs.Tree as t;
ghost use Rattle.pl_syntax.specs.Plain.{plain_program};
ghost use Rattle.pl_syntax.specs.Straight.{IsMain};
ghost use Rattle.pl_files.specs.Files.{IsTypedFile};
ghost use Rattle.pl_top.specs.Lines.{not_built_line};
ghost use Rattle.pl_top.specs.Judging.{IsReason, says, says_why, Refuses, JudgesFmt};
ghost use Rattle.pl_top.specs.Checks.{said, IfRefused, Finds, IsBuiltFile, AcceptedAs};

use crate::lines::{self, duty_line, file_line};
use pl_base::{Memory, Pos};
use pl_files::{FileError, parse_file, read_file};
use pl_print::print;
use pl_syntax::{Straight, Typed};
use pl_walk::{WalkError, walk_function};
use std::alloc::Global;

/// A status, and the text that goes with it.
#[derive(Drop)]
pub struct Answer {
    pub status: u8,
    pub text: Vec<u8>,
}

/// Why nothing is put or run.
#[derive(Drop)]
pub enum PlanError {
    /// A file or an input is refused, and this is said of it.
    Refused(Answer),
    Memory,
}

impl From<Memory> for PlanError {
    ghost use Rattle.std.specs.Prelude.{◌≡◌};
    ghost use Rattle.pl_top.specs.declared.judge.PlanError.TheVariants.{Memory};

    ghost from_gives = { λ _ e. e ≡ Memory };

    fn from(_: Memory) -> PlanError {
        PlanError::Memory
    }
}

// What is said of the first duty that is left undone, if there is one.
fn first_undone(alloc: Global, straight: &Straight) -> Result<Option<Answer>, Memory>
    ensures { IfOk result (λ found. (main : t.FunDecl) → (plain_program straight.now).decls ≡ t.Fun main ∷ [] → IsMain main → Finds main found) }
{
    let _program = straight.program();
    match walk_function(alloc, straight, 0) {
        Ok(()) => Ok(None),
        Err(WalkError::Undone(pos, duty)) => {
            let text = duty_line(alloc, pos, duty)?;
            Ok(Some(Answer { status: 1, text }))
        }
        Err(WalkError::Memory) => Err(Memory),
    }
}

// What is said of a file that isn't read.
fn unread(alloc: Global, error: FileError) -> PlanError
    ensures { IfRefused result (λ o. IsReason error × (o ≡ says_why error)) }
{
    let status = match error {
        FileError::TooMany(_) => 10,
        _ => 3,
    };
    match file_line(alloc, &error) {
        Ok(text) => PlanError::Refused(Answer { status, text }),
        Err(Memory) => PlanError::Memory,
    }
}

// What is said of a form that isn't built.
fn not_built(alloc: Global, place: Pos) -> PlanError
    ensures { IfRefused result (λ o. o ≡ says 3 (not_built_line place)) }
{
    match lines::not_built_line(alloc, place) {
        Ok(text) => PlanError::Refused(Answer { status: 3, text }),
        Err(Memory) => PlanError::Memory,
    }
}

// The typed program of a file's bytes.
fn typed_of(alloc: Global, bytes: &[u8]) -> Result<Typed, PlanError>
    requires { length bytes.now ≤ 1048576 }
    ensures is { IfOk result (λ typed. IsTypedFile bytes.now (plain_program typed)) }
    ensures only { IfOk result (λ typed. (q : t.Program) → IsTypedFile bytes.now q → q ≡ plain_program typed) }
    ensures refused { IfErr result (λ e. IfRefused e (Refuses bytes.now)) }
{
    match read_file(alloc, bytes) {
        Ok(typed) => Ok(typed),
        Err(error) => Err(unread(alloc, error)),
    }
}

// The same, if all its forms are built.
fn straight_of(alloc: Global, bytes: &[u8]) -> Result<Straight, PlanError>
    requires { length bytes.now ≤ 1048576 }
    ensures is { IfOk result (λ straight. IsBuiltFile bytes.now (plain_program straight)) }
    ensures refused { IfErr result (λ e. IfRefused e (Refuses bytes.now)) }
{
    let typed = typed_of(alloc, bytes)?;
    match Straight::of(typed) {
        Ok(straight) => Ok(straight),
        Err(place) => Err(not_built(alloc, place)),
    }
}

/// The program of a file's bytes, if no duty of it is left undone.
///
/// # Errors
///
/// What is said of a file that is refused, and want of memory.
pub fn check_bytes(alloc: Global, bytes: &[u8]) -> Result<Straight, PlanError>
    requires { length bytes.now ≤ 1048576 }
    ensures accepted { IfOk result (λ straight. AcceptedAs bytes.now (plain_program straight)) }
    ensures refused { IfErr result (λ e. IfRefused e (Refuses bytes.now)) }
{
    let straight = straight_of(alloc, bytes)?;
    let _program = straight.program();
    match first_undone(alloc, &straight)? {
        None => Ok(straight),
        Some(answer) => Err(PlanError::Refused(answer)),
    }
}

/// The canonical text of a file's bytes.
///
/// # Errors
///
/// What is said of bytes that are no file, and want of memory.
pub fn format_bytes(alloc: Global, bytes: &[u8]) -> Result<Answer, PlanError>
    requires { length bytes.now ≤ 1048576 }
    ensures formatted { IfOk result (λ a. JudgesFmt bytes.now (said a)) }
    ensures refused { IfErr result (λ e. IfRefused e (JudgesFmt bytes.now)) }
{
    match parse_file(alloc, bytes) {
        Ok(program) => {
            let text = print(alloc, &program)?;
            Ok(Answer { status: 0, text })
        }
        Err(error) => Err(unread(alloc, error)),
    }
}
