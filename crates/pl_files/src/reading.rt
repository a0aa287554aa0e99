//! The program of a file's bytes.

ghost use Rattle.std.specs.Prelude.{◌≤◌, length, IfOk, IfErr};
ghost use Rattle.pl_syntax.specs.Plain.{plain_program};
ghost use Rattle.pl_syntax.specs.Tree as t;
ghost use Rattle.pl_files.specs.Files.{IsFile, IsTypedFile, NoFile, NoTypedFile, IsButForMemory};

use crate::error::FileError;
use pl_lexer::lex;
use pl_parser::parse;
use pl_syntax::{Program, Typed};
use pl_types::type_check;
use std::alloc::Global;

/// The program of a file of at most 1,048,576 bytes, before the rules on names and sorts.
///
/// # Errors
/// The first reason for which the bytes are no file: UTF-8 before all, then tokens by place, then the grammar and its limits.
pub fn parse_file(alloc: Global, bytes: &[u8]) -> Result<Program, FileError>
    requires { length bytes.now ≤ 1048576 }
    ensures program { IfOk result (λ p. IsFile bytes.now (plain_program p)) }
    ensures refusal { IfErr result (NoFile bytes.now) }
    ensures all_files { (p : t.Program) → IsFile bytes.now p → IsButForMemory p result }
{
    let tokens = lex(alloc, bytes)?;
    Ok(parse(alloc, &tokens)?)
}

/// The typed program of a file of at most 1,048,576 bytes.
///
/// # Errors
/// As of `parse_file`; and of a file the first rule that its program breaks.
pub fn read_file(alloc: Global, bytes: &[u8]) -> Result<Typed, FileError>
    requires { length bytes.now ≤ 1048576 }
    ensures program { IfOk result (λ typed. IsTypedFile bytes.now (plain_program typed)) }
    ensures refusal { IfErr result (NoTypedFile bytes.now) }
    ensures all_files { (p : t.Program) → IsTypedFile bytes.now p → IsButForMemory p result }
{
    let program = parse_file(alloc, bytes)?;
    Ok(type_check(alloc, program)?)
}
