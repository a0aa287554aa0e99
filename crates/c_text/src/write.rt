//! Whole programs.

ghost use Rattle.std.specs.Prelude.{◌≡◌, [], ◌∷◌, List, IfOk, filter, flat_map, map};
ghost use Rattle.std.specs.List.{AllByRecursion};
ghost use Rattle.c_syntax.specs.Forms.{IsFunForm, IsProgramForm};
ghost use Rattle.c_syntax.specs.Plain.{plain_fun, plain_program};
ghost use Rattle.c_syntax.specs.Tree.{Fun};
ghost use Rattle.c_text.specs.Names.{HasNames};
ghost use Rattle.c_syntax.specs.Text.{fun_text, funs_starts, is_started, program_text, prototype_text, starter_text, struct_text};
ghost use Rattle.c_text.specs.Adds.{Adds};

use crate::pieces::put;
use crate::prelude_text::put_prelude;
use crate::program::{put_fun, put_prototype, put_struct, put_thread};
use crate::started::started;
use c_syntax::{CFun, CProgram, CStruct};
use pl_base::Memory;
use std::alloc::Global;
use std::collections::HashSet;

fn put_structs(out: &mut Vec<u8>, structs: &[CStruct]) -> Result<(), Memory>
    ensures { Adds result out.old out.new (flat_map struct_text structs.now) }
{
    for structure in structs {
        put_struct(out, structure)?;
    }
    Ok(())
}

fn put_prototypes(out: &mut Vec<u8>, funs: &[CFun]) -> Result<(), Memory>
    ensures { Adds result out.old out.new (flat_map prototype_text (map plain_fun funs.now)) }
{
    for function in funs {
        put_prototype(out, function)?;
    }
    Ok(())
}

/// The structure and the starter of a function with which threads begin, and nothing for another one.
fn put_if_started(out: &mut Vec<u8>, names: &HashSet<&str>, function: &CFun) -> Result<(), Memory>
    ensures { (all : List Fun) → HasNames (λ k. k.now) names.now (funs_starts all) →
        Adds result out.old out.new (flat_map starter_text (filter (is_started all) (plain_fun function.now ∷ []))) }
{
    if !names.contains(function.name.text()) {
        return Ok(());
    }
    put_thread(out, function)
}

/// The structures and starters of the functions with which threads begin.
fn put_threads(out: &mut Vec<u8>, funs: &[CFun]) -> Result<(), Memory>
    ensures { Adds result out.old out.new (flat_map starter_text (filter (is_started (map plain_fun funs.now)) (map plain_fun funs.now))) }
{
    let names = started(*out.allocator(), funs)?;
    for function in funs {
        put_if_started(out, &names, function)?;
    }
    Ok(())
}

fn put_funs(out: &mut Vec<u8>, funs: &[CFun]) -> Result<(), Memory>
    requires { AllByRecursion IsFunForm (map plain_fun funs.now) }
    ensures { Adds result out.old out.new (flat_map fun_text (map plain_fun funs.now)) }
{
    for function in funs {
        put_fun(out, function)?;
    }
    Ok(())
}

/// The one text of a program of the fragment: the prelude, the structures, the prototypes, the structures and starters of
/// threads, the functions, and the fixed `main`. Its bytes are ASCII. The program nests at most 128 levels deep.
#[tactic(auto, unfolding(c_syntax::specs::Text::program_text))]
pub fn write_c(alloc: Global, program: &CProgram) -> Result<Vec<u8>, Memory>
    requires { IsProgramForm (plain_program program.now) }
    ensures { IfOk result (λ bytes. bytes.items ≡ program_text (plain_program program.now)) }
{
    let funs = program.funs.as_slice();
    let mut out = Vec::new(alloc);
    put_prelude(&mut out)?;
    put_structs(&mut out, program.structs.as_slice())?;
    put_prototypes(&mut out, funs)?;
    put_threads(&mut out, funs)?;
    put_funs(&mut out, funs)?;
    put(&mut out, b"int main(void) {\n  f_main();\n  return 0;\n}\n")?;
    Ok(out)
}
