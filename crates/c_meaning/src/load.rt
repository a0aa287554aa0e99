ghost use Rattle.std.specs.Prelude.{◌≡◌, [], ◌<◌, ◌≤◌, ◌++◌, List, ℕ, IfOk, map, max, suc, length};
ghost use Rattle.c_syntax.specs.Plain.{plain_fun, plain_stmts, plain_program};
ghost use Rattle.c_meaning.specs.Tree as tree;
ghost use Rattle.c_meaning.specs.Local.{nest};
ghost use Rattle.c_meaning.specs.Blocks.{IsTable, tree};
ghost use Rattle.c_meaning.specs.Compiled.{Extends, names_with};
ghost use Rattle.c_meaning.specs.Resolve.{resolved, function_with, functions_of, pointers_of, pointers_in, place_of};
ghost use Rattle.c_meaning.specs.Machine.{IsCode, function_shown, functions_shown};
ghost use Rattle.c_meaning.specs.Loads.{Loaded};

use crate::code::{Block, Size, compile};
use crate::resolve::{Pointer, add_params, add_pointers};
use crate::thread::Function;
use c_syntax::{CFun, CProgram, CStruct};
use pl_base::Memory;
use std::alloc::Global;

fn pointers_of(alloc: Global, structs: &[CStruct], f: &CFun) -> Result<Vec<Pointer>, Memory>
    ensures { IfOk result (λ p. p.items ≡ pointers_of structs.now f.now.params ++ pointers_in structs.now (plain_stmts f.now.body)) }
{
    let mut pointers = Vec::new(alloc);
    add_params(structs, f.params.as_slice(), &mut pointers)?;
    add_pointers(structs, f.body.as_slice(), &mut pointers)?;
    Ok(pointers)
}

// One more than the greatest local of a function with so many parameters.
fn slots_of(params: usize, greatest: u32) -> Result<u32, Memory>
    ensures { IfOk result (λ n. n ≡ suc (max params greatest)) }
{
    let Ok(params) = u32::try_from(params) else {
        return Err(Memory);
    };
    match greatest_of(params, greatest).checked_add(1) {
        Some(slots) => Ok(slots),
        None => Err(Memory),
    }
}

fn greatest_of(left: u32, right: u32) -> u32
    ensures { result ≡ max left right }
{
    if left < right { right } else { left }
}

// A function of the program, in the table.
fn load_function(
    alloc: Global,
    structs: &[CStruct],
    funs: &[CFun],
    f: &CFun,
    code: &mut Vec<Block>,
) -> Result<Function, Memory>
    requires { IsTable code.old.items }
    ensures { IfOk result (λ r. Loaded code.old.items code.new.items r (function_with (length f.now.params) (resolved (names_with structs.now funs.now (pointers_of structs.now f.now.params ++ pointers_in structs.now (plain_stmts f.now.body))) (plain_stmts f.now.body)))) }
{
    let pointers = pointers_of(alloc, structs, f)?;
    let (body, size) = compile(
        alloc,
        structs,
        funs,
        pointers.as_slice(),
        f.body.as_slice(),
        code,
    )?;
    let slots = slots_of(f.params.as_slice().len(), size.greatest)?;
    Ok(Function {
        body,
        slots,
        depth: size.depth,
    })
}

/// The functions of a program, in the table.
pub(crate) fn load(
    alloc: Global,
    program: &CProgram,
    code: &mut Vec<Block>,
) -> Result<Vec<Function>, Memory>
    requires { code.old.items ≡ [] }
    ensures code { IfOk result (λ fs. IsCode code.new.items fs.items) }
    ensures functions { IfOk result (λ fs. functions_shown code.new.items fs.items ≡ functions_of (plain_program program.now)) }
{
    let structs = program.structs.as_slice();
    let funs = program.funs.as_slice();
    let mut functions = Vec::new(alloc);
    for f in funs {
        let function = load_function(alloc, structs, funs, f, code)?;
        functions.push(function)?;
    }
    Ok(functions)
}
