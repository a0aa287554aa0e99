ghost use Rattle.std.specs.Prelude.{◌≡◌, IfOk, OnOk, map, suc, max, ◌<◌, ◌^◌, length, ◌++◌, ◌∷◌, [], ℕ};
ghost use Rattle.std.specs.Prelude.{List};
ghost use Rattle.c_meaning.specs.declared.code.Block.{Block};
ghost use Rattle.c_syntax.specs.Plain.{plain_stmt, plain_stmts, plain_expr};
ghost use Rattle.c_meaning.specs.Plain.{plain_basic, plain_term};
ghost use Rattle.c_meaning.specs.Tree.{Do, Make, Stmts, both};
ghost use Rattle.c_meaning.specs.Resolve.{term_of, last_of, resolved};
ghost use Rattle.c_meaning.specs.Blocks.{IsTable};
ghost use Rattle.c_meaning.specs.Compiled.{Added, Compiled, CompiledOne, names_with};

use crate::resolve::{Pointer, function_place, resolve, resolve_all, resolve_cell, resolve_first};
use crate::term::{Basic, Place, Term};
use c_syntax::{CExpr, CFun, CStmt, CStruct};
use pl_base::{Items, Memory};
use std::alloc::Global;

/// An operation of a block; the blocks inside it are named by number.
#[derive(Drop)]
pub(crate) enum Op {
    Let(u32, Term),
    If(Term, u32, u32),
    While(u32, Term, u32),
    Do(Basic),
}

#[derive(Drop)]
pub(crate) struct Block {
    pub(crate) ops: Items<Op>,
}

/// How deep blocks lie in statements, and the greatest local that these bind.
#[derive(Clone, Copy, PartialEq, Eq, Debug)]
pub(crate) struct Size {
    pub(crate) depth: u32,
    pub(crate) greatest: u32,
}

/// The block of these statements, after the blocks inside it.
#[cycle(compile)]
pub(crate) fn compile(
    alloc: Global,
    structs: &[CStruct],
    funs: &[CFun],
    pointers: &[Pointer],
    list: &[CStmt],
    code: &mut Vec<Block>,
) -> Result<(u32, Size), Memory>
    requires { IsTable code.old.items }
    ensures { IfOk result (λ r. Compiled code.old.items code.new.items (resolved (names_with structs.now funs.now pointers.now) (plain_stmts list.now)) r.0 r.1.depth r.1.greatest) }
{
    let mut ops = Vec::new(alloc);
    let mut depth = 0;
    let mut greatest = 0;
    for s in list {
        add_before(alloc, structs, funs, pointers, s, &mut ops)?;
        let (op, size) = compile_one(alloc, structs, funs, pointers, s, code)?;
        ops.push(op)?;
        depth = larger(depth, size.depth);
        greatest = larger(greatest, size.greatest);
    }
    let block = push_block(ops, code)?;
    Ok((block, Size { depth, greatest }))
}

fn push_block(ops: Vec<Op>, code: &mut Vec<Block>) -> Result<u32, Memory>
    ensures { IfOk result (λ k. (k ≡ length code.old.items) × (length ops.items < 2 ^ 32) × (code.new.items ≡ code.old.items ++ record { ops = ops.items } ∷ [])) }
{
    if ops.len() >= 4294967296 {
        return Err(Memory);
    }
    let Ok(number) = u32::try_from(code.len()) else {
        return Err(Memory);
    };
    code.push(Block {
        ops: Items::of(ops),
    })?;
    Ok(number)
}

// The fork and the call of a `par`.
#[tactic(auto, using(crate::proofs::Tables::added_par))]
fn add_before(
    alloc: Global,
    structs: &[CStruct],
    funs: &[CFun],
    pointers: &[Pointer],
    s: &CStmt,
    ops: &mut Vec<Op>,
) -> Result<(), Memory>
    ensures { OnOk result (Added (names_with structs.now funs.now pointers.now) (plain_stmt s.now) ops.old.items ops.new.items) }
{
    match s {
        CStmt::Par(f, args, g, others) => {
            let fork = Basic::Fork(
                function_place(funs, f)?,
                resolve_all(alloc, args.as_slice())?,
            );
            let call = Basic::Call(
                None,
                function_place(funs, g)?,
                resolve_all(alloc, others.as_slice())?,
            );
            ops.push(Op::Do(fork))?;
            ops.push(Op::Do(call))?;
            Ok(())
        }
        _ => Ok(()),
    }
}

fn event(basic: Basic) -> (Op, Size)
    ensures { (T : List Block) → IsTable T → CompiledOne T T (Do (plain_basic basic)) result.0 result.1.depth result.1.greatest }
{
    let greatest = basic.binds();
    (Op::Do(basic), Size { depth: 0, greatest })
}

// The last statement that stands for a statement of C.
#[cycle(compile)]
fn compile_one(
    alloc: Global,
    structs: &[CStruct],
    funs: &[CFun],
    pointers: &[Pointer],
    s: &CStmt,
    code: &mut Vec<Block>,
) -> Result<(Op, Size), Memory>
    requires { IsTable code.old.items }
    ensures { IfOk result (λ r. CompiledOne code.old.items code.new.items (last_of (names_with structs.now funs.now pointers.now) (plain_stmt s.now)) r.0 r.1.depth r.1.greatest) }
{
    match s {
        CStmt::Let(_, x, e) => {
            let op = Op::Let(x.number, resolve(alloc, e)?);
            Ok((
                op,
                Size {
                    depth: 0,
                    greatest: x.number,
                },
            ))
        }
        CStmt::If(e, first, second) => {
            let (a, left) = compile(alloc, structs, funs, pointers, first.as_slice(), code)?;
            let (b, right) = compile(alloc, structs, funs, pointers, second.as_slice(), code)?;
            let size = enclosing(left, right)?;
            Ok((Op::If(resolve(alloc, e)?, a, b), size))
        }
        CStmt::While(loads, e, body) => {
            let (l, left) = compile(alloc, structs, funs, pointers, loads.as_slice(), code)?;
            let (b, right) = compile(alloc, structs, funs, pointers, body.as_slice(), code)?;
            let size = enclosing(left, right)?;
            Ok((Op::While(l, resolve(alloc, e)?, b), size))
        }
        CStmt::Load(_, x, cell) => {
            let place = resolve_cell(alloc, structs, pointers, cell)?;
            Ok(event(Basic::Load(x.number, place, false)))
        }
        CStmt::Store(cell, e) => {
            let place = resolve_cell(alloc, structs, pointers, cell)?;
            Ok(event(Basic::Store(place, resolve(alloc, e)?, false)))
        }
        CStmt::New(_, x, e) => Ok(event(make(alloc, x.number, false, e, Term::Int(1))?)),
        CStmt::NewArray(_, x, e, count) => {
            let count = resolve(alloc, count)?;
            Ok(event(make(alloc, x.number, false, e, count)?))
        }
        CStmt::NewAtomic(x, e) => Ok(event(make(alloc, x.number, true, e, Term::Int(1))?)),
        CStmt::NewStruct(x, _, inits) => {
            let first = resolve_first(alloc, inits.as_slice())?;
            Ok(event(Basic::Make(x.number, false, first, Term::Int(1))))
        }
        CStmt::Free(base) => Ok(event(Basic::Free(base.number))),
        CStmt::AtomicLoad(x, base) => Ok(event(Basic::Load(
            x.number,
            Place::Whole(base.number),
            true,
        ))),
        CStmt::AtomicStore(base, e) => Ok(event(Basic::Store(
            Place::Whole(base.number),
            resolve(alloc, e)?,
            true,
        ))),
        CStmt::Cas(x, base, old, new) => {
            let expected = resolve(alloc, old)?;
            Ok(event(Basic::Cas(x.number, base.number, expected, resolve(alloc, new)?)))
        }
        CStmt::NewLock(x) => Ok(event(Basic::NewLock(x.number))),
        CStmt::Acquire(lock) => Ok(event(Basic::Acquire(lock.number))),
        CStmt::Release(lock) => Ok(event(Basic::Release(lock.number))),
        CStmt::Read(x) => Ok(event(Basic::Read(x.number))),
        CStmt::Print(e) => Ok(event(Basic::Print(resolve(alloc, e)?))),
        CStmt::Call(f, args) => {
            let place = function_place(funs, f)?;
            Ok(event(Basic::Call(None, place, resolve_all(alloc, args.as_slice())?)))
        }
        CStmt::CallLet(_, x, f, args) => {
            let place = function_place(funs, f)?;
            Ok(event(Basic::Call(Some(x.number), place, resolve_all(alloc, args.as_slice())?)))
        }
        CStmt::Par(_, _, _, _) => Ok(event(Basic::Join)),
        CStmt::Return(e) => Ok(event(Basic::Return(resolve(alloc, e)?))),
    }
}

fn make(alloc: Global, x: u32, atomic: bool, first: &CExpr, count: Term) -> Result<Basic, Memory>
    ensures { IfOk result (λ b. plain_basic b ≡ Make x atomic (term_of (plain_expr first.now) ∷ []) (plain_term count)) }
{
    let mut list = Vec::new(alloc);
    list.push(resolve(alloc, first)?)?;
    Ok(Basic::Make(x, atomic, Items::of(list), count))
}

fn larger(left: u32, right: u32) -> u32
    ensures { result ≡ max left right }
{
    if left < right { right } else { left }
}

fn enclosing(left: Size, right: Size) -> Result<Size, Memory>
    ensures { IfOk result (λ s. (s.depth ≡ suc (max left.depth right.depth)) × (s.greatest ≡ max left.greatest right.greatest)) }
{
    match larger(left.depth, right.depth).checked_add(1) {
        Some(depth) => Ok(Size {
            depth,
            greatest: larger(left.greatest, right.greatest),
        }),
        None => Err(Memory),
    }
}
