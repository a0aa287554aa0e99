ghost use Rattle.std.specs.Prelude.{◌≡◌, ◌+◌, ◌++◌, ℕ, List, IfOk, OnOk, map};
ghost use Rattle.c_syntax.specs.declared.kind.CType.TheVariants.{PtrStruct};
ghost use Rattle.c_syntax.specs.Plain.{plain_expr, plain_cell, plain_init, plain_stmt, plain_stmts};
ghost use Rattle.c_meaning.specs.Plain.{plain_term, plain_place, plain_basic};
ghost use Rattle.c_meaning.specs.Resolve.{Names, place_of, struct_place, pointer_of, pointers_of, pointers_in_one, pointers_in, structure_of, members_at, field_place, term_of, cell_of};

use crate::term::{Place, Term};
use c_syntax::{CCell, CExpr, CFun, CInit, CMember, CParam, CStmt, CStruct, CType};
use pl_base::{Items, Memory, Name};
use std::alloc::Global;

/// A local that points to a structure, and the structure's place in the program.
#[derive(Clone, Copy, Debug, PartialEq, Eq)]
pub(crate) struct Pointer {
    pub(crate) local: u32,
    pub(crate) structure: u32,
}

/// The place of a structure.
pub(crate) fn struct_place(structs: &[CStruct], name: &Name) -> Result<u32, Memory>
    ensures { IfOk result (λ place. place ≡ struct_place structs.now name.now) }
{
    let mut place = 0;
    for s in structs {
        if name.same(&s.name) {
            break;
        }
        place = next_place(place)?;
    }
    Ok(place)
}

/// The place of a function.
pub(crate) fn function_place(funs: &[CFun], name: &Name) -> Result<u32, Memory>
    ensures { IfOk result (λ place. place ≡ place_of (map (λ f. f.name) funs.now) name.now) }
{
    let mut place = 0;
    for f in funs {
        if name.same(&f.name) {
            break;
        }
        place = next_place(place)?;
    }
    Ok(place)
}

fn member_place(members: &[CMember], name: &Name) -> Result<u32, Memory>
    ensures { IfOk result (λ place. place ≡ place_of (map (λ m. m.name) members.now) name.now) }
{
    let mut place = 0;
    for m in members {
        if name.same(&m.name) {
            break;
        }
        place = next_place(place)?;
    }
    Ok(place)
}

fn next_place(place: u32) -> Result<u32, Memory>
    ensures { IfOk result (λ next. next ≡ place + 1) }
{
    match place.checked_add(1) {
        Some(next) => Ok(next),
        None => Err(Memory),
    }
}

fn add_pointer(
    structs: &[CStruct],
    x: u32,
    kind: &CType,
    pointers: &mut Vec<Pointer>,
) -> Result<(), Memory>
    ensures { OnOk result (pointers.new.items ≡ pointers.old.items ++ pointer_of structs.now x kind.now) }
{
    if let CType::PtrStruct(name) = kind {
        add_structure(structs, x, name, pointers)?;
    }
    Ok(())
}

fn add_structure(
    structs: &[CStruct],
    x: u32,
    name: &Name,
    pointers: &mut Vec<Pointer>,
) -> Result<(), Memory>
    ensures { OnOk result (pointers.new.items ≡ pointers.old.items ++ pointer_of structs.now x (PtrStruct name.now)) }
{
    let structure = struct_place(structs, name)?;
    pointers.push(Pointer {
        local: x,
        structure,
    })?;
    Ok(())
}

/// Adds the parameters that point to structures.
pub(crate) fn add_params(
    structs: &[CStruct],
    params: &[CParam],
    pointers: &mut Vec<Pointer>,
) -> Result<(), Memory>
    ensures { OnOk result (pointers.new.items ≡ pointers.old.items ++ pointers_of structs.now params.now) }
{
    for p in params {
        add_pointer(structs, p.local.number, &p.kind, pointers)?;
    }
    Ok(())
}

/// Adds the locals that these statements bind and that point to structures.
#[cycle(pointers)]
pub(crate) fn add_pointers(
    structs: &[CStruct],
    list: &[CStmt],
    pointers: &mut Vec<Pointer>,
) -> Result<(), Memory>
    ensures { OnOk result (pointers.new.items ≡ pointers.old.items ++ pointers_in structs.now (plain_stmts list.now)) }
{
    for s in list {
        add_pointers_of(structs, s, pointers)?;
    }
    Ok(())
}

#[cycle(pointers)]
fn add_pointers_of(
    structs: &[CStruct],
    s: &CStmt,
    pointers: &mut Vec<Pointer>,
) -> Result<(), Memory>
    ensures { OnOk result (pointers.new.items ≡ pointers.old.items ++ pointers_in_one structs.now (plain_stmt s.now)) }
{
    match s {
        CStmt::Let(kind, x, _) => add_pointer(structs, x.number, kind, pointers),
        CStmt::Load(kind, x, _) => add_pointer(structs, x.number, kind, pointers),
        CStmt::CallLet(kind, x, _, _) => add_pointer(structs, x.number, kind, pointers),
        CStmt::NewStruct(x, name, _) => add_structure(structs, x.number, name, pointers),
        CStmt::If(_, first, second) => {
            add_pointers(structs, first.as_slice(), pointers)?;
            add_pointers(structs, second.as_slice(), pointers)
        }
        CStmt::While(loads, _, body) => {
            add_pointers(structs, loads.as_slice(), pointers)?;
            add_pointers(structs, body.as_slice(), pointers)
        }
        _ => Ok(()),
    }
}

fn structure_of(pointers: &[Pointer], x: u32) -> Option<u32>
    ensures { result ≡ structure_of pointers.now x }
{
    for p in pointers {
        if p.local == x {
            return Some(p.structure);
        }
    }
    None
}

fn members_at(structs: &[CStruct], structure: Option<u32>) -> &[CMember]
    ensures { result.now ≡ members_at structs.now structure }
{
    match structure {
        None => &[],
        Some(k) => match structs.get(k as usize) {
            None => &[],
            Some(s) => s.members.as_slice(),
        },
    }
}

/// The same expression, with its locals by number.
pub(crate) fn resolve(alloc: Global, e: &CExpr) -> Result<Term, Memory>
    ensures { IfOk result (λ made. plain_term made ≡ term_of (plain_expr e.now)) }
{
    match e {
        CExpr::Int(n) => Ok(Term::Int(*n)),
        CExpr::Truth(b) => Ok(Term::Truth(*b)),
        CExpr::Null => Ok(Term::Null),
        CExpr::Var(x) => Ok(Term::Var(x.number)),
        CExpr::Neg(inner) => {
            let made = resolve(alloc, inner)?;
            Ok(Term::Neg(Box::new(alloc, made)?))
        }
        CExpr::Not(inner) => {
            let made = resolve(alloc, inner)?;
            Ok(Term::Not(Box::new(alloc, made)?))
        }
        CExpr::Bin(op, left, right) => {
            let a = resolve(alloc, left)?;
            let b = resolve(alloc, right)?;
            Ok(Term::Bin(*op, Box::new(alloc, a)?, Box::new(alloc, b)?))
        }
    }
}

pub(crate) fn resolve_all(alloc: Global, list: &[CExpr]) -> Result<Items<Term>, Memory>
    ensures { IfOk result (λ made. map plain_term made ≡ map term_of (map plain_expr list.now)) }
{
    let mut made = Vec::new(alloc);
    for e in list {
        let term = resolve(alloc, e)?;
        made.push(term)?;
    }
    Ok(Items::of(made))
}

pub(crate) fn resolve_first(alloc: Global, list: &[CInit]) -> Result<Items<Term>, Memory>
    ensures { IfOk result (λ made. map plain_term made ≡ map (λ i. term_of i.value) (map plain_init list.now)) }
{
    let mut made = Vec::new(alloc);
    for i in list {
        let term = resolve(alloc, &i.value)?;
        made.push(term)?;
    }
    Ok(Items::of(made))
}

/// A cell, with its base and its field by number.
pub(crate) fn resolve_cell(
    alloc: Global,
    structs: &[CStruct],
    pointers: &[Pointer],
    cell: &CCell,
) -> Result<Place, Memory>
    ensures { IfOk result (λ made. (functions : List (List ℕ)) → plain_place made ≡ cell_of (record { structs = structs.now; functions = functions; pointers = pointers.now }) (plain_cell cell.now)) }
{
    match cell {
        CCell::Whole(base) => Ok(Place::Whole(base.number)),
        CCell::At(base, index) => Ok(Place::At(base.number, resolve(alloc, index)?)),
        CCell::Field(base, member) => {
            let members = members_at(structs, structure_of(pointers, base.number));
            Ok(Place::Field(base.number, member_place(members, member)?))
        }
    }
}
