// The rows of a program in C.
ghost use Rattle.std.specs.Prelude.{◌≡◌, IfOk, map, suc};
ghost use Rattle.std.specs.List.{All};
ghost use Rattle.pl_syntax.specs.Plain as source;
ghost use Rattle.pl_syntax.specs.Straight.{IsMain};
ghost use Rattle.c_syntax.specs.Plain as c;
ghost use Rattle.c_syntax.specs.Fragment.{IsFragment};
ghost use Rattle.pl_erase.specs.Emitted.{emitted, emitted_all, emitted_expr, emitted_fun, no_numbers, local};
ghost use Rattle.pl_erase.specs.Built.{IsBuiltExpr, IsBuilt, HasRow};

use c_syntax::{CCell, CExpr, CFun, CProgram, CStmt, CType, Local};
use pl_base::{Items, Memory, Name};
use pl_syntax::{CellExpr, Decl, Expr, FunDecl, Stmt, Straight};
use std::alloc::Global;
use std::collections::HashMap;

/// The numbers of the newest binders of names, and that of the next binder.
#[derive(Drop)]
pub struct Binders<'p> {
    numbers: HashMap<&'p str, u32>,
    next: u32,
}

/// The local of a binder.
fn local(alloc: Global, name: &Name, number: u32) -> Result<Local, Memory>
    ensures { IfOk result (λ x. x ≡ local name.now number) }
{
    Ok(Local {
        name: Name::of(alloc, name.text())?,
        number,
    })
}

impl<'p> Binders<'p> {
    ghost use Rattle.pl_erase.specs.Emitted.{no_numbers, number, local, local_of};
    ghost use Rattle.pl_erase.specs.Built.{numbers_of};

    fn new(alloc: Global) -> Binders<'p>
        ensures numbers { numbers_of result ≡ no_numbers }
        ensures next { result.next ≡ 1 }
    {
        Binders {
            numbers: HashMap::new(alloc),
            next: 1,
        }
    }

    /// The number of the newest binder of a name, or 0.
    fn number(&self, name: &Name) -> u32
        ensures { result ≡ numbers_of self.now name.now }
    {
        match self.numbers.get(name.text()) {
            Some(number) => *number,
            None => 0,
        }
    }

    /// The local for which a name stands.
    fn local(&self, alloc: Global, name: &Name) -> Result<Local, Memory>
        ensures { IfOk result (λ x. x ≡ local_of (numbers_of self.now) name.now) }
    {
        local(alloc, name, self.number(name))
    }

    fn expr(&self, alloc: Global, e: &Expr) -> Result<CExpr, Memory>
        requires { IsBuiltExpr (source.plain_expr e.now) }
        ensures { IfOk result (λ out. c.plain_expr out ≡ emitted_expr (numbers_of self.now) (source.plain_expr e.now)) }
    {
        match e {
            Expr::Int(_, n) => Ok(CExpr::Int(*n as i64)),
            Expr::Var(_, name) => Ok(CExpr::Var(self.local(alloc, name)?)),
            _ => unreachable!(),
        }
    }

    /// The local of the next binder, which is the newest of its name from now on.
    fn bind(&mut self, alloc: Global, name: &'p Name) -> Result<Local, Memory>
        ensures local { IfOk result (λ x. x ≡ local name.now self.old.next) }
        ensures numbers { IfOk result (λ x. numbers_of self.new ≡ number name.now self.old.next (numbers_of self.old)) }
        ensures next { IfOk result (λ x. self.new.next ≡ suc self.old.next) }
    {
        let number = self.next;
        let Some(next) = number.checked_add(1) else {
            return Err(Memory);
        };
        let bound = local(alloc, name, number)?;
        self.numbers.insert(name.text(), number)?;
        self.next = next;
        Ok(bound)
    }

    /// The row of a statement.
    fn row(&mut self, alloc: Global, stmt: &'p Stmt) -> Result<CStmt, Memory>
        requires { IsBuilt (source.plain_stmt stmt.now) }
        ensures { IfOk result (λ out. HasRow self.old.next (numbers_of self.old) (source.plain_stmt stmt.now) (c.plain_stmt out) self.new.next (numbers_of self.new)) }
    {
        match stmt {
            Stmt::Load(_, name, CellExpr::Whole(base), _) => {
                let cell = CCell::Whole(self.local(alloc, base)?);
                Ok(CStmt::Load(CType::I64, self.bind(alloc, name)?, cell))
            }
            Stmt::Alloc(_, name, e) => {
                let first = self.expr(alloc, e)?;
                Ok(CStmt::New(CType::PtrI64, self.bind(alloc, name)?, first))
            }
            Stmt::Free(_, name) => Ok(CStmt::Free(self.local(alloc, name)?)),
            Stmt::Print(_, e) => Ok(CStmt::Print(self.expr(alloc, e)?)),
            _ => unreachable!(),
        }
    }
}

/// The rows of statements.
fn rows(alloc: Global, list: &[Stmt]) -> Result<Vec<CStmt>, Memory>
    requires { All (λ s. IsBuilt (source.plain_stmt s)) list.now }
    ensures { IfOk result (λ out. map c.plain_stmt out.items ≡ emitted_all 1 no_numbers (map source.plain_stmt list.now)) }
{
    let mut binders = Binders::new(alloc);
    let mut rows = Vec::new(alloc);
    for stmt in list {
        rows.push(binders.row(alloc, stmt)?)?;
    }
    Ok(rows)
}

/// A function in C.
#[tactic(auto, using(crate::proofs::Sorted::main_built, pl_syntax::proofs::TreeLaws::block_list))]
fn function(alloc: Global, fun: &FunDecl) -> Result<CFun, Memory>
    requires { IsMain (source.plain_fun fun.now) }
    ensures { IfOk result (λ out. c.plain_fun out ≡ emitted_fun (source.plain_fun fun.now)) }
{
    let body = rows(alloc, fun.body.list.as_slice())?;
    Ok(CFun {
        name: Name::of(alloc, fun.name.text())?,
        result: CType::Void,
        params: Items::of(Vec::new(alloc)),
        body: Items::of(body),
    })
}

/// The C program of a straight program.
#[tactic(auto, using(crate::proofs::Fragments::fragment))]
pub fn erase(alloc: Global, straight: &Straight) -> Result<CProgram, Memory>
    ensures program { IfOk result (λ out. c.plain_program out ≡ emitted (source.plain_program straight.now)) }
    ensures fragment { IfOk result (λ out. IsFragment (c.plain_program out)) }
{
    let [Decl::Fun(main)] = straight.program().decls.as_slice() else {
        unreachable!()
    };
    let mut funs = Vec::new(alloc);
    funs.push(function(alloc, main)?)?;
    Ok(CProgram {
        structs: Items::of(Vec::new(alloc)),
        funs: Items::of(funs),
    })
}
