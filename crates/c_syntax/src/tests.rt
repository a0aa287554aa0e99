use super::*;
use pl_base::{Items, Name};
use std::test::*;

fn crosses<T: Send + Sync>(_value: &T) {}

#[test]
fn a_program_crosses_threads(rt: HostRuntime) -> Result<(), Fail> {
    let alloc = rt.alloc();
    let mut body = Vec::new(alloc);
    body.push(CStmt::Print(CExpr::Int(5)))?;
    let function = CFun {
        name: Name::of(alloc, "main")?,
        result: CType::Void,
        params: Items::of(Vec::new(alloc)),
        body: Items::of(body),
    };
    crosses(&function);
    let mut funs = Vec::new(alloc);
    funs.push(function)?;
    let program = CProgram {
        structs: Items::of(Vec::new(alloc)),
        funs: Items::of(funs),
    };
    crosses(&program);
    assert_eq!(rt; program.funs.as_slice().len(), 1);
    Ok(())
}
