// A statement is copied.

use crate::copied_stmt;
use cs_body::{BinaryOp, Expr, Literal, Stmt};
use dc_base::{Boxed, NoMemory};
use std::alloc::Global;
use std::test::Fail;

// `return 2 + a3;`
fn returned(alloc: Global) -> Result<Stmt, NoMemory> {
    let two = Expr::Literal {
        value: Literal::Int(2),
    };
    let sum = Expr::Binary {
        op: BinaryOp::Add,
        checked: false,
        left: Boxed::new(alloc, two)?,
        right: Boxed::new(alloc, Expr::Var { var: 3 })?,
    };
    Ok(Stmt::Return { value: Some(sum) })
}

#[test]
fn a_copy_reads_the_same(rt: HostRuntime) -> Result<(), Fail> {
    let alloc = rt.alloc();
    let whole = returned(alloc)?;
    let copy = copied_stmt(alloc, &whole)?;
    assert_eq!(rt;
        format!(in alloc; "{copy:?}")?.as_str(),
        format!(in alloc; "{whole:?}")?.as_str()
    );
    Ok(())
}
