// A lone body is called, on values from outside.

ghost use Rattle.std.specs.Prelude.{◌≡◌, IfOk, [], ◌∷◌, false};
ghost use Rattle.cs_meaning.specs.Assigned.{IsDefinitelyAssigned};
ghost use Rattle.cs_meaning.specs.Typed.{IsArithmetic, IsLoneTyped, int_ty};
ghost use Rattle.cs_meaning.specs.Samples.{flat_stmts, lone_vars};

use crate::run::lone_exec;
use cs_body::{BinaryOp, Body, Expr, Home, Literal, Role, Stmt, Var};
use dc_base::{Boxed, Core, Items, NoMemory, Prim_, Seq, Ty};
use std::alloc::Global;
use std::test::Fail;

fn int() -> Ty
    ensures { result ≡ int_ty }
{
    Ty {
        core: Core::Prim(Prim_::I4),
        arrays: 0,
        lent: false,
    }
}

fn variables(alloc: Global) -> Result<Seq<Var>, NoMemory>
    ensures { IfOk result (λ vars. vars ≡ lone_vars) }
{
    let param = Var {
        ty: int(),
        role: Role::Param,
    };
    let slot = Var {
        ty: int(),
        role: Role::SlotVar,
    };
    let vars = Vec::from_array(alloc, [param, param, param, param, slot, slot, slot])?;
    Ok(Seq::of(vars))
}

// `int v4 = a0; int v5 = a1; int v6 = v4 op v5; return v6;`
fn flat_stmts(alloc: Global, op: BinaryOp) -> Result<Items<Stmt>, NoMemory>
    ensures { IfOk result (λ stmts. stmts ≡ flat_stmts op) }
{
    let mut stmts = Items::new(alloc);
    stmts.push(Stmt::Decl {
        var: 4,
        value: Expr::Var { var: 0 },
    })?;
    stmts.push(Stmt::Decl {
        var: 5,
        value: Expr::Var { var: 1 },
    })?;
    let computed = Expr::Binary {
        op,
        checked: false,
        left: Boxed::new(alloc, Expr::Var { var: 4 })?,
        right: Boxed::new(alloc, Expr::Var { var: 5 })?,
    };
    stmts.push(Stmt::Decl {
        var: 6,
        value: computed,
    })?;
    stmts.push(Stmt::Return {
        value: Some(Expr::Var { var: 6 }),
    })?;
    Ok(stmts)
}

fn flat(alloc: Global, op: BinaryOp) -> Result<Body, NoMemory>
    requires { IsArithmetic op }
    ensures typed { IfOk result IsLoneTyped }
    ensures assigned { IfOk result IsDefinitelyAssigned }
{
    let home = Home {
        owner: None,
        instance: false,
        constructs: false,
        result: int(),
    };
    Ok(Body {
        home,
        vars: variables(alloc)?,
        stmts: flat_stmts(alloc, op)?,
    })
}

fn called(alloc: Global, op: BinaryOp, a0: i32, a1: i32) -> Result<i32, NoMemory>
    requires { IsArithmetic op }
{
    lone_exec(alloc, &flat(alloc, op)?, [a0, a1, 0, 0])
}

#[test]
fn adds_two_arguments(rt: HostRuntime) -> Result<(), Fail> {
    assert_eq!(rt; called(rt.alloc(), BinaryOp::Add, 2, 3)?, 5);
    Ok(())
}

#[test]
fn subtracts_the_right_from_the_left(rt: HostRuntime) -> Result<(), Fail> {
    assert_eq!(rt; called(rt.alloc(), BinaryOp::Sub, 2, 3)?, -1);
    Ok(())
}

#[test]
fn keeps_the_low_bits_at_the_edges(rt: HostRuntime) -> Result<(), Fail> {
    assert_eq!(rt; called(rt.alloc(), BinaryOp::Add, i32::MAX, 1)?, i32::MIN);
    assert_eq!(rt; called(rt.alloc(), BinaryOp::Sub, i32::MIN, 1)?, i32::MAX);
    assert_eq!(rt; called(rt.alloc(), BinaryOp::Mul, i32::MIN, -1)?, i32::MIN);
    assert_eq!(rt; called(rt.alloc(), BinaryOp::Mul, 65536, 65537)?, 65536);
    Ok(())
}
