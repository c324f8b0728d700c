// The flat form of a lone body.

ghost use Rattle.std.specs.Prelude.{◌≡◌, ℕ, List, ◌+◌, ◌<◌, ◌^◌, ◌++◌, pos, length, All, IfOk, OnOk, replicate};
ghost use Rattle.std.specs.Int.{w32};
ghost use Rattle.std.specs.Int.RustNames.{FitsSigned};
ghost use Rattle.cil_lone.specs.Row.{row_of};
ghost use Rattle.cil_lone.specs.Lone.{IsLone};
ghost use Rattle.cs_body.specs.declared.body.Role.TheVariants.{SlotVar};
ghost use Rattle.ilspy_body.specs.Theorem.{RunsAsTheCode};
ghost use Rattle.ilspy_body.specs.Flat.{flat_of, Pushes, loaded_form, returned, sign_of, int_var, lone_vars, lone_body, declarations};

use cil_instruction::Simple;
use cil_lone::{Row, Source, Two, balance_is_a_walk, code_fills_the_file};
use cs_body::{BinaryOp, Body, Expr, Home, Literal, Role, Stmt, Var};
use dc_base::{Boxed, Core, Items, NoMemory, Prim_, Seq, Stack, Ty};
use std::alloc::Global;

/// The type `int`.
const INT: Ty = Ty {
    core: Core::Prim(Prim_::I4),
    arrays: 0,
    lent: false,
};

/// How many parameters a lone body has.
const PARAMS: u32 = 4;

/// The flat form of a lone body's code: each push makes a variable of its own.
pub fn flat(alloc: Global, code: &[(u32, Simple)]) -> Result<Body, NoMemory>
    requires short { length code.now < 2 ^ 31 }
    requires operands { All (λ e. FitsSigned w32 e.1.arg) code.now }
    ensures flat { IfOk result (λ body. body ≡ flat_of code.now) }

    // The flat form of a lone body's code is one that can be run, and returns what the code returns.
    ensures same { (file : List ℕ) → length file < 2 ^ 32 → IsLone file code.now → IfOk result (RunsAsTheCode code.now) }
{
    balance_is_a_walk();
    code_fills_the_file();
    flattened(alloc, code)
}

fn flattened(alloc: Global, code: &[(u32, Simple)]) -> Result<Body, NoMemory>
    requires short { length code.now < 2 ^ 31 }
    requires operands { All (λ e. FitsSigned w32 e.1.arg) code.now }
    ensures { IfOk result (λ body. body ≡ flat_of code.now) }
{
    let mut stmts = Items::new(alloc);
    let mut slots = Stack::new(alloc);
    let mut next = PARAMS;
    for (_, simple) in code {
        let Some(value) = pushed(alloc, *simple, &mut slots)? else {
            return finished(alloc, returned(stmts, slots)?, next);
        };
        stmts.push(Stmt::Decl { var: next, value })?;
        slots.push(next)?;
        next += 1;
    }
    finished(alloc, stmts, next)
}

// What an instruction pushes, with the slots that it takes gone; none where it pushes nothing or finds too few slots.
fn pushed(alloc: Global, simple: Simple, slots: &mut Stack<u32>) -> Result<Option<Expr>, NoMemory>
    requires { FitsSigned w32 simple.arg }
    ensures { IfOk result (λ value. Pushes (row_of simple.op) simple.arg slots.old slots.new value) }
{
    match Row::of(simple.op) {
        Row::Load(source) => Ok(Some(loaded(source, simple.arg))),
        Row::Binary(two) => computed(alloc, two, slots),
        Row::Return => Ok(None),
        Row::Beyond => Ok(None),
    }
}

fn loaded(source: Source, arg: i64) -> Expr
    requires { FitsSigned w32 arg }
    ensures { result ≡ loaded_form source arg }
{
    match source {
        Source::Argument(k) => Expr::Var { var: u32::from(k) },
        Source::Number(n) => Expr::Literal {
            value: Literal::Int(n),
        },
        Source::Operand => Expr::Literal {
            value: Literal::Int(arg as i32),
        },
    }
}

// The upper slot is the right operand.
fn computed(alloc: Global, two: Two, slots: &mut Stack<u32>) -> Result<Option<Expr>, NoMemory>
    ensures { IfOk result (λ value. Pushes (Row.Binary two) (pos 0) slots.old slots.new value) }
{
    let Some(y) = slots.pop() else {
        return Ok(None);
    };
    let Some(x) = slots.pop() else {
        slots.push(y)?;
        return Ok(None);
    };
    let left = Boxed::new(alloc, Expr::Var { var: x })?;
    let right = Boxed::new(alloc, Expr::Var { var: y })?;
    Ok(Some(Expr::Binary {
        op: sign(two),
        checked: false,
        left,
        right,
    }))
}

fn sign(two: Two) -> BinaryOp
    ensures { result ≡ sign_of two }
{
    match two {
        Two::Add => BinaryOp::Add,
        Two::Sub => BinaryOp::Sub,
        Two::Mul => BinaryOp::Mul,
    }
}

// The statements, and behind them the return of the topmost slot.
fn returned(stmts: Items<Stmt>, slots: Stack<u32>) -> Result<Items<Stmt>, NoMemory>
    ensures { IfOk result (λ all. all ≡ stmts ++ returned slots) }
{
    let mut stmts = stmts;
    let mut slots = slots;
    if let Some(var) = slots.pop() {
        stmts.push(Stmt::Return {
            value: Some(Expr::Var { var }),
        })?;
    }
    Ok(stmts)
}

fn finished(alloc: Global, stmts: Items<Stmt>, next: u32) -> Result<Body, NoMemory>
    requires { next ≡ 4 + declarations stmts }
    ensures { IfOk result (λ body. body ≡ lone_body SlotVar stmts) }
{
    let home = Home {
        owner: None,
        instance: false,
        constructs: false,
        result: INT,
    };
    let vars = Seq::of(variables(alloc, next - PARAMS)?);
    Ok(Body { home, vars, stmts })
}

fn variables(alloc: Global, declared: u32) -> Result<Vec<Var>, NoMemory>
    ensures { IfOk result (λ vars. vars.items ≡ lone_vars SlotVar declared) }
{
    let mut vars = Vec::new(alloc);
    push_copies(&mut vars, int_var(Role::Param), PARAMS)?;
    push_copies(&mut vars, int_var(Role::SlotVar), declared)?;
    Ok(vars)
}

fn push_copies(vars: &mut Vec<Var>, var: Var, count: u32) -> Result<(), NoMemory>
    ensures { OnOk result (vars.new.items ≡ vars.old.items ++ replicate count var) }
{
    for _i in 0..count {
        vars.push(var)?;
    }
    Ok(())
}

fn int_var(role: Role) -> Var
    ensures { result ≡ int_var role }
{
    Var { ty: INT, role }
}
