// Running a body, with fuel: one unit for each statement begun.

ghost use Rattle.std.specs.Prelude.{◌≡◌, ℕ, IfOk, map};
ghost use Rattle.cs_meaning.specs.Assigned.{IsDefinitelyAssigned};
ghost use Rattle.cs_meaning.specs.Meaning.{CsReturns, args_left, block_meaning, computed, expr_meaning, first_value, first_values, int_result, literal_value, stmt_meaning};
ghost use Rattle.cs_meaning.specs.Ran.{done, runs, store, variable};
ghost use Rattle.cs_meaning.specs.Run.{ComesTo, EndsAs, returned_int};
ghost use Rattle.cs_meaning.specs.Typed.{IsLoneTyped};

use crate::state::{End, State, Value};
use cs_body::{BinaryOp, Body, Expr, Literal, Role, Stmt, Var};
use dc_base::{Items, NoMemory};
use std::alloc::Global;

/// Calls a lone body with four ints: the int that it returns.
pub fn lone_exec(alloc: Global, body: &Body, args: [i32; 4]) -> Result<i32, NoMemory>
    requires typed { IsLoneTyped body.now }
    requires assigned { IsDefinitelyAssigned body.now }
    ensures { IfOk result (λ v. CsReturns body.now args v) }
{
    let vars = first_values(alloc, body.vars.items(), &args)?;
    let mut state = State { vars };
    let mut fuel = body.stmts.len() as u64;
    let ended = exec(body.stmts.as_slice(), &mut state, &mut fuel)?;
    Ok(returned_int(ended).unwrap())
}

// A block. None: the fuel was too little.
fn exec(stmts: &[Stmt], state: &mut State, fuel: &mut u64) -> Result<Option<End>, NoMemory>
    ensures { EndsAs (block_meaning stmts.now fuel.old state.old) result state.new fuel.new }
{
    run_all(stmts, state, fuel)
}

fn returned_int(ended: Option<End>) -> Option<i32>
    ensures { result ≡ returned_int ended }
{
    match ended {
        Some(End::Returns(Some(Value::Int(v)))) => Some(v),
        _ => None,
    }
}

fn first_values(alloc: Global, vars: &[Var], args: &[i32]) -> Result<Items<Option<Value>>, NoMemory>
    ensures { IfOk result (λ values. values ≡ first_values vars.now args.now) }
{
    let mut values = Items::new(alloc);
    let mut left = args;
    for var in vars {
        let (value, rest) = next_arg(var.role, left);
        values.push(value)?;
        left = rest;
    }
    Ok(values)
}

fn next_arg(role: Role, args: &[i32]) -> (Option<Value>, &[i32])
    ensures value { result.0 ≡ first_value role args.now }
    ensures left { result.1.now ≡ args_left role args.now }
{
    match role {
        Role::Param => match args {
            [first, rest @ ..] => (Some(Value::Int(*first)), rest),
            [] => (None, args),
        },
        _ => (None, args),
    }
}

fn run_all(stmts: &[Stmt], state: &mut State, fuel: &mut u64) -> Result<Option<End>, NoMemory>
    ensures { EndsAs (runs (map stmt_meaning stmts.now) fuel.old state.old) result state.new fuel.new }
{
    for stmt in stmts {
        match run(stmt, state, fuel)? {
            Some(End::Falls) => {}
            ended => return Ok(ended),
        }
    }
    Ok(Some(End::Falls))
}

fn run(stmt: &Stmt, state: &mut State, fuel: &mut u64) -> Result<Option<End>, NoMemory>
    ensures { EndsAs ((stmt_meaning stmt.now).run fuel.old state.old) result state.new fuel.new }
{
    if *fuel == 0 {
        return Ok(None);
    }
    *fuel -= 1;
    match stmt {
        Stmt::Decl { var, value } => match eval(value, state)? {
            Ok(x) => Ok(Some(store(state, *var, x))),
            Err(end) => Ok(Some(end)),
        },
        Stmt::Return { value: None } => Ok(Some(End::Returns(None))),
        Stmt::Return { value: Some(value) } => match eval(value, state)? {
            Ok(x) => Ok(Some(End::Returns(Some(x)))),
            Err(end) => Ok(Some(end)),
        },
        _ => Ok(Some(End::Wrong)),
    }
}

fn store(state: &mut State, var: u32, value: Value) -> End
    ensures { (n : ℕ) → store var value state.old n ≡ done result state.new n }
{
    if (var as usize) < state.vars.len() {
        state.vars.set(var as usize, Some(value));
        End::Falls
    } else {
        End::Wrong
    }
}

fn eval(expr: &Expr, state: &mut State) -> Result<Result<Value, End>, NoMemory>
    ensures { ComesTo ((expr_meaning expr.now).value state.old) result state.new }
{
    match expr {
        Expr::Literal { value } => Ok(literal_value(value).ok_or(End::Wrong)),
        Expr::Var { var } => Ok(variable(*var, state).ok_or(End::Wrong)),
        Expr::Binary {
            op,
            checked: false,
            left,
            right,
        } => {
            let x = match eval(left.get(), state)? {
                Ok(x) => x,
                Err(end) => return Ok(Err(end)),
            };
            let y = match eval(right.get(), state)? {
                Ok(y) => y,
                Err(end) => return Ok(Err(end)),
            };
            Ok(computed(*op, x, y).ok_or(End::Wrong))
        }
        _ => Ok(Err(End::Wrong)),
    }
}

fn literal_value(literal: &Literal) -> Option<Value>
    ensures { result ≡ literal_value literal.now }
{
    match literal {
        Literal::Int(i) => Some(Value::Int(*i)),
        _ => None,
    }
}

fn variable(var: u32, state: &State) -> Option<Value>
    ensures { result ≡ variable var state.now }
{
    match state.vars.get(var as usize) {
        Some(Some(Value::Int(i))) => Some(Value::Int(*i)),
        _ => None,
    }
}

fn computed(op: BinaryOp, left: Value, right: Value) -> Option<Value>
    ensures { result ≡ computed op left right }
{
    match left {
        Value::Int(x) => match right {
            Value::Int(y) => int_result(op, x, y),
        },
    }
}

#[tactic(auto, using(std::proofs::lemmas::Int::wraps))]
fn int_result(op: BinaryOp, x: i32, y: i32) -> Option<Value>
    ensures { result ≡ int_result op x y }
{
    match op {
        BinaryOp::Add => Some(Value::Int(x.wrapping_add(y))),
        BinaryOp::Sub => Some(Value::Int(x.wrapping_sub(y))),
        BinaryOp::Mul => Some(Value::Int(x.wrapping_mul(y))),
        _ => None,
    }
}
