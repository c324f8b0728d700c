// Expressions and statements.

use crate::tests::made::{SPOT, empty, global, int, name, number, params, var};
use cs_forms::{write_form, write_syntax};
use cs_token::Suffix;
use cs_tree::{BinaryOp, Block, Form, Syntax, TypeForm, UnaryOp};
use dc_base::{Boxed, Items, NoMemory};
use std::alloc::Global;
use std::test::Fail;

fn binary(alloc: Global, op: BinaryOp, left: Form, right: Form) -> Result<Form, NoMemory> {
    Ok(Form::Binary {
        spot: SPOT,
        op,
        left: Boxed::new(alloc, left)?,
        right: Boxed::new(alloc, right)?,
    })
}

fn minus(alloc: Global, operand: Form) -> Result<Form, NoMemory> {
    Ok(Form::Unary {
        spot: SPOT,
        op: UnaryOp::Minus,
        operand: Boxed::new(alloc, operand)?,
    })
}

fn cast(alloc: Global, ty: TypeForm, operand: Form) -> Result<Form, NoMemory> {
    Ok(Form::Cast {
        spot: SPOT,
        ty,
        operand: Boxed::new(alloc, operand)?,
    })
}

fn member(alloc: Global, object: Form, text: &str) -> Result<Form, NoMemory> {
    Ok(Form::Member {
        spot: SPOT,
        object: Boxed::new(alloc, object)?,
        name: name(alloc, text)?,
    })
}

fn laid(alloc: Global, form: &Form) -> Result<String, Fail> {
    let mut out = String::new(alloc);
    write_form(alloc, &mut out, form, "")?;
    Ok(out)
}

#[test]
fn parentheses_stand_where_they_must(rt: HostRuntime) -> Result<(), Fail> {
    let alloc = rt.alloc();
    let to_the_left = binary(
        alloc,
        BinaryOp::Sub,
        binary(alloc, BinaryOp::Sub, var(alloc, "a")?, var(alloc, "b")?)?,
        var(alloc, "c")?,
    )?;
    assert_eq!(rt; laid(alloc, &to_the_left)?.as_str(), "a - b - c");
    let to_the_right = binary(
        alloc,
        BinaryOp::Sub,
        var(alloc, "a")?,
        binary(
            alloc,
            BinaryOp::Add,
            var(alloc, "b")?,
            minus(alloc, var(alloc, "c")?)?,
        )?,
    )?;
    assert_eq!(rt; laid(alloc, &to_the_right)?.as_str(), "a - (b + -c)");
    let twice = minus(alloc, minus(alloc, var(alloc, "x")?)?)?;
    assert_eq!(rt; laid(alloc, &twice)?.as_str(), "-(-x)");
    let below = member(
        alloc,
        cast(alloc, int(), minus(alloc, var(alloc, "x")?)?)?,
        "class",
    )?;
    assert_eq!(rt; laid(alloc, &below)?.as_str(), "((int)(-x)).@class");
    Ok(())
}

// `(int v1) => { return v1 + v0; }`
fn adder(alloc: Global) -> Result<Form, NoMemory> {
    let sum = binary(alloc, BinaryOp::Add, var(alloc, "v1")?, var(alloc, "v0")?)?;
    let mut stmts = Items::new(alloc);
    stmts.push(Syntax::Return {
        spot: SPOT,
        value: Some(sum),
    })?;
    Ok(Form::Lambda {
        spot: SPOT,
        params: params(alloc, &["v1"])?,
        block: Block { stmts, end: SPOT },
    })
}

#[test]
fn a_lambda_ends_its_line_with_its_brace(rt: HostRuntime) -> Result<(), Fail> {
    let alloc = rt.alloc();
    let delegate = global(alloc, "N", "D")?;
    let returned = Syntax::Return {
        spot: SPOT,
        value: Some(cast(alloc, delegate, adder(alloc)?)?),
    };
    let mut out = String::new(alloc);
    write_syntax(alloc, &mut out, &returned, "    ")?;
    assert_eq!(rt;
        out.as_str(),
        "    return (global::N.D)((int v1) => {\n        return v1 + v0;\n    });\n"
    );
    Ok(())
}

#[test]
fn a_block_stands_on_lines_of_its_own(rt: HostRuntime) -> Result<(), Fail> {
    let alloc = rt.alloc();
    let mut stmts = Items::new(alloc);
    stmts.push(Syntax::Declare {
        spot: SPOT,
        ty: int(),
        name: name(alloc, "v3")?,
        value: number(5, Suffix::Long),
    })?;
    let chosen = Syntax::If {
        spot: SPOT,
        test: binary(alloc, BinaryOp::Less, var(alloc, "a0")?, var(alloc, "a1")?)?,
        block: Block { stmts, end: SPOT },
        otherwise: Some(empty(alloc)),
    };
    let mut out = String::new(alloc);
    write_syntax(alloc, &mut out, &chosen, "")?;
    assert_eq!(rt;
        out.as_str(),
        "if (a0 < a1)\n{\n    int v3 = 5L;\n}\nelse\n{\n}\n"
    );
    Ok(())
}
