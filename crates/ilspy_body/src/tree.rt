// The tree of a flat body: one static method of ints.

ghost use Rattle.std.specs.Prelude.{◌≡◌, ◌∷◌, ◌++◌, [], IfOk, OnOk, map, flat_map};
ghost use Rattle.std.specs.String.{string_bytes};
ghost use Rattle.ilspy_body.specs.Tree.{named, name_of, int_form, int_value, number_form, sign_form, form_of, syntax_of, param, method, member_of};

use cs_body::{BinaryOp as Op, Body, Expr, Literal as Value, Stmt};
use cs_token::Suffix;
use cs_tree::{
    BinaryOp, Block, Form, KeywordType, Literal, Member, Mods, Name, Param, Spot, Syntax, TypeForm,
    TypeName, UnaryOp, Way,
};
use dc_base::{Boxed, Items, NoMemory, Seq, Text};
use std::alloc::Global;

/// `static`, and no other modifier.
const STATIC: Mods = Mods {
    access: None,
    is_static: true,
    is_abstract: false,
    is_sealed: false,
    is_virtual: false,
    is_override: false,
    is_readonly: false,
    is_extern: false,
};

/// The tree of a lone body's flat form.
pub(crate) fn member(alloc: Global, body: &Body) -> Result<Member, NoMemory>
    ensures { IfOk result (λ tree. tree ≡ member_of body.now) }
{
    let stmts = statements(alloc, body.stmts.as_slice())?;
    method(alloc, stmts)
}

fn method(alloc: Global, stmts: Items<Syntax>) -> Result<Member, NoMemory>
    ensures { IfOk result (λ tree. tree ≡ method stmts) }
{
    let name = Name {
        spot: Spot::NONE,
        text: Text::from_string(String::from_str(alloc, "M")?),
    };
    let params = parameters(alloc)?;
    Ok(Member::Method {
        spot: Spot::NONE,
        note: None,
        mods: STATIC,
        result: Some(int_form()),
        explicit: None,
        name,
        params,
        block: Some(Block {
            stmts,
            end: Spot::NONE,
        }),
    })
}

fn parameters(alloc: Global) -> Result<Seq<Param>, NoMemory>
    ensures { IfOk result (λ params. params ≡ map param (0 ∷ 1 ∷ 2 ∷ 3 ∷ [])) }
{
    let mut params = Vec::new(alloc);
    params.push(parameter(alloc, 0)?)?;
    params.push(parameter(alloc, 1)?)?;
    params.push(parameter(alloc, 2)?)?;
    params.push(parameter(alloc, 3)?)?;
    Ok(Seq::of(params))
}

fn parameter(alloc: Global, var: u32) -> Result<Param, NoMemory>
    ensures { IfOk result (λ one. one ≡ param var) }
{
    let name = name(alloc, var)?;
    Ok(Param {
        way: Way::Value,
        ty: int_form(),
        name,
    })
}

fn int_form() -> TypeForm
    ensures { result ≡ int_form }
{
    TypeForm {
        spot: Spot::NONE,
        name: TypeName::Keyword {
            keyword: KeywordType::Int,
        },
        ranks: 0,
    }
}

fn name(alloc: Global, var: u32) -> Result<Name, NoMemory>
    ensures { IfOk result (λ name. name ≡ named (name_of var)) }
{
    let text = name_text(alloc, var)?;
    Ok(Name {
        spot: Spot::NONE,
        text,
    })
}

fn name_text(alloc: Global, var: u32) -> Result<Text, NoMemory>
    ensures { IfOk result (λ text. text ≡ name_of var) }
{
    let mut out = String::new(alloc);
    push_name(&mut out, var)?;
    Ok(Text::from_string(out))
}

fn push_name(out: &mut String, var: u32) -> Result<(), NoMemory>
    ensures { OnOk result (string_bytes out.new ≡ string_bytes out.old ++ name_of var) }
{
    if var < 4 {
        write!(out, "a{var}")?;
    } else {
        let var = var - 4;
        write!(out, "v{var}")?;
    }
    Ok(())
}

fn statements(alloc: Global, stmts: &[Stmt]) -> Result<Items<Syntax>, NoMemory>
    ensures { IfOk result (λ all. all ≡ flat_map syntax_of stmts.now) }
{
    let mut all = Items::new(alloc);
    for stmt in stmts {
        push_syntax(alloc, &mut all, stmt)?;
    }
    Ok(all)
}

fn push_syntax(alloc: Global, all: &mut Items<Syntax>, stmt: &Stmt) -> Result<(), NoMemory>
    ensures { OnOk result (all.new ≡ all.old ++ syntax_of stmt.now) }
{
    match stmt {
        Stmt::Decl { var, value } => {
            let value = form(alloc, value)?;
            let name = name(alloc, *var)?;
            all.push(Syntax::Declare {
                spot: Spot::NONE,
                ty: int_form(),
                name,
                value,
            })?;
            Ok(())
        }
        Stmt::Return { value: Some(value) } => {
            let value = form(alloc, value)?;
            all.push(Syntax::Return {
                spot: Spot::NONE,
                value: Some(value),
            })?;
            Ok(())
        }
        _ => Ok(()),
    }
}

fn form(alloc: Global, value: &Expr) -> Result<Form, NoMemory>
    ensures { IfOk result (λ form. form ≡ form_of value.now) }
{
    match value {
        Expr::Literal {
            value: Value::Int(n),
        } => number(alloc, *n),
        Expr::Var { var } => {
            let text = name_text(alloc, *var)?;
            Ok(Form::Name {
                spot: Spot::NONE,
                text,
            })
        }
        Expr::Binary {
            op,
            left,
            right,
            ..
        } => {
            let left = Boxed::new(alloc, form(alloc, left.get())?)?;
            let right = Boxed::new(alloc, form(alloc, right.get())?)?;
            Ok(Form::Binary {
                spot: Spot::NONE,
                op: sign(*op),
                left,
                right,
            })
        }
        _ => Ok(Form::This { spot: Spot::NONE }),
    }
}

// A minus stands before the number of an int below 0.
fn number(alloc: Global, n: i32) -> Result<Form, NoMemory>
    ensures { IfOk result (λ form. form ≡ int_value n) }
{
    if n < 0 {
        let operand = Boxed::new(alloc, number_form(n.unsigned_abs()))?;
        Ok(Form::Unary {
            spot: Spot::NONE,
            op: UnaryOp::Minus,
            operand,
        })
    } else {
        Ok(number_form(n.unsigned_abs()))
    }
}

fn number_form(n: u32) -> Form
    ensures { result ≡ number_form n }
{
    Form::Literal {
        spot: Spot::NONE,
        literal: Literal::Number {
            value: u64::from(n),
            suffix: Suffix::Plain,
        },
    }
}

fn sign(op: Op) -> BinaryOp
    ensures { result ≡ sign_form op }
{
    match op {
        Op::Add => BinaryOp::Add,
        Op::Sub => BinaryOp::Sub,
        Op::Mul => BinaryOp::Mul,
        Op::Div => BinaryOp::Div,
        Op::Rem => BinaryOp::Rem,
        Op::ShiftLeft => BinaryOp::ShiftLeft,
        Op::ShiftRight => BinaryOp::ShiftRight,
        Op::BitAnd => BinaryOp::BitAnd,
        Op::BitOr => BinaryOp::BitOr,
        Op::BitXor => BinaryOp::BitXor,
        Op::Equal => BinaryOp::Equal,
        Op::Unequal => BinaryOp::Unequal,
        Op::Less => BinaryOp::Less,
        Op::AtMost => BinaryOp::AtMost,
        Op::Greater => BinaryOp::Greater,
        Op::AtLeast => BinaryOp::AtLeast,
    }
}
