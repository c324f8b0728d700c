// Trees that are the same.

ghost use Rattle.std.specs.Prelude.{◌≡◌, ◌↔◌, IsTrue};

use cs_body::{
    BinaryOp, Body, Case, Catch, Expr, Home, Literal, Role, Section, Stmt, UnaryOp, Var,
};
use dc_base::{MemberId, Seq, Ty, TypeId};

pub fn same_body(body: &Body, other: &Body) -> bool
    ensures { IsTrue result ↔ (body.now ≡ other.now) }
{
    same_home(&body.home, &other.home)
        && same_vars(body.vars.items(), other.vars.items())
        && same_block(body.stmts.as_slice(), other.stmts.as_slice())
}

pub fn same_home(home: &Home, other: &Home) -> bool
    ensures { IsTrue result ↔ (home.now ≡ other.now) }
{
    same_owner(home.owner, other.owner)
        && home.instance == other.instance
        && home.constructs == other.constructs
        && same_ty(&home.result, &other.result)
}

pub fn same_variable(variable: &Var, other: &Var) -> bool
    ensures { IsTrue result ↔ (variable.now ≡ other.now) }
{
    same_ty(&variable.ty, &other.ty) && same_role(&variable.role, &other.role)
}

pub fn same_role(role: &Role, other: &Role) -> bool
    ensures { IsTrue result ↔ (role.now ≡ other.now) }
{
    match role {
        Role::Param => matches!(other, Role::Param),
        Role::Local => matches!(other, Role::Local),
        Role::SlotVar => matches!(other, Role::SlotVar),
        Role::Join => matches!(other, Role::Join),
        Role::Captured { maker, field } => match other {
            Role::Captured {
                maker: maker_,
                field: field_,
            } => same_member(*maker, *maker_) && same_member(*field, *field_),
            _ => false,
        },
    }
}

fn same_vars(vars: &[Var], other: &[Var]) -> bool
    ensures { IsTrue result ↔ (vars.now ≡ other.now) }
{
    if vars.len() != other.len() {
        return false;
    }
    for index in 0..vars.len() {
        if !same_variable(&vars[index], &other[index]) {
            return false;
        }
    }
    true
}

pub fn same_literal(literal: &Literal, other: &Literal) -> bool
    ensures { IsTrue result ↔ (literal.now ≡ other.now) }
{
    match literal {
        Literal::Bool(value) => matches!(other, Literal::Bool(value_) if *value == *value_),
        Literal::Char(unit) => matches!(other, Literal::Char(unit_) if *unit == *unit_),
        Literal::Int(value) => matches!(other, Literal::Int(value_) if *value == *value_),
        Literal::Uint(value) => matches!(other, Literal::Uint(value_) if *value == *value_),
        Literal::Long(value) => matches!(other, Literal::Long(value_) if *value == *value_),
        Literal::Ulong(value) => matches!(other, Literal::Ulong(value_) if *value == *value_),
        Literal::Text(units) => match other {
            Literal::Text(units_) => same_units(units, units_),
            _ => false,
        },
    }
}

pub fn same_case(case: &Case, other: &Case) -> bool
    ensures { IsTrue result ↔ (case.now ≡ other.now) }
{
    match case {
        Case::Of(value) => match other {
            Case::Of(value_) => same_literal(value, value_),
            Case::Otherwise => false,
        },
        Case::Otherwise => matches!(other, Case::Otherwise),
    }
}

fn same_ty(ty: &Ty, other: &Ty) -> bool
    ensures { IsTrue result ↔ (ty.now ≡ other.now) }
{
    *ty == *other
}

fn same_member(member: MemberId, other: MemberId) -> bool
    ensures { IsTrue result ↔ (member ≡ other) }
{
    member == other
}

fn same_class(class: TypeId, other: TypeId) -> bool
    ensures { IsTrue result ↔ (class ≡ other) }
{
    class == other
}

fn same_owner(owner: Option<TypeId>, other: Option<TypeId>) -> bool
    ensures { IsTrue result ↔ (owner ≡ other) }
{
    owner == other
}

fn same_var(var: Option<u32>, other: Option<u32>) -> bool
    ensures { IsTrue result ↔ (var ≡ other) }
{
    var == other
}

fn same_unary(op: UnaryOp, other: UnaryOp) -> bool
    ensures { IsTrue result ↔ (op ≡ other) }
{
    op == other
}

fn same_binary(op: BinaryOp, other: BinaryOp) -> bool
    ensures { IsTrue result ↔ (op ≡ other) }
{
    op == other
}

fn same_units(units: &Seq<u16>, other: &Seq<u16>) -> bool
    ensures { IsTrue result ↔ (units.now ≡ other.now) }
{
    units.items() == other.items()
}

fn same_numbers(numbers: &Seq<u32>, other: &Seq<u32>) -> bool
    ensures { IsTrue result ↔ (numbers.now ≡ other.now) }
{
    numbers.items() == other.items()
}

fn same_cases(cases: &[Case], other: &[Case]) -> bool
    ensures { IsTrue result ↔ (cases.now ≡ other.now) }
{
    if cases.len() != other.len() {
        return false;
    }
    for index in 0..cases.len() {
        if !same_case(&cases[index], &other[index]) {
            return false;
        }
    }
    true
}

#[cycle(sameness)]
pub fn same_section(section: &Section, other: &Section) -> bool
    ensures { IsTrue result ↔ (section.now ≡ other.now) }
{
    same_cases(section.cases.items(), other.cases.items())
        && same_block(section.block.as_slice(), other.block.as_slice())
}

#[cycle(sameness)]
pub fn same_catch(catch: &Catch, other: &Catch) -> bool
    ensures { IsTrue result ↔ (catch.now ≡ other.now) }
{
    same_class(catch.class, other.class)
        && same_var(catch.var, other.var)
        && same_block(catch.block.as_slice(), other.block.as_slice())
}

#[cycle(sameness)]
pub fn same_stmt(stmt: &Stmt, other: &Stmt) -> bool
    ensures { IsTrue result ↔ (stmt.now ≡ other.now) }
{
    match stmt {
        Stmt::Decl { var, value } => match other {
            Stmt::Decl {
                var: var_,
                value: value_,
            } => *var == *var_ && same_expr(value, value_),
            _ => false,
        },
        Stmt::Set { place, value } => match other {
            Stmt::Set {
                place: place_,
                value: value_,
            } => same_expr(place, place_) && same_expr(value, value_),
            _ => false,
        },
        Stmt::SetOp { op, place, value } => match other {
            Stmt::SetOp {
                op: op_,
                place: place_,
                value: value_,
            } => same_binary(*op, *op_) && same_expr(place, place_) && same_expr(value, value_),
            _ => false,
        },
        Stmt::Do { call } => match other {
            Stmt::Do { call: call_ } => same_expr(call, call_),
            _ => false,
        },
        Stmt::Label { label } => match other {
            Stmt::Label { label: label_ } => *label == *label_,
            _ => false,
        },
        Stmt::Goto { label } => match other {
            Stmt::Goto { label: label_ } => *label == *label_,
            _ => false,
        },
        Stmt::If {
            test,
            block,
            otherwise: None,
        } => match other {
            Stmt::If {
                test: test_,
                block: block_,
                otherwise: None,
            } => same_expr(test, test_) && same_block(block.as_slice(), block_.as_slice()),
            _ => false,
        },
        Stmt::If {
            test,
            block,
            otherwise: Some(otherwise),
        } => match other {
            Stmt::If {
                test: test_,
                block: block_,
                otherwise: Some(otherwise_),
            } => same_expr(test, test_)
                && same_block(block.as_slice(), block_.as_slice())
                && same_block(otherwise.as_slice(), otherwise_.as_slice()),
            _ => false,
        },
        Stmt::While { test, block } => match other {
            Stmt::While {
                test: test_,
                block: block_,
            } => same_expr(test, test_) && same_block(block.as_slice(), block_.as_slice()),
            _ => false,
        },
        Stmt::DoWhile { block, test } => match other {
            Stmt::DoWhile {
                block: block_,
                test: test_,
            } => same_block(block.as_slice(), block_.as_slice()) && same_expr(test, test_),
            _ => false,
        },
        Stmt::For { test, step, block } => match other {
            Stmt::For {
                test: test_,
                step: step_,
                block: block_,
            } => same_expr(test, test_)
                && same_stmt(step.get(), step_.get())
                && same_block(block.as_slice(), block_.as_slice()),
            _ => false,
        },
        Stmt::Foreach { var, array, block } => match other {
            Stmt::Foreach {
                var: var_,
                array: array_,
                block: block_,
            } => *var == *var_
                && same_expr(array, array_)
                && same_block(block.as_slice(), block_.as_slice()),
            _ => false,
        },
        Stmt::Using {
            var,
            value,
            dispose,
            block,
        } => match other {
            Stmt::Using {
                var: var_,
                value: value_,
                dispose: dispose_,
                block: block_,
            } => *var == *var_
                && same_expr(value, value_)
                && same_member(*dispose, *dispose_)
                && same_block(block.as_slice(), block_.as_slice()),
            _ => false,
        },
        Stmt::Lock {
            object,
            enter,
            exit,
            block,
        } => match other {
            Stmt::Lock {
                object: object_,
                enter: enter_,
                exit: exit_,
                block: block_,
            } => same_expr(object, object_)
                && same_member(*enter, *enter_)
                && same_member(*exit, *exit_)
                && same_block(block.as_slice(), block_.as_slice()),
            _ => false,
        },
        Stmt::Switch { value, sections } => match other {
            Stmt::Switch {
                value: value_,
                sections: sections_,
            } => same_expr(value, value_)
                && same_sections(sections.as_slice(), sections_.as_slice()),
            _ => false,
        },
        Stmt::TextSwitch {
            value,
            equality,
            sections,
        } => match other {
            Stmt::TextSwitch {
                value: value_,
                equality: equality_,
                sections: sections_,
            } => same_expr(value, value_)
                && same_member(*equality, *equality_)
                && same_sections(sections.as_slice(), sections_.as_slice()),
            _ => false,
        },
        Stmt::Try {
            block,
            catches,
            finally: None,
        } => match other {
            Stmt::Try {
                block: block_,
                catches: catches_,
                finally: None,
            } => same_block(block.as_slice(), block_.as_slice())
                && same_catches(catches.as_slice(), catches_.as_slice()),
            _ => false,
        },
        Stmt::Try {
            block,
            catches,
            finally: Some(finally),
        } => match other {
            Stmt::Try {
                block: block_,
                catches: catches_,
                finally: Some(finally_),
            } => same_block(block.as_slice(), block_.as_slice())
                && same_catches(catches.as_slice(), catches_.as_slice())
                && same_block(finally.as_slice(), finally_.as_slice()),
            _ => false,
        },
        Stmt::Break => matches!(other, Stmt::Break),
        Stmt::Continue => matches!(other, Stmt::Continue),
        Stmt::Return { value: None } => matches!(other, Stmt::Return { value: None }),
        Stmt::Return { value: Some(value) } => match other {
            Stmt::Return {
                value: Some(value_),
            } => same_expr(value, value_),
            _ => false,
        },
        Stmt::Throw { value } => match other {
            Stmt::Throw { value: value_ } => same_expr(value, value_),
            _ => false,
        },
        Stmt::Rethrow => matches!(other, Stmt::Rethrow),
    }
}

#[cycle(sameness)]
pub fn same_expr(expr: &Expr, other: &Expr) -> bool
    ensures { IsTrue result ↔ (expr.now ≡ other.now) }
{
    match expr {
        Expr::Literal { value } => match other {
            Expr::Literal { value: value_ } => same_literal(value, value_),
            _ => false,
        },
        Expr::Null => matches!(other, Expr::Null),
        Expr::Default { ty } => match other {
            Expr::Default { ty: ty_ } => same_ty(ty, ty_),
            _ => false,
        },
        Expr::Var { var } => match other {
            Expr::Var { var: var_ } => *var == *var_,
            _ => false,
        },
        Expr::This => matches!(other, Expr::This),
        Expr::Field { object, field } => match other {
            Expr::Field {
                object: object_,
                field: field_,
            } => same_expr(object.get(), object_.get()) && same_member(*field, *field_),
            _ => false,
        },
        Expr::Static { field } => match other {
            Expr::Static { field: field_ } => same_member(*field, *field_),
            _ => false,
        },
        Expr::Element { array, index } => match other {
            Expr::Element {
                array: array_,
                index: index_,
            } => same_expr(array.get(), array_.get()) && same_expr(index.get(), index_.get()),
            _ => false,
        },
        Expr::Length { array } => match other {
            Expr::Length { array: array_ } => same_expr(array.get(), array_.get()),
            _ => false,
        },
        Expr::Call {
            object: None,
            method,
            by_slot,
            args,
        } => match other {
            Expr::Call {
                object: None,
                method: method_,
                by_slot: by_slot_,
                args: args_,
            } => same_member(*method, *method_)
                && *by_slot == *by_slot_
                && same_exprs(args.as_slice(), args_.as_slice()),
            _ => false,
        },
        Expr::Call {
            object: Some(object),
            method,
            by_slot,
            args,
        } => match other {
            Expr::Call {
                object: Some(object_),
                method: method_,
                by_slot: by_slot_,
                args: args_,
            } => same_expr(object.get(), object_.get())
                && same_member(*method, *method_)
                && *by_slot == *by_slot_
                && same_exprs(args.as_slice(), args_.as_slice()),
            _ => false,
        },
        Expr::New { maker, args } => match other {
            Expr::New {
                maker: maker_,
                args: args_,
            } => same_member(*maker, *maker_) && same_exprs(args.as_slice(), args_.as_slice()),
            _ => false,
        },
        Expr::NewArray { element, length } => match other {
            Expr::NewArray {
                element: element_,
                length: length_,
            } => same_ty(element, element_) && same_expr(length.get(), length_.get()),
            _ => false,
        },
        Expr::Delegate {
            maker,
            object,
            target,
            by_slot,
        } => match other {
            Expr::Delegate {
                maker: maker_,
                object: object_,
                target: target_,
                by_slot: by_slot_,
            } => same_member(*maker, *maker_)
                && same_expr(object.get(), object_.get())
                && same_member(*target, *target_)
                && *by_slot == *by_slot_,
            _ => false,
        },
        Expr::Lambda {
            maker,
            target,
            params,
            block,
        } => match other {
            Expr::Lambda {
                maker: maker_,
                target: target_,
                params: params_,
                block: block_,
            } => same_member(*maker, *maker_)
                && same_member(*target, *target_)
                && same_numbers(params, params_)
                && same_block(block.as_slice(), block_.as_slice()),
            _ => false,
        },
        Expr::Unary { op, operand } => match other {
            Expr::Unary {
                op: op_,
                operand: operand_,
            } => same_unary(*op, *op_) && same_expr(operand.get(), operand_.get()),
            _ => false,
        },
        Expr::Binary {
            op,
            checked,
            left,
            right,
        } => match other {
            Expr::Binary {
                op: op_,
                checked: checked_,
                left: left_,
                right: right_,
            } => same_binary(*op, *op_)
                && *checked == *checked_
                && same_expr(left.get(), left_.get())
                && same_expr(right.get(), right_.get()),
            _ => false,
        },
        Expr::Convert {
            to,
            checked,
            operand,
        } => match other {
            Expr::Convert {
                to: to_,
                checked: checked_,
                operand: operand_,
            } => same_ty(to, to_)
                && *checked == *checked_
                && same_expr(operand.get(), operand_.get()),
            _ => false,
        },
        Expr::Cast { to, operand } => match other {
            Expr::Cast {
                to: to_,
                operand: operand_,
            } => same_ty(to, to_) && same_expr(operand.get(), operand_.get()),
            _ => false,
        },
        Expr::AsClass { to, operand } => match other {
            Expr::AsClass {
                to: to_,
                operand: operand_,
            } => same_ty(to, to_) && same_expr(operand.get(), operand_.get()),
            _ => false,
        },
        Expr::IsClass { to, operand } => match other {
            Expr::IsClass {
                to: to_,
                operand: operand_,
            } => same_ty(to, to_) && same_expr(operand.get(), operand_.get()),
            _ => false,
        },
        Expr::Box { from, to, operand } => match other {
            Expr::Box {
                from: from_,
                to: to_,
                operand: operand_,
            } => same_ty(from, from_)
                && same_ty(to, to_)
                && same_expr(operand.get(), operand_.get()),
            _ => false,
        },
        Expr::Unbox { to, operand } => match other {
            Expr::Unbox {
                to: to_,
                operand: operand_,
            } => same_ty(to, to_) && same_expr(operand.get(), operand_.get()),
            _ => false,
        },
        Expr::TruthToInt { test } => match other {
            Expr::TruthToInt { test: test_ } => same_expr(test.get(), test_.get()),
            _ => false,
        },
        Expr::Cond {
            test,
            on_true,
            on_false,
        } => match other {
            Expr::Cond {
                test: test_,
                on_true: on_true_,
                on_false: on_false_,
            } => same_expr(test.get(), test_.get())
                && same_expr(on_true.get(), on_true_.get())
                && same_expr(on_false.get(), on_false_.get()),
            _ => false,
        },
        Expr::And { left, right } => match other {
            Expr::And {
                left: left_,
                right: right_,
            } => same_expr(left.get(), left_.get()) && same_expr(right.get(), right_.get()),
            _ => false,
        },
        Expr::Or { left, right } => match other {
            Expr::Or {
                left: left_,
                right: right_,
            } => same_expr(left.get(), left_.get()) && same_expr(right.get(), right_.get()),
            _ => false,
        },
        Expr::RefEqual {
            unequal,
            left,
            right,
        } => match other {
            Expr::RefEqual {
                unequal: unequal_,
                left: left_,
                right: right_,
            } => *unequal == *unequal_
                && same_expr(left.get(), left_.get())
                && same_expr(right.get(), right_.get()),
            _ => false,
        },
        Expr::Lend { as_out, place } => match other {
            Expr::Lend {
                as_out: as_out_,
                place: place_,
            } => *as_out == *as_out_ && same_expr(place.get(), place_.get()),
            _ => false,
        },
    }
}

#[cycle(sameness)]
fn same_exprs(exprs: &[Expr], other: &[Expr]) -> bool
    ensures { IsTrue result ↔ (exprs.now ≡ other.now) }
{
    if exprs.len() != other.len() {
        return false;
    }
    for index in 0..exprs.len() {
        if !same_expr(&exprs[index], &other[index]) {
            return false;
        }
    }
    true
}

#[cycle(sameness)]
fn same_block(stmts: &[Stmt], other: &[Stmt]) -> bool
    ensures { IsTrue result ↔ (stmts.now ≡ other.now) }
{
    if stmts.len() != other.len() {
        return false;
    }
    for index in 0..stmts.len() {
        if !same_stmt(&stmts[index], &other[index]) {
            return false;
        }
    }
    true
}

#[cycle(sameness)]
fn same_sections(sections: &[Section], other: &[Section]) -> bool
    ensures { IsTrue result ↔ (sections.now ≡ other.now) }
{
    if sections.len() != other.len() {
        return false;
    }
    for index in 0..sections.len() {
        if !same_section(&sections[index], &other[index]) {
            return false;
        }
    }
    true
}

#[cycle(sameness)]
fn same_catches(catches: &[Catch], other: &[Catch]) -> bool
    ensures { IsTrue result ↔ (catches.now ≡ other.now) }
{
    if catches.len() != other.len() {
        return false;
    }
    for index in 0..catches.len() {
        if !same_catch(&catches[index], &other[index]) {
            return false;
        }
    }
    true
}
