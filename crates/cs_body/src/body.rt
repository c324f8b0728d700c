// A body: its home, its variables and its statements.

use crate::tree::Stmt;
use dc_base::{Items, MemberId, Seq, Ty, TypeId};

/// The body of a method.
#[derive(Debug, Drop)]
pub struct Body {
    pub home: Home,
    pub vars: Seq<Var>,
    pub stmts: Items<Stmt>,
}

/// Where a body stands: the type that declares the method (none for a lone body), whether the method has `this`,
/// whether it is a constructor or a type initializer, and its result.
#[derive(Clone, Copy, Debug)]
pub struct Home {
    pub owner: Option<TypeId>,
    pub instance: bool,
    pub constructs: bool,
    pub result: Ty,
}

/// A variable of a body. It is named by its place in the body's list, from 0.
#[derive(Clone, Copy, Debug)]
pub struct Var {
    pub ty: Ty,
    pub role: Role,
}

/// What a variable stands for: a parameter, a local, a stack slot, the slot at a join, or a variable that a lambda
/// captures, with the constructor of its scope's class and the field that keeps it.
#[derive(Clone, Copy, Debug)]
pub enum Role {
    Param,
    Local,
    SlotVar,
    Join,
    Captured { maker: MemberId, field: MemberId },
}
