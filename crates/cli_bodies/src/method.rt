// What the conditions are asked of, and what fails them.

use cil_body::Body;
use cil_rows::Row;
use class_table::ClassTable;
use cli_assembly::Named;
use cli_conditions::Condition;
use dc_base::{Token, TypeId};
use thiserror::Error;

/// A body, and what its tokens mean.
#[derive(Drop)]
pub struct Method<'a> {
    pub table: &'a ClassTable,
    /// What each token means, by token.
    pub tokens: &'a [(Token, Named)],
    pub body: &'a Body,
    /// What its instructions do. Their aims are numbers of instructions.
    pub rows: &'a [Row],
    /// System.Object.
    pub object: TypeId,
    /// System.Exception.
    pub exception: TypeId,
    /// The offset at which its head isn't one that is taken, where it is a constructor with such a head.
    pub head: Option<u32>,
}

/// A condition that a body doesn't meet, and the offset in its code.
#[derive(Clone, Copy, Debug, PartialEq, Eq, Error)]
#[error("{condition} at {offset}")]
pub struct Failure {
    pub condition: Condition,
    pub offset: u32,
}
