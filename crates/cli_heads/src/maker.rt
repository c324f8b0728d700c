// A constructor.

use cil_body::Body;
use cil_rows::Row;
use class_table::ClassTable;
use cli_assembly::Named;
use dc_base::{Token, TypeId};

/// An instance constructor of a class, and what its tokens mean.
#[derive(Drop)]
pub struct Maker<'a> {
    pub table: &'a ClassTable,
    /// What each token means, by token.
    pub tokens: &'a [(Token, Named)],
    pub body: &'a Body,
    /// What its instructions do. Their aims are numbers of instructions.
    pub rows: &'a [Row],
    /// The class that it makes objects of.
    pub class: TypeId,
}
