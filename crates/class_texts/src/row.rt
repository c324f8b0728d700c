// A member's row, and what stands round it.

use class_rows::MemberRow;
use cs_declared::Within;
use dc_base::{Text, TypeId};

/// Whose member it is, and what stands directly round it.
#[derive(Clone, Copy, Debug)]
pub struct Home {
    pub owner: TypeId,
    pub within: Within,
}

/// A row, and the full name of the interface and the method that it implements by name, where it does.
#[derive(Debug, Drop)]
pub struct Row {
    pub row: MemberRow,
    pub implements: Option<(Text, Text)>,
}
