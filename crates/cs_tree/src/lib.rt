//! C# texts as trees (ECMA-334, clauses 12 to 19), one variant for each production of the grammar.
//!
//! ```text
//! Unit ─ Space ─ Decl ─ Item ─ Member ─ Block ─ Syntax ─ Form ─ TypeForm, Path, Literal
//!                 └──────┘                 └──────┘  └─────┘ (a lambda's block)
//! ```
//!
//! A part that a fault may name has its line and column, as a [`Spot`]. A tree that wasn't read has [`Spot::NONE`] everywhere.
//! Two trees are the same text where they are equal once their places are forgotten: `bare_unit`, `bare_member`, `bare_form` and
//! so on ([`specs/Bare`]) forget them, and leave all else as it is.
//!
//! Parentheses and comments leave nothing in a tree.
#![tactic(auto)]

mod declarations;
mod forms;
mod members;
mod types;

pub use declarations::{Decl, Enumerator, Item, Kind, Space, Unit};
pub use forms::{
    Action, Arg, AssignOp, BinaryOp, Block, Catching, Form, Literal, Section, SwitchLabel, Syntax,
    UnaryOp,
};
pub use members::{Access, Accessor, Explicit, Initial, Member, Mods};
pub use types::{KeywordType, Name, Param, Path, Spot, TypeForm, TypeName, Way};

#[cfg(test)]
mod tests;
