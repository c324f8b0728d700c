//! How members, types and whole texts of C# are laid out: each member on lines of its own, a block from brace to brace, no line empty.
//!
//! ```text
//! assembly line ─ note ─ modifiers ─ headword ─ type, name, parameters ─ block     each part is pieces, as cs_layout has them
//! ```
//!
//! [`specs/Heads`] says how declarations begin, and what notes are printed as, [`specs/Members`] and [`specs/Units`] how members, types
//! and texts are printed. The calls here write what holds no expression. Where memory is wanted a part of it may have been written.
#![tactic(auto)]

mod declarations;
mod heads;
mod headwords;
mod notes;

pub use declarations::{
    write_body_head, write_delegate_head, write_enum_head, write_enumerators, write_namespace_head,
};
pub use heads::{
    write_indexer_head, write_initializer_head, write_maker_head, write_method_head, write_mods,
    write_operator_head, write_property_head,
};
pub use headwords::{Headword, write_headword};
pub use notes::{write_assembly, write_note};
