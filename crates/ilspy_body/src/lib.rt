//! A lone body as C# text.
//!
//! ```text
//! file ─ cil_lone: code ─ flat: a C# body ─ a C# tree ─ cs_print: text
//! ```
//!
//! [`flat`] makes the flat form of a lone body's code, in which each push declares a variable of its own, and [`text`] prints the
//! tree that it has as one method. What the text means is said from the other end, by the definitions of a text's tokens
//! (ECMA-334 6.4), of their tree (12.4, 13.6, 15.6), which are those of all C# texts here, and of the body that the tree has:
//! [`text_means_the_same`] is the theorem.
#![tactic(auto)]

mod flat_form;
mod layout;
mod meaning;
mod tree;

pub use flat_form::flat;
pub use layout::text;
pub use meaning::{code_can_be_flattened, text_means_the_same};
