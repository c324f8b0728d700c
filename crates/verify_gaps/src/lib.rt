//! Whether nothing stands between the making of an address and its first use that could tell when it was made (ECMA-335
//! III.4.9, III.4.11, III.4.15; ECMA-334 on the order in which arguments are evaluated). An address whose tests belong to its
//! first use is known by the number of the instruction that made it.
#![tactic(auto)]

mod disturb;
mod gap;
mod maker;
mod this;
mod touch;

pub use gap::has_no_gap;
pub use maker::{is_used_by, used_slots};
pub use this::is_of_this;
pub use touch::asks_touch;
