// What is computed of the rows while they are checked.

use class_alike::Named;
use class_assign::Supers;
use class_parts::Orders;
use dc_base::Seq;

/// The orders of the types, and the members by their names.
#[derive(Debug, Drop)]
pub struct Known {
    pub orders: Orders,
    pub named: Named,
}

/// What a table keeps beside its rows: what stands above each type, the members by their names, and
/// the slot of each member.
#[derive(Debug, Drop)]
pub struct Kept {
    pub supers: Supers,
    pub named: Named,
    pub slots: Seq<u32>,
}
