// What is computed of the rows once.

use class_alike::Named;
use class_rows::{MemberRow, TypeRow};
use dc_base::MemberId;

/// The rows, and what is computed of them once: an order with each type behind its base, the members by their names and by their
/// signs, and the flags of those that are own, which stand from `own_from` on.
#[derive(Drop)]
pub struct Known<'a> {
    pub types: &'a [TypeRow],
    pub members: &'a [MemberRow],
    pub explicit: &'a [(MemberId, MemberId)],
    pub order: &'a [u32],
    pub named: &'a Named,
    pub signs: &'a [usize],
    pub own_from: usize,
    pub flags: &'a [u32],
}
