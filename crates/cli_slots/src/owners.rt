// Whether each member's type is there.

ghost use Rattle.std.specs.Prelude.{IsTrue};
ghost use Rattle.class_slots.specs.Slots.{OwnersAreThere};

use class_rows::{MemberRow, TypeRow};

/// Whether each member's type is there. It takes the time of one look at each.
pub fn owners_are_there(types: &[TypeRow], members: &[MemberRow]) -> bool
    ensures yes { IsTrue result → OwnersAreThere types.now members.now }
    ensures no { OwnersAreThere types.now members.now → IsTrue result }
{
    for m in 0..members.len() {
        if types.len() <= members[m].owner.0 as usize {
            return false;
        }
    }
    true
}
