// The slot of each member, the types from the bases down.

ghost use Rattle.std.specs.Prelude.{◌≡◌, ◌<◌, ◌^◌, ℕ, IfOk, length};
ghost use Rattle.class_rows.specs.Lookups.{IsSlot};
ghost use Rattle.class_parts.specs.Orders.{AreOrders};
ghost use Rattle.class_alike.specs.Named.{IsNamed};
ghost use Rattle.class_slots.specs.Slots.{AreSlots, OwnersAreThere};
ghost use Rattle.class_slots.specs.Known.{IsKnown};

use crate::known::{Known, virtuals_of};
use crate::walked::{Progress, stepped};
use class_alike::Named;
use class_open::{none_open, signs_of};
use class_parts::Orders;
use class_rows::{MemberRow, TypeRow};
use class_walk::walk_of;
use dc_base::{MemberId, NoMemory, Seq};
use std::alloc::Global;

/// The slot of each member. It takes the time of one walk over the types and their members, where no two members of a base
/// chain differ in `ref` and `out` alone.
pub fn slots_of(
    alloc: Global,
    types: &[TypeRow],
    members: &[MemberRow],
    explicit: &[(MemberId, MemberId)],
    orders: &Orders,
    named: &Named,
) -> Result<Seq<u32>, NoMemory>
    requires few { length types.now < 2 ^ 32 }
    requires short { length members.now < 2 ^ 32 }
    requires orders { AreOrders types.now orders.now }
    requires named { IsNamed types.now members.now explicit.now named.now }
    requires owners { OwnersAreThere types.now members.now }
    ensures { IfOk result (AreSlots types.now members.now explicit.now) }
{
    let signs = signs_of(alloc, members)?;
    let virtuals = virtuals_of(alloc, types, members, explicit, named)?;
    let known = Known {
        types,
        members,
        explicit,
        order: orders.bases.items(),
        named,
        signs: signs.as_slice(),
        virtuals: virtuals.as_slice(),
    };
    slots_on_walk(alloc, &known)
}

fn slots_on_walk(alloc: Global, known: &Known) -> Result<Seq<u32>, NoMemory>
    requires few { length known.now.types.now < 2 ^ 32 }
    requires known { IsKnown known.now }
    ensures { IfOk result (AreSlots known.now.types.now known.now.members.now known.now.explicit.now) }
{
    let walk = walk_of(alloc, known.types, known.order)?;
    let slots = vec![in alloc; 0; known.members.len()]?;
    let stacks = none_open(alloc, known.signs)?;
    let mut progress = Progress { stacks, slots };
    for step in walk.as_slice() {
        progress = stepped(known, progress, *step)?;
    }
    Ok(Seq::of(progress.slots))
}

/// The member that introduced a member's slot; the member itself where it takes none over.
pub fn slot(
    types: &[TypeRow],
    members: &[MemberRow],
    explicit: &[(MemberId, MemberId)],
    slots: &Seq<u32>,
    m: MemberId,
) -> MemberId
    requires slots { AreSlots types.now members.now explicit.now slots.now }
    requires within { m.0 < length members.now }
    ensures { IsSlot types.now members.now explicit.now m.0 result.0 }
{
    MemberId(slots.items()[m.0 as usize])
}
