// The rows of members with what they do with slots, the types from the bases down.

ghost use Rattle.std.specs.Prelude.{◌≡◌, ◌≤◌, ◌<◌, ◌-◌, ◌^◌, IfOk, length};
ghost use Rattle.class_chains.specs.Ends.{IsAboveFirst};
ghost use Rattle.class_rows.specs.Types.{IsAbove};
ghost use Rattle.class_alike.specs.Named.{IsNamed};
ghost use Rattle.class_slots.specs.Slots.{OwnersAreThere};
ghost use Rattle.cli_slots.specs.Settled.{AreSettled};
ghost use Rattle.cli_slots.specs.Known.{IsKnown, with_virts};

use crate::known::Known;
use crate::told::Told;
use crate::walked::{Progress, stepped};
use class_alike::Named;
use class_open::{none_open, signs_of};
use class_rows::{MemberRow, TypeRow, Virt};
use class_walk::walk_of;
use dc_base::{MemberId, NoMemory};
use std::alloc::Global;

/// The rows of all members, of which the last ones are own and have these flags; those of a field are 0. What an own member does
/// with slots is made anew, and all else stays. `order` has each type behind its base. It takes the time of one walk over the
/// types and their members, where no two members of a base chain differ in `ref` and `out` alone.
pub fn settled(
    alloc: Global,
    types: &[TypeRow],
    members: Vec<MemberRow>,
    explicit: &[(MemberId, MemberId)],
    order: &[u32],
    named: &Named,
    flags: &[u32],
) -> Result<Vec<MemberRow>, NoMemory>
    requires few { length types.now < 2 ^ 32 }
    requires order { IsAboveFirst (IsAbove types.now) (length types.now) order.now }
    requires named { IsNamed types.now members.items explicit.now named.now }
    requires owners { OwnersAreThere types.now members.items }
    requires within { length flags.now ≤ length members.items }
    ensures { IfOk result (λ new. AreSettled types.now explicit.now (length members.items - length flags.now) flags.now members.items new.items) }
{
    let signs = signs_of(alloc, members.as_slice())?;
    let known = Known {
        types,
        members: members.as_slice(),
        explicit,
        order,
        named,
        signs: signs.as_slice(),
        own_from: members.len() - flags.len(),
        flags,
    };
    let virts = virts_on_walk(alloc, &known)?;
    Ok(with_virts(members, virts.as_slice()))
}

fn virts_on_walk(alloc: Global, known: &Known) -> Result<Vec<Virt>, NoMemory>
    requires few { length known.now.types.now < 2 ^ 32 }
    requires known { IsKnown known.now }
    ensures long { IfOk result (λ virts. length virts.items ≡ length known.now.members.now) }
    ensures settled { IfOk result (λ virts. AreSettled known.now.types.now known.now.explicit.now known.now.own_from known.now.flags.now known.now.members.now (with_virts known.now.members.now virts.items)) }
{
    let walk = walk_of(alloc, known.types, known.order)?;
    let virts = vec![in alloc; Virt::Plain; known.members.len()]?;
    let picks = vec![in alloc; false; known.members.len()]?;
    let stacks = none_open(alloc, known.signs)?;
    let mut progress = Progress {
        stacks,
        told: Told { virts, picks },
    };
    for step in walk.as_slice() {
        progress = stepped(known, progress, *step)?;
    }
    let Progress { stacks: _, told } = progress;
    Ok(told.virts)
}

// The rows, each with its own word on slots.
fn with_virts(members: Vec<MemberRow>, virts: &[Virt]) -> Vec<MemberRow>
    requires { length virts.now ≡ length members.items }
    ensures { result.items ≡ with_virts members.items virts.now }
{
    let mut members = members;
    for m in 0..members.len() {
        members[m].virt = virts[m];
    }
    members
}
