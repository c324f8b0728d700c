// The members that references mean, found on one walk over the tree of bases.

ghost use Rattle.std.specs.Prelude.{◌≡◌, ◌<◌, ◌^◌, IfOk, length, replicate, None};
ghost use Rattle.class_chains.specs.Ends.{IsAboveFirst};
ghost use Rattle.class_rows.specs.Types.{IsAbove};
ghost use Rattle.cli_refs.specs.Sought.{AreMembersMeant};
ghost use Rattle.cli_refs.specs.Known.{IsKnown};

use crate::Sought;
use crate::asked::asked_of;
use crate::pick::picks_of;
use crate::sign::signs_of;
use crate::walked::{Known, Progress, stepped};
use class_index::MemberIndex;
use class_open::none_open;
use class_rows::{MemberRow, TypeRow};
use class_walk::walk_of;
use dc_base::{MemberId, NoMemory};
use std::alloc::Global;

/// For each reference the member that it means, or none. `order` has each type behind its base. It takes the time of one walk
/// over the types, two look-ups in a table of hashes for each member and one for each reference, and of sorting the members.
pub fn members_meant(
    alloc: Global,
    types: &[TypeRow],
    members: &[MemberRow],
    order: &[u32],
    sought: &[Sought<'_>],
) -> Result<Vec<Option<MemberId>>, NoMemory>
    requires few { length types.now < 2 ^ 32 }
    requires short { length members.now < 2 ^ 32 }
    requires order { IsAboveFirst (IsAbove types.now) (length types.now) order.now }
    ensures { IfOk result (λ found. AreMembersMeant types.now members.now sought.now found.items) }
{
    let index = MemberIndex::of(alloc, members)?;
    let signs = signs_of(alloc, members, sought)?;
    let picks = picks_of(alloc, types.len(), members, signs.as_slice())?;
    let asked = asked_of(alloc, types.len(), sought)?;
    let known = Known {
        types,
        members,
        sought,
        order,
        index: &index,
        signs: signs.as_slice(),
        picks: picks.as_slice(),
        asked: &asked,
    };
    meant_on_walk(alloc, &known)
}

fn meant_on_walk(alloc: Global, known: &Known<'_, '_>) -> Result<Vec<Option<MemberId>>, NoMemory>
    requires few { length known.now.types.now < 2 ^ 32 }
    requires known { IsKnown known.now }
    ensures { IfOk result (λ found. AreMembersMeant known.now.types.now known.now.members.now known.now.sought.now found.items) }
{
    let walk = walk_of(alloc, known.types, known.order)?;
    let found = nones(alloc, known.sought.len())?;
    let stacks = none_open(alloc, known.signs)?;
    let mut progress = Progress { stacks, found };
    for step in walk.as_slice() {
        progress = stepped(known, progress, *step)?;
    }
    Ok(progress.found)
}

fn nones(alloc: Global, count: usize) -> Result<Vec<Option<MemberId>>, NoMemory>
    ensures { IfOk result (λ nones. nones.items ≡ replicate count None) }
{
    Ok(vec![in alloc; None; count]?)
}
