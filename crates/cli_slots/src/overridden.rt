// What a member does with slots, by the members that stand open above it.

ghost use Rattle.std.specs.Prelude.{◌≡◌, ◌≢◌, ◌<◌, IsTrue, Some, false, length, slice_get};
ghost use Rattle.class_rows.specs.declared.row.Virt.{Virt};
ghost use Rattle.class_rows.specs.Members.{IsNameless};
ghost use Rattle.class_open.specs.Stacks.{AreStacked};
ghost use Rattle.cli_slots.specs.Known.{IsKnown};
ghost use Rattle.cli_slots.specs.Settled.{Tells};
ghost use Rattle.cli_slots.specs.Told.{ByOpen, IsVirtBy, IsVirtual};

use crate::known::Known;
use class_alike::has_name;
use class_open::{Open, innermost_alike};
use class_rows::{MemberRow, Virt};
use cli_flags::virt_of;

/// What a member does with slots, where the virtual methods above its type stand open.
pub fn virt_by(known: &Known, stacks: &Open, m: u32, row: &MemberRow) -> Virt
    requires known { IsKnown known.now }
    requires stacked { AreStacked known.now.signs.now stacks.now.tops.items stacks.now.below.items stacks.now.trail }
    requires stands { slice_get known.now.members.now m ≡ Some row.now }
    ensures { IsVirtBy known.now (ByOpen known.now stacks.now.trail) m row.now result }
{
    let n = m as usize;
    if n < known.own_from {
        return row.virt;
    }
    virt_of(
        known.flags[n - known.own_from],
        overrides(known, stacks, m, row),
    )
}

fn overrides(known: &Known, stacks: &Open, m: u32, row: &MemberRow) -> bool
    requires known { IsKnown known.now }
    requires stacked { AreStacked known.now.signs.now stacks.now.tops.items stacks.now.below.items stacks.now.trail }
    requires stands { slice_get known.now.members.now m ≡ Some row.now }
    ensures { ByOpen known.now stacks.now.trail row.now result }
{
    match innermost_alike(known.types, known.members, known.signs, stacks, m, row) {
        Some(_) => true,
        None => false,
    }
}

/// Whether it is a virtual instance method with a name then.
pub fn is_virtual(known: &Known, m: u32, row: &MemberRow, virt: Virt) -> bool
    requires { IsKnown known.now }
    ensures { Tells result (IsVirtual known.now m row.now virt) }
{
    is_not_plain(virt) && !row.is_static && is_named(known, m)
}

fn is_named(known: &Known, m: u32) -> bool
    requires { IsKnown known.now }
    ensures yes { IsTrue result → IsNameless known.now.types.now known.now.members.now known.now.explicit.now m → ⊥ }
    ensures no { (IsNameless known.now.types.now known.now.members.now known.now.explicit.now m → ⊥) → IsTrue result }
{
    has_name(known.named, m)
}

fn is_not_plain(virt: Virt) -> bool
    ensures yes { IsTrue result → virt ≢ Virt.Plain }
    ensures no { virt ≢ Virt.Plain → IsTrue result }
{
    match virt {
        Virt::Plain => false,
        Virt::Virtual => true,
        Virt::Abstract => true,
        Virt::Override => true,
        Virt::SealedOverride => true,
    }
}
