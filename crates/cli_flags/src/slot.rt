// Whether a method has a slot of its own.

ghost use Rattle.std.specs.Prelude.{◌≡◌};
ghost use Rattle.cli_flags.specs.Flags.{virt_of};

use crate::{MemberFlag, has_member_flag};
use class_rows::Virt;

/// What a method with these flags does with slots; `overrides` says whether there is a virtual method above that it can take
/// the slot of.
pub fn virt_of(flags: u32, overrides: bool) -> Virt
    ensures { result ≡ virt_of flags overrides }
{
    if !has_member_flag(flags, MemberFlag::Virtual) {
        return Virt::Plain;
    }
    let is_final = has_member_flag(flags, MemberFlag::Final);
    if overrides && !has_member_flag(flags, MemberFlag::NewSlot) {
        return if is_final {
            Virt::SealedOverride
        } else {
            Virt::Override
        };
    }
    if has_member_flag(flags, MemberFlag::Abstract) {
        return Virt::Abstract;
    }
    if is_final { Virt::Plain } else { Virt::Virtual }
}
