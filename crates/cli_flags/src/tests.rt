// Flags as compilers write them.

use crate::{
    MemberFlag, TypeFlag, has_member_flag, has_type_flag, member_access, type_access, virt_of,
};
use class_rows::{Access, Virt};

#[test]
fn flags_say_who_may_name(rt: HostRuntime) {
    let types = [
        Access::Internal,
        Access::Public,
        Access::Public,
        Access::Private,
        Access::Protected,
        Access::Internal,
        Access::PrivateProtected,
        Access::ProtectedInternal,
    ];
    for k in 0..8 {
        assert_eq!(rt; type_access(0x10_0100 + k as u32), types[k]);
    }
    let members = [
        (0x0000, Access::Private),
        (0x0001, Access::Private),
        (0x0012, Access::PrivateProtected),
        (0x0083, Access::Internal),
        (0x00C4, Access::Protected),
        (0x0005, Access::ProtectedInternal),
        (0x1886, Access::Public),
    ];
    for (flags, access) in members {
        assert_eq!(rt; member_access(flags), access);
    }
}

#[test]
fn flags_say_what_it_is(rt: HostRuntime) {
    assert!(rt; has_type_flag(0xA1, TypeFlag::Interface));
    assert!(rt; has_type_flag(0xA1, TypeFlag::Abstract));
    assert!(rt; !has_type_flag(0xA1, TypeFlag::Sealed));
    assert!(rt; has_member_flag(0x0051, MemberFlag::Static));
    assert!(rt; has_member_flag(0x0051, MemberFlag::Literal));
    assert!(rt; !has_member_flag(0x0051, MemberFlag::InitOnly));
    assert!(rt; has_member_flag(0x05C6, MemberFlag::Abstract));
}

#[test]
fn methods_have_slots(rt: HostRuntime) {
    let rows = [
        (0x0086, true, Virt::Plain),
        (0x01C6, true, Virt::Virtual),
        (0x05C6, true, Virt::Abstract),
        // What implements a method of an interface, and isn't virtual in C#.
        (0x01E6, false, Virt::Plain),
        (0x00C6, true, Virt::Override),
        (0x04C6, true, Virt::Override),
        (0x00E6, true, Virt::SealedOverride),
        // Without a method to override.
        (0x00C6, false, Virt::Virtual),
        (0x04C6, false, Virt::Abstract),
        (0x00E6, false, Virt::Plain),
    ];
    for (flags, overrides, virt) in rows {
        assert_eq!(rt; virt_of(flags, overrides), virt);
    }
}
