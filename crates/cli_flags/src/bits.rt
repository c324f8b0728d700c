// Single flags.

ghost use Rattle.std.specs.Prelude.{◌≡◌};
ghost use Rattle.cli_flags.specs.Flags.{type_mask, member_mask, is_set};

/// A flag of a type (ECMA-335 II.23.1.15).
#[derive(Clone, Copy, Debug, PartialEq, Eq)]
pub enum TypeFlag {
    Interface,
    Abstract,
    Sealed,
}

/// A flag of a field or of a method (ECMA-335 II.23.1.5, II.23.1.10).
#[derive(Clone, Copy, Debug, PartialEq, Eq)]
pub enum MemberFlag {
    Static,
    /// Of a field: only constructors write it.
    InitOnly,
    /// Of a field: it is a constant.
    Literal,
    /// Of a method: none overrides it.
    Final,
    Virtual,
    NewSlot,
    Abstract,
}

/// Whether a type has the flag.
pub fn has_type_flag(flags: u32, flag: TypeFlag) -> bool
    ensures { result ≡ is_set (type_mask flag) flags }
{
    match flag {
        TypeFlag::Interface => flags & 0x20 != 0,
        TypeFlag::Abstract => flags & 0x80 != 0,
        TypeFlag::Sealed => flags & 0x100 != 0,
    }
}

/// Whether a field or a method has the flag.
pub fn has_member_flag(flags: u32, flag: MemberFlag) -> bool
    ensures { result ≡ is_set (member_mask flag) flags }
{
    match flag {
        MemberFlag::Static => flags & 0x10 != 0,
        MemberFlag::InitOnly => flags & 0x20 != 0,
        MemberFlag::Literal => flags & 0x40 != 0,
        MemberFlag::Final => flags & 0x20 != 0,
        MemberFlag::Virtual => flags & 0x40 != 0,
        MemberFlag::NewSlot => flags & 0x100 != 0,
        MemberFlag::Abstract => flags & 0x400 != 0,
    }
}
