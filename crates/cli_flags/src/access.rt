// From where types and members may be named.

ghost use Rattle.std.specs.Prelude.{◌≡◌};
ghost use Rattle.cli_flags.specs.Flags.{type_access, member_access};

use class_rows::Access;

// By the number in the lowest three bits (ECMA-335 II.23.1.15).
const OF_TYPES: [Access; 8] = [
    Access::Internal,
    Access::Public,
    Access::Public,
    Access::Private,
    Access::Protected,
    Access::Internal,
    Access::PrivateProtected,
    Access::ProtectedInternal,
];

// By the number in the lowest three bits (ECMA-335 II.23.1.5, II.23.1.10).
const OF_MEMBERS: [Access; 8] = [
    Access::Private,
    Access::Private,
    Access::PrivateProtected,
    Access::Internal,
    Access::Protected,
    Access::ProtectedInternal,
    Access::Public,
    Access::Private,
];

/// From where a type with these flags may be named.
pub fn type_access(flags: u32) -> Access
    ensures { result ≡ type_access flags }
{
    OF_TYPES[(flags % 8) as usize]
}

/// From where a field or a method with these flags may be named.
pub fn member_access(flags: u32) -> Access
    ensures { result ≡ member_access flags }
{
    OF_MEMBERS[(flags % 8) as usize]
}
