// The kinds of coded indices with the tables that they name.

ghost use Rattle.std.specs.Prelude.{◌≡◌, ◌≤◌};
ghost use Rattle.cli_metadata.specs.Tables.{targets_of};

use crate::Table;

/// The kinds of coded indices (ECMA-335 II.24.2.6).
#[derive(Clone, Copy, Debug, PartialEq, Eq)]
pub enum Coded {
    TypeDefOrRef,
    HasConstant,
    HasCustomAttribute,
    HasFieldMarshal,
    HasDeclSecurity,
    MemberRefParent,
    HasSemantics,
    MethodDefOrRef,
    MemberForwarded,
    Implementation,
    CustomAttributeType,
    ResolutionScope,
    TypeOrMethodDef,
}

/// The tables that a coded index may name, each at its tag, which stands in the lowest bits of the cell. No table has a
/// tag that isn't listed.
#[derive(Clone, Copy, Debug, PartialEq, Eq)]
pub struct Targets {
    pub bits: u32,
    pub tables: [Option<Table>; 22],
}

// The tables of a coded index, with none behind the last.
macro_rules! tables {
    ($a:expr, $b:expr) => { [$a, $b, None, None, None, None, None, None, None, None, None, None, None, None, None, None, None, None, None, None, None, None] };
    ($a:expr, $b:expr, $c:expr) => { [$a, $b, $c, None, None, None, None, None, None, None, None, None, None, None, None, None, None, None, None, None, None, None] };
    ($a:expr, $b:expr, $c:expr, $d:expr) => { [$a, $b, $c, $d, None, None, None, None, None, None, None, None, None, None, None, None, None, None, None, None, None, None] };
    ($a:expr, $b:expr, $c:expr, $d:expr, $e:expr) => { [$a, $b, $c, $d, $e, None, None, None, None, None, None, None, None, None, None, None, None, None, None, None, None, None] };
}

/// The tables of `TypeDefOrRef`.
pub const TYPE_DEF_OR_REF: Targets = Targets {
    bits: 2,
    tables: tables![
        Some(Table::TypeDef),
        Some(Table::TypeRef),
        Some(Table::TypeSpec)
    ],
};

/// The tables of `HasConstant`.
pub const HAS_CONSTANT: Targets = Targets {
    bits: 2,
    tables: tables![
        Some(Table::Field),
        Some(Table::Param),
        Some(Table::Property)
    ],
};

/// The tables of `HasCustomAttribute`.
pub const HAS_CUSTOM_ATTRIBUTE: Targets = Targets {
    bits: 5,
    tables: [
        Some(Table::MethodDef),
        Some(Table::Field),
        Some(Table::TypeRef),
        Some(Table::TypeDef),
        Some(Table::Param),
        Some(Table::InterfaceImpl),
        Some(Table::MemberRef),
        Some(Table::Module),
        Some(Table::DeclSecurity),
        Some(Table::Property),
        Some(Table::Event),
        Some(Table::StandAloneSig),
        Some(Table::ModuleRef),
        Some(Table::TypeSpec),
        Some(Table::Assembly),
        Some(Table::AssemblyRef),
        Some(Table::File),
        Some(Table::ExportedType),
        Some(Table::ManifestResource),
        Some(Table::GenericParam),
        Some(Table::GenericParamConstraint),
        Some(Table::MethodSpec),
    ],
};

/// The tables of `HasFieldMarshal`.
pub const HAS_FIELD_MARSHAL: Targets = Targets {
    bits: 1,
    tables: tables![Some(Table::Field), Some(Table::Param)],
};

/// The tables of `HasDeclSecurity`.
pub const HAS_DECL_SECURITY: Targets = Targets {
    bits: 2,
    tables: tables![
        Some(Table::TypeDef),
        Some(Table::MethodDef),
        Some(Table::Assembly)
    ],
};

/// The tables of `MemberRefParent`.
pub const MEMBER_REF_PARENT: Targets = Targets {
    bits: 3,
    tables: tables![
        Some(Table::TypeDef),
        Some(Table::TypeRef),
        Some(Table::ModuleRef),
        Some(Table::MethodDef),
        Some(Table::TypeSpec)
    ],
};

/// The tables of `HasSemantics`.
pub const HAS_SEMANTICS: Targets = Targets {
    bits: 1,
    tables: tables![Some(Table::Event), Some(Table::Property)],
};

/// The tables of `MethodDefOrRef`.
pub const METHOD_DEF_OR_REF: Targets = Targets {
    bits: 1,
    tables: tables![Some(Table::MethodDef), Some(Table::MemberRef)],
};

/// The tables of `MemberForwarded`.
pub const MEMBER_FORWARDED: Targets = Targets {
    bits: 1,
    tables: tables![Some(Table::Field), Some(Table::MethodDef)],
};

/// The tables of `Implementation`.
pub const IMPLEMENTATION: Targets = Targets {
    bits: 2,
    tables: tables![
        Some(Table::File),
        Some(Table::AssemblyRef),
        Some(Table::ExportedType)
    ],
};

/// The tables of `CustomAttributeType`.
pub const CUSTOM_ATTRIBUTE_TYPE: Targets = Targets {
    bits: 3,
    tables: tables![None, None, Some(Table::MethodDef), Some(Table::MemberRef)],
};

/// The tables of `ResolutionScope`.
pub const RESOLUTION_SCOPE: Targets = Targets {
    bits: 2,
    tables: tables![
        Some(Table::Module),
        Some(Table::ModuleRef),
        Some(Table::AssemblyRef),
        Some(Table::TypeRef)
    ],
};

/// The tables of `TypeOrMethodDef`.
pub const TYPE_OR_METHOD_DEF: Targets = Targets {
    bits: 1,
    tables: tables![Some(Table::TypeDef), Some(Table::MethodDef)],
};

impl Coded {
    /// The tables that an index of this kind may name.
    pub fn targets(self) -> Targets
        ensures same { result ≡ targets_of self }
        ensures few { result.bits ≤ 5 }
    {
        match self {
            Coded::TypeDefOrRef => TYPE_DEF_OR_REF,
            Coded::HasConstant => HAS_CONSTANT,
            Coded::HasCustomAttribute => HAS_CUSTOM_ATTRIBUTE,
            Coded::HasFieldMarshal => HAS_FIELD_MARSHAL,
            Coded::HasDeclSecurity => HAS_DECL_SECURITY,
            Coded::MemberRefParent => MEMBER_REF_PARENT,
            Coded::HasSemantics => HAS_SEMANTICS,
            Coded::MethodDefOrRef => METHOD_DEF_OR_REF,
            Coded::MemberForwarded => MEMBER_FORWARDED,
            Coded::Implementation => IMPLEMENTATION,
            Coded::CustomAttributeType => CUSTOM_ATTRIBUTE_TYPE,
            Coded::ResolutionScope => RESOLUTION_SCOPE,
            Coded::TypeOrMethodDef => TYPE_OR_METHOD_DEF,
        }
    }
}
