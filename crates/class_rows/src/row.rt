// The rows of the two lists that a class table is made of.

ghost use Rattle.std.specs.Prelude.{◌≡◌};
ghost use Rattle.class_rows.specs.Members.{sort_of};

use dc_base::{Prim_, Seq, Text, Text16, Ty, TypeId};

/// What a type is (ECMA-335 I.8.5, II.10): an enum has the primitive type of its values, and an opaque
/// type is a value type of which nothing but its members is known.
#[derive(Clone, Copy, Debug, PartialEq, Eq)]
pub enum Kind {
    Class,
    StaticClass,
    Interface,
    Enum(Prim_),
    Delegate,
    Opaque,
    Struct,
}

/// From where a type or a member may be named (ECMA-335 I.8.5.3.2).
#[derive(Clone, Copy, Debug, PartialEq, Eq)]
pub enum Access {
    Private,
    PrivateProtected,
    Internal,
    Protected,
    ProtectedInternal,
    Public,
}

/// A type. An own type stands in the assembly that is read, any other in its references.
#[derive(Debug, Drop)]
pub struct TypeRow {
    pub name: Text,
    /// The namespace, empty where it has none.
    pub space: Text,
    /// The type that it is nested in.
    pub outer: Option<TypeId>,
    pub kind: Kind,
    pub access: Access,
    pub base: Option<TypeId>,
    /// The interfaces that it names, in order.
    pub bases: Seq<TypeId>,
    pub is_abstract: bool,
    pub is_sealed: bool,
    pub own: bool,
}

/// The value of a constant.
#[derive(Debug, Drop)]
pub enum Literal {
    Number(i128),
    Text(Text16),
    NullText,
}

/// What a member is (ECMA-335 I.8.11). An accessor of a property with parameters is an indexer.
#[derive(Debug, Drop)]
pub enum MemberKind {
    Field {
        init_only: bool,
        literal: Option<Literal>,
    },
    Method,
    Constructor,
    Getter,
    Setter,
    Indexer,
    Operator,
}

/// What kind of member it is, apart from what a field holds.
#[derive(Clone, Copy, Debug, PartialEq, Eq, PartialOrd, Ord, Hash)]
pub enum Sort {
    Field,
    Method,
    Constructor,
    Getter,
    Setter,
    Indexer,
    Operator,
}

impl MemberKind {
    pub fn sort(&self) -> Sort
        ensures { result ≡ sort_of self.now }
    {
        match self {
            MemberKind::Field { .. } => Sort::Field,
            MemberKind::Method => Sort::Method,
            MemberKind::Constructor => Sort::Constructor,
            MemberKind::Getter => Sort::Getter,
            MemberKind::Setter => Sort::Setter,
            MemberKind::Indexer => Sort::Indexer,
            MemberKind::Operator => Sort::Operator,
        }
    }
}

/// Whether a method has a slot (ECMA-335 II.10.3): it introduces one, with a body or without, or takes one over.
#[derive(Clone, Copy, Debug, PartialEq, Eq)]
pub enum Virt {
    Plain,
    Virtual,
    Abstract,
    Override,
    SealedOverride,
}

/// How an argument is handed over.
#[derive(Clone, Copy, Debug, PartialEq, Eq, PartialOrd, Ord, Hash)]
pub enum Way {
    ByValue,
    Ref,
    Out,
}

/// A parameter; the type of one by `ref` or `out` is lent.
#[derive(Clone, Copy, Debug, PartialEq, Eq, PartialOrd, Ord, Hash)]
pub struct Param {
    pub ty: Ty,
    pub way: Way,
}

/// A member. A constructor, and a method without a result, has the result void.
#[derive(Debug, Drop)]
pub struct MemberRow {
    pub owner: TypeId,
    /// The name in metadata; of an accessor it begins with `get_` or `set_`.
    pub name: Text,
    pub kind: MemberKind,
    pub access: Access,
    pub is_static: bool,
    pub virt: Virt,
    pub params: Seq<Param>,
    pub result: Ty,
}
