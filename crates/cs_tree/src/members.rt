// Members of types (ECMA-334, clause 15).

use crate::forms::{Arg, Block, Form};
use crate::types::{Name, Param, Path, Spot, TypeForm};
use dc_base::{Items, Seq, Text};

/// Who may name a type or a member (ECMA-334, 15.3.6).
#[derive(Clone, Copy, Debug, PartialEq, Eq)]
pub enum Access {
    /// `public`
    Public,
    /// `private`
    Private,
    /// `protected`
    Protected,
    /// `internal`
    Internal,
    /// `protected internal`
    ProtectedOrInternal,
    /// `private protected`
    ProtectedAndInternal,
}

/// The modifiers of a declaration (ECMA-334, 15.3.5), in the order in which they stand.
#[derive(Clone, Copy, Debug, PartialEq, Eq)]
pub struct Mods {
    pub access: Option<Access>,
    pub is_static: bool,
    pub is_abstract: bool,
    pub is_sealed: bool,
    pub is_virtual: bool,
    pub is_override: bool,
    pub is_readonly: bool,
    pub is_extern: bool,
}

/// Which constructor is called before a constructor's block runs (ECMA-334, 15.11.2).
#[derive(Debug, Drop)]
pub enum Initial {
    /// `: base(a)`
    Base { args: Items<Arg> },
    /// `: this(a)`
    This { args: Items<Arg> },
}

/// The interface that a method implements by name (ECMA-334, 18.6.2): `global::A.B` before `.Go`
#[derive(Debug, Drop)]
pub struct Explicit {
    pub spot: Spot,
    pub path: Seq<Text>,
}

/// An accessor of a property (ECMA-334, 15.7.3): `get;`, `private set { }`
#[derive(Debug, Drop)]
pub struct Accessor {
    pub spot: Spot,
    pub mods: Mods,
    pub block: Option<Block>,
}

/// A member (ECMA-334, clause 15). Its place is that of its first token, and a note is its name in the assembly where the text
/// has another one.
#[derive(Debug, Drop)]
pub enum Member {
    /// `public int x;`, `public int x = 5;`
    Field {
        spot: Spot,
        note: Option<Text>,
        mods: Mods,
        ty: TypeForm,
        name: Name,
        value: Option<Form>,
    },
    /// `public const int X = 5;`
    Constant {
        spot: Spot,
        note: Option<Text>,
        mods: Mods,
        ty: TypeForm,
        name: Name,
        value: Form,
    },
    /// `public void M(int a) { }`, `public void M(int a);`, `void global::A.I.M() { }`; no type is `void`
    Method {
        spot: Spot,
        note: Option<Text>,
        mods: Mods,
        result: Option<TypeForm>,
        explicit: Option<Explicit>,
        name: Name,
        params: Seq<Param>,
        block: Option<Block>,
    },
    /// `public A(int a) : base(a) { }`
    Constructor {
        spot: Spot,
        note: Option<Text>,
        mods: Mods,
        name: Name,
        params: Seq<Param>,
        initial: Initial,
        block: Block,
    },
    /// `static A() { }`
    Initializer {
        spot: Spot,
        note: Option<Text>,
        name: Name,
        block: Block,
    },
    /// `public int P { get { } set { } }`
    Property {
        spot: Spot,
        note: Option<Text>,
        mods: Mods,
        ty: TypeForm,
        name: Name,
        getter: Option<Accessor>,
        setter: Option<Accessor>,
    },
    /// `public A(int a);`, in reference texts
    Maker {
        spot: Spot,
        mods: Mods,
        name: Name,
        params: Seq<Param>,
    },
    /// `public indexer int Item[int i] { get; set; }`, in reference texts
    Indexer {
        spot: Spot,
        mods: Mods,
        ty: TypeForm,
        name: Name,
        index_ty: TypeForm,
        index: Name,
        getter: Option<Accessor>,
        setter: Option<Accessor>,
    },
    /// `operator bool op_Equality(int a, int b);`, in reference texts
    Operator {
        spot: Spot,
        ty: TypeForm,
        name: Name,
        params: Seq<Param>,
    },
}
