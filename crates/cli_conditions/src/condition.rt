// The conditions with their numbers and names.

ghost use Rattle.std.specs.Prelude.{◌≡◌};
ghost use Rattle.cli_conditions.specs.Conditions.{number_of, name_of};

use std::fmt;

/// The conditions that an assembly of the profile meets, in their order. Each is told by what holds where it is met.
#[derive(Clone, Copy, Debug, PartialEq, Eq)]
pub enum Condition {
    /// There are no generic parameters, no constraints of them, and no instances of generic methods.
    Generic,
    /// There are no events.
    Event,
    /// No method but those of own delegates is native, made or locked by the runtime, and none is imported from a library.
    Native,
    /// There is one assembly in one file, which refers to no other module and hands on no type.
    Modules,
    /// There are no security declarations.
    Security,
    /// Nothing says how a field or parameter is marshalled.
    Marshal,
    /// No type says how it is laid out.
    Layout,
    /// No field has data in the file.
    FieldData,
    /// A type by signature that is reached is an array of one dimension.
    TypeSpec,
    /// The module's own type has no field and no method.
    ModuleMember,
    /// No own type is a struct.
    ValueType,
    /// No own constant is a float, and a literal field has one constant, which fits its type.
    Constant,
    /// No result, field or local is a place by reference.
    RefShape,
    /// A static class has no instance member.
    StaticShape,
    /// A class that isn't static has an instance constructor.
    NoConstructor,
    /// The members of an interface are instance members without bodies.
    InterfaceShape,
    /// No own method is a finalizer.
    Finalizer,
    /// An explicit implementation is one private method for one interface method, and no instruction names it.
    ExplicitImpl,
    /// An accessor that takes part in a property of the references is that of a property which is printed as one.
    PropertyShape,
    /// A base, and the type of a field, a parameter or a result, is as accessible as its member.
    Accessibility,
    /// An own member that has to keep the name of a member of the references can.
    KeptName,
    /// An own delegate has the usual constructor and `Invoke`, and no other member of it is used.
    DelegateShape,
    /// No event accessor and no conversion operator of the references is reached.
    ReferenceMember,
    /// An enum has one instance field, of an integer type, and no methods.
    EnumShape,
    /// A type has at most 32 brackets.
    ArrayDepth,
    /// There are at most 65,535 methods.
    Methods,
    /// Each instruction is one that is taken.
    Opcode,
    /// An exception clause is a catch or a finally.
    Clause,
    /// A catch catches exceptions, or all objects.
    CatchClass,
    /// A catch isn't covered by an earlier one of the same try.
    CatchOrder,
    /// A constructor calls a constructor on `this`, and what it does before can be printed.
    Head,
    /// What is unboxed is read directly behind, as a value of that type.
    Unbox,
}

impl Condition {
    /// The condition's place in the order, from 1 on.
    pub fn number(self) -> u8
        ensures { result ≡ number_of self }
    {
        match self {
            Condition::Generic => 1,
            Condition::Event => 2,
            Condition::Native => 3,
            Condition::Modules => 4,
            Condition::Security => 5,
            Condition::Marshal => 6,
            Condition::Layout => 7,
            Condition::FieldData => 8,
            Condition::TypeSpec => 9,
            Condition::ModuleMember => 10,
            Condition::ValueType => 11,
            Condition::Constant => 12,
            Condition::RefShape => 13,
            Condition::StaticShape => 14,
            Condition::NoConstructor => 15,
            Condition::InterfaceShape => 16,
            Condition::Finalizer => 17,
            Condition::ExplicitImpl => 18,
            Condition::PropertyShape => 19,
            Condition::Accessibility => 20,
            Condition::KeptName => 21,
            Condition::DelegateShape => 22,
            Condition::ReferenceMember => 23,
            Condition::EnumShape => 24,
            Condition::ArrayDepth => 25,
            Condition::Methods => 26,
            Condition::Opcode => 27,
            Condition::Clause => 28,
            Condition::CatchClass => 29,
            Condition::CatchOrder => 30,
            Condition::Head => 31,
            Condition::Unbox => 32,
        }
    }

    /// The name that a refusal prints.
    pub fn name(self) -> &'static str
        ensures { result.now ≡ name_of self }
    {
        match self {
            Condition::Generic => "Generic",
            Condition::Event => "Event",
            Condition::Native => "Native",
            Condition::Modules => "Modules",
            Condition::Security => "Security",
            Condition::Marshal => "Marshal",
            Condition::Layout => "Layout",
            Condition::FieldData => "FieldData",
            Condition::TypeSpec => "TypeSpec",
            Condition::ModuleMember => "ModuleMember",
            Condition::ValueType => "ValueType",
            Condition::Constant => "Constant",
            Condition::RefShape => "RefShape",
            Condition::StaticShape => "StaticShape",
            Condition::NoConstructor => "NoConstructor",
            Condition::InterfaceShape => "InterfaceShape",
            Condition::Finalizer => "Finalizer",
            Condition::ExplicitImpl => "ExplicitImpl",
            Condition::PropertyShape => "PropertyShape",
            Condition::Accessibility => "Accessibility",
            Condition::KeptName => "KeptName",
            Condition::DelegateShape => "DelegateShape",
            Condition::ReferenceMember => "ReferenceMember",
            Condition::EnumShape => "EnumShape",
            Condition::ArrayDepth => "ArrayDepth",
            Condition::Methods => "Methods",
            Condition::Opcode => "Opcode",
            Condition::Clause => "Clause",
            Condition::CatchClass => "CatchClass",
            Condition::CatchOrder => "CatchOrder",
            Condition::Head => "Head",
            Condition::Unbox => "Unbox",
        }
    }
}

impl fmt::Display for Condition {
    ghost use Rattle.std.specs.Prelude.{Some};
    ghost use Rattle.cli_conditions.specs.Conditions.{name_of};

    ghost output = { λ condition. Some (name_of condition) };

    fn fmt<W: fmt::Write>(&self, f: &mut fmt::Formatter<W>) -> fmt::Result {
        let name = self.name();
        write!(f, "{name}")
    }
}
