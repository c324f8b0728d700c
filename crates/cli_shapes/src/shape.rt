// The conditions, each asked of all own types or of all own members.

ghost use Rattle.std.specs.Prelude.{◌≡◌, ◌<◌};
ghost use Rattle.std.specs.Bool.{OnTrue, OnFalse};
ghost use Rattle.cli_shapes.specs.Shapes.{condition_of, asked, FailsAt, Meets, IsTokenOf};

use crate::marks::Marks;
use crate::members::{is_finalizer, is_full_in_interface, is_lent, is_too_deep};
use crate::own::Own;
use crate::types::{
    is_other_delegate, is_other_enum, is_static_with_instance, is_struct, is_without_constructor,
};
use cli_conditions::Condition;
use dc_base::Token;
use dc_causes::Condition as Asked;
use std::marker::Model;

/// A condition of those that rows of own types and members decide.
#[derive(Clone, Copy, Debug, PartialEq, Eq)]
pub(crate) enum Shape {
    ValueType,
    RefShape,
    StaticShape,
    NoConstructor,
    InterfaceShape,
    Finalizer,
    DelegateShape,
    EnumShape,
    ArrayDepth,
}

// Own types and members, and which types have members of which kinds.
#[derive(Drop)]
pub(crate) struct Rows<'a> {
    pub(crate) own: &'a Own<'a>,
    pub(crate) marks: Marks,
}

impl<'a> Model for Rows<'a> {
    ghost use Rattle.cli_shapes.specs.declared.own.Own.{Own as Subject};
    ghost use Rattle.cli_shapes.specs.Marks.{AreAllMarks};

    ghost Value = { Subject };

    ghost view = { λ r. r.own.now };

    ghost invariant = { λ r. AreAllMarks r.own.now r.marks };
}

impl Shape {
    // In their order.
    pub(crate) const ALL: [Shape; 9] = [
        Shape::ValueType,
        Shape::RefShape,
        Shape::StaticShape,
        Shape::NoConstructor,
        Shape::InterfaceShape,
        Shape::Finalizer,
        Shape::DelegateShape,
        Shape::EnumShape,
        Shape::ArrayDepth,
    ];

    pub(crate) fn condition(self) -> Condition
        ensures { result ≡ condition_of self }
    {
        match self {
            Shape::ValueType => Condition::ValueType,
            Shape::RefShape => Condition::RefShape,
            Shape::StaticShape => Condition::StaticShape,
            Shape::NoConstructor => Condition::NoConstructor,
            Shape::InterfaceShape => Condition::InterfaceShape,
            Shape::Finalizer => Condition::Finalizer,
            Shape::DelegateShape => Condition::DelegateShape,
            Shape::EnumShape => Condition::EnumShape,
            Shape::ArrayDepth => Condition::ArrayDepth,
        }
    }

    // Whether own type, or own member, n fails it.
    pub(crate) fn fails(self, rows: &Rows, n: usize) -> bool
        requires { n < asked self rows.now }
        ensures yes { OnTrue result (FailsAt self rows.now n) }
        ensures no { OnFalse result (FailsAt self rows.now n → ⊥) }
    {
        let own = rows.own;
        let marks = &rows.marks;
        match self {
            Shape::ValueType => is_struct(own, n),
            Shape::RefShape => is_lent(own, n),
            Shape::StaticShape => is_static_with_instance(own, marks, n),
            Shape::NoConstructor => is_without_constructor(own, marks, n),
            Shape::InterfaceShape => is_full_in_interface(own, n),
            Shape::Finalizer => is_finalizer(own, n),
            Shape::DelegateShape => is_other_delegate(own, marks, n),
            Shape::EnumShape => is_other_enum(own, marks, n),
            Shape::ArrayDepth => is_too_deep(own, n),
        }
    }

    // The token of own type, or own member, n.
    pub(crate) fn token(self, rows: &Rows, n: usize) -> Token
        requires { n < asked self rows.now }
        ensures { IsTokenOf self rows.now n result }
    {
        match self {
            Shape::RefShape | Shape::InterfaceShape | Shape::Finalizer | Shape::ArrayDepth => rows
                .own
                .told[n].token,
            _ => rows.own.type_token(n),
        }
    }
}

impl<'a> Asked<Rows<'a>> for Shape {
    ghost rows = { asked };

    ghost Holds = { Meets };

    fn rows(self, rows: &Rows<'a>) -> usize {
        match self {
            Shape::RefShape | Shape::InterfaceShape | Shape::Finalizer | Shape::ArrayDepth => rows
                .own
                .told
                .len(),
            _ => rows.own.types(),
        }
    }

    fn holds(self, rows: &Rows<'a>, row: usize) -> bool {
        !self.fails(rows, row)
    }
}
