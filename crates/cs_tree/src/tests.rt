// Places of trees that were made by hand.

use crate::{Action, Form, Literal, Name, Spot, Syntax, UnaryOp};
use dc_base::{Boxed, Text};
use std::test::Fail;

#[test]
fn shows_where_parts_stand(rt: HostRuntime) -> Result<(), Fail> {
    let alloc = rt.alloc();
    let spot = Spot { line: 3, column: 9 };
    let seven = Form::Literal {
        spot: Spot::NONE,
        literal: Literal::Bool { value: true },
    };
    let minus = Form::Unary {
        spot,
        op: UnaryOp::Minus,
        operand: Boxed::new(alloc, seven)?,
    };
    assert_eq!(rt; minus.spot(), spot);
    let member = Form::Member {
        spot: Spot::NONE,
        object: Boxed::new(alloc, minus)?,
        name: Name {
            spot,
            text: Text::of(alloc, "x")?,
        },
    };
    assert_eq!(rt; member.spot(), Spot::NONE);
    let step = Syntax::Act {
        spot,
        action: Action::Invoke { call: member },
    };
    assert_eq!(rt; step.spot(), spot);
    Ok(())
}
