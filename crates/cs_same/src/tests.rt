// Expressions are compared.

use crate::same_expr;
use cs_body::{Expr, Literal};
use std::test::Fail;

fn int(value: i32) -> Expr {
    Expr::Literal {
        value: Literal::Int(value),
    }
}

#[test]
fn literals_are_the_same_by_their_values(rt: HostRuntime) -> Result<(), Fail> {
    assert!(rt; same_expr(&int(2), &int(2)));
    assert!(rt; !same_expr(&int(2), &int(3)));
    assert!(rt; !same_expr(&int(2), &Expr::Var { var: 2 }));
    Ok(())
}
