// A body with a text, a call, a catch and locals.

use crate::tokens_of;
use cil_body::{Body, Clause, ClauseKind};
use cil_rows::Row;
use dc_base::{Seq, Token};
use std::test::Fail;

#[test]
fn what_a_body_names(rt: HostRuntime) -> Result<(), Fail> {
    let alloc = rt.alloc();
    let catch = Clause {
        kind: ClauseKind::Catch,
        try_at: 0,
        try_len: 4,
        handler_at: 4,
        handler_len: 2,
        class: Token(0x0100_0003),
    };
    let finally = Clause {
        kind: ClauseKind::Finally,
        class: Token(0),
        ..catch
    };
    let body = Body {
        max_stack: 8,
        init_locals: true,
        locals: Token(0x1100_0002),
        size: 6,
        code: Seq::of(Vec::new(alloc)),
        clauses: Seq::of(vec![in alloc; finally, catch]?),
    };
    let rows = vec![in alloc;
        Row::Text(Token(0x7000_0001)),
        Row::Nop,
        Row::Call {
            callee: Token(0x0A00_0004),
            by_slot: true
        },
    ]?;
    let tokens = tokens_of(alloc, &body, rows.as_slice())?;
    assert_eq!(rt;
        tokens.as_slice(),
        [
            Token(0x7000_0001),
            Token(0x0A00_0004),
            Token(0x0100_0003),
            Token(0x1100_0002),
        ]
        .as_slice()
    );
    Ok(())
}
