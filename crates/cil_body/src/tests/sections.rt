// The sections behind the code, and their clauses.

ghost use Rattle.std.specs.Prelude.{◌≤◌, length};

use super::bodies::{fat_body, guarded};
use crate::{BodyCause, BodyFault, Clause, ClauseKind, decode};
use dc_base::{Or, Token};
use std::alloc::{AllocError, Global};
use std::process::Abort;
use std::test::Fail;

// Eight bytes of code, so that the sections begin at 20: instructions start at 0, 1 and from 3 on.
const CODE: [u8; 8] = [0x00, 0x1F, 0x05, 0x26, 0x00, 0x00, 0x2A, 0x00];

// A small clause: a catch of the class 01000002, with the try from 0 to 3 and the handler from 4 to 6.
const CATCH: [u8; 12] = [0, 0, 0, 0, 3, 4, 0, 2, 2, 0, 0, 1];

#[test]
fn small_and_fat_sections_chain(rt: HostRuntime) -> Result<(), Fail> {
    let mut bytes = fat_body(rt.alloc(), &CODE, 0x1B)?;
    bytes.extend_from_slice(&[0x81, 0x10, 0x00, 0x00])?;
    bytes.extend_from_slice(&CATCH)?;
    bytes.extend_from_slice(&[0x41, 0x1C, 0x00, 0x00])?;
    for number in [2u32, 0, 6, 6, 2, 0] {
        bytes.extend_from_slice(&number.to_le_bytes())?;
    }
    assert!(rt; bytes.len() <= 1024);
    let body = decode(rt.alloc(), bytes.as_slice(), 0x4000)?;
    let catch = Clause {
        kind: ClauseKind::Catch,
        try_at: 0,
        try_len: 3,
        handler_at: 4,
        handler_len: 2,
        class: Token(0x0100_0002),
    };
    let finally = Clause {
        kind: ClauseKind::Finally,
        try_at: 0,
        try_len: 6,
        handler_at: 6,
        handler_len: 2,
        class: Token(0),
    };
    assert_eq!(rt; body.clauses.items(), [catch, finally].as_slice());
    assert!(rt; body.init_locals);
    Ok(())
}

#[test]
fn a_section_that_does_not_stand_as_it_has_to_is_bad(rt: HostRuntime) -> Result<(), Fail> {
    let sections: [&[u8]; 8] = [
        &[],
        &[0x01, 0x10],
        // Of size 0, and of other sizes that no clauses have.
        &[0x01, 0x00, 0x00, 0x00],
        &[0x01, 0x0F, 0x00, 0x00, 0, 0, 0, 0, 3, 4, 0, 2, 2, 0, 0, 1],
        &[0x41, 0x10, 0x00, 0x00, 0, 0, 0, 0, 3, 4, 0, 2, 2, 0, 0, 1],
        // It passes the bytes.
        &[0x01, 0x10, 0x00, 0x00, 0, 0, 0, 0, 3, 4, 0, 2, 2, 0, 0],
        // Other kinds.
        &[0x02, 0x04, 0x00, 0x00],
        &[0x05, 0x04, 0x00, 0x00],
    ];
    for section in sections {
        assert!(rt; section.len() <= 16);
        assert_eq!(rt;
            fault_behind(&rt, rt.alloc(), section)?,
            fault(BodyCause::BadSection, 20)
        );
    }
    // The one behind a section of no clauses.
    let empty = [0x81, 0x04, 0x00, 0x00, 0x02, 0x04, 0x00, 0x00];
    assert_eq!(rt;
        fault_behind(&rt, rt.alloc(), &empty)?,
        fault(BodyCause::BadSection, 24)
    );
    Ok(())
}

#[test]
fn clauses_have_bounds_at_instructions_and_a_kind(rt: HostRuntime) -> Result<(), Fail> {
    let bad = BodyCause::BadSection;
    let table = [
        ([0, 0, 3, 4, 2, 0], None),
        ([2, 0, 4, 4, 4, 0], None),
        // Bounds inside an instruction, behind the code, and past all numbers.
        ([0, 2, 1, 4, 2, 0], fault(bad, 24)),
        ([0, 0, 2, 4, 2, 0], fault(bad, 24)),
        ([0, 0, 3, 4, 5, 0], fault(bad, 24)),
        ([0, 0, 3, 9, 1, 0], fault(bad, 24)),
        ([0, 0, 3, 4, 0xFFFF_FFFF, 0], fault(bad, 24)),
        // An empty try, and an empty handler.
        ([0, 3, 0, 4, 2, 0], fault(bad, 24)),
        ([0, 0, 3, 4, 0, 0], fault(bad, 24)),
        // Filter and fault, and no kind of the standard.
        (
            [1, 0, 3, 4, 2, 0],
            fault(BodyCause::OutOfProfileClause(1), 24),
        ),
        (
            [4, 0, 3, 4, 2, 0],
            fault(BodyCause::OutOfProfileClause(4), 24),
        ),
        ([3, 0, 3, 4, 2, 0], fault(bad, 24)),
        ([0x1_0000, 0, 3, 4, 2, 0], fault(bad, 24)),
        // A filter with a bound inside an instruction.
        ([1, 2, 1, 4, 2, 0], fault(bad, 24)),
    ];
    for (numbers, due) in table {
        let bytes = guarded(rt.alloc(), &CODE, &[numbers])?;
        assert!(rt; bytes.len() <= 1024);
        assert_eq!(rt; fault_of(rt.alloc(), bytes.as_slice()), due, "{numbers:?}");
    }
    // A bad clause behind a filter comes first.
    let bytes = guarded(rt.alloc(), &CODE, &[[1, 0, 3, 4, 2, 0], [0, 2, 1, 4, 2, 0]])?;
    assert!(rt; bytes.len() <= 1024);
    assert_eq!(rt; fault_of(rt.alloc(), bytes.as_slice()), fault(bad, 48));
    Ok(())
}

fn fault(cause: BodyCause, at: u32) -> Option<BodyFault> {
    Some(BodyFault { cause, at })
}

// The fault of a body with these bytes behind its code.
fn fault_behind(
    rt: &impl Abort,
    alloc: Global,
    section: &[u8],
) -> Result<Option<BodyFault>, AllocError>
    requires { length section.now ≤ 16 }
{
    let mut bytes = fat_body(alloc, &CODE, 0x0B)?;
    bytes.extend_from_slice(section)?;
    assert!(rt; bytes.len() <= 1024);
    Ok(fault_of(alloc, bytes.as_slice()))
}

fn fault_of(alloc: Global, bytes: &[u8]) -> Option<BodyFault>
    requires { length bytes.now ≤ 1024 }
{
    match decode(alloc, bytes, 0x4000) {
        Err(Or::Fault(fault)) => Some(fault),
        _ => None,
    }
}
