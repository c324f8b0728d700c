// The regions of bodies.

ghost use Rattle.std.specs.Prelude.{◌≤◌, length};

use super::bodies::{Numbers, guarded};
use crate::{Region, RegionFault, RegionKind, RegionTree, regions};
use cil_body::{body_has_ranges, decode};
use dc_base::{Or, Token};
use std::alloc::Global;
use std::process::Abort;
use std::test::Fail;

// Twelve instructions of a byte each, with a rethrow of two bytes from 12 on, and a ret.
const CODE: [u8; 15] = [0, 0, 0, 0, 0, 0, 0, 0, 0, 0, 0, 0, 0xFE, 0x1A, 0x2A];

#[test]
fn two_catches_on_one_range_share_a_try(rt: HostRuntime) -> Result<(), Fail> {
    let tree = tree_of(
        &rt,
        rt.alloc(),
        &CODE[..12],
        &[[0, 0, 4, 6, 2, 7], [0, 0, 4, 4, 2, 9]],
    )?;
    let nodes = [
        node(RegionKind::Code, 0, 12, 0),
        node(RegionKind::Try, 0, 4, 0),
        node(RegionKind::Catch(Token(9)), 4, 6, 0),
        node(RegionKind::Catch(Token(7)), 6, 8, 0),
    ];
    assert_eq!(rt; tree.nodes.items(), nodes.as_slice());
    Ok(())
}

#[test]
fn a_finally_stands_round_a_catch(rt: HostRuntime) -> Result<(), Fail> {
    let tree = tree_of(
        &rt,
        rt.alloc(),
        &CODE[..12],
        &[[0, 2, 2, 4, 4, 7], [2, 2, 6, 8, 4, 0]],
    )?;
    let nodes = [
        node(RegionKind::Code, 0, 12, 0),
        node(RegionKind::Try, 2, 8, 0),
        node(RegionKind::Try, 2, 4, 1),
        node(RegionKind::Catch(Token(7)), 4, 8, 1),
        node(RegionKind::Finally, 8, 12, 0),
    ];
    assert_eq!(rt; tree.nodes.items(), nodes.as_slice());
    Ok(())
}

#[test]
fn regions_that_make_no_tree_have_their_fault(rt: HostRuntime) {
    let table: [(&[Numbers], RegionFault); 8] = [
        // A catch and a finally on one range.
        (
            &[[0, 0, 4, 4, 2, 7], [2, 0, 4, 6, 2, 0]],
            RegionFault::Nest(0),
        ),
        // Tries that cross: the earlier start counts, and the least of all that cross.
        (
            &[[2, 1, 4, 8, 1, 0], [2, 3, 4, 9, 1, 0]],
            RegionFault::Nest(1),
        ),
        (
            &[[2, 3, 4, 10, 1, 0], [2, 5, 4, 11, 1, 0], [2, 0, 4, 6, 2, 0]],
            RegionFault::Nest(0),
        ),
        // A handler inside its own try, and one on its own range.
        (&[[2, 2, 6, 4, 2, 0]], RegionFault::Nest(2)),
        (&[[2, 2, 6, 2, 6, 0]], RegionFault::Nest(2)),
        // A try inside another one, with its handler outside.
        (
            &[[2, 2, 2, 8, 2, 0], [2, 1, 5, 6, 2, 0]],
            RegionFault::Nest(2),
        ),
        // Two handlers on one range.
        (
            &[[0, 0, 2, 4, 2, 7], [0, 2, 2, 4, 2, 7]],
            RegionFault::Nest(0),
        ),
        // An inner try on the range of a handler.
        (
            &[[2, 4, 4, 8, 2, 0], [0, 0, 4, 4, 4, 7]],
            RegionFault::Nest(4),
        ),
    ];
    for (clauses, due) in table {
        assert!(rt; clauses.len() <= 16);
        refuses(&rt, rt.alloc(), &CODE[..12], clauses, due);
    }
}

#[test]
fn a_rethrow_stands_in_a_catch(rt: HostRuntime) -> Result<(), Fail> {
    // In a catch, and in a try inside it.
    tree_of(&rt, rt.alloc(), &CODE, &[[0, 0, 4, 8, 7, 7]])?;
    tree_of(
        &rt,
        rt.alloc(),
        &CODE,
        &[[2, 10, 4, 14, 1, 0], [0, 0, 4, 8, 7, 7]],
    )?;
    // In a catch inside a finally inside a catch.
    tree_of(
        &rt,
        rt.alloc(),
        &CODE,
        &[
            [0, 10, 1, 11, 3, 7],
            [2, 6, 2, 8, 6, 0],
            [0, 0, 2, 4, 11, 7],
        ],
    )?;
    let misplaced = RegionFault::RethrowPlace(12);
    refuses(&rt, rt.alloc(), &CODE, &[], misplaced);
    refuses(&rt, rt.alloc(), &CODE, &[[2, 0, 4, 8, 7, 0]], misplaced);
    refuses(
        &rt,
        rt.alloc(),
        &CODE,
        &[[2, 8, 2, 10, 4, 0], [0, 0, 4, 6, 9, 7]],
        misplaced,
    );
    Ok(())
}

#[test]
fn forty_regions_may_stand_in_one_another(rt: HostRuntime) -> Result<(), Fail> {
    let code = [0u8; 128];
    let nested = nested_in(rt.alloc(), 40)?;
    assert!(rt; nested.len() <= 64);
    let tree = tree_of(&rt, rt.alloc(), &code, nested.as_slice())?;
    assert_eq!(rt; tree.nodes.items().len(), 81);
    let deeper = nested_in(rt.alloc(), 41)?;
    assert!(rt; deeper.len() <= 64);
    refuses(
        &rt,
        rt.alloc(),
        &code,
        deeper.as_slice(),
        RegionFault::TooDeep(41),
    );
    Ok(())
}

// The clauses of so many finallys, each with its handler directly behind its try, and both inside the next one's try.
fn nested_in(alloc: Global, depth: u32) -> Result<Vec<Numbers>, Fail>
    requires { depth ≤ 64 }
{
    let mut clauses = Vec::new(alloc);
    for k in 0..depth {
        let len = 1 + 2 * k;
        clauses.push([2, depth - k, len, depth - k + len, 1, 0])?;
    }
    Ok(clauses)
}

fn node(kind: RegionKind, from: u32, to: u32, parent: u32) -> Region {
    Region {
        kind,
        from,
        to,
        parent,
    }
}

fn refuses(rt: &impl Abort, alloc: Global, code: &[u8], clauses: &[Numbers], due: RegionFault)
    requires code { length code.now ≤ 128 }
    requires clauses { length clauses.now ≤ 64 }
{
    let fault = match tree_of(rt, alloc, code, clauses) {
        Err(Or::Fault(fault)) => Some(fault),
        _ => None,
    };
    assert!(rt; fault == Some(due), "{due:?}, and not {fault:?}");
}

// The regions of a body with this code and these clauses, which has a reading.
fn tree_of(
    rt: &impl Abort,
    alloc: Global,
    code: &[u8],
    clauses: &[Numbers],
) -> Result<RegionTree, Or<RegionFault>>
    requires code { length code.now ≤ 128 }
    requires clauses { length clauses.now ≤ 64 }
{
    let bytes = guarded(alloc, code, clauses)?;
    assert!(rt; bytes.len() <= 4096);
    let body = decode(alloc, bytes.as_slice(), 0x4000).expect(rt, "a body");
    body_has_ranges();
    regions(alloc, &body)
}
