// A body.

ghost use Rattle.std.specs.Prelude.{◌≡◌, ◌≤◌, ◌^◌, length, map, All, IfOk, IfErr, IfSome, IfNone};
ghost use Rattle.dc_causes.specs.Answer.{IsRefused};
ghost use Rattle.cil_body.specs.Section.{IsTaken, IsTakenKind};
ghost use Rattle.cil_body.specs.Body.{clause_of, kind_of, IsBody, IsBodyFault, IsClauseFault};

use crate::code::{aimed, code_of, cut, starts};
use crate::header::header_of;
use crate::section::{RawClause, raw_clauses};
use cil_instruction::{BodyCause, BodyFault, Instr};
use dc_base::{Or, Seq, Token};
use std::alloc::Global;

/// What a clause does with an exception.
#[derive(Clone, Copy, Debug, PartialEq, Eq)]
pub enum ClauseKind {
    Catch,
    Finally,
}

/// A clause on exceptions (ECMA-335 II.25.4.6), with places in the code and lengths in bytes. The class is that of a
/// catch.
#[derive(Clone, Copy, Debug, PartialEq, Eq)]
pub struct Clause {
    pub kind: ClauseKind,
    pub try_at: u32,
    pub try_len: u32,
    pub handler_at: u32,
    pub handler_len: u32,
    pub class: Token,
}

/// The body of a method (ECMA-335 II.25.4): how many slots its stack may have, whether its locals begin as zeros, the
/// token of their signature, how many bytes its code has, its instructions with their places in the code, and its
/// clauses.
#[derive(Debug, Drop)]
pub struct Body {
    pub max_stack: u16,
    pub init_locals: bool,
    pub locals: Token,
    pub size: u32,
    pub code: Seq<(u32, Instr)>,
    pub clauses: Seq<Clause>,
}

/// The body that the bytes begin with, whose code has `code_limit` bytes at most.
pub fn decode(alloc: Global, bytes: &[u8], code_limit: u32) -> Result<Body, Or<BodyFault>>
    requires { length bytes.now ≤ 2 ^ 31 }
    ensures read { IfOk result (IsBody bytes.now code_limit) }
    ensures fault { IfErr result (IsRefused (IsBodyFault bytes.now code_limit)) }
{
    let header = header_of(bytes)?;
    let code = code_of(bytes, header, code_limit)?;
    let placed = cut(alloc, code, header.start)?;
    let starts = starts(alloc, placed.as_slice())?;
    let instrs = aimed(
        alloc,
        code,
        placed.as_slice(),
        starts.as_slice(),
        header.start,
    )?;
    let raw = raw_clauses(alloc, bytes, header, starts.as_slice())?;
    let clauses = clauses(alloc, raw.as_slice())?;
    Ok(Body {
        max_stack: header.max_stack,
        init_locals: header.init_locals,
        locals: header.locals,
        size: header.size,
        code: Seq::of(instrs),
        clauses: Seq::of(clauses),
    })
}

// The clauses, if all are of a kind that is taken.
fn clauses(alloc: Global, raw: &[RawClause]) -> Result<Vec<Clause>, Or<BodyFault>>
    ensures taken { IfOk result (λ _. All IsTaken raw.now) }
    ensures clauses { IfOk result (λ clauses. clauses.items ≡ map clause_of raw.now) }
    ensures fault { IfErr result (IsClauseFault raw.now) }
{
    let mut clauses = Vec::new(alloc);
    for clause in raw {
        let Some(kind) = kind(clause.kind) else {
            return Err(Or::Fault(BodyFault {
                cause: BodyCause::OutOfProfileClause(clause.kind),
                at: clause.at,
            }));
        };
        clauses.push(Clause {
            kind,
            try_at: clause.try_at,
            try_len: clause.try_len,
            handler_at: clause.handler_at,
            handler_len: clause.handler_len,
            class: Token(clause.class),
        })?;
    }
    Ok(clauses)
}

// The kind of a clause, if it is taken.
fn kind(kind: u32) -> Option<ClauseKind>
    ensures kind { IfSome result (λ found. found ≡ kind_of kind) }
    ensures taken { IfSome result (λ _. IsTakenKind kind) }
    ensures none { IfNone result (IsTakenKind kind → ⊥) }
{
    match kind {
        0 => Some(ClauseKind::Catch),
        2 => Some(ClauseKind::Finally),
        _ => None,
    }
}
