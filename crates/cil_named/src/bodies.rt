// What a body names.

ghost use Rattle.std.specs.Prelude.{◌≡◌, IfOk};
ghost use Rattle.std.specs.List.{filter_map};
ghost use Rattle.cil_named.specs.Bodies.{class_of, tokens_of};
ghost use Rattle.cil_named.specs.Instructions.{token_of as token_of_row};

use crate::instructions::token_of;
use cil_body::{Body, Clause, ClauseKind};
use cil_rows::Row;
use dc_base::{NoMemory, Token};
use std::alloc::Global;

/// The tokens that a body names whose instructions are these rows: what the instructions name in their order, the classes of
/// its catches, and the signature of its locals.
pub fn tokens_of(alloc: Global, body: &Body, rows: &[Row]) -> Result<Vec<Token>, NoMemory>
    ensures { IfOk result (λ tokens. tokens.items ≡ tokens_of body.now rows.now) }
{
    let mut tokens = instructions(alloc, rows)?;
    let classes = classes(alloc, body.clauses.items())?;
    tokens.extend_from_slice(classes.as_slice())?;
    if body.locals.0 != 0 {
        tokens.push(body.locals)?;
    }
    Ok(tokens)
}

fn instructions(alloc: Global, rows: &[Row]) -> Result<Vec<Token>, NoMemory>
    ensures { IfOk result (λ tokens. tokens.items ≡ filter_map token_of_row rows.now) }
{
    Ok(rows.iter().filter_map(|row| token_of(row)).collect(alloc)?)
}

fn classes(alloc: Global, clauses: &[Clause]) -> Result<Vec<Token>, NoMemory>
    ensures { IfOk result (λ tokens. tokens.items ≡ filter_map class_of clauses.now) }
{
    Ok(
        clauses
            .iter()
            .filter_map(|clause| class_of(clause))
            .collect(alloc)?,
    )
}

fn class_of(clause: &Clause) -> Option<Token>
    ensures { result ≡ class_of clause.now }
{
    match clause.kind {
        ClauseKind::Catch => Some(clause.class),
        ClauseKind::Finally => None,
    }
}
