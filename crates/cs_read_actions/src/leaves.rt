// What a level gives that contracts know by the productions, and names as expressions.

ghost use Rattle.std.specs.Prelude.{◌≡◌, IfOk};
ghost use Rattle.cs_productions.specs.Primaries.{global_leaf};
ghost use Rattle.cs_read_calls.specs.Asked.{inner_of};

use cs_productions::Measured;
use cs_read_calls::{Level, leaf};
use cs_read_types::{spot, text};
use cs_token::Token;
use cs_tree::Form;
use dc_base::NoMemory;
use std::alloc::Global;

/// How many pairs of brackets a type may have.
pub fn pairs<F>(level: &Level<F>) -> u16
    ensures { result ≡ (inner_of level.now.at).ranks }
{
    level.at.ranks
}

/// How many blocks may still be opened.
pub fn blocks<F>(level: &Level<F>) -> u16
    ensures { result ≡ (inner_of level.now.at).blocks }
{
    level.at.blocks
}

/// A name as an expression.
pub fn named(alloc: Global, token: &Token) -> Result<Measured, NoMemory>
    ensures { IfOk result (λ name. name ≡ global_leaf token.now) }
{
    let spot = spot(token);
    let text = text(alloc, token)?;
    Ok(leaf(Form::Name { spot, text }, spot))
}
