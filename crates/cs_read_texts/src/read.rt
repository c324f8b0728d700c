// A text as its tree, or its first fault.

ghost use Rattle.std.specs.Prelude.{◌≡◌, ◌≤◌, ◌<◌, ◌+◌, ◌^◌, length};
ghost use Rattle.std.specs.Str.{chars};
ghost use Rattle.cs_references.specs.Declarations.{text_at};
ghost use Rattle.cs_read_calls.specs.Asked.{Asked};
ghost use Rattle.cs_read_texts.specs.Texts.{within, beyond, IsRead};
ghost use Rattle.cs_read_texts.specs.Told.{at_end as at_end_of, at_token as at_token_of, fault_of, whole_of, told as told_of};

use crate::ReadFault;
use cs_grammar::Fault;
use cs_lex::{Cursor, End, Tokens, cut};
use cs_read_calls::{Ask, Got, Level};
use cs_read_references::reference_text;
use cs_read_units::unit;
use cs_token::Token;
use cs_tree::Unit;
use dc_base::Or;
use std::alloc::Global;

fn at_token(fault: Fault, token: &Token) -> ReadFault
    ensures { result ≡ at_token_of fault token.now }
{
    match fault {
        Fault::Unexpected => ReadFault::Parse(token.line() as usize, token.column() as usize),
        Fault::TooDeep => ReadFault::Deep(token.line() as usize, token.column() as usize),
    }
}

/// The fault behind the tokens of a text that goes on there.
fn at_end(end: End) -> ReadFault
    ensures { result ≡ at_end_of end }
{
    if end.whole {
        ReadFault::Parse(end.line, end.column)
    } else {
        ReadFault::Lex(end.line, end.column)
    }
}

fn fault_at(end: End, left: &Cursor, fault: Fault) -> ReadFault
    ensures { result ≡ fault_of end left.now fault }
{
    match left.peek() {
        Some(next) => at_token(fault, next),
        None => at_end(end),
    }
}

fn whole(end: End, left: &Cursor, unit: Unit) -> Result<Unit, Or<ReadFault>>
    ensures { result ≡ whole_of end left.now unit }
{
    match left.peek() {
        Some(next) => Err(Or::Fault(at_token(Fault::Unexpected, next))),
        None if end.whole => Ok(unit),
        None => Err(Or::Fault(ReadFault::Lex(end.line, end.column))),
    }
}

/// What was read of a whole text, where these tokens are left.
fn told(end: End, left: &Cursor, read: Result<Unit, Or<Fault>>) -> Result<Unit, Or<ReadFault>>
    ensures { result ≡ told_of end left.now read }
{
    match read {
        Ok(unit) => whole(end, left, unit),
        Err(Or::Fault(fault)) => Err(Or::Fault(fault_at(end, left, fault))),
        Err(Or::NoMemory) => Err(Or::NoMemory),
    }
}

/// The tree of a text within the depths of this level, whose types have at most so many types open in one another. The level is one
/// below a whole expression.
pub fn unit_of_text<F: Fn(Global, &mut Cursor, Ask) -> Result<Got, Or<Fault>>>(
    level: &Level<F>,
    alloc: Global,
    source: &str,
    nesting: u16,
) -> Result<Unit, Or<ReadFault>>
    requires callable { F.IsAlwaysCallable level.now.read }
    requires exact { (alloc : _) (tokens : _) (ask : _) (result : _) (after : _) → F.post level.now.read alloc tokens ask result after → Asked level.now.at ask tokens.now result after.now }
    requires whole { level.now.at.left ≡ level.now.at.levels + 1 }
    requires ranks { 0 < level.now.at.ranks }
    requires blocks { 0 < level.now.at.blocks }
    requires size { length source.now ≤ 2 ^ 31 }
    ensures { IsRead (within level.now.at nesting) (beyond level.now.at nesting) (chars source.now) result }
{
    let Tokens { mut tokens, end } = cut(source);
    let read = unit(level, alloc, &mut tokens, nesting);
    told(end, &tokens, read)
}

/// The tree of a reference text, whose types have at most so many pairs of brackets and so many types open in one another.
pub fn reference_of_text(
    alloc: Global,
    source: &str,
    limit: u16,
    nesting: u16,
) -> Result<Unit, Or<ReadFault>>
    requires { length source.now ≤ 2 ^ 31 }
    ensures { IsRead (text_at limit nesting) (text_at (limit + 1) (nesting + 1)) (chars source.now) result }
{
    let Tokens { mut tokens, end } = cut(source);
    let read = reference_text(alloc, &mut tokens, limit, nesting);
    told(end, &tokens, read)
}
