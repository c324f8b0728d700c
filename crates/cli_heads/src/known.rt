// What is known of the values on the stack.

ghost use Rattle.std.specs.Prelude.{◌≡◌, slice_get};
ghost use Rattle.cli_assembly.specs.Meaning.{AreInOrder};
ghost use Rattle.cli_heads.specs.Known.{constant_in, constant_at, is_null, is_odd, are_constants, reads_one, deepest, under, known_of};

use crate::constant::{Constant, constant_of, is_by_zero, is_out_of_range};
use crate::maker::Maker;
use crate::row::{is_operator, reads_argument, unboxes};
use cil_rows::Row;

/// What is known of a value: the constant that it is, how deep its tree is where constants are leaves, and whether it reads
/// an argument.
#[derive(Clone, Copy, Debug)]
pub struct Known {
    pub constant: Option<Constant>,
    pub depth: u32,
    pub reads: bool,
}

// How deep expressions may be.
const DEPTH: u32 = 40;

/// What is known of the value that the row makes of these. None where a head may not hold it.
pub(crate) fn known_of(maker: &Maker<'_>, row: &Row, of: &[Known]) -> Option<Known>
    requires { AreInOrder maker.now.tokens.now }
    ensures { result ≡ known_of maker.now row.now of.now }
{
    if is_odd(maker, row, of) {
        return None;
    }
    let constant = constant_of(row, constant_at(of, 0));
    let under = under(constant, of);
    if under >= DEPTH {
        return None;
    }
    Some(Known {
        constant,
        depth: under + 1,
        reads: reads_argument(row) || reads_one(of),
    })
}

fn is_odd(maker: &Maker<'_>, row: &Row, of: &[Known]) -> bool
    requires { AreInOrder maker.now.tokens.now }
    ensures { result ≡ is_odd maker.now row.now of.now }
{
    (is_operator(maker, row) && are_constants(of))
        || is_by_zero(row, constant_at(of, 1))
        || is_out_of_range(row, constant_at(of, 0))
        || (unboxes(maker, row) && is_null(constant_at(of, 0)))
}

fn constant_at(of: &[Known], k: usize) -> Option<Constant>
    ensures { result ≡ constant_at of.now k }
{
    match of.get(k) {
        Some(known) => known.constant,
        None => None,
    }
}

fn is_null(constant: Option<Constant>) -> bool
    ensures { result ≡ is_null constant }
{
    matches!(constant, Some(Constant::Null))
}

fn are_constants(of: &[Known]) -> bool
    ensures { result ≡ are_constants of.now }
{
    of.iter().all(|known| known.constant.is_some())
}

fn reads_one(of: &[Known]) -> bool
    ensures { result ≡ reads_one of.now }
{
    of.iter().any(|known| known.reads)
}

// How deep the values are that stand under one. A constant is a leaf.
fn under(constant: Option<Constant>, of: &[Known]) -> u32
    ensures { result ≡ under constant of.now }
{
    match constant {
        Some(_) => 0,
        None => deepest(of),
    }
}

fn deepest(of: &[Known]) -> u32
    ensures { result ≡ deepest of.now }
{
    of.iter().fold(0, |depth, known| depth.max(known.depth))
}
