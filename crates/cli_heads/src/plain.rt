// Where an instruction of a head may stand.

ghost use Rattle.std.specs.Prelude.{◌≡◌, ◌<◌, length, slice_get};
ghost use Rattle.std.specs.Option.{option_copied};
ghost use Rattle.cil_aims.specs.Aims.{AreMarks};
ghost use Rattle.cli_heads.specs.Head.{is_within, holds, are_held, is_apart, is_plain};

use crate::maker::Maker;
use cil_body::Clause;
use cil_instruction::Instr;

/// Whether no jump leads to an instruction, and no try and no handler holds it.
pub(crate) fn is_plain(maker: &Maker<'_>, aimed: &[bool], k: usize) -> bool
    requires within { k < length maker.now.rows.now }
    requires marks { AreMarks maker.now.rows.now aimed.now }
    ensures { result ≡ is_plain maker.now k }
{
    !aimed[k] && is_apart(maker.body.clauses.items(), maker.body.code.items().get(k))
}

fn is_apart(clauses: &[Clause], placed: Option<&(u32, Instr)>) -> bool
    ensures { result ≡ is_apart clauses.now (option_copied placed.entry) }
{
    match placed {
        Some(placed) => !are_held(clauses, placed.0),
        None => true,
    }
}

fn are_held(clauses: &[Clause], place: u32) -> bool
    ensures { result ≡ are_held clauses.now place }
{
    clauses.iter().any(|clause| holds(place, clause))
}

// Whether the clause's try or its handler holds the place.
#[tactic(auto, unfolding(crate::specs::Head::holds))]
fn holds(place: u32, clause: &Clause) -> bool
    ensures { result ≡ holds place clause.now }
{
    is_within(place, clause.try_at, clause.try_len)
        || is_within(place, clause.handler_at, clause.handler_len)
}

fn is_within(place: u32, at: u32, len: u32) -> bool
    ensures { result ≡ is_within place at len }
{
    at <= place && place - at < len
}
