// The rules in their order, and the frame behind an instruction that keeps them.

ghost use Rattle.std.specs.Prelude.{◌≡◌, IfOk, IfErr, Ok, Err};
ghost use Rattle.dc_causes.specs.Step.{Test};
ghost use Rattle.dc_causes.specs.Causes.{InOrder};
ghost use Rattle.dc_causes.specs.Answer.{OnFault};
ghost use Rattle.cli_assembly.specs.Meaning.{AreInOrder};
ghost use Rattle.verify_rules.specs.Rules.{Keeps, Accepts, rules};

use crate::rule::keeps;
use cil_rows::Row;
use dc_base::{NoMemory, Or, Seq};
use std::alloc::Global;
use verify_gaps::is_of_this;
use verify_results::leaves;
use verify_rules::{Rule, Setting, Spot};
use verify_slots::Slot;

const RULES: [Rule; 16] = [
    Rule::Underflow,
    Rule::MaxStack,
    Rule::FallOff,
    Rule::Jump,
    Rule::Empty,
    Rule::InitLocals,
    Rule::Kind,
    Rule::Truth,
    Rule::Assign,
    Rule::ThisStore,
    Rule::InitOnly,
    Rule::Receiver,
    Rule::Gap,
    Rule::Border,
    Rule::Merge,
    Rule::Access,
];

/// The frame behind the instruction, where it keeps all rules at this one. Else the fault is the first rule that it breaks.
pub fn accept(
    alloc: Global,
    setting: &Setting<'_>,
    spot: Spot,
    row: &Row,
    frame: &[Slot],
) -> Result<Seq<Slot>, Or<Rule>>
    requires { AreInOrder setting.now.tokens.now }
    ensures accepted { IfOk result (λ slots. Accepts setting.now spot row.now frame.now (Ok slots)) }
    ensures broken { IfErr result (OnFault (Accepts setting.now spot row.now frame.now)) }
{
    match kept(setting, spot, row, frame, &RULES) {
        Ok(()) => behind(alloc, setting, spot, row, frame),
        Err(rule) => Err(Or::Fault(rule)),
    }
}

// The frame behind an instruction that keeps all rules.
fn behind(
    alloc: Global,
    setting: &Setting<'_>,
    spot: Spot,
    row: &Row,
    frame: &[Slot],
) -> Result<Seq<Slot>, Or<Rule>>
    requires ordered { AreInOrder setting.now.tokens.now }
    requires kept { InOrder (λ rule. Test (Keeps setting.now spot row.now frame.now rule) rule) rules (Ok tt) }
    ensures accepted { IfOk result (λ slots. Accepts setting.now spot row.now frame.now (Ok slots)) }
    ensures broken { IfErr result (OnFault (Accepts setting.now spot row.now frame.now)) }
{
    let of_this = is_of_this(setting, spot);
    match leaves(alloc, setting, spot, of_this, row, frame) {
        Ok(slots) => Ok(slots),
        Err(NoMemory) => Err(Or::NoMemory),
    }
}

// Whether these rules are kept; the fault is the first that isn't.
fn kept(
    setting: &Setting<'_>,
    spot: Spot,
    row: &Row,
    frame: &[Slot],
    asked: &[Rule],
) -> Result<(), Rule>
    requires { AreInOrder setting.now.tokens.now }
    ensures kept { IfOk result (λ kept. InOrder (λ rule. Test (Keeps setting.now spot row.now frame.now rule) rule) asked.now (Ok kept)) }
    ensures broken { IfErr result (λ broken. InOrder (λ rule. Test (Keeps setting.now spot row.now frame.now rule) rule) asked.now (Err broken)) }
{
    match asked {
        [rule, behind @ ..] => {
            if keeps(setting, spot, row, frame, *rule) {
                kept(setting, spot, row, frame, behind)
            } else {
                Err(*rule)
            }
        }
        _ => Ok(()),
    }
}
