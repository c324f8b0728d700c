// How many slots instructions take and give.

ghost use Rattle.std.specs.Prelude.{◌≡◌, ◌≤◌, ◌<◌, ◌^◌, ◌+◌, length, if◌then◌else◌};
ghost use Rattle.std.specs.Bool.{OnTrue, OnFalse};
ghost use Rattle.std.specs.Option.{option_copied};
ghost use Rattle.cli_assembly.specs.Meaning.{AreInOrder};
ghost use Rattle.verify_rules.specs.Puts.{taken, given, taken_by_signature, given_by_signature, params_of, receivers_of, parts_made, parts_of};
ghost use Rattle.verify_rules.specs.Rules.{IsShallow, IsEmptied};

use crate::place::{count_of, owner_kind, result_of};
use cil_rows::Row;
use class_rows::{Kind, MemberRow, Param};
use verify_rules::{Setting, member_at, named_row};
use verify_slots::Slot;

/// How many slots an instruction takes.
pub fn taken(setting: &Setting<'_>, row: &Row) -> usize
    requires { AreInOrder setting.now.tokens.now }
    ensures { result ≡ taken setting.now row.now }
{
    match row.takes() {
        Some(count) => count,
        None => taken_by_signature(setting, row),
    }
}

fn taken_by_signature(setting: &Setting<'_>, row: &Row) -> usize
    requires { AreInOrder setting.now.tokens.now }
    ensures { result ≡ taken_by_signature setting.now row.now }
{
    match row {
        Row::Return => count_of(result_of(member_at(setting.table, setting.method))),
        Row::Call { callee, .. } => taken_by_call(named_row(setting, *callee)),
        Row::New(token) => parts_made(setting, named_row(setting, *token)),
        _ => 0,
    }
}

// The arguments of a call and its receiver.
fn taken_by_call(callee: Option<&MemberRow>) -> usize
    ensures { result ≡ length (params_of (option_copied callee.entry)) + receivers_of (option_copied callee.entry) }
{
    match callee {
        Some(row) => with_receiver(row.params.items(), row.is_static),
        None => 0,
    }
}

fn with_receiver(params: &[Param], is_static: bool) -> usize
    ensures { result ≡ length params.now + (if is_static then 0 else 1) }
{
    if is_static {
        params.len()
    } else {
        params.len() + 1
    }
}

// What an object or a delegate is made of.
fn parts_made(setting: &Setting<'_>, maker: Option<&MemberRow>) -> usize
    ensures { result ≡ parts_made setting.now (option_copied maker.entry) }
{
    match maker {
        Some(row) => parts_of(owner_kind(setting, row), row),
        None => 0,
    }
}

fn parts_of(kind: Option<Kind>, row: &MemberRow) -> usize
    ensures { result ≡ parts_of kind row.now }
{
    match kind {
        Some(Kind::Delegate) => 2,
        _ => row.params.len(),
    }
}

/// How many slots an instruction gives.
pub fn given(setting: &Setting<'_>, row: &Row) -> usize
    requires { AreInOrder setting.now.tokens.now }
    ensures { result ≡ given setting.now row.now }
{
    match row.gives() {
        Some(count) => count,
        None => given_by_signature(setting, row),
    }
}

fn given_by_signature(setting: &Setting<'_>, row: &Row) -> usize
    requires { AreInOrder setting.now.tokens.now }
    ensures { result ≡ given_by_signature setting.now row.now }
{
    match row {
        Row::Call { callee, .. } => count_of(result_of(named_row(setting, *callee))),
        _ => 0,
    }
}

/// Whether as many slots are there as the instruction takes.
pub fn keeps_depth(setting: &Setting<'_>, row: &Row, frame: &[Slot]) -> bool
    requires { AreInOrder setting.now.tokens.now }
    ensures yes { OnTrue result (taken setting.now row.now ≤ length frame.now) }
    ensures no { OnFalse result (taken setting.now row.now ≤ length frame.now → ⊥) }
{
    taken(setting, row) <= frame.len()
}

/// Whether neither the frame before the instruction nor the one behind it is deeper than the method's limit.
pub fn is_shallow(setting: &Setting<'_>, row: &Row, frame: &[Slot]) -> bool
    requires { AreInOrder setting.now.tokens.now }
    ensures yes { OnTrue result (IsShallow setting.now row.now frame.now) }
    ensures no { OnFalse result (IsShallow setting.now row.now frame.now → ⊥) }
{
    let limit = usize::from(setting.max_stack);
    let rest = frame.len().saturating_sub(taken(setting, row));
    frame.len() <= limit && given(setting, row) <= limit && rest <= limit - given(setting, row)
}

/// Whether a method leaves with nothing but its result on the stack.
pub fn is_emptied(setting: &Setting<'_>, row: &Row, frame: &[Slot]) -> bool
    requires { AreInOrder setting.now.tokens.now }
    ensures yes { OnTrue result (IsEmptied setting.now row.now frame.now) }
    ensures no { OnFalse result (IsEmptied setting.now row.now frame.now → ⊥) }
{
    match row {
        Row::Return => frame.len() <= taken(setting, row),
        _ => true,
    }
}
