// A lone body.

ghost use Rattle.std.specs.Prelude.{◌≡◌, ◌<◌, ◌≤◌, ◌^◌, length, IfOk, IfErr, OnOk};
ghost use Rattle.dc_causes.specs.Answer.{IsRefused};
ghost use Rattle.cil_lone.specs.Cut.{IsConsecutive, lone_at};
ghost use Rattle.cil_lone.specs.Lone.{IsWhole, IsCut, IsBalanced, IsLone, IsLoneFault, IsBreak, stop_of};
ghost use Rattle.dc_base.specs.declared.failure.Or.TheVariants.{Fault};

use crate::row::{Row, size_of};
use cil_instruction::{Simple, entry, number};
use dc_base::Or;
use std::alloc::Global;
use thiserror::Error;

/// Why a file is no lone body, and where, counted from the file's first byte. `NotYet` has the byte too.
#[derive(Clone, Copy, Debug, PartialEq, Eq, Error)]
pub enum LoneFault {
    #[error("no tiny header, at {0}")]
    BadHeader(u32),
    #[error("the bytes end too early, at {0}")]
    Truncated(u32),
    #[error("no lone body has an instruction with the byte {0:#x}, at {1}")]
    NotYet(u8, u32),
    #[error("an operator finds fewer than two slots, at {0}")]
    Underflow(u32),
    #[error("the code does not end with one ret on one slot, at {0}")]
    BadReturn(u32),
    #[error("bytes stand behind the code, at {0}")]
    Trailing(u32),
}

/// A fault of a lone body, where memory might have been wanted.
impl From<LoneFault> for Or<LoneFault> {
    ghost from_gives = { λ fault or. or ≡ Fault fault };

    fn from(fault: LoneFault) -> Self {
        Or::Fault(fault)
    }
}

// Why no instruction of a lone body stands at a place: its byte begins none, or the bytes end within it.
enum Stop {
    NotYet(u8),
    Truncated,
}

// The fault of a lone body whose cut stops at this place.
fn stopped(stop: Stop, at: u32) -> LoneFault
    ensures { result ≡ stop_of stop at }
{
    match stop {
        Stop::NotYet(byte) => LoneFault::NotYet(byte, at),
        Stop::Truncated => LoneFault::Truncated(at),
    }
}

// The instruction of a lone body that the bytes begin with.
fn first_lone(bytes: &[u8]) -> Result<Simple, Stop>
    ensures { result ≡ lone_at bytes.now }
{
    let [code, behind @ ..] = bytes else {
        return Err(Stop::Truncated);
    };
    let Some((_, op, operand)) = entry(u16::from(*code)) else {
        return Err(Stop::NotYet(*code));
    };
    if let Row::Beyond = Row::of(op) {
        return Err(Stop::NotYet(*code));
    }
    if behind.len() < operand.len() {
        return Err(Stop::Truncated);
    }
    Ok(Simple {
        op,
        arg: number(operand, behind),
    })
}

/// The instructions of a file that is one body with a tiny header, each with its place from the file's first byte.
pub fn lone(alloc: Global, bytes: &[u8]) -> Result<Vec<(u32, Simple)>, Or<LoneFault>>
    requires { length bytes.now ≤ 2 ^ 31 }
    ensures read { IfOk result (λ code. IsLone bytes.now code.items) }
    ensures fault { IfErr result (IsRefused (IsLoneFault bytes.now)) }
{
    let size = header(bytes)?;
    let code = cut(alloc, bytes, size)?;
    let end = size + 1;
    balance(code.as_slice(), end as u32)?;
    trailing(bytes, end)?;
    Ok(code)
}

// How many bytes of code the header speaks of, all of which are there.
fn header(bytes: &[u8]) -> Result<usize, LoneFault>
    requires { length bytes.now ≤ 2 ^ 31 }
    ensures whole { IfOk result (IsWhole bytes.now) }
    ensures fault { IfErr result (IsLoneFault bytes.now) }
{
    let [first, ..] = bytes else {
        return Err(LoneFault::BadHeader(0));
    };
    let size = usize::from(*first / 4);
    if *first % 4 != 2 || size == 0 {
        return Err(LoneFault::BadHeader(0));
    }
    if bytes.len() <= size {
        return Err(LoneFault::Truncated(bytes.len() as u32));
    }
    Ok(size)
}

// The code, cut into its instructions.
fn cut(alloc: Global, bytes: &[u8], size: usize) -> Result<Vec<(u32, Simple)>, Or<LoneFault>>
    requires short { length bytes.now ≤ 2 ^ 31 }
    requires whole { IsWhole bytes.now size }
    ensures read { IfOk result (λ code. IsCut bytes.now size code.items) }
    ensures fault { IfErr result (IsRefused (IsLoneFault bytes.now)) }
{
    let body = &bytes[..size + 1];
    let mut code = Vec::new(alloc);
    let mut at = 1;
    while at < body.len() {
        match first_lone(&body[at..]) {
            Ok(simple) => {
                code.push((at as u32, simple))?;
                at += size_of(simple.op);
            }
            Err(stop) => return Err(Or::Fault(stopped(stop, at as u32))),
        }
    }
    Ok(code)
}

// Walks over the code, and stops at the first place where it does wrong by the stack or the end.
fn balance(code: &[(u32, Simple)], end: u32) -> Result<(), LoneFault>
    requires { IsConsecutive 1 code.now end }
    ensures balanced { OnOk result (IsBalanced code.now end) }
    ensures fault { IfErr result (IsBreak code.now end) }
{
    let mut depth: usize = 0;
    for (i, (place, instruction)) in code.iter().enumerate() {
        match Row::of(instruction.op) {
            Row::Load(_) => depth += 1,
            Row::Binary(_) => {
                if depth < 2 {
                    return Err(LoneFault::Underflow(*place));
                }
                depth -= 1;
            }
            Row::Return => {
                if depth == 1 && i + 1 == code.len() {
                    return Ok(());
                }
                return Err(LoneFault::BadReturn(*place));
            }
            Row::Beyond => {}
        }
    }
    Err(LoneFault::BadReturn(end))
}

// Nothing may stand behind the code.
fn trailing(bytes: &[u8], end: usize) -> Result<(), LoneFault>
    requires { length bytes.now ≤ 2 ^ 31 }
    ensures ended { OnOk result (length bytes.now ≤ end) }
    ensures fault { IfErr result (λ fault. (fault ≡ LoneFault.Trailing end) × (end < length bytes.now)) }
{
    if end < bytes.len() {
        return Err(LoneFault::Trailing(end as u32));
    }
    Ok(())
}
