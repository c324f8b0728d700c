// Code, cut into its instructions, and where they lead.

ghost use Rattle.std.specs.Prelude.{◌≡◌, ◌+◌, ◌*◌, ◌<◌, ◌≤◌, ◌^◌, pos, [], length, drop, map, slice_index_or, Ok, All, Contains, IfOk, IfErr, MatchOption};
ghost use Rattle.std.specs.Int.{cast_signed, w32};
ghost use Rattle.std.specs.Int.RustNames.{FitsSigned};
ghost use Rattle.byteorder.specs.Endian.{little_number};
ghost use Rattle.cil_instruction.specs.Instruction.{instruction_at};
ghost use Rattle.cil_body.specs.Header.{IsHeader};
ghost use Rattle.cil_body.specs.Code.{IsWhole, code_of, Reads, IsAimed, IsCutFault, IsAimFault, starts_of, instr_of, jumps_by, HasCases, AreInOrder, HasAim, IsStart, IsTarget, IsInstr, AreAims, AreTargets};
ghost use Rattle.cil_body.specs.Body.{IsBodyFault};

use crate::header::Header;
use byteorder::{ByteOrder, LittleEndian};
use cil_instruction::{BodyCause, BodyFault, Found, Instr, Operand, first};
use dc_base::{NoMemory, Or, Seq};
use std::alloc::Global;

/// The bytes of the code that a header speaks of, if they are all there and no more than the limit.
pub fn code_of(bytes: &[u8], header: Header, limit: u32) -> Result<&[u8], BodyFault>
    requires short { length bytes.now ≤ 2 ^ 31 }
    requires header { IsHeader bytes.now header }
    ensures whole { IfOk result (λ _. IsWhole bytes.now limit header) }
    ensures code { IfOk result (λ code. code.now ≡ code_of bytes.now header) }
    ensures fault { IfErr result (IsBodyFault bytes.now limit) }
{
    if header.size > limit {
        return Err(BodyFault {
            cause: BodyCause::TooLong,
            at: 0,
        });
    }
    let size = header.size as usize;
    if bytes.len() < header.start + size {
        return Err(BodyFault {
            cause: BodyCause::Truncated,
            at: bytes.len() as u32,
        });
    }
    Ok(&bytes[header.start..header.start + size])
}

/// The instructions of some code, each with its place in it. The code stands `start` bytes behind the header's first.
pub fn cut(alloc: Global, code: &[u8], start: usize) -> Result<Vec<(u32, Found)>, Or<BodyFault>>
    requires short { length code.now ≤ 2 ^ 31 }
    requires near { start ≤ 12 }
    ensures read { IfOk result (λ placed. Reads 0 code.now placed.items (length code.now) []) }
    ensures fault { IfErr result (IsCutFault code.now start) }
{
    let mut placed = Vec::new(alloc);
    let mut at = 0;
    while at < code.len() {
        match first(&code[at..]) {
            Ok(found) => {
                placed.push((at as u32, found))?;
                at += found.size;
            }
            Err(cause) => {
                return Err(Or::Fault(BodyFault {
                    cause,
                    at: (start + at) as u32,
                }));
            }
        }
    }
    Ok(placed)
}

/// The places where the instructions start.
pub fn starts(alloc: Global, placed: &[(u32, Found)]) -> Result<Vec<u32>, NoMemory>
    ensures { IfOk result (λ starts. starts.items ≡ starts_of placed.now) }
{
    Ok(placed.iter().map(|placed| placed.0).collect(alloc)?)
}

/// The instructions with the places that they lead to, at each of which one starts.
pub fn aimed(
    alloc: Global,
    code: &[u8],
    placed: &[(u32, Found)],
    starts: &[u32],
    start: usize,
) -> Result<Vec<(u32, Instr)>, Or<BodyFault>>
    requires short { length code.now ≤ 2 ^ 31 }
    requires near { start ≤ 12 }
    requires read { Reads 0 code.now placed.now (length code.now) [] }
    requires starts { starts.now ≡ starts_of placed.now }
    ensures aimed { IfOk result (λ _. All (IsAimed code.now starts.now) placed.now) }
    ensures instrs { IfOk result (λ instrs. instrs.items ≡ map (instr_of code.now) placed.now) }
    ensures fault { IfErr result (IsAimFault code.now placed.now start) }
{
    let mut instrs = Vec::new(alloc);
    for (at, found) in placed {
        let Some(instr) = instr(alloc, code, starts, *at, *found)? else {
            return Err(Or::Fault(BodyFault {
                cause: BodyCause::BadTarget,
                at: start as u32 + *at,
            }));
        };
        instrs.push((*at, instr))?;
    }
    Ok(instrs)
}

// The instruction at a place with the places that it leads to, if one starts at each.
fn instr(
    alloc: Global,
    code: &[u8],
    starts: &[u32],
    at: u32,
    found: Found,
) -> Result<Option<Instr>, NoMemory>
    requires short { length code.now ≤ 2 ^ 31 }
    requires within { at ≤ length code.now }
    requires read { instruction_at (drop at code.now) ≡ Ok found }
    requires order { AreInOrder starts.now }
    ensures { IfOk result (λ instr. MatchOption instr (IsAimed code.now starts.now (at, found) → ⊥) (IsInstr code.now starts.now (at, found))) }
{
    let Some(targets) = targets(alloc, &code[at as usize..], starts, at, found)? else {
        return Ok(None);
    };
    Ok(Some(Instr {
        op: found.simple.op,
        arg: found.simple.arg,
        targets: Seq::of(targets),
    }))
}

// The places that an instruction's jumps lead to, if an instruction starts at each. The bytes are those of the code from
// the instruction on.
fn targets(
    alloc: Global,
    bytes: &[u8],
    starts: &[u32],
    at: u32,
    found: Found,
) -> Result<Option<Vec<u32>>, NoMemory>
    requires short { length bytes.now ≤ 2 ^ 31 }
    requires read { instruction_at bytes.now ≡ Ok found }
    requires order { AreInOrder starts.now }
    ensures { let jumps = jumps_by found.operand found.simple.arg bytes.now in IfOk result (λ targets. MatchOption targets (AreAims starts.now (at, found) jumps → ⊥) (λ places. AreTargets starts.now (at, found) jumps places.items)) }
{
    let mut targets = Vec::new(alloc);
    for k in 0..jumps(found, bytes) {
        let Some(target) = target(starts, at, found, jump(found, bytes, k)) else {
            return Ok(None);
        };
        targets.push(target)?;
    }
    Ok(Some(targets))
}

// How many jumps an instruction has.
fn jumps(found: Found, bytes: &[u8]) -> usize
    requires { HasCases found.operand bytes.now }
    ensures { result ≡ length (jumps_by found.operand found.simple.arg bytes.now) }
{
    match found.operand {
        Operand::Target8 | Operand::Target32 => 1,
        Operand::Switch => cases(bytes),
        _ => 0,
    }
}

// How many cases a switch has.
fn cases(bytes: &[u8]) -> usize
    requires { 5 ≤ length bytes.now }
    ensures { result ≡ little_number 4 (drop 1 bytes.now) }
{
    LittleEndian::read_u32(&bytes[1..]) as usize
}

// How far an instruction's jump goes that has this number.
fn jump(found: Found, bytes: &[u8], k: usize) -> i64
    requires short { length bytes.now ≤ 2 ^ 31 }
    requires there { HasCases found.operand bytes.now }
    requires within { k < length (jumps_by found.operand found.simple.arg bytes.now) }
    ensures { result ≡ slice_index_or (jumps_by found.operand found.simple.arg bytes.now) k (pos 0) }
{
    match found.operand {
        Operand::Switch => case(bytes, k),
        _ => found.simple.arg,
    }
}

// How far a switch goes in the case that has this number.
fn case(bytes: &[u8], k: usize) -> i64
    requires short { length bytes.now ≤ 2 ^ 31 }
    requires there { 9 + 4 * k ≤ length bytes.now }
    ensures { result ≡ cast_signed w32 (little_number 4 (drop (5 + 4 * k) bytes.now)) }
{
    i64::from(LittleEndian::read_i32(&bytes[5 + 4 * k..]))
}

// Where an instruction's jump leads to, if one starts there.
fn target(starts: &[u32], at: u32, found: Found, jump: i64) -> Option<u32>
    requires short { found.size ≤ 2 ^ 31 }
    requires near { FitsSigned w32 jump }
    requires order { AreInOrder starts.now }
    ensures { MatchOption result (HasAim starts.now (at, found) jump → ⊥) (IsTarget starts.now (at, found) jump) }
{
    start_at(starts, i64::from(at) + found.size as i64 + jump)
}

// This place, if an instruction starts there.
fn start_at(starts: &[u32], place: i64) -> Option<u32>
    requires { AreInOrder starts.now }
    ensures { MatchOption result (IsStart starts.now place → ⊥) (λ start. (pos start ≡ place) × Contains starts.now start) }
{
    let start = u32::try_from(place).ok()?;
    if starts.binary_search(&start).is_ok() {
        Some(start)
    } else {
        None
    }
}
