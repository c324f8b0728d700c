// What an instruction does, by its row.

ghost use Rattle.std.specs.Prelude.{◌≡◌, ◌+◌, ◌^◌, ◌∷◌, IfOk, nat_lt, if◌then◌else◌};
ghost use Rattle.cil_lone.specs.Row.{size_of};
ghost use Rattle.cil_meaning.specs.Step.{act_of, onward_of, loaded_of, result_of, binary_of, return_of};

use crate::{LoneState, LoneStepped};
use cil_instruction::{Op, Simple};
use cil_lone::{Row, Source, Two, size_of};
use dc_base::NoMemory;

pub(crate) fn act(simple: Simple, state: LoneState) -> Result<LoneStepped, NoMemory>
    ensures { IfOk result (λ stepped. stepped ≡ act_of simple state) }
{
    match Row::of(simple.op) {
        Row::Load(source) => match loaded(source, simple.arg, &state.args) {
            Some(value) => onward(simple, state, value),
            None => Ok(LoneStepped::Stuck),
        },
        Row::Binary(two) => binary(two, simple, state),
        Row::Return => Ok(returned(state)),
        Row::Beyond => Ok(LoneStepped::Stuck),
    }
}

fn loaded(source: Source, arg: i64, args: &[i32; 4]) -> Option<i32>
    ensures { result ≡ loaded_of source arg args.now }
{
    match source {
        Source::Argument(k) => args.get(usize::from(k)).copied(),
        Source::Number(n) => Some(n),
        Source::Operand => i32::try_from(arg).ok(),
    }
}

fn onward(simple: Simple, state: LoneState, value: i32) -> Result<LoneStepped, NoMemory>
    ensures { IfOk result (λ stepped. stepped ≡ onward_of simple state (value ∷ state.stack)) }
{
    let LoneState {
        at,
        mut stack,
        args,
    } = state;
    match place_after(at, simple.op) {
        Some(at) => {
            stack.push(value)?;
            Ok(LoneStepped::Next(LoneState { at, stack, args }))
        }
        None => Ok(LoneStepped::Stuck),
    }
}

fn binary(two: Two, simple: Simple, state: LoneState) -> Result<LoneStepped, NoMemory>
    ensures { IfOk result (λ stepped. stepped ≡ binary_of (result_of two) simple state state.stack) }
{
    let LoneState {
        at,
        mut stack,
        args,
    } = state;
    let Some(y) = stack.pop() else {
        return Ok(LoneStepped::Stuck);
    };
    let Some(x) = stack.pop() else {
        return Ok(LoneStepped::Stuck);
    };
    onward(simple, LoneState { at, stack, args }, computed(two, x, y))
}

fn computed(two: Two, x: i32, y: i32) -> i32
    ensures { result ≡ result_of two x y }
{
    match two {
        Two::Add => x.wrapping_add(y),
        Two::Sub => x.wrapping_sub(y),
        Two::Mul => x.wrapping_mul(y),
    }
}

fn returned(state: LoneState) -> LoneStepped
    ensures { result ≡ return_of state.stack }
{
    let LoneState { mut stack, .. } = state;
    match stack.pop() {
        Some(value) if stack.is_empty() => LoneStepped::Done(value),
        _ => LoneStepped::Stuck,
    }
}

fn place_after(at: u32, op: Op) -> Option<u32>
    ensures { result ≡ (if nat_lt (at + size_of op) (2 ^ 32) then Some (at + size_of op) else None) }
{
    let after = (at as usize).checked_add(size_of(op))?;
    u32::try_from(after).ok()
}
