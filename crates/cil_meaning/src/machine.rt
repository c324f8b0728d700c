// The machine of a lone body, and one step of it.

ghost use Rattle.std.specs.Prelude.{◌≡◌, IfOk};
ghost use Rattle.cil_meaning.specs.Step.{step, standing_at};

use crate::row::act;
use cil_instruction::Simple;
use dc_base::{NoMemory, Stack};

/// Where the machine is: the place of the next instruction, the stack, and the arguments.
#[derive(Debug, Drop)]
pub struct LoneState {
    pub at: u32,
    pub stack: Stack<i32>,
    pub args: [i32; 4],
}

/// What a step leads to: the next state, the number that the body returns, or nothing, where there is no step.
#[derive(Debug, Drop)]
pub enum LoneStepped {
    Next(LoneState),
    Done(i32),
    Stuck,
}

/// One step, of the instruction that stands at the state's place.
pub fn lone_step(code: &[(u32, Simple)], state: LoneState) -> Result<LoneStepped, NoMemory>
    ensures { IfOk result (λ stepped. stepped ≡ step code.now state) }
{
    match standing_at(code, state.at) {
        Some(simple) => act(simple, state),
        None => Ok(LoneStepped::Stuck),
    }
}

fn standing_at(code: &[(u32, Simple)], place: u32) -> Option<Simple>
    ensures { result ≡ standing_at code.now place }
{
    code.iter()
        .find(|(at, _)| *at == place)
        .map(|(_, simple)| *simple)
}
