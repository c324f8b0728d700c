//! What method bodies as C# trees mean when they run (ECMA-334, clauses 9, 12 and 13).
//!
//! `specs/Ran.antt` has meanings and what they are put together from, `specs/Meaning.antt` the meaning of each form,
//! `specs/Typed.antt` and `specs/Assigned.antt` the bodies that may run. For now a meaning is given to declarations,
//! `return`, int literals, variables and unchecked `+`, `-` and `*`, which is what lone bodies are made of.
#![tactic(auto)]

mod laws;
mod run;
mod state;
#[cfg(test)]
mod tests;

pub use laws::{expressions_give, one_result, statements_run};
pub use run::lone_exec;
pub use state::{End, State, Value};
