// The first failure.

ghost use Rattle.std.specs.Prelude.{◌≡◌, IfOk, IfErr};
ghost use Rattle.dc_causes.specs.Answer.{OnFault};
ghost use Rattle.cil_rows.specs.Code.{rows_of};
ghost use Rattle.cli_assembly.specs.Meaning.{AreInOrder};
ghost use Rattle.cli_bodies.specs.Profile.{BodyInProfile};
ghost use Rattle.cli_bodies.specs.Earlier.{earlier};

use crate::catches::{covered, other_class};
use crate::method::{Failure, Method};
use crate::unboxes::unread;
use cil_aims::aimed;
use cli_conditions::{Condition, one_number};
use dc_base::Or;
use std::alloc::Global;

/// That a body meets the conditions that are asked of its places; the failure is the first, by offset and then by condition.
///
/// It takes the time of one look at each instruction and at each two clauses.
pub fn check_body(alloc: Global, method: &Method<'_>) -> Result<(), Or<Failure>>
    requires order { AreInOrder method.now.tokens.now }
    requires rows { method.now.rows.now ≡ rows_of method.now.body.now.code }
    ensures met { IfOk result (λ met. BodyInProfile method.now (Ok met)) }
    ensures fault { IfErr result (OnFault (BodyInProfile method.now)) }
{
    one_number();
    let aimed = aimed(alloc, method.rows)?;
    let class = earlier(None, Condition::CatchClass, other_class(method));
    let order = earlier(class, Condition::CatchOrder, covered(method));
    let head = earlier(order, Condition::Head, method.head);
    let unbox = earlier(head, Condition::Unbox, unread(method, aimed.as_slice()));
    match unbox {
        Some(failure) => Err(Or::Fault(failure)),
        None => Ok(()),
    }
}

// The earlier of the first failure so far and one of a later condition.
fn earlier(first: Option<Failure>, condition: Condition, offset: Option<u32>) -> Option<Failure>
    ensures { result ≡ earlier first condition offset }
{
    let Some(offset) = offset else {
        return first;
    };
    match first {
        Some(other) if other.offset <= offset => Some(other),
        _ => Some(Failure { condition, offset }),
    }
}
