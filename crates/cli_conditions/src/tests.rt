// Conditions as refusals print them.

use crate::{Condition, Unmet, one_number};
use dc_base::Token;
use std::test::Fail;

#[test]
fn conditions_print_by_their_names(rt: HostRuntime) -> Result<(), Fail> {
    let alloc = rt.alloc();
    let rows = [
        (Condition::Generic, 1, "Generic"),
        (Condition::ModuleMember, 10, "ModuleMember"),
        (Condition::Methods, 26, "Methods"),
        (Condition::Unbox, 32, "Unbox"),
    ];
    for (condition, number, name) in rows {
        assert_eq!(rt; condition.number(), number);
        assert_eq!(rt; condition.name(), name);
        assert_eq!(rt; format!(in alloc; "{condition}")?.as_str(), name);
    }
    let unmet = Unmet {
        condition: Condition::Modules,
        token: Token(0x2000_0001),
    };
    assert_eq!(rt; format!(in alloc; "{unmet}")?.as_str(), "Modules 20000001");
    one_number();
    Ok(())
}
