// A small table of members.

ghost use Rattle.std.specs.Prelude.{◌≤◌, ◌<◌, vec_len, IfOk};

use crate::MemberIndex;
use class_rows::{Access, MemberKind, MemberRow, Virt};
use dc_base::{Core, NoMemory, Seq, Text, Ty, TypeId};
use std::alloc::Global;
use std::test::Fail;

fn member_row(
    alloc: Global,
    owner: u32,
    name: &str,
    kind: MemberKind,
) -> Result<MemberRow, NoMemory> {
    Ok(MemberRow {
        owner: TypeId(owner),
        name: Text::of(alloc, name)?,
        kind,
        access: Access::Public,
        is_static: false,
        virt: Virt::Plain,
        params: Seq::new(alloc),
        result: Ty {
            core: Core::Void,
            arrays: 0,
            lent: false,
        },
    })
}

fn members_of(alloc: Global) -> Result<Vec<MemberRow>, NoMemory> {
    let mut members = Vec::new(alloc);
    members.push(member_row(alloc, 1, "Run", MemberKind::Method)?)?;
    members.push(member_row(alloc, 0, "get_Size", MemberKind::Getter)?)?;
    members.push(member_row(alloc, 0, "Run", MemberKind::Method)?)?;
    members.push(member_row(alloc, 0, "Size", MemberKind::Method)?)?;
    members.push(member_row(alloc, 0, "get_Run", MemberKind::Method)?)?;
    members.push(member_row(alloc, 0, "Run", MemberKind::Method)?)?;
    members.push(member_row(alloc, 0, "set", MemberKind::Setter)?)?;
    Ok(members)
}

// Those of a name, or of a whole type.
fn found(alloc: Global, owner: u32, name: Option<&str>) -> Result<Vec<u32>, NoMemory> {
    let rows = members_of(alloc)?;
    let members = rows.as_slice();
    if members.len() > 9 {
        return Err(NoMemory);
    }
    let index = MemberIndex::of(alloc, members)?;
    let numbers = match name {
        Some(name) => index.of_name(members, TypeId(owner), name.as_bytes()),
        None => index.of_owner(members, TypeId(owner)),
    };
    Ok(Vec::from_slice(alloc, numbers)?)
}

#[test]
fn finds_the_members_of_a_name_by_number(rt: HostRuntime) -> Result<(), Fail> {
    let alloc = rt.alloc();
    let table: [(u32, Option<&str>, &str); 9] = [
        (0, Some("Run"), "Ok([2, 5])"),
        (0, Some("Size"), "Ok([1, 3])"),
        (0, Some("get_Size"), "Ok([])"),
        (0, Some("get_Run"), "Ok([4])"),
        (0, Some(""), "Ok([6])"),
        (1, Some("Run"), "Ok([0])"),
        (2, Some("Run"), "Ok([])"),
        (0, None, "Ok([6, 2, 5, 1, 3, 4])"),
        (1, None, "Ok([0])"),
    ];
    for (owner, name, want) in table {
        let answer = found(alloc, owner, name);
        assert_eq!(rt; format!(in alloc; "{answer:?}")?.as_str(), want);
    }
    Ok(())
}
