// Which methods take over slots, in types made by hand.

use crate::{owners_are_there, settled};
use class_alike::named_of;
use class_index::MemberIndex;
use class_parts::orders_of;
use class_rows::{Access, Kind, MemberKind, MemberRow, TypeRow, Virt};
use dc_base::{Core, MemberId, NoMemory, Seq, Text, Ty, TypeId};
use std::alloc::Global;
use std::test::Fail;

fn type_row(alloc: Global, base: Option<u32>, own: bool) -> Result<TypeRow, NoMemory> {
    Ok(TypeRow {
        name: Text::of(alloc, "T")?,
        space: Text::of(alloc, "")?,
        outer: None,
        kind: Kind::Class,
        access: Access::Public,
        base: base.map(TypeId),
        bases: Seq::of(Vec::new(alloc)),
        is_abstract: false,
        is_sealed: false,
        own,
    })
}

fn method(alloc: Global, owner: u32, name: &str, virt: Virt) -> Result<MemberRow, NoMemory> {
    Ok(MemberRow {
        owner: TypeId(owner),
        name: Text::of(alloc, name)?,
        kind: MemberKind::Method,
        access: Access::Public,
        is_static: false,
        virt,
        params: Seq::of(Vec::new(alloc)),
        result: Ty {
            core: Core::Void,
            arrays: 0,
            lent: false,
        },
    })
}

fn letter(virt: Virt) -> &'static str {
    match virt {
        Virt::Plain => "-",
        Virt::Virtual => "v",
        Virt::Abstract => "a",
        Virt::Override => "o",
        Virt::SealedOverride => "s",
    }
}

// A letter for each own method. Type 0 is one of the references, with the virtual M and the plain N; the others are own, have
// these bases, and these methods by their types, names and flags.
fn told(
    alloc: Global,
    bases: &[u32],
    methods: &[(u32, &str, u32)],
    explicit: &[(MemberId, MemberId)],
) -> Result<String, NoMemory> {
    let mut types = Vec::new(alloc);
    types.push(type_row(alloc, None, false)?)?;
    for base in bases {
        types.push(type_row(alloc, Some(*base), true)?)?;
    }
    let mut members = Vec::new(alloc);
    members.push(method(alloc, 0, "M", Virt::Virtual)?)?;
    members.push(method(alloc, 0, "N", Virt::Plain)?)?;
    let mut flags = Vec::new(alloc);
    for (owner, name, flag) in methods {
        members.push(method(alloc, *owner, name, Virt::Plain)?)?;
        flags.push(*flag)?;
    }
    letters(alloc, types.as_slice(), members, explicit, flags.as_slice())
}

fn letters(
    alloc: Global,
    types: &[TypeRow],
    members: Vec<MemberRow>,
    explicit: &[(MemberId, MemberId)],
    flags: &[u32],
) -> Result<String, NoMemory> {
    let mut letters = String::new(alloc);
    if types.len() > 99 || members.len() > 99 || members.len() < flags.len() {
        return Ok(letters);
    }
    if !owners_are_there(types, members.as_slice()) {
        return Ok(letters);
    }
    let Ok(orders) = orders_of(alloc, types) else {
        return Ok(letters);
    };
    let index = MemberIndex::of(alloc, members.as_slice())?;
    let named = named_of(alloc, types, members.as_slice(), explicit, index)?;
    let own_from = members.len() - flags.len();
    let rows = settled(
        alloc,
        types,
        members,
        explicit,
        orders.bases.items(),
        &named,
        flags,
    )?;
    for m in own_from..rows.len() {
        letters.push_str(letter(rows[m].virt))?;
    }
    Ok(letters)
}

#[test]
fn flags_and_rows_above_tell_slots(rt: HostRuntime) -> Result<(), Fail> {
    let alloc = rt.alloc();
    // over the references, down a chain, and beside it
    let chain: [(u32, &str, u32); 11] = [
        (1, "M", 0x40),
        (1, "N", 0x40),
        (1, "P", 0x60),
        (1, "Q", 0x440),
        (1, "R", 0x00),
        (2, "M", 0x140),
        (2, "P", 0x40),
        (2, "Q", 0x60),
        (3, "M", 0x40),
        (4, "P", 0x40),
        (4, "M", 0x60),
    ];
    assert_eq!(rt;
        told(alloc, &[0, 1, 2, 0], &chain, &[])?.as_str(),
        "ov-a-vvsovs"
    );
    // a base may stand behind
    let turned: [(u32, &str, u32); 4] = [
        (1, "M", 0x40),
        (1, "P", 0x40),
        (2, "M", 0x60),
        (2, "P", 0x60),
    ];
    assert_eq!(rt; told(alloc, &[2, 0], &turned, &[])?.as_str(), "ovs-");
    // an explicit implementation of the references is known by no name
    let pairs = [(MemberId(0), MemberId(1))];
    assert_eq!(rt; told(alloc, &[0], &[(1, "M", 0x40)], &pairs)?.as_str(), "v");
    Ok(())
}
