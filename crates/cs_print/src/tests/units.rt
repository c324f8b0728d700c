// Each form of type, and whole texts.

use crate::print;
use crate::tests::made::{SPOT, global, int, mods, name, params, path, public};
use cs_tree::{Access, Decl, Enumerator, Item, Kind, Member, Path, Space, Unit};
use dc_base::{Boxed, Items, NoMemory, Seq, Text};
use std::alloc::Global;
use std::test::Fail;

fn body(alloc: Global, kind: Kind, text: &str) -> Result<Decl, NoMemory> {
    Ok(Decl::Body {
        spot: SPOT,
        note: None,
        mods: mods(None),
        kind,
        name: name(alloc, text)?,
        bases: Seq::new(alloc),
        items: Items::new(alloc),
    })
}

fn enumeration(alloc: Global) -> Result<Decl, NoMemory> {
    let mut enumerators = Seq::new(alloc);
    enumerators.push(Enumerator {
        name: name(alloc, "A")?,
        negative: false,
        value: 0,
    })?;
    enumerators.push(Enumerator {
        name: name(alloc, "in")?,
        negative: true,
        value: 5,
    })?;
    Ok(Decl::Enum {
        spot: SPOT,
        note: None,
        mods: public(),
        name: name(alloc, "E")?,
        ty: int(),
        enumerators,
    })
}

fn delegate(alloc: Global) -> Result<Decl, NoMemory> {
    Ok(Decl::Delegate {
        spot: SPOT,
        note: Some(Text::of(alloc, "<D>")?),
        mods: mods(Some(Access::Internal)),
        result: None,
        name: name(alloc, "D_1")?,
        params: params(alloc, &["a"])?,
    })
}

// a class over a class and an interface, with a member, and a type in it
fn class(alloc: Global) -> Result<Decl, NoMemory> {
    let mut bases = Seq::new(alloc);
    bases.push(global(alloc, "N", "B")?)?;
    bases.push(global(alloc, "N", "I")?)?;
    let mut items = Items::new(alloc);
    items.push(Item::Type {
        decl: Boxed::new(alloc, enumeration(alloc)?)?,
    })?;
    items.push(Item::Member {
        member: Member::Field {
            spot: SPOT,
            note: None,
            mods: public(),
            ty: int(),
            name: name(alloc, "x")?,
            value: None,
        },
    })?;
    Ok(Decl::Body {
        spot: SPOT,
        note: None,
        mods: public(),
        kind: Kind::Class,
        name: name(alloc, "C")?,
        bases,
        items,
    })
}

#[test]
fn a_whole_text_has_no_empty_line(rt: HostRuntime) -> Result<(), Fail> {
    let alloc = rt.alloc();
    let mut types = Items::new(alloc);
    types.push(class(alloc)?)?;
    types.push(delegate(alloc)?)?;
    let mut spaces = Items::new(alloc);
    spaces.push(Space::Namespace {
        spot: SPOT,
        note: Some(Text::of(alloc, "N.\u{fc}")?),
        path: Path {
            spot: SPOT,
            names: path(alloc, "N", "O_1")?,
        },
        types,
    })?;
    spaces.push(Space::Type {
        decl: body(alloc, Kind::Interface, "I")?,
    })?;
    spaces.push(Space::Type {
        decl: body(alloc, Kind::Struct, "S")?,
    })?;
    let unit = Unit {
        assembly: Some(Text::of(alloc, "caf\u{e9} 1")?),
        spaces,
    };
    assert_eq!(rt;
        print(alloc, &unit)?.as_str(),
        "// assembly caf\\u00e9 1\n// name: N.\\u00fc\nnamespace N.O_1\n{\n    public class C : global::N.B, global::N.I\n    {\n        public enum E : int\n        {\n            A = 0,\n            @in = -5,\n        }\n        public int x;\n    }\n    // name: <D>\n    internal delegate void D_1(int a);\n}\ninterface I\n{\n}\nstruct S\n{\n}\n"
    );
    Ok(())
}
